//! The goals of a game, with their labels.

ghost use Rattle.std.specs.Prelude.{◌≡◌, ◌++◌, ◌<◌, ◌-◌, ◌^◌, ◌==◌, if◌then◌else◌, [], ◌∷◌, length, map, option_map, slice_get, IfOk, OnOk, IfSome};
ghost use Rattle.spec_model.specs.Views.{formula, content_data, line_data, spec_data};
ghost use Rattle.spec_model.specs.GameViews.{goal_data};
ghost use Rattle.spec_model.specs.Sizes.{past_operators};
ghost use Rattle.spec_model.specs.WellTyped.{WellTyped};
ghost use Rattle.hidden_game.specs.GameOf.{entered, recurs as recurs_lem, next_table as next_table_lem, entries_of, labelled, table_for, goal_for, goals_for};
ghost use Rattle.hidden_game.specs.Sources.{IsSource, formula_of_recurring, goals_of_parts};

use crate::player::Player;
use crate::source::Source;
use spec_model::expr::Expr;
use spec_model::game::{Goal, Label};
use spec_model::spec::{Body, Line, Role};
use std::alloc::{AllocError, Global};

fn recurs(player: Player, role: Role) -> bool
    ensures { result ≡ recurs_lem player role }
{
    match player {
        Player::Environment => role == Role::Assumption,
        Player::System => role == Role::Guarantee,
    }
}

/// Adds a goal for each truth table of a hidden table: the only one has the part 0, and several are counted from 1.
fn add_entries(goals: &mut Vec<Goal>, line: u32, table: u32, parts: u32) -> Result<(), AllocError>
    requires few { parts < 2 ^ 32 - 1 }
    ensures added { OnOk result (map goal_data goals.new.items ≡ map goal_data goals.old.items ++ goals_of_parts line table (if parts == 1 then 0 else 1) parts) }
{
    let first = if parts == 1 { 0 } else { 1 };
    for part in 0..parts {
        goals.push(Goal {
            label: Label {
                line,
                part: first + part,
            },
            holds: Expr::Table(table, part),
        })?;
    }
    Ok(())
}

// The expression of a body that recurs.
fn recurring(body: &Body) -> Option<&Expr>
    ensures { option_map (λ e. formula e.now) result ≡ formula_of_recurring (content_data body.now) }
{
    match body {
        Body::Recurring(e) => Some(e),
        _ => None,
    }
}

impl<'a> Source<'a> {
    /// How many goals the pattern with this number has.
    fn goals_of_pattern(&self, p: usize) -> Option<u32>
        requires typed { WellTyped (spec_data self.now.spec.now) }
        ensures count { result ≡ option_map (λ p. length p.goals) (slice_get (spec_data self.now.spec.now).patterns p) }
        ensures few { IfSome result (λ count. count < 2 ^ 32 - 1) }
    {
        if p >= self.spec.patterns.len() {
            return None;
        }
        let pattern = &self.spec.patterns[p];
        let count = pattern.goals.len();
        Some(count as u32)
    }

    /// How many truth tables the hidden table of a line has, if it has one.
    fn parts(&self, body: &Body) -> Option<u32>
        requires typed { WellTyped (spec_data self.now.spec.now) }
        ensures count { result ≡ option_map (λ h. length h.tables) (table_for (spec_data self.now.spec.now) (content_data body.now)) }
        ensures few { IfSome result (λ count. count < 2 ^ 32 - 1) }
    {
        match body {
            Body::Pattern(p, _) => self.goals_of_pattern(*p as usize),
            Body::Trigger(t) => {
                if (*t as usize) >= self.spec.triggers.len() {
                    return None;
                }
                Some(1)
            }
            Body::Initial(_) | Body::Safety(_) | Body::Recurring(_) => None,
        }
    }

    /// The number of the first table of a line: those of past operators stand before it.
    fn first_table(&self) -> u32
        requires source { IsSource self.now }
        requires typed { WellTyped (spec_data self.now.spec.now) }
        ensures { result ≡ length (past_operators (spec_data self.now.spec.now)) }
    {
        let count = self.operators.operators().len();
        count as u32
    }

    /// The number of the next hidden table behind that of a line, if it has one.
    fn next_table(&self, table: u32, body: &Body) -> u32
        requires typed { WellTyped (spec_data self.now.spec.now) }
        requires room { table < 2 ^ 32 - 1 }
        ensures { result ≡ next_table_lem table (table_for (spec_data self.now.spec.now) (content_data body.now)) }
    {
        match self.parts(body) {
            Some(_) => table + 1,
            None => table,
        }
    }

    /// Adds the goal of a recurring line.
    fn add_recurring(
        &self,
        alloc: Global,
        line: u32,
        e: &Expr,
        goals: &mut Vec<Goal>,
    ) -> Result<(), AllocError>
        requires source { IsSource self.now }
        ensures added { OnOk result (map goal_data goals.new.items ≡ map goal_data goals.old.items ++ labelled line (entered (spec_data self.now.spec.now) (formula e.now) ∷ [])) }
    {
        let holds = self.entered(alloc, e)?;
        goals.push(Goal {
            label: Label { line, part: 0 },
            holds,
        })?;
        Ok(())
    }

    /// Adds the goals of a line's hidden table, if it has one, which has this number.
    fn add_parts(
        &self,
        line: u32,
        table: u32,
        body: &Body,
        goals: &mut Vec<Goal>,
    ) -> Result<(), AllocError>
        requires typed { WellTyped (spec_data self.now.spec.now) }
        ensures added { OnOk result (map goal_data goals.new.items
            ≡ map goal_data goals.old.items ++ labelled line (entries_of table (table_for (spec_data self.now.spec.now) (content_data body.now)))) }
    {
        match self.parts(body) {
            Some(count) => add_entries(goals, line, table, count),
            None => Ok(()),
        }
    }

    /// Adds the goals of a line, where the next hidden table has this number.
    fn add_goals(
        &self,
        alloc: Global,
        player: Player,
        table: u32,
        goals: &mut Vec<Goal>,
        line: &Line,
    ) -> Result<(), AllocError>
        requires source { IsSource self.now }
        requires typed { WellTyped (spec_data self.now.spec.now) }
        ensures added { OnOk result (map goal_data goals.new.items ≡ map goal_data goals.old.items ++ goal_for (spec_data self.now.spec.now) player table (line_data line.now)) }
    {
        if !recurs(player, line.role) {
            return Ok(());
        }
        match recurring(&line.body) {
            Some(e) => self.add_recurring(alloc, line.number, e, goals),
            None => self.add_parts(line.number, table, &line.body, goals),
        }
    }

    /// The recurring goals of a player, in text order. The tables of lines are numbered behind those of past operators.
    pub fn goals(&self, alloc: Global, player: Player) -> Result<Vec<Goal>, AllocError>
        requires source { IsSource self.now }
        requires typed { WellTyped (spec_data self.now.spec.now) }
        ensures { IfOk result (λ all. map goal_data all.items
            ≡ goals_for (spec_data self.now.spec.now) player (length (past_operators (spec_data self.now.spec.now))) (spec_data self.now.spec.now).lines) }
    {
        let mut all = Vec::new(alloc);
        let mut table = self.first_table();
        for line in &self.spec.lines {
            self.add_goals(alloc, player, table, &mut all, line)?;
            let next = self.next_table(table, &line.body);
            table = next;
        }
        Ok(all)
    }
}
