//! The lines of a game, by the player that they bind and the time at which they are judged.

ghost use Rattle.std.specs.Prelude.{◌≡◌, ◌++◌, map, option_map, IfOk, OnOk};
ghost use Rattle.spec_model.specs.Views.{formula, content_data, line_data, spec_data};
ghost use Rattle.hidden_game.specs.GameOf.{binds as binds_lem, said as said_lem, line_for, lines_for};
ghost use Rattle.hidden_game.specs.Sources.{IsSource};

use crate::player::{Player, Time};
use crate::source::Source;
use spec_model::expr::Expr;
use spec_model::spec::{Body, Line, Role};
use std::alloc::{AllocError, Global};

fn binds(player: Player, role: Role) -> bool
    ensures { result ≡ binds_lem player role }
{
    match player {
        Player::Environment => role == Role::Assumption,
        Player::System => role != Role::Assumption,
    }
}

// The expression of a body that is judged at this time.
fn said(time: Time, body: &Body) -> Option<&Expr>
    ensures { option_map (λ e. formula e.now) result ≡ said_lem time (content_data body.now) }
{
    match (time, body) {
        (Time::First, Body::Initial(e)) => Some(e),
        (Time::Always, Body::Safety(e)) => Some(e),
        _ => None,
    }
}

impl<'a> Source<'a> {
    fn add_line(
        &self,
        alloc: Global,
        player: Player,
        time: Time,
        lines: &mut Vec<(u32, Expr)>,
        line: &Line,
    ) -> Result<(), AllocError>
        requires source { IsSource self.now }
        ensures added { OnOk result (map (λ l. (l.0, formula l.1)) lines.new.items
            ≡ map (λ l. (l.0, formula l.1)) lines.old.items ++ line_for (spec_data self.now.spec.now) player time (line_data line.now)) }
    {
        if binds(player, line.role) {
            if let Some(e) = said(time, &line.body) {
                lines.push((line.number, self.entered(alloc, e)?))?;
            }
        }
        Ok(())
    }

    /// The lines that bind a player and are judged at a time, with their numbers and entries in place of past operators.
    pub fn lines(
        &self,
        alloc: Global,
        player: Player,
        time: Time,
    ) -> Result<Vec<(u32, Expr)>, AllocError>
        requires source { IsSource self.now }
        ensures { IfOk result (λ all. map (λ l. (l.0, formula l.1)) all.items ≡ lines_for (spec_data self.now.spec.now) player time (spec_data self.now.spec.now).lines) }
    {
        let mut all = Vec::new(alloc);
        for line in &self.spec.lines {
            self.add_line(alloc, player, time, &mut all, line)?;
        }
        Ok(all)
    }
}
