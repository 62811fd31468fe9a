//! The slots that a formula names, each with its time.

ghost use Rattle.std.specs.Prelude.{◌≡◌, ◌<◌, ◌++◌, ◌∷◌, [], if◌then◌else◌, length, map, IfOk, OnOk};
ghost use Rattle.spec_model.specs.Views.{formula};
ghost use Rattle.spec_model.specs.GameViews.{game_data};
ghost use Rattle.spec_model.specs.Steps.{below};
ghost use Rattle.spec_model.specs.WellMade.{WellMade};
ghost use Rattle.bit_compile.specs.Domains.{state_domains};
ghost use Rattle.line_functions.specs.Names.{is_named as is_named_lem, marks_of as marks_of_lem, slot_at, named_at, named_in as named_in_lem};
ghost use Rattle.line_functions.specs.Asking.{ArePlaces, AreMarks};

use crate::names::{Asked, marks_of, names};
use crate::places::places;
use game_values::seen::At;
use spec_model::expr::Expr;
use spec_model::game::Game;
use std::alloc::{AllocError, Global};

/// A slot of a state, at the present or the next time.
#[derive(Clone, Copy)]
pub struct TimedSlot {
    pub at: At,
    pub slot: usize,
}

/// What tells the slots that formulas name.
#[derive(Drop)]
pub struct Marks {
    /// The slot of each variable.
    pub places: Vec<usize>,
    /// For each slot, which hidden tables' entries name it.
    pub tables: Vec<Vec<bool>>,
}

/// For each slot, which hidden tables' entries name it.
fn tables(
    alloc: Global,
    game: &Game,
    places: &[usize],
    count: usize,
) -> Result<Vec<Vec<bool>>, AllocError>
    requires { ArePlaces (game_data game.now) places.now }
    ensures { IfOk result (λ all. map (λ t. t.items) all.items ≡ map (marks_of_lem (game_data game.now)) (below count)) }
{
    let mut all = Vec::new(alloc);
    for k in 0..count {
        let marks = marks_of(alloc, game, places, k)?;
        all.push(marks)?;
    }
    Ok(all)
}

impl Marks {
    /// Those of a game, whose states have so many slots.
    pub fn make(alloc: Global, game: &Game, count: usize) -> Result<Marks, AllocError>
        requires made { WellMade (game_data game.now) }
        requires count { count ≡ length (state_domains (game_data game.now)) }
        ensures { IfOk result (λ marks. AreMarks (game_data game.now) marks) }
    {
        let places = places(alloc, game)?;
        let tables = tables(alloc, game, &places, count)?;
        Ok(Marks { places, tables })
    }

    /// Whether a formula of the game names a slot at this time.
    fn is_named(&self, game: &Game, e: &Expr, time: At, k: usize) -> bool
        requires marks { AreMarks (game_data game.now) self.now }
        requires known { k < length (state_domains (game_data game.now)) }
        ensures { result ≡ is_named_lem (game_data game.now) (formula e.now) time k }
    {
        let asked = Asked {
            game,
            places: &self.places,
            marks: &self.tables[k],
            slot: k,
            time,
        };
        names(&asked, At::Now, e)
    }

    /// Adds a slot, if a formula of the game names it at this time.
    fn add_slot(
        &self,
        named: &mut Vec<TimedSlot>,
        game: &Game,
        e: &Expr,
        time: At,
        k: usize,
    ) -> Result<(), AllocError>
        requires marks { AreMarks (game_data game.now) self.now }
        requires known { k < length (state_domains (game_data game.now)) }
        ensures { OnOk result (named.new.items ≡ named.old.items ++ (if is_named_lem (game_data game.now) (formula e.now) time k then slot_at time k ∷ [] else [])) }
    {
        if self.is_named(game, e, time, k) {
            named.push(TimedSlot { at: time, slot: k })?;
        }
        Ok(())
    }

    /// Adds the slots that a formula of the game names at this time.
    fn add_named(
        &self,
        named: &mut Vec<TimedSlot>,
        game: &Game,
        e: &Expr,
        time: At,
    ) -> Result<(), AllocError>
        requires { AreMarks (game_data game.now) self.now }
        ensures { OnOk result (named.new.items ≡ named.old.items ++ named_at (game_data game.now) (formula e.now) time) }
    {
        for k in 0..self.tables.len() {
            self.add_slot(named, game, e, time, k)?;
        }
        Ok(())
    }

    /// The slots that a formula of the game names: at present, and then at the next time. It is read once for each slot and time.
    pub fn named_in(
        &self,
        alloc: Global,
        game: &Game,
        e: &Expr,
    ) -> Result<Vec<TimedSlot>, AllocError>
        requires { AreMarks (game_data game.now) self.now }
        ensures { IfOk result (λ named. named.items ≡ named_in_lem (game_data game.now) (formula e.now)) }
    {
        let mut named = Vec::new(alloc);
        self.add_named(&mut named, game, e, At::Now)?;
        self.add_named(&mut named, game, e, At::Next)?;
        Ok(named)
    }
}
