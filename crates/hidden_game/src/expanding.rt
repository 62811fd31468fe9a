//! The game of a specification.

ghost use Rattle.std.specs.Prelude.{◌≡◌, IfOk};
ghost use Rattle.spec_model.specs.Views.{spec_data};
ghost use Rattle.spec_model.specs.GameViews.{game_data};
ghost use Rattle.spec_model.specs.Agreement.{Agrees};
ghost use Rattle.spec_model.specs.WellMade.{WellMade};
ghost use Rattle.spec_model.specs.WellTyped.{WellTyped};
ghost use Rattle.hidden_game.specs.GameOf.{game_of};
ghost use Rattle.hidden_game.specs.Sources.{IsSource};

use crate::player::{Player, Time};
use crate::source::Source;
use past_bits::Operators;
use spec_model::copy::copy_vars;
use spec_model::game::Game;
use spec_model::spec::Spec;
use std::alloc::{AllocError, Global};

/// The game of a specification: its variables, its hidden tables, and its lines and goals in text order, by the player that
/// they bind and the time at which they are judged. `AllocError`: no memory was given.
pub fn expand(alloc: Global, spec: &Spec) -> Result<Game, AllocError>
    requires typed { WellTyped (spec_data spec.now) }
    ensures game { IfOk result (λ game. game_data game ≡ game_of (spec_data spec.now)) }
    ensures made { IfOk result (λ game. WellMade (game_data game)) }
    ensures agrees { IfOk result (λ game. Agrees (spec_data spec.now) (game_data game)) }
{
    let operators = Operators::of_spec(alloc, spec)?;
    let source = Source { spec, operators };
    source.game(alloc)
}

impl<'a> Source<'a> {
    // The game, part by part.
    fn game(&self, alloc: Global) -> Result<Game, AllocError>
        requires source { IsSource self.now }
        requires typed { WellTyped (spec_data self.now.spec.now) }
        ensures { IfOk result (λ game. game_data game ≡ game_of (spec_data self.now.spec.now)) }
    {
        Ok(Game {
            vars: copy_vars(alloc, &self.spec.vars)?,
            hidden: self.tables(alloc)?,
            initial_asm: self.lines(alloc, Player::Environment, Time::First)?,
            initial_gar: self.lines(alloc, Player::System, Time::First)?,
            safe_asm: self.lines(alloc, Player::Environment, Time::Always)?,
            safe_gar: self.lines(alloc, Player::System, Time::Always)?,
            assume: self.goals(alloc, Player::Environment)?,
            goals: self.goals(alloc, Player::System)?,
        })
    }
}
