//! What moves are judged by.

ghost use Rattle.std.specs.Prelude.{◌≡◌, IfOk};
ghost use Rattle.spec_model.specs.GameViews.{game_data};
ghost use Rattle.spec_model.specs.WellMade.{WellMade};
ghost use Rattle.table_check.specs.Turns.{AreJudges};

use game_play::{InputJudge, OutputJudge};
use spec_model::game::Game;
use std::alloc::{AllocError, Global};

/// A game with the judges of its inputs and of its outputs.
#[derive(Drop)]
pub struct Judges {
    pub game: Game,
    pub inputs: InputJudge,
    pub outputs: OutputJudge,
}

impl Judges {
    /// The judges of a game. `AllocError`: no memory was given.
    pub fn make(alloc: Global, game: Game) -> Result<Judges, AllocError>
        requires { WellMade (game_data game) }
        ensures judges { IfOk result (λ j. AreJudges j) }
        ensures game { IfOk result (λ j. game_data j.game ≡ game_data game) }
    {
        let inputs = InputJudge::make(alloc, &game)?;
        let outputs = OutputJudge::make(alloc, &game)?;
        Ok(Judges {
            game,
            inputs,
            outputs,
        })
    }
}
