//! What a check writes into. Only `Workspace::make` takes memory.

ghost use Rattle.std.specs.Prelude.{◌≡◌, ◌*◌, IfOk};
ghost use Rattle.spec_model.specs.GameViews.{game_data};
ghost use Rattle.spec_model.specs.WellMade.{WellMade};
ghost use Rattle.trace_planes.specs.Audits.{IsWorkspaceOf};

use crate::run_state::RunState;
use spec_model::game::Game;
use std::alloc::{AllocError, Global};

/// The words of scratch planes: two or three planes for each level of a line, of which there are at most 512.
const SCRATCH: usize = 64 * 3 * 512;

/// Columns and planes for 4,096 positions.
#[derive(Drop)]
pub struct Workspace {
    /// The codes of the variables.
    pub columns: Vec<u16>,
    /// The cells of the hidden tables.
    pub cells: Vec<usize>,
    /// Where the run is, ahead of the judge.
    pub ahead: RunState,
    pub scratch: Vec<u64>,
    /// At which moves all lines hold.
    pub clear: Vec<u64>,
}

/// How many numbers so many columns have.
fn in_columns(n: usize) -> Result<usize, AllocError>
    ensures { IfOk result (λ m. m ≡ 4096 * n) }
{
    match n.checked_mul(4_096) {
        Some(m) => Ok(m),
        None => Err(AllocError),
    }
}

impl Workspace {
    /// Room for a game's variables and tables. `AllocError`: no memory was given.
    pub fn make(alloc: Global, game: &Game) -> Result<Workspace, AllocError>
        requires { WellMade (game_data game.now) }
        ensures { IfOk result (IsWorkspaceOf (game_data game.now)) }
    {
        let codes = in_columns(game.vars.len())?;
        let cells = in_columns(game.hidden.len())?;
        Ok(Workspace {
            columns: vec![in alloc; 0_u16; codes]?,
            cells: vec![in alloc; 0_usize; cells]?,
            ahead: RunState::make(alloc, game)?,
            scratch: vec![in alloc; 0_u64; SCRATCH]?,
            clear: vec![in alloc; 0_u64; 64]?,
        })
    }
}
