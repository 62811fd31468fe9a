//! Where a play is, and what is remembered of it.

ghost use Rattle.std.specs.Prelude.{◌≡◌, ◌+◌, ◌^◌, ◌<◌, suc, IfOk, None};
ghost use Rattle.spec_model.specs.GameViews.{game_data};
ghost use Rattle.spec_model.specs.Steps.{Before};
ghost use Rattle.spec_model.specs.WellMade.{WellMade};
ghost use Rattle.gr1_law.specs.Counter.{CounterMemory, first_counter};
ghost use Rattle.counterstrategy.specs.Places.{IsAt};

use crate::spot::EnvSpot;
use spec_model::game::Game;
use std::alloc::{AllocError, Global};
use strategy_parts::Position;

/// The last position of a play, and what is remembered after it: whether it denies the goal, the layer's number from 1 (0 before
/// the first position), the goal, and the assumption aimed at: when the position came, and from there on.
#[derive(Drop)]
pub struct Remembered {
    pub position: Position,
    pub denying: bool,
    pub layer: usize,
    pub goal: usize,
    pub before: usize,
    pub index: usize,
}

impl Remembered {
    /// Before the first position. `AllocError`: no memory was given.
    pub fn make(alloc: Global, game: &Game) -> Result<Remembered, AllocError>
        requires { WellMade (game_data game.now) }
        ensures { IfOk result (λ p. IsAt (game_data game.now) p None first_counter) }
    {
        Ok(Remembered {
            position: Position::make(alloc, game)?,
            denying: false,
            layer: 0,
            goal: 0,
            before: 0,
            index: 0,
        })
    }

    /// Stands before the first position again.
    pub fn start_anew(&mut self, game: &Game)
        requires { (b : Before) × (k : CounterMemory) × IsAt (game_data game.now) self.old b k }
        ensures { IsAt (game_data game.now) self.new None first_counter }
    {
        self.position.start_anew(game);
        self.remember(false, 0, 0, 0, 0);
    }

    /// What is remembered, as a spot with this rank.
    pub fn spot(&self, rank: usize) -> EnvSpot
        requires goal { self.now.goal + 1 < 2 ^ 32 }
        requires asm { self.now.before + 1 < 2 ^ 32 }
        ensures { result ≡ record { layer = self.now.layer; goal = suc self.now.goal; asm = suc self.now.before; rank = rank } }
    {
        EnvSpot {
            layer: self.layer as u64,
            goal: self.goal as u32 + 1,
            asm: self.before as u32 + 1,
            rank: rank as u64,
        }
    }

    /// Remembers what is noted of a position.
    pub fn remember(
        &mut self,
        denying: bool,
        layer: usize,
        goal: usize,
        before: usize,
        index: usize,
    )
        ensures { self.new ≡ record self.old { denying = denying; layer = layer; goal = goal; before = before; index = index } }
    {
        self.denying = denying;
        self.layer = layer;
        self.goal = goal;
        self.before = before;
        self.index = index;
    }
}
