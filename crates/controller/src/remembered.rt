//! Where a play is, and what is remembered of it.

ghost use Rattle.std.specs.Prelude.{◌≡◌, ◌+◌, ◌^◌, ◌<◌, ◌≤◌, None, Some, IfOk, IsTrue};
ghost use Rattle.spec_model.specs.GameViews.{game_data};
ghost use Rattle.spec_model.specs.Games.{State, listed};
ghost use Rattle.spec_model.specs.Steps.{Before, is_state, reached};
ghost use Rattle.spec_model.specs.WellMade.{WellMade};
ghost use Rattle.gr1_law.specs.Choice.{Memory, first_memory};
ghost use Rattle.strategy_parts.specs.Positions.{IsClosedAt, values_at};
ghost use Rattle.controller.specs.Places.{IsAt, memory_at};
ghost use Rattle.controller.specs.Replies.{noted_data};
ghost use Rattle.controller.specs.Spots.{spot_at};

use crate::replies::Noted;
use crate::spot::Spot;
use spec_model::game::Game;
use spec_model::value::Value;
use std::alloc::{AllocError, Global};
use strategy_parts::Position;

/// The last position of a play, and the goal, the rank and the index that are remembered after it.
#[derive(Drop)]
pub struct Remembered {
    pub position: Position,
    pub goal: usize,
    pub rank: usize,
    pub index: usize,
}

impl Remembered {
    /// Before the first position. `AllocError`: no memory was given.
    pub fn make(alloc: Global, game: &Game) -> Result<Remembered, AllocError>
        requires { WellMade (game_data game.now) }
        ensures { IfOk result (λ p. IsAt (game_data game.now) p None first_memory) }
    {
        Ok(Remembered {
            position: Position::make(alloc, game)?,
            goal: 0,
            rank: 0,
            index: 0,
        })
    }

    /// The values of the last state. There are none before the first.
    pub fn values(&self) -> &[Value]
        ensures { result.now ≡ values_at self.now.position }
    {
        self.position.values()
    }

    /// Goes on to the state that an input and an output lead to.
    pub fn go_on(&mut self, game: &Game, input: &[Value], output: &[Value])
        requires made { WellMade (game_data game.now) }
        requires here { (b : Before) × (m : Memory) × IsAt (game_data game.now) self.old b m × IsClosedAt (game_data game.now) b input.now output.now }
        ensures { (b : Before) (m : Memory) → IsAt (game_data game.now) self.old b m → IsClosedAt (game_data game.now) b input.now output.now →
            IsAt (game_data game.now) self.new (Some (reached (game_data game.now) b input.now output.now)) m }
    {
        self.position.go_on(game, input, output);
    }

    /// Stands before the first position again.
    pub fn start_anew(&mut self, game: &Game)
        requires { (b : Before) × (m : Memory) × IsAt (game_data game.now) self.old b m }
        ensures { IsAt (game_data game.now) self.new None first_memory }
    {
        self.position.start_anew(game);
        self.remember(0, 0, 0);
    }

    /// Stands after a listed state, where this spot is remembered.
    pub fn go_to(&mut self, game: &Game, state: &[Value], spot: Spot)
        requires made { WellMade (game_data game.now) }
        requires here { (b : Before) × (m : Memory) × IsAt (game_data game.now) self.old b m }
        requires there { (s : State) × IsTrue (is_state (game_data game.now) s) × (listed s ≡ state.now) }
        requires counted { (m : Memory) × (spot_at m ≡ spot) }
        ensures { (s : State) (m : Memory) → IsTrue (is_state (game_data game.now) s) → listed s ≡ state.now → spot_at m ≡ spot → IsAt (game_data game.now) self.new (Some s) m }
    {
        self.position.go_to(game, state);
        self.recall(spot);
    }

    /// Remembers what a spot tells.
    fn recall(&mut self, spot: Spot)
        requires { (m : Memory) × (spot_at m ≡ spot) }
        ensures memory { (m : Memory) → spot_at m ≡ spot → memory_at self.new ≡ m }
        ensures position { self.new.position ≡ self.old.position }
    {
        self.remember(
            spot.goal as usize - 1,
            spot.rank as usize,
            spot.index as usize - 1,
        );
    }

    /// What is remembered.
    pub fn noted(&self) -> Noted
        ensures { noted_data result ≡ memory_at self.now }
    {
        Noted {
            goal: self.goal,
            rank: self.rank,
            index: self.index,
        }
    }

    /// What is remembered, as a spot.
    pub fn spot(&self) -> Spot
        requires goal { self.now.goal + 1 < 2 ^ 32 }
        requires index { self.now.index + 1 < 2 ^ 32 }
        ensures { result ≡ spot_at (memory_at self.now) }
    {
        Spot {
            goal: self.goal as u32 + 1,
            rank: self.rank as u64,
            index: self.index as u32 + 1,
        }
    }

    /// Remembers a goal, a rank and an index.
    pub fn remember(&mut self, goal: usize, rank: usize, index: usize)
        ensures { self.new ≡ record self.old { goal = goal; rank = rank; index = index } }
    {
        self.goal = goal;
        self.rank = rank;
        self.index = index;
    }
}
