//! Where one session is.

ghost use Rattle.std.specs.Prelude.{◌≡◌, length, vec_len, IfOk};
ghost use Rattle.strategy_parts.specs.Counts.{HasFewGoals, value_count};
ghost use Rattle.spec_model.specs.Rules.{Run};
ghost use Rattle.spec_model.specs.Sets.{StateSet};
ghost use Rattle.spec_model.specs.Steps.{Before};
ghost use Rattle.gr1_law.specs.Layers.{LayerSets};
ghost use Rattle.gr1_law.specs.Choice.{Memory};
ghost use Rattle.controller.specs.Objects.{IsStarted, game_of, StandsFor, Stands, InEachPlay, HoldsTheSame};

use controller::{Controller, Spot};
use regions::Regions;
use sp_outside::OutOfMemory;
use spec_model::value::Value;
use std::alloc::Global;

/// Whether a session has made a move, and whether it goes on.
#[derive(Clone, Copy, PartialEq, Eq)]
pub enum At {
    /// It has made no move.
    Fresh,
    /// Its play has a last state.
    Playing,
    /// It is over.
    Over,
}

/// The last state of a session's play, and its spot there.
#[derive(Drop)]
pub struct Seat {
    pub at: At,
    pub state: Vec<Value>,
    pub spot: Spot,
}

impl Seat {
    ghost use Rattle.many_sessions.specs.Solo.{alive};
    ghost use Rattle.many_sessions.specs.Seats.{IsSeatOf};

    /// The seat of a session that has made no move, with room for so many values.
    pub fn make(alloc: Global, room: usize) -> Result<Seat, OutOfMemory>
        ensures fresh { IfOk result (λ seat. seat.at ≡ At.Fresh) }
        ensures room { IfOk result (λ seat. length seat.state.items ≡ room) }
    {
        Ok(Seat {
            at: At::Fresh,
            state: vec![in alloc; Value::Bool(false); room]?,
            spot: Spot {
                goal: 1,
                rank: 0,
                index: 1,
            },
        })
    }

    /// Brings the play to where the session's is.
    pub fn bring<G: Regions>(&self, play: &mut Controller<G>)
        requires { (z : StateSet) × (l : LayerSets) × (h : Run) × (b : Before) × (m : Memory) × StandsFor G.kept play.old z l h b m
            × (to : Run) × (before : Before) × (memory : Memory) × IsSeatOf (game_of G.kept play.old) l self.now (alive to before memory) }
        ensures stands { InEachPlay G.kept play.old (λ z l h b m. (to : Run) (before : Before) (memory : Memory)
            → IsSeatOf (game_of G.kept play.old) l self.now (alive to before memory) → StandsFor G.kept play.new z l to before memory) }
        ensures keeps { HoldsTheSame G.kept play.old play.new }
    {
        if self.at == At::Fresh {
            play.again();
        } else {
            play.go(&self.state, self.spot);
        }
    }

    /// Remembers where the play is.
    pub fn remember<G: Regions>(&mut self, play: &Controller<G>)
        requires stands { Stands G.kept play.now }
        requires started { IsStarted play.now }
        requires few { HasFewGoals (game_of G.kept play.now) }
        requires room { length self.old.state.items ≡ value_count (game_of G.kept play.now) }
        ensures { InEachPlay G.kept play.now (λ z l h b m. IsSeatOf (game_of G.kept play.now) l self.new (alive h b m)) }
    {
        self.spot = play.spot(&mut self.state);
        self.at = At::Playing;
    }
}
