//! The seats of all sessions, and the room for their moves.

ghost use Rattle.std.specs.Prelude.{◌≡◌, ◌+◌, ◌<◌, length, get_or, ℕ, IfOk};
ghost use Rattle.std.specs.Bool.{OnTrue, OnFalse};
ghost use Rattle.spec_model.specs.Syntax.{Specification};
ghost use Rattle.spec_model.specs.Views.{spec_data};
ghost use Rattle.spec_model.specs.WellTyped.{WellTyped};
ghost use Rattle.spec_model.specs.Games.{GameData};
ghost use Rattle.spec_model.specs.Rules.{Run};
ghost use Rattle.spec_model.specs.Steps.{Before};
ghost use Rattle.gr1_law.specs.Layers.{LayerSets};
ghost use Rattle.gr1_law.specs.Choice.{Memory};
ghost use Rattle.hidden_game.specs.GameOf.{game_of as game_meant};
ghost use Rattle.strategy_parts.specs.Counts.{HasFewGoals};
ghost use Rattle.controller.specs.Objects.{IsStarted, game_of, Stands, InEachPlay, HoldsTheSame};

use crate::numbered::MOST_SESSIONS;
use crate::seat::{At, Seat};
use controller::Controller;
use hidden_game::expand;
use regions::Regions;
use sp_outside::OutOfMemory;
use spec_model::game::Game;
use spec_model::spec::Spec;
use spec_model::value::Value;
use spec_model::variables::{count_inputs, count_outputs};
use std::alloc::Global;

/// A seat for each session, and room for one input and one output. All of it is taken by `make`, so that no line wants memory.
#[derive(Drop)]
pub struct Many {
    pub(crate) seats: Vec<Seat>,
    pub(crate) input: Vec<Value>,
    pub(crate) output: Vec<Value>,
}

// Seats of sessions that have made no move, each with room for so many values.
fn make_seats(alloc: Global, room: usize) -> Result<Vec<Seat>, OutOfMemory>
    ensures count { IfOk result (λ seats. length seats.items ≡ MOST_SESSIONS) }
    ensures fresh { IfOk result (λ seats. (i : ℕ) → i < length seats.items → (d : Seat) → ((get_or seats.items i d).at ≡ At.Fresh) × (length (get_or seats.items i d).state.items ≡ room)) }
{
    let mut seats = Vec::new(alloc);
    while seats.len() < MOST_SESSIONS {
        seats.push(Seat::make(alloc, room)?)?;
    }
    Ok(seats)
}

impl Many {
    ghost use Rattle.spec_model.specs.GameViews.{game_data};
    ghost use Rattle.many_sessions.specs.Solo.{Session, alive, over};
    ghost use Rattle.many_sessions.specs.Numbered.{IsSession};
    ghost use Rattle.many_sessions.specs.Terms.{ManyState, changed};
    ghost use Rattle.many_sessions.specs.Seats.{AreSeatsOf, HasRoomFor, KeepsMoves, IsNewFor, PlaysAt, Serves};

    /// The seats of sessions that have made no move, for plays of a specification.
    pub fn make(alloc: Global, spec: &Spec) -> Result<Many, OutOfMemory>
        requires { WellTyped (spec_data spec.now) }
        ensures { IfOk result (λ many. IsNewFor (game_meant (spec_data spec.now)) many) }
    {
        let game = expand(alloc, spec)?;
        Many::for_game(alloc, &game)
    }

    // Likewise for plays of a game.
    fn for_game(alloc: Global, game: &Game) -> Result<Many, OutOfMemory>
        ensures { IfOk result (λ many. IsNewFor (game_data game.now) many) }
    {
        let inputs = count_inputs(&game.vars);
        let outputs = count_outputs(&game.vars);
        Ok(Many {
            seats: make_seats(alloc, game.hidden.len() + inputs + outputs)?,
            input: vec![in alloc; Value::Bool(false); inputs]?,
            output: vec![in alloc; Value::Bool(false); outputs]?,
        })
    }

    // Whether a session is over.
    pub(crate) fn is_over(&self, number: usize) -> bool
        requires session { IsSession number }
        requires room { (g : GameData) × HasRoomFor g self.now }
        ensures over { OnTrue result ((g : GameData) (l : LayerSets) (sessions : ℕ → Session) → AreSeatsOf g l self.now.seats.items sessions → (h : Run) × (sessions number ≡ over h)) }
        ensures alive { OnFalse result ((g : GameData) (l : LayerSets) (sessions : ℕ → Session) → AreSeatsOf g l self.now.seats.items sessions → (h : Run) × (b : Before) × (m : Memory) × (sessions number ≡ alive h b m)) }
    {
        match self.seats[number - 1].at {
            At::Over => true,
            At::Fresh => false,
            At::Playing => false,
        }
    }

    // Ends a session.
    pub(crate) fn close(&mut self, number: usize)
        requires session { IsSession number }
        requires room { (g : GameData) × HasRoomFor g self.old }
        ensures seats { (g : GameData) (l : LayerSets) (sessions : ℕ → Session) (h : Run) → AreSeatsOf g l self.old.seats.items sessions → AreSeatsOf g l self.new.seats.items (changed sessions number (over h)) }
        ensures keeps { KeepsMoves self.old self.new }
    {
        self.seats[number - 1].at = At::Over;
    }

    // Brings the play to where that of a session is.
    pub(crate) fn bring<G: Regions>(&self, play: &mut Controller<G>, number: usize)
        requires session { IsSession number }
        requires serves { (s : Specification) × (st : ManyState) × Serves G.kept self.now play.old s st × (h : Run) × (b : Before) × (m : Memory) × (st.sessions number ≡ alive h b m) }
        ensures plays { (s : Specification) (st : ManyState) (h : Run) (b : Before) (m : Memory) → Serves G.kept self.now play.old s st → st.sessions number ≡ alive h b m → PlaysAt G.kept play.new s st h b m }
        ensures keeps { HoldsTheSame G.kept play.old play.new }
    {
        self.seats[number - 1].bring(play);
    }

    // Remembers where the play is, as that of a session.
    pub(crate) fn remember<G: Regions>(&mut self, play: &Controller<G>, number: usize)
        requires session { IsSession number }
        requires room { HasRoomFor (game_of G.kept play.now) self.old }
        requires seats { (l : LayerSets) × (sessions : ℕ → Session) × AreSeatsOf (game_of G.kept play.now) l self.old.seats.items sessions }
        requires few { HasFewGoals (game_of G.kept play.now) }
        requires stands { Stands G.kept play.now }
        requires started { IsStarted play.now }
        ensures seats { InEachPlay G.kept play.now (λ z l h b m. (sessions : ℕ → Session) → AreSeatsOf (game_of G.kept play.now) l self.old.seats.items sessions → AreSeatsOf (game_of G.kept play.now) l self.new.seats.items (changed sessions number (alive h b m))) }
        ensures keeps { KeepsMoves self.old self.new }
    {
        self.seats[number - 1].remember(play);
    }
}
