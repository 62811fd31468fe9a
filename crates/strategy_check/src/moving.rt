//! One move of the system's strategy, from the start or from where a play ends.

ghost use Rattle.std.specs.Prelude.{◌≡◌, ◌+◌, length, Option, Some, None, IfOk, IsTrue};
ghost use Rattle.spec_model.specs.Rules.{Run};
ghost use Rattle.spec_model.specs.Games.{GameData, State};
ghost use Rattle.spec_model.specs.GameViews.{game_data};
ghost use Rattle.spec_model.specs.Steps.{Before, is_input, legal_input};
ghost use Rattle.spec_model.specs.Sets.{StateSet};
ghost use Rattle.regions.specs.Rules.{output_count};
ghost use Rattle.gr1_law.specs.Layers.{LayerSets};
ghost use Rattle.gr1_law.specs.Choice.{Memory};
ghost use Rattle.strategy_parts.specs.Counts.{HasFewGoals, value_count};
ghost use Rattle.controller.specs.Objects.{game_of, IsStarted, Stands, StandsFor, InEachPlay, GoesOn, HoldsTheSame};
ghost use Rattle.controller.specs.Spots.{EndsAt};
ghost use Rattle.strategy_check.specs.Seats.{seat_of};
ghost use Rattle.strategy_check.specs.Walks.{IsFrom, Answers, Plays};

use crate::seats::Seat;
use controller::{Controller, Spot};
use regions::Regions;
use spec_model::game::Game;
use spec_model::value::Value;
use spec_model::variables::{count_inputs, count_outputs};
use std::alloc::{AllocError, Global};

/// Room for an output, and for a state.
#[derive(Drop)]
pub struct Room {
    pub output: Vec<Value>,
    pub state: Vec<Value>,
}

impl Room {
    /// `AllocError`: no memory was given.
    pub fn make(alloc: Global, game: &Game) -> Result<Room, AllocError>
        ensures output { IfOk result (λ r. length r.output.items ≡ output_count (game_data game.now)) }
        ensures state { IfOk result (λ r. length r.state.items ≡ value_count (game_data game.now)) }
    {
        let hidden = game.hidden.len();
        let outputs = count_outputs(&game.vars);
        let size = hidden + count_inputs(&game.vars) + outputs;
        Ok(Room {
            output: vec![in alloc; Value::Bool(false); outputs]?,
            state: vec![in alloc; Value::Bool(false); size]?,
        })
    }
}

/// Goes to a seat, or to the start where none is given.
fn stand<G: Regions>(play: &mut Controller<G>, from: Option<&Seat>)
    requires { (g : GameData) × (z : StateSet) × (l : LayerSets) × Plays G.kept play.old g z l × (h : Run) × (b : Before) × (m : Memory) × IsFrom g l (seat_of from) h b m }
    ensures stands { (g : GameData) (z : StateSet) (l : LayerSets) → Plays G.kept play.old g z l → (h : Run) (b : Before) (m : Memory) → IsFrom g l (seat_of from.entry) h b m → StandsFor G.kept play.new z l h b m }
    ensures keeps { HoldsTheSame G.kept play.old play.new }
{
    match from {
        None => play.again(),
        Some(seat) => play.go(&seat.state, seat.spot),
    }
}

/// Makes the move that is chosen after a legal input, the first or a later one.
fn advance<G: Regions>(play: &mut Controller<G>, input: &[Value], out: &mut Vec<Value>)
    requires stands { Stands G.kept play.old }
    requires input { IsTrue (is_input (game_of G.kept play.old) input.now) }
    requires legal { InEachPlay G.kept play.old (λ z l h b m. IsTrue (legal_input (game_of G.kept play.old) b input.now)) }
    requires room { length out.old.items ≡ output_count (game_of G.kept play.old) }
    ensures chosen { InEachPlay G.kept play.old (λ z l h b m. (next : Memory) × GoesOn G.kept play.old play.new z l h b m input.now out.new.items next) }
    ensures room { length out.new.items ≡ length out.old.items }
    ensures keeps { HoldsTheSame G.kept play.old play.new }
{
    if play.is_started() {
        play.step(input, out);
    } else {
        play.start(input, out);
    }
}

/// Writes the state where the play stands, and gives its spot.
fn seen<G: Regions>(play: &Controller<G>, state: &mut Vec<Value>) -> Spot
    requires stands { Stands G.kept play.now }
    requires started { IsStarted play.now }
    requires few { HasFewGoals (game_of G.kept play.now) }
    requires room { length state.old.items ≡ value_count (game_of G.kept play.now) }
    ensures ends { InEachPlay G.kept play.now (λ z l h b m. (s : State) × (b ≡ Some s) × EndsAt (game_of G.kept play.now) l h s m state.new.items result) }
    ensures room { length state.new.items ≡ length state.old.items }
{
    play.spot(state)
}

/// Where the choice after an input leads from a seat, or from the start: the state is written, and the spot given. There is none
/// where the input isn't legal.
pub fn choose<G: Regions>(
    play: &mut Controller<G>,
    room: &mut Room,
    from: Option<&Seat>,
    input: &[Value],
) -> Option<Spot>
    requires from { (g : GameData) × (z : StateSet) × (l : LayerSets) × Plays G.kept play.old g z l × HasFewGoals g × IsTrue (is_input g input.now) × (h : Run) × (b : Before) × (m : Memory) × IsFrom g l (seat_of from) h b m }
    requires output { length room.old.output.items ≡ output_count (game_of G.kept play.old) }
    requires state { length room.old.state.items ≡ value_count (game_of G.kept play.old) }
    ensures answers { (g : GameData) (z : StateSet) (l : LayerSets) → Plays G.kept play.old g z l → (h : Run) (b : Before) (m : Memory) → IsFrom g l (seat_of from.entry) h b m →
        Answers g l b m input.now result room.new.state.items × Plays G.kept play.new g z l }
    ensures room { (length room.new.output.items ≡ length room.old.output.items) × (length room.new.state.items ≡ length room.old.state.items) }
    ensures keeps { HoldsTheSame G.kept play.old play.new }
{
    stand(play, from);
    if play.legal(input).is_some() {
        return None;
    }
    advance(play, input, &mut room.output);
    let spot = seen(play, &mut room.state);
    Some(spot)
}
