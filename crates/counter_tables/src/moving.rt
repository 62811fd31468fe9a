//! One move of the counterstrategy, from the start or from where a play ends.

ghost use Rattle.std.specs.Prelude.{◌≡◌, [], length, None, Some, IfOk, IsTrue};
ghost use Rattle.spec_model.specs.Games.{GameData, State};
ghost use Rattle.spec_model.specs.GameViews.{game_data};
ghost use Rattle.spec_model.specs.Steps.{is_output, legal_output};
ghost use Rattle.regions.specs.Rules.{input_count};
ghost use Rattle.gr1_law.specs.EnvLayers.{EnvLayerSets};
ghost use Rattle.gr1_law.specs.Counter.{CounterMemory, first_counter};
ghost use Rattle.strategy_parts.specs.Counts.{HasFewGoals, value_count};
ghost use Rattle.counterstrategy.specs.Objects.{game_of, given_by, HasGiven, Stands, InEachPlay, Gives, GoesOn, HoldsTheSame};
ghost use Rattle.counterstrategy.specs.Spots.{HasPosition, EndsAt};
ghost use Rattle.counter_tables.specs.Seats.{seat_of};
ghost use Rattle.counter_tables.specs.Walks.{Ending, IsFrom, Answers, Plays};

use crate::seats::Seat;
use counterstrategy::{Counterstrategy, EnvSpot, Note};
use regions::Regions;
use spec_model::game::Game;
use spec_model::value::Value;
use spec_model::variables::{count_inputs, count_outputs};
use std::alloc::{AllocError, Global};

/// Room for an input, and for a state.
#[derive(Drop)]
pub struct Room {
    pub input: Vec<Value>,
    pub state: Vec<Value>,
}

impl Room {
    /// `AllocError`: no memory was given.
    pub fn make(alloc: Global, game: &Game) -> Result<Room, AllocError>
        ensures input { IfOk result (λ r. length r.input.items ≡ input_count (game_data game.now)) }
        ensures state { IfOk result (λ r. length r.state.items ≡ value_count (game_data game.now)) }
    {
        let inputs = count_inputs(&game.vars);
        let size = game.hidden.len() + inputs + count_outputs(&game.vars);
        Ok(Room {
            input: vec![in alloc; Value::Bool(false); inputs]?,
            state: vec![in alloc; Value::Bool(false); size]?,
        })
    }
}

/// Begins again, and writes the first input.
pub fn begin<G: Regions>(play: &mut Counterstrategy<G>, input: &mut Vec<Value>)
    requires stands { Stands G.kept play.old }
    requires room { length input.old.items ≡ input_count (game_of G.kept play.old) }
    ensures gives { InEachPlay G.kept play.old (λ e h notes b k. Gives G.kept play.new e [] [] None first_counter input.new.items) }
    ensures room { length input.new.items ≡ length input.old.items }
    ensures keeps { HoldsTheSame G.kept play.old play.new }
{
    play.again();
    play.first(input);
}

/// Goes to a seat, or to the start where none is given; the input that follows is given.
fn stand<G: Regions>(play: &mut Counterstrategy<G>, input: &mut Vec<Value>, from: Option<&Seat>)
    requires from { (g : GameData) × (e : EnvLayerSets) × Plays G.kept play.old g e × (p : Ending) × IsFrom g e (seat_of from) p }
    requires room { length input.old.items ≡ input_count (game_of G.kept play.old) }
    ensures gives { (g : GameData) (e : EnvLayerSets) → Plays G.kept play.old g e → (p : Ending) → IsFrom g e (seat_of from.entry) p → Gives G.kept play.new e p.run p.notes p.before p.memory p.input }
    ensures room { length input.new.items ≡ length input.old.items }
    ensures keeps { HoldsTheSame G.kept play.old play.new }
{
    match from {
        None => begin(play, input),
        Some(seat) => play.go(&seat.state, seat.spot),
    }
}

/// Completes the position with a legal output, and writes the input that is given then.
fn complete<G: Regions>(play: &mut Counterstrategy<G>, output: &[Value], input: &mut Vec<Value>)
    requires stands { Stands G.kept play.old }
    requires given { HasGiven play.old }
    requires output { IsTrue (is_output (game_of G.kept play.old) output.now) }
    requires legal { InEachPlay G.kept play.old (λ e h notes b k. IsTrue (legal_output (game_of G.kept play.old) b (given_by play.old) output.now)) }
    requires room { length input.old.items ≡ input_count (game_of G.kept play.old) }
    ensures answered { InEachPlay G.kept play.old (λ e h notes b k. (shown : Note) × (next : CounterMemory) × GoesOn G.kept play.old play.new e h notes b k output.now shown next input.new.items) }
    ensures keeps { (length input.new.items ≡ length input.old.items) × HoldsTheSame G.kept play.old play.new }
{
    play.reply(output, input);
}

/// Writes the state where the play stands, and gives its spot.
fn seen<G: Regions>(play: &Counterstrategy<G>, state: &mut Vec<Value>) -> EnvSpot
    requires stands { Stands G.kept play.now }
    requires given { HasGiven play.now }
    requires completed { HasPosition play.now }
    requires few { HasFewGoals (game_of G.kept play.now) }
    requires room { length state.old.items ≡ value_count (game_of G.kept play.now) }
    ensures ends { InEachPlay G.kept play.now (λ e h notes b k. (s : State) × (b ≡ Some s) × EndsAt (game_of G.kept play.now) e h notes s k state.new.items result) }
    ensures room { length state.new.items ≡ length state.old.items }
{
    play.spot(state)
}

/// Where an output leads from a seat, or from the start: the state and the input that is given then are written, and the spot
/// given. There is none where the output isn't legal.
pub fn follow<G: Regions>(
    play: &mut Counterstrategy<G>,
    room: &mut Room,
    from: Option<&Seat>,
    output: &[Value],
) -> Option<EnvSpot>
    requires from { (g : GameData) × (e : EnvLayerSets) × Plays G.kept play.old g e × HasFewGoals g × IsTrue (is_output g output.now) × (p : Ending) × IsFrom g e (seat_of from) p }
    requires input { length room.old.input.items ≡ input_count (game_of G.kept play.old) }
    requires state { length room.old.state.items ≡ value_count (game_of G.kept play.old) }
    ensures answers { (g : GameData) (e : EnvLayerSets) → Plays G.kept play.old g e → (p : Ending) → IsFrom g e (seat_of from.entry) p →
        Answers g e p output.now result room.new.state.items room.new.input.items × Plays G.kept play.new g e }
    ensures room { (length room.new.input.items ≡ length room.old.input.items) × (length room.new.state.items ≡ length room.old.state.items) }
    ensures keeps { HoldsTheSame G.kept play.old play.new }
{
    stand(play, &mut room.input, from);
    if play.legal(output).is_some() {
        return None;
    }
    complete(play, output, &mut room.input);
    let spot = seen(play, &mut room.state);
    Some(spot)
}
