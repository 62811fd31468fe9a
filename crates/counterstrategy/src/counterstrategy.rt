//! The environment's strategy over any regions.

ghost use Rattle.std.specs.Prelude.{◌≡◌, ◌<◌, List, length, IsTrue, IfOk, IfErr, Some, None, is_none};
ghost use Rattle.std.specs.Bool.{OnTrue, OnFalse};
ghost use Rattle.spec_model.specs.Values.{Assignment};
ghost use Rattle.spec_model.specs.Rules.{Run};
ghost use Rattle.spec_model.specs.Unrealizable.{NoteData};
ghost use Rattle.spec_model.specs.Games.{State};
ghost use Rattle.spec_model.specs.Steps.{is_output, legal_output};
ghost use Rattle.spec_model.specs.GameViews.{game_data};
ghost use Rattle.spec_model.specs.WellMade.{WellMade};
ghost use Rattle.spec_model.specs.FirstBroken.{first_broken_output};
ghost use Rattle.regions.specs.Rules.{input_count};
ghost use Rattle.game_play.specs.Judged.{IsOutputJudgeOf};
ghost use Rattle.gr1_law.specs.EnvLayers.{EnvLayerSets};
ghost use Rattle.gr1_law.specs.Counter.{CounterMemory, first_counter, note_of};
ghost use Rattle.counterstrategy.specs.Made.{AreLayersOf, IsRefused};
ghost use Rattle.strategy_parts.specs.Counts.{HasFewGoals, value_count};
ghost use Rattle.counterstrategy.specs.Places.{IsAt, memory_at};
ghost use Rattle.counterstrategy.specs.Spots.{HasPosition, EndsAt, CanGo, BeginsAgain};
ghost use Rattle.counterstrategy.specs.Objects.{IsFresh, HasGiven, given_by, game_of, StandsFor, Stands, InEachPlay, Begins, Completes, Gives, GoesOn, HoldsTheSame, GivesBack, note_data};

use crate::equipping::equip;
use crate::giving::give;
use crate::kit::{Kit, spend_kit};
use crate::noting::{label_of, note_position, settle};
use crate::remembered::Remembered;
use crate::spot::EnvSpot;
use game_play::OutputJudge;
use gr1_env::{EnvLayer, EnvLayers};
use regions::{Halt, MakeRefusal, Regions};
use spec_model::game::{Game, Label};
use spec_model::value::Value;
use spec_model::variables::count_inputs;
use std::alloc::{AllocError, Global};

/// What is noted of a position: that the play shifts, or that it denies the goal with this label.
#[derive(Clone, Copy, PartialEq, Eq)]
pub enum Note {
    Shift,
    Deny(Label),
}

/// A play of the environment's strategy. It must be closed.
pub struct Counterstrategy<G: Regions> {
    g: G,
    layers: Vec<EnvLayer<G>>,
    kit: Kit<G>,
    place: Remembered,
    /// Whether an input was given, and the one that was given last; where that was after a denial, the number of the iterate into
    /// which it leads, else 0.
    has_given: bool,
    given: Vec<Value>,
    rank: usize,
    judge: OutputJudge,
}

/// Before the first position, room for an input, and a judge of the outputs. `AllocError`: no memory was given.
fn prepared(alloc: Global, game: &Game) -> Result<(Remembered, Vec<Value>, OutputJudge), AllocError>
    requires { WellMade (game_data game.now) }
    ensures place { IfOk result (λ p. IsAt (game_data game.now) p.0 None first_counter) }
    ensures room { IfOk result (λ p. length p.1.items ≡ input_count (game_data game.now)) }
    ensures judge { IfOk result (λ p. IsOutputJudgeOf (game_data game.now) p.2) }
{
    let place = Remembered::make(alloc, game)?;
    let given = vec![in alloc; Value::Bool(false); count_inputs(&game.vars)]?;
    let judge = OutputJudge::make(alloc, game)?;
    Ok((place, given, judge))
}

impl<G: Regions> Counterstrategy<G> {
    /// A strategy that has given no input, for the layers that `gr1_env::solve_env` gave for this `g`. They are taken.
    ///
    /// `Budget`: a call of `g` answered it, for the states of a goal or an assumption, for no states, for first moves into a
    /// layer, or for later ones into a layer or an iterate of one; layer 0 has no states. `Memory`: none was given. Then the
    /// layers are spent, and nothing else is held.
    pub fn make(
        alloc: Global,
        g: G,
        layers: EnvLayers<G>,
    ) -> Result<Counterstrategy<G>, MakeRefusal<G>>
        requires free { (G.kept g).jam ≡ None }
        requires lost { (e : EnvLayerSets) × AreLayersOf (G.kept g) layers.layers.items e }
        ensures begins { (e : EnvLayerSets) → AreLayersOf (G.kept g) layers.layers.items e → IfOk result (Begins G.kept (G.kept g) layers.layers.items e) }
        ensures refused { IfErr result (λ r. IsRefused (G.kept g) (G.kept r.g) layers.layers.items r.halt) }
    {
        let mut g = g;
        let Ok((place, given, judge)) = prepared(alloc, g.game()) else {
            layers.spend_all(&mut g);
            return Err(MakeRefusal {
                halt: Halt::Memory,
                g,
            });
        };
        match equip(alloc, &mut g, &layers.layers) {
            Ok(kit) => {
                let EnvLayers { layers } = layers;
                Ok(Counterstrategy {
                    g,
                    layers,
                    kit,
                    place,
                    has_given: false,
                    given,
                    rank: 0,
                    judge,
                })
            }
            Err(halt) => {
                layers.spend_all(&mut g);
                Err(MakeRefusal { halt, g })
            }
        }
    }

    /// The first guarantee or monitor's line, in text order, that the output breaks after the play and the input that was
    /// given; where it breaks none it is legal. It takes no memory.
    pub fn legal(&self, out: &[Value]) -> Option<Label>
        requires stands { Stands G.kept self.now }
        requires given { HasGiven self.now }
        requires output { IsTrue (is_output (game_of G.kept self.now) out.now) }
        ensures first { InEachPlay G.kept self.now (λ e h notes b k. result ≡ first_broken_output (game_of G.kept self.now) b (given_by self.now) out.now) }
        ensures none { InEachPlay G.kept self.now (λ e h notes b k. is_none result ≡ legal_output (game_of G.kept self.now) b (given_by self.now) out.now) }
    {
        let game = self.g.game();
        let last = &self.place.position;
        if last.started {
            self.judge.first_broken_after(
                game,
                &last.state,
                &last.cells,
                &last.next,
                &self.given,
                out,
            )
        } else {
            self.judge
                .first_broken_at_start(game, &last.next, &self.given, out)
        }
    }

    /// Whether an input was given.
    pub fn is_started(&self) -> bool
        ensures given { OnTrue result (HasGiven self.now) }
        ensures fresh { OnFalse result (IsFresh self.now) }
    {
        self.has_given
    }

    /// Writes the first input that is given.
    pub fn first(&mut self, input: &mut [Value])
        requires stands { Stands G.kept self.old }
        requires fresh { IsFresh self.old }
        requires room { length input.old ≡ input_count (game_of G.kept self.old) }
        ensures given { InEachPlay G.kept self.old (λ e h notes b k. Gives G.kept self.new e h notes b k input.new) }
        ensures keeps { HoldsTheSame G.kept self.old self.new }
    {
        self.give_next();
        input.copy_from_slice(&self.given);
    }

    /// Notes the position that the output completes, and writes the next input that is given.
    pub fn reply(&mut self, out: &[Value], input: &mut [Value]) -> Note
        requires stands { Stands G.kept self.old }
        requires given { HasGiven self.old }
        requires output { IsTrue (is_output (game_of G.kept self.old) out.now) }
        requires legal { InEachPlay G.kept self.old (λ e h notes b k. IsTrue (legal_output (game_of G.kept self.old) b (given_by self.old) out.now)) }
        requires room { length input.old ≡ input_count (game_of G.kept self.old) }
        ensures answered { InEachPlay G.kept self.old (λ e h notes b k. (next : CounterMemory) × GoesOn G.kept self.old self.new e h notes b k out.now result next input.new) }
        ensures keeps { HoldsTheSame G.kept self.old self.new }
    {
        let note = self.complete(out);
        self.give_next();
        input.copy_from_slice(&self.given);
        note
    }

    /// Goes on to the position that the output completes, and notes it.
    fn complete(&mut self, out: &[Value]) -> Note
        requires stands { Stands G.kept self.old }
        requires given { HasGiven self.old }
        requires output { IsTrue (is_output (game_of G.kept self.old) out.now) }
        requires legal { InEachPlay G.kept self.old (λ e h notes b k. IsTrue (legal_output (game_of G.kept self.old) b (given_by self.old) out.now)) }
        ensures completed { InEachPlay G.kept self.old (λ e h notes b k. (next : CounterMemory) × Completes G.kept self.old self.new e h notes b k out.now result next) }
        ensures keeps { HoldsTheSame G.kept self.old self.new }
    {
        let place = &mut self.place;
        place.position.go_on(self.g.game(), &self.given, out);
        note_position(&mut self.g, &self.layers, &self.kit, place);
        self.has_given = false;
        self.note()
    }

    /// The note of the last position.
    fn note(&self) -> Note
        requires { IsTrue self.now.place.denying → self.now.place.goal < length (game_of G.kept self.now).goals }
        ensures { note_data result ≡ note_of (game_of G.kept self.now) (memory_at self.now.place) }
    {
        if self.place.denying {
            Note::Deny(label_of(&self.g.game().goals, self.place.goal))
        } else {
            Note::Shift
        }
    }

    /// Gives the input that follows.
    fn give_next(&mut self)
        requires stands { Stands G.kept self.old }
        requires fresh { IsFresh self.old }
        ensures given { InEachPlay G.kept self.old (λ e h notes b k. Gives G.kept self.new e h notes b k (given_by self.new)) }
        ensures keeps { HoldsTheSame G.kept self.old self.new }
    {
        self.rank = give(&mut self.g, &self.kit, &self.place, &mut self.given);
        self.has_given = true;
    }

    /// Writes the state of the last position, the hidden values first, and gives its spot. It takes no memory.
    pub fn spot(&self, state: &mut [Value]) -> EnvSpot
        requires stands { Stands G.kept self.now }
        requires given { HasGiven self.now }
        requires completed { HasPosition self.now }
        requires few { HasFewGoals (game_of G.kept self.now) }
        requires room { length state.old ≡ value_count (game_of G.kept self.now) }
        ensures ends { InEachPlay G.kept self.now (λ e h notes b k. (s : State) × (b ≡ Some s) × EndsAt (game_of G.kept self.now) e h notes s k state.new result) }
    {
        state.copy_from_slice(self.place.position.values());
        self.place.spot(self.rank)
    }

    /// Goes to where some noted play of given inputs ends, by its state, the hidden values first, and its spot, and gives the input
    /// that follows. Then it stands for each play that ends there. It takes no memory.
    pub fn go(&mut self, state: &[Value], spot: EnvSpot)
        requires there { CanGo G.kept self.old state.now spot }
        ensures stands { InEachPlay G.kept self.old (λ e h notes b k. (to : Run) (noted : List NoteData) (s : State) (next : CounterMemory) → EndsAt (game_of G.kept self.old) e to noted s next state.now spot → (x : Assignment) × Gives G.kept self.new e to noted (Some s) next x) }
        ensures keeps { HoldsTheSame G.kept self.old self.new }
    {
        self.settle_at(state, spot);
        self.give_next();
    }

    /// Goes to where a play ends, before an input is given.
    fn settle_at(&mut self, state: &[Value], spot: EnvSpot)
        requires there { CanGo G.kept self.old state.now spot }
        ensures stands { InEachPlay G.kept self.old (λ e h notes b k. (to : Run) (noted : List NoteData) (s : State) (next : CounterMemory) → EndsAt (game_of G.kept self.old) e to noted s next state.now spot → StandsFor G.kept self.new e to noted (Some s) next) }
        ensures fresh { IsFresh self.new }
        ensures keeps { HoldsTheSame G.kept self.old self.new }
    {
        let place = &mut self.place;
        place.position.go_to(self.g.game(), state);
        let layer = spot.layer as usize;
        let goal = spot.goal as usize - 1;
        let before = spot.asm as usize - 1;
        settle(&mut self.g, &self.kit, place, layer, goal, before);
        self.has_given = false;
    }

    /// Begins again, as before the first input. It takes no memory.
    pub fn again(&mut self)
        requires stands { Stands G.kept self.old }
        ensures begins { BeginsAgain G.kept self.old self.new }
        ensures keeps { HoldsTheSame G.kept self.old self.new }
    {
        self.place.start_anew(self.g.game());
        self.has_given = false;
    }

    /// Ends the play: all that it owns is spent.
    pub fn close(self) -> G
        requires { Stands G.kept self }
        ensures { GivesBack G.kept self result }
    {
        let Counterstrategy {
            mut g,
            layers,
            kit,
            place: _place,
            has_given: _has_given,
            given: _given,
            rank: _rank,
            judge: _judge,
        } = self;
        EnvLayers { layers }.spend_all(&mut g);
        spend_kit(&mut g, kit);
        g
    }
}
