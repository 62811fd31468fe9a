//! The system's strategy over any regions.

ghost use Rattle.std.specs.Prelude.{◌≡◌, ◌<◌, length, IsTrue, IfOk, IfErr, Some, None, is_none, option_map, slice_get};
ghost use Rattle.std.specs.Bool.{OnTrue, OnFalse};
ghost use Rattle.spec_model.specs.Rules.{Run};
ghost use Rattle.spec_model.specs.Games.{State};
ghost use Rattle.spec_model.specs.Steps.{is_input, legal_input};
ghost use Rattle.regions.specs.Rules.{output_count};
ghost use Rattle.spec_model.specs.GameViews.{game_data};
ghost use Rattle.spec_model.specs.WellMade.{WellMade};
ghost use Rattle.game_play.specs.Judged.{IsJudgeOf};
ghost use Rattle.spec_model.specs.FirstBroken.{first_broken};
ghost use Rattle.gr1_law.specs.Layers.{LayerSets};
ghost use Rattle.gr1_law.specs.Choice.{Memory, first_memory};
ghost use Rattle.controller.specs.Made.{AreLayersOf, IsRefused};
ghost use Rattle.strategy_parts.specs.Counts.{HasFewGoals, value_count};
ghost use Rattle.controller.specs.Places.{IsAt, memory_at};
ghost use Rattle.controller.specs.Replies.{IsWithoutReplies, IsToldTurn, noted_data};
ghost use Rattle.controller.specs.Spots.{EndsAt, CanGo, BeginsAgain};
ghost use Rattle.controller.specs.Objects.{IsFresh, IsStarted, game_of, StandsFor, Stands, InEachPlay, Begins, GoesOn, HoldsTheSame, GivesBack};

use crate::aims::Aim;
use crate::choosing::least_rank;
use crate::equipping::equip;
use crate::remembered::Remembered;
use crate::replies::{Noted, Replies};
use crate::settling::new_index;
use crate::spending::spend_made;
use crate::spot::Spot;
use crate::turning::{aimed, lead};
use game_play::InputJudge;
use gr1_sys::{SysLayer, SysLayers};
use regions::{Halt, MakeRefusal, Regions};
use spec_model::game::{Game, Label};
use spec_model::value::Value;
use spec_model::variables::{count_inputs, count_outputs};
use std::alloc::{AllocError, Global};

/// A play of the system's strategy. It must be closed.
pub struct Controller<G: Regions> {
    g: G,
    z: G::R,
    /// The layers of each goal.
    layers: Vec<Vec<SysLayer<G>>>,
    /// The first moves into each layer of the first goal.
    first: Vec<Aim<G>>,
    /// The later moves into each layer of each goal.
    goals: Vec<Vec<Aim<G>>>,
    /// The states at which each goal holds.
    holds: Vec<G::R>,
    place: Remembered,
    judge: InputJudge,
    /// What was chosen after earlier states, so that it needn't be looked for again.
    replies: Replies,
}

/// Room for replies, and none of them.
fn no_replies(alloc: Global, game: &Game) -> Result<Replies, AllocError>
    ensures { IfOk result (IsWithoutReplies (game_data game.now)) }
{
    let inputs = count_inputs(&game.vars);
    let outputs = count_outputs(&game.vars);
    Replies::make(
        alloc,
        game.hidden.len() + (inputs + outputs),
        inputs,
        outputs,
    )
}

/// Before the first position, a judge of the inputs, and no reply. `AllocError`: no memory was given.
fn prepared(alloc: Global, game: &Game) -> Result<(Remembered, InputJudge, Replies), AllocError>
    requires { WellMade (game_data game.now) }
    ensures { IfOk result (λ p. IsAt (game_data game.now) p.0 None first_memory × IsJudgeOf (game_data game.now) p.1 × IsWithoutReplies (game_data game.now) p.2) }
{
    let place = Remembered::make(alloc, game)?;
    let judge = InputJudge::make(alloc, game)?;
    let replies = no_replies(alloc, game)?;
    Ok((place, judge, replies))
}

/// The moves of one goal.
fn aims_of<'a, G: Regions>(goals: &'a [Vec<Aim<G>>], goal: usize) -> &'a [Aim<G>]
    requires { goal < length goals.now }
    ensures { option_map (λ v. v.items) (slice_get goals.now goal) ≡ Some result.now }
{
    &goals[goal]
}

impl<G: Regions> Controller<G> {
    /// A strategy that has made no move, for the layers that `gr1_sys::solve_sys` gave for this `g`. They are taken.
    ///
    /// `Budget`: a call of `g` answered it, for the states of a goal, for first moves into a layer of the first goal, or for
    /// later ones into a layer or a part of one. `Memory`: none was given. Then the layers are spent, and nothing else is held.
    pub fn make(alloc: Global, g: G, layers: SysLayers<G>) -> Result<Controller<G>, MakeRefusal<G>>
        requires free { (G.kept g).jam ≡ None }
        requires won { (l : LayerSets) × AreLayersOf (G.kept g) layers.z layers.goals.items l }
        ensures begins { (l : LayerSets) → AreLayersOf (G.kept g) layers.z layers.goals.items l → IfOk result (Begins G.kept (G.kept g) layers.z layers.goals.items l) }
        ensures refused { (l : LayerSets) → AreLayersOf (G.kept g) layers.z layers.goals.items l → IfErr result (λ r. IsRefused (G.kept g) (G.kept r.g) layers.z layers.goals.items r.halt) }
    {
        let mut g = g;
        let Ok((place, judge, replies)) = prepared(alloc, g.game()) else {
            layers.spend_all(&mut g);
            return Err(MakeRefusal {
                halt: Halt::Memory,
                g,
            });
        };
        match equip(alloc, &mut g, &layers.goals) {
            Ok((first, later, holds)) => {
                let SysLayers { z, goals } = layers;
                Ok(Controller {
                    g,
                    z,
                    layers: goals,
                    first,
                    goals: later,
                    holds,
                    place,
                    judge,
                    replies,
                })
            }
            Err(halt) => {
                layers.spend_all(&mut g);
                Err(MakeRefusal { halt, g })
            }
        }
    }

    /// The first assumption, in text order, that the input breaks after the play; where it breaks none it is legal. It takes
    /// no memory.
    pub fn legal(&self, input: &[Value]) -> Option<Label>
        requires stands { Stands G.kept self.now }
        requires input { IsTrue (is_input (game_of G.kept self.now) input.now) }
        ensures first { InEachPlay G.kept self.now (λ z l h b m. result ≡ first_broken (game_of G.kept self.now) b input.now) }
        ensures none { InEachPlay G.kept self.now (λ z l h b m. is_none result ≡ legal_input (game_of G.kept self.now) b input.now) }
    {
        let last = &self.place.position;
        if last.started {
            self.judge
                .first_broken_after(self.g.game(), &last.state, &last.cells, &last.next, input)
        } else {
            self.judge
                .first_broken_at_start(self.g.game(), &last.next, input)
        }
    }

    /// Whether a move was made.
    pub fn is_started(&self) -> bool
        ensures started { OnTrue result (IsStarted self.now) }
        ensures fresh { OnFalse result (IsFresh self.now) }
    {
        self.place.position.started
    }

    /// Writes the first output that is chosen.
    pub fn start(&mut self, input: &[Value], out: &mut [Value])
        requires stands { Stands G.kept self.old }
        requires fresh { IsFresh self.old }
        requires input { IsTrue (is_input (game_of G.kept self.old) input.now) }
        requires legal { InEachPlay G.kept self.old (λ z l h b m. IsTrue (legal_input (game_of G.kept self.old) b input.now)) }
        requires room { length out.old ≡ output_count (game_of G.kept self.old) }
        ensures chosen { InEachPlay G.kept self.old (λ z l h b m. (next : Memory) × GoesOn G.kept self.old self.new z l h b m input.now out.new next) }
        ensures keeps { HoldsTheSame G.kept self.old self.new }
    {
        let rank = least_rank(&mut self.g, &self.first, self.place.values(), input, out);
        self.place.go_on(self.g.game(), input, out);
        let index = new_index(&mut self.g, &self.layers, &self.place, 0, rank, false);
        self.place.remember(0, rank + 1, index);
    }

    /// Looks for the output that is chosen after the last position, and writes it.
    fn look_for(&mut self, input: &[Value], out: &mut [Value])
        requires stands { Stands G.kept self.old }
        requires started { IsStarted self.old }
        requires input { IsTrue (is_input (game_of G.kept self.old) input.now) }
        requires legal { InEachPlay G.kept self.old (λ z l h b m. IsTrue (legal_input (game_of G.kept self.old) b input.now)) }
        requires room { length out.old ≡ output_count (game_of G.kept self.old) }
        ensures chosen { InEachPlay G.kept self.old (λ z l h b m. (next : Memory) × GoesOn G.kept self.old self.new z l h b m input.now out.new next) }
        ensures keeps { HoldsTheSame G.kept self.old self.new }
        ensures replies { self.new.replies ≡ self.old.replies }
    {
        let last_goal = self.place.goal;
        let last_rank = self.place.rank;
        let last_index = self.place.index;
        let (goal, stays) = aimed(&mut self.g, &self.holds, last_goal, self.place.values());
        let (rank, waits) = lead(
            &mut self.g,
            aims_of(&self.goals, goal),
            self.place.values(),
            last_rank,
            last_index,
            stays,
            input,
            out,
        );
        self.place.go_on(self.g.game(), input, out);
        let index = new_index(&mut self.g, &self.layers, &self.place, goal, rank, waits);
        self.place.remember(goal, rank + 1, index);
    }

    /// Goes on by an output that is known, and remembers what is remembered then.
    fn repeat(&mut self, after: Noted, input: &[Value], out: &[Value])
        requires stands { Stands G.kept self.old }
        requires started { IsStarted self.old }
        requires input { IsTrue (is_input (game_of G.kept self.old) input.now) }
        requires legal { InEachPlay G.kept self.old (λ z l h b m. IsTrue (legal_input (game_of G.kept self.old) b input.now)) }
        requires told { InEachPlay G.kept self.old (λ z l h b m. IsToldTurn (game_of G.kept self.old) l b m input.now out.now (noted_data after)) }
        ensures chosen { InEachPlay G.kept self.old (λ z l h b m. (next : Memory) × GoesOn G.kept self.old self.new z l h b m input.now out.now next) }
        ensures keeps { HoldsTheSame G.kept self.old self.new }
    {
        self.place.go_on(self.g.game(), input, out);
        self.place.remember(after.goal, after.rank, after.index);
    }

    /// Looks for the output that is chosen after the last position, writes it, and keeps it as a reply.
    fn look_and_keep(&mut self, before: Noted, input: &[Value], out: &mut [Value])
        requires stands { Stands G.kept self.old }
        requires started { IsStarted self.old }
        requires input { IsTrue (is_input (game_of G.kept self.old) input.now) }
        requires legal { InEachPlay G.kept self.old (λ z l h b m. IsTrue (legal_input (game_of G.kept self.old) b input.now)) }
        requires room { length out.old ≡ output_count (game_of G.kept self.old) }
        requires before { noted_data before ≡ memory_at self.old.place }
        ensures chosen { InEachPlay G.kept self.old (λ z l h b m. (next : Memory) × GoesOn G.kept self.old self.new z l h b m input.now out.new next) }
        ensures keeps { HoldsTheSame G.kept self.old self.new }
    {
        self.replies.note(self.place.values());
        self.look_for(input, out);
        self.replies.keep(before, self.place.noted(), input, out);
    }

    /// Writes the output that is chosen after the last position.
    pub fn step(&mut self, input: &[Value], out: &mut [Value])
        requires stands { Stands G.kept self.old }
        requires started { IsStarted self.old }
        requires input { IsTrue (is_input (game_of G.kept self.old) input.now) }
        requires legal { InEachPlay G.kept self.old (λ z l h b m. IsTrue (legal_input (game_of G.kept self.old) b input.now)) }
        requires room { length out.old ≡ output_count (game_of G.kept self.old) }
        ensures chosen { InEachPlay G.kept self.old (λ z l h b m. (next : Memory) × GoesOn G.kept self.old self.new z l h b m input.now out.new next) }
        ensures keeps { HoldsTheSame G.kept self.old self.new }
    {
        let before = self.place.noted();
        match self.replies.recall(before, self.place.values(), input, out) {
            Some(after) => self.repeat(after, input, out),
            None => self.look_and_keep(before, input, out),
        }
    }

    /// Writes the state of the last position, the hidden values first, and gives its spot. It takes no memory.
    pub fn spot(&self, state: &mut [Value]) -> Spot
        requires stands { Stands G.kept self.now }
        requires started { IsStarted self.now }
        requires few { HasFewGoals (game_of G.kept self.now) }
        requires room { length state.old ≡ value_count (game_of G.kept self.now) }
        ensures ends { InEachPlay G.kept self.now (λ z l h b m. (s : State) × (b ≡ Some s) × EndsAt (game_of G.kept self.now) l h s m state.new result) }
    {
        state.copy_from_slice(self.place.values());
        self.place.spot()
    }

    /// Goes to where some play of chosen outputs ends, by its state, the hidden values first, and its spot. Then it stands for
    /// each play that ends there. It takes no memory.
    pub fn go(&mut self, state: &[Value], spot: Spot)
        requires there { CanGo G.kept self.old state.now spot }
        ensures stands { InEachPlay G.kept self.old (λ z l h b m. (to : Run) (s : State) (next : Memory) → EndsAt (game_of G.kept self.old) l to s next state.now spot → StandsFor G.kept self.new z l to (Some s) next) }
        ensures keeps { HoldsTheSame G.kept self.old self.new }
    {
        self.place.go_to(self.g.game(), state, spot);
    }

    /// Begins again, as before the first move. It takes no memory.
    pub fn again(&mut self)
        requires stands { Stands G.kept self.old }
        ensures begins { BeginsAgain G.kept self.old self.new }
        ensures keeps { HoldsTheSame G.kept self.old self.new }
    {
        self.place.start_anew(self.g.game());
    }

    /// Ends the play: all that it owns is spent.
    pub fn close(self) -> G
        requires { Stands G.kept self }
        ensures { GivesBack G.kept self result }
    {
        let Controller {
            mut g,
            z,
            layers,
            first,
            goals,
            holds,
            place: _place,
            judge: _judge,
            replies: _replies,
        } = self;
        SysLayers { z, goals: layers }.spend_all(&mut g);
        spend_made(&mut g, first, goals, holds);
        g
    }
}
