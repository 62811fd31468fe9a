//! Sets of states of one game, as an object keeps them.

ghost use Rattle.std.specs.Prelude.{◌≡◌, ◌↔◌, ◌<◌, [], ◌∷◌, length, None, find, IfOk, IfErr, IsTrue};
ghost use Rattle.spec_model.specs.GameViews.{game_data};
ghost use Rattle.spec_model.specs.Games.{State, listed, inputs_of, outputs_of};
ghost use Rattle.spec_model.specs.Steps.{Before, is_state, IsClosed};
ghost use Rattle.spec_model.specs.Sets.{StateSet, all_states, no_states, both, either, rest, pre_sys, pre_env, system_forces, environment_forces, IsPartOf};
ghost use Rattle.regions.specs.Kept.{Kept, Region, Move, States, Outputs, Inputs, All, NoStates, Copy, And, Or, Not, Holding, PreSys, PreEnv, OutMoves, InMoves, StartSys, StartEnv, HasRegion, HasMove, GivesOutputs, GivesInputs, Makes, MakesRegion, Stays, Halts, Spends, IsExact, IsSameGame};
ghost use Rattle.regions.specs.Rules.{goals_like, number_of, states_holding, outputs_into, inputs_into, AreBefore, Found, input_count, output_count};

use crate::types::{Halt, Recur, When};
use spec_model::game::Game;
use spec_model::value::Value;

/// Sets of states of one game, and moves into them.
pub trait Regions {
    /// A set of states. It must be spent.
    type R;

    /// Moves that lead into a set. They must be spent.
    type Move;

    /// The game, the budget, what is held and what each stands for, and why the budget ran out, if it did.
    ghost kept: { Self → Kept Self.R Self.Move };

    fn game(&self) -> &Game
        ensures { game_data result.now ≡ (kept self.now).game };

    /// Every assignment of the domains, legal or not.
    fn all(&mut self) -> Result<Self::R, Halt>
        requires { (kept self.old).jam ≡ None }
        ensures made { IfOk result (λ r. MakesRegion (kept self.old) (kept self.new) r (all_states (kept self.old).game)) }
        ensures halted { IfErr result (Halts (kept self.old) (kept self.new) All []) }
        ensures keeps { IsSameGame (kept self.old) (kept self.new) };

    fn none(&mut self) -> Result<Self::R, Halt>
        requires { (kept self.old).jam ≡ None }
        ensures made { IfOk result (λ r. MakesRegion (kept self.old) (kept self.new) r no_states) }
        ensures halted { IfErr result (Halts (kept self.old) (kept self.new) NoStates []) }
        ensures keeps { IsSameGame (kept self.old) (kept self.new) };

    fn copy(&mut self, a: &Self::R) -> Result<Self::R, Halt>
        requires free { (kept self.old).jam ≡ None }
        requires a { HasRegion (kept self.old) a.now }
        ensures made { IfOk result (λ r. MakesRegion (kept self.old) (kept self.new) r ((kept self.old).set a.now)) }
        ensures halted { IfErr result (Halts (kept self.old) (kept self.new) Copy (States ((kept self.old).set a.now) ∷ [])) }
        ensures keeps { IsSameGame (kept self.old) (kept self.new) };

    fn and(&mut self, a: &Self::R, b: &Self::R) -> Result<Self::R, Halt>
        requires free { (kept self.old).jam ≡ None }
        requires a { HasRegion (kept self.old) a.now }
        requires b { HasRegion (kept self.old) b.now }
        ensures made { let set = (kept self.old).set in
            IfOk result (λ r. MakesRegion (kept self.old) (kept self.new) r (both (set a.now) (set b.now))) }
        ensures halted { let set = (kept self.old).set in
            IfErr result (Halts (kept self.old) (kept self.new) And (States (set a.now) ∷ States (set b.now) ∷ [])) }
        ensures keeps { IsSameGame (kept self.old) (kept self.new) };

    fn or(&mut self, a: &Self::R, b: &Self::R) -> Result<Self::R, Halt>
        requires free { (kept self.old).jam ≡ None }
        requires a { HasRegion (kept self.old) a.now }
        requires b { HasRegion (kept self.old) b.now }
        ensures made { let set = (kept self.old).set in
            IfOk result (λ r. MakesRegion (kept self.old) (kept self.new) r (either (set a.now) (set b.now))) }
        ensures halted { let set = (kept self.old).set in
            IfErr result (Halts (kept self.old) (kept self.new) Or (States (set a.now) ∷ States (set b.now) ∷ [])) }
        ensures keeps { IsSameGame (kept self.old) (kept self.new) };

    fn not(&mut self, a: &Self::R) -> Result<Self::R, Halt>
        requires free { (kept self.old).jam ≡ None }
        requires a { HasRegion (kept self.old) a.now }
        ensures made { let k = kept self.old in
            IfOk result (λ r. MakesRegion k (kept self.new) r (rest k.game (k.set a.now))) }
        ensures halted { let k = kept self.old in
            IfErr result (Halts k (kept self.new) Not (States (k.set a.now) ∷ [])) }
        ensures keeps { IsSameGame (kept self.old) (kept self.new) };

    /// The states at which a goal holds.
    fn holding(&mut self, what: Recur) -> Result<Self::R, Halt>
        requires free { (kept self.old).jam ≡ None }
        requires there { number_of what < length (goals_like (kept self.old).game what) }
        ensures made { let k = kept self.old in
            IfOk result (λ r. MakesRegion k (kept self.new) r (states_holding k.game what)) }
        ensures halted { IfErr result (Halts (kept self.old) (kept self.new) Holding []) }
        ensures keeps { IsSameGame (kept self.old) (kept self.new) };

    /// The states from which every legal next input has a legal output that leads into `t`.
    fn pre_sys(&mut self, t: &Self::R) -> Result<Self::R, Halt>
        requires free { (kept self.old).jam ≡ None }
        requires t { HasRegion (kept self.old) t.now }
        ensures made { let k = kept self.old in
            IfOk result (λ r. MakesRegion k (kept self.new) r (pre_sys k.game (k.set t.now))) }
        ensures halted { let k = kept self.old in
            IfErr result (Halts k (kept self.new) PreSys (States (k.set t.now) ∷ [])) }
        ensures keeps { IsSameGame (kept self.old) (kept self.new) };

    /// The states from which some legal next input leads into `t` under every legal output.
    fn pre_env(&mut self, t: &Self::R) -> Result<Self::R, Halt>
        requires free { (kept self.old).jam ≡ None }
        requires t { HasRegion (kept self.old) t.now }
        ensures made { let k = kept self.old in
            IfOk result (λ r. MakesRegion k (kept self.new) r (pre_env k.game (k.set t.now))) }
        ensures halted { let k = kept self.old in
            IfErr result (Halts k (kept self.new) PreEnv (States (k.set t.now) ∷ [])) }
        ensures keeps { IsSameGame (kept self.old) (kept self.new) };

    /// The legal outputs that lead into `t`, after each state and legal input.
    fn out_moves(&mut self, when: When, t: &Self::R) -> Result<Self::Move, Halt>
        requires free { (kept self.old).jam ≡ None }
        requires t { HasRegion (kept self.old) t.now }
        ensures made { let k = kept self.old in
            IfOk result (λ m. Makes k (kept self.new) (Move m) (Outputs when (k.set t.now))) }
        ensures halted { let k = kept self.old in
            IfErr result (Halts k (kept self.new) (OutMoves when) (States (k.set t.now) ∷ [])) }
        ensures keeps { IsSameGame (kept self.old) (kept self.new) };

    /// The legal inputs all of whose legal outputs lead into `t`, after each state.
    fn in_moves(&mut self, when: When, t: &Self::R) -> Result<Self::Move, Halt>
        requires free { (kept self.old).jam ≡ None }
        requires t { HasRegion (kept self.old) t.now }
        ensures made { let k = kept self.old in
            IfOk result (λ m. Makes k (kept self.new) (Move m) (Inputs when (k.set t.now))) }
        ensures halted { let k = kept self.old in
            IfErr result (Halts k (kept self.new) (InMoves when) (States (k.set t.now) ∷ [])) }
        ensures keeps { IsSameGame (kept self.old) (kept self.new) };

    /// Whether every legal first input has a legal first output into `t`.
    fn start_sys(&mut self, t: &Self::R) -> Result<bool, Halt>
        requires free { (kept self.old).jam ≡ None }
        requires t { HasRegion (kept self.old) t.now }
        ensures answer { let k = kept self.old in IfOk result (λ yes. yes ≡ system_forces k.game (k.set t.now) None) }
        ensures held { IfOk result (λ _. Stays (kept self.old) (kept self.new)) }
        ensures halted { let k = kept self.old in
            IfErr result (Halts k (kept self.new) StartSys (States (k.set t.now) ∷ [])) }
        ensures keeps { IsSameGame (kept self.old) (kept self.new) };

    /// Whether some legal first input has all its legal first outputs in `t`.
    fn start_env(&mut self, t: &Self::R) -> Result<bool, Halt>
        requires free { (kept self.old).jam ≡ None }
        requires t { HasRegion (kept self.old) t.now }
        ensures answer { let k = kept self.old in IfOk result (λ yes. yes ≡ environment_forces k.game (k.set t.now) None) }
        ensures held { IfOk result (λ _. Stays (kept self.old) (kept self.new)) }
        ensures halted { let k = kept self.old in
            IfErr result (Halts k (kept self.new) StartEnv (States (k.set t.now) ∷ [])) }
        ensures keeps { IsSameGame (kept self.old) (kept self.new) };

    fn same(&self, a: &Self::R, b: &Self::R) -> bool
        requires a { HasRegion (kept self.now) a.now }
        requires b { HasRegion (kept self.now) b.now }
        ensures { IsTrue result ↔ (kept self.now).set a.now ≡ (kept self.now).set b.now };

    fn has(&mut self, a: &Self::R, state: &[Value]) -> bool
        requires a { HasRegion (kept self.old) a.now }
        ensures answer { (s : State) → IsTrue (is_state (kept self.old).game s) → listed s ≡ state.now → result ≡ (kept self.old).set a.now s }
        ensures held { Stays (kept self.old) (kept self.new) }
        ensures keeps { IsSameGame (kept self.old) (kept self.new) };

    /// Writes the first output, in order, that the moves give after the state and the input.
    fn first_out(
        &mut self,
        m: &Self::Move,
        state: &[Value],
        input: &[Value],
        out: &mut [Value],
    ) -> bool
        requires m { HasMove (kept self.old) m.now }
        requires kind { GivesOutputs (kept self.old) m.now }
        requires room { length out.old ≡ output_count (kept self.old).game }
        ensures first { let k = kept self.old in (when : When) (t : StateSet) (b : Before) → k.choice m.now ≡ Outputs when t →
            AreBefore k.game when b state.now → Found result out.new (find (outputs_into k.game when t b input.now) (outputs_of k.game)) }
        ensures held { Stays (kept self.old) (kept self.new) }
        ensures keeps { IsSameGame (kept self.old) (kept self.new) };

    /// Writes the first input, in order, that the moves give after the state.
    fn first_in(&mut self, m: &Self::Move, state: &[Value], input: &mut [Value]) -> bool
        requires m { HasMove (kept self.old) m.now }
        requires kind { GivesInputs (kept self.old) m.now }
        requires room { length input.old ≡ input_count (kept self.old).game }
        ensures first { let k = kept self.old in (when : When) (t : StateSet) (b : Before) → k.choice m.now ≡ Inputs when t →
            AreBefore k.game when b state.now → Found result input.new (find (inputs_into k.game when t b) (inputs_of k.game)) }
        ensures held { Stays (kept self.old) (kept self.new) }
        ensures keeps { IsSameGame (kept self.old) (kept self.new) };

    fn spend(&mut self, a: Self::R)
        requires { HasRegion (kept self.old) a }
        ensures spends { Spends (kept self.old) (kept self.new) (Region a) }
        ensures keeps { IsSameGame (kept self.old) (kept self.new) };

    fn spend_move(&mut self, m: Self::Move)
        requires { HasMove (kept self.old) m }
        ensures spends { Spends (kept self.old) (kept self.new) (Move m) }
        ensures keeps { IsSameGame (kept self.old) (kept self.new) };

    /// What is held stands for one thing.
    ghost exact: { (g : Self) → IsExact (kept g) };

    /// A region has only states of the game.
    ghost proper: { (g : Self) (r : Self.R) → HasRegion (kept g) r → IsPartOf ((kept g).set r) (all_states (kept g).game) };

    /// A step from a state of the game leads to a state of the game.
    ghost closed: { (g : Self) → IsClosed (kept g).game };
}
