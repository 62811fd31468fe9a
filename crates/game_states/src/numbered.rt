//! A game with its states numbered, and which moves lead where.

ghost use Rattle.std.specs.Prelude.{◌≡◌, ◌<◌, ◌≤◌, ◌+◌, true, Some, None, map, length, option_map, slice_get, IfOk};
ghost use Rattle.std.proofs.Props.{props};
ghost use Rattle.spec_model.specs.GameViews.{game_data};
ghost use Rattle.spec_model.proofs.OneSpelling.{IsVariableName-prop};
ghost use Rattle.spec_model.specs.Games.{inputs_of, outputs_of, step_reading};
ghost use Rattle.spec_model.specs.Moves.{has_next};
ghost use Rattle.spec_model.specs.Steps.{states_of, waits_for_output, assumptions_hold, guarantees_hold};
ghost use Rattle.spec_model.specs.WellMade.{WellMade, scope_of, is_state_formula};
ghost use Rattle.spec_model.specs.Views.{formula};
ghost use Rattle.spec_model.specs.Meaning.{holds_at};
ghost use Rattle.game_states.specs.Numbers.{hidden_choices, number_at};
ghost use Rattle.game_values.specs.Lines.{IsThere, IsBefore};
ghost use Rattle.game_states.specs.Seen.{seen as seen_data, seen_at};
ghost use Rattle.game_states.specs.Tables.{before_of, judged, is_legal_from, answer_at, answers_from, input_moves_from, moves_from, moves_of};

use crate::places::{firsts, place_of_numbers};
use game_values::lines::{all_hold, holds_between};
use game_values::read::Readout;
use spec_model::game::{Game, Goal};
use spec_model::value::Value;
use std::alloc::{AllocError, Global};

/// A game with its states numbered.
#[derive(Drop)]
pub struct Numbered {
    pub game: Game,
    /// All values of the hidden tables, all inputs and all outputs, in order.
    pub hidden: Vec<Vec<Value>>,
    pub inputs: Vec<Vec<Value>>,
    pub outputs: Vec<Vec<Value>>,
    /// What is seen of each state, by its number.
    pub seen: Vec<Readout>,
    /// Which safety assumptions wait for the output, and which safety guarantees read a next value.
    pub waits: Vec<bool>,
    pub nexts: Vec<bool>,
    pub ghost made: { WellMade (game_data game) } by { Prim.hlevel (props, IsVariableName-prop) },
    pub ghost hidden_listed: { map (λ c. c.items) hidden.items ≡ hidden_choices (game_data game) },
    pub ghost inputs_listed: { map (λ c. c.items) inputs.items ≡ inputs_of (game_data game) },
    pub ghost outputs_listed: { map (λ c. c.items) outputs.items ≡ outputs_of (game_data game) },
    pub ghost states_seen: { map seen_data seen.items ≡ map (seen_at (game_data game)) (states_of (game_data game)) },
    pub ghost waiting: { waits.items ≡ map (λ l. waits_for_output (game_data game) l.1) (game_data game).safe_asm },
    pub ghost late: { nexts.items ≡ map (λ l. has_next l.1) (game_data game).safe_gar },
}

impl Numbered {
    /// Whether the assumptions hold at the move from a state, if there is one, to another.
    fn assumptions(&self, before: Option<usize>, at: usize) -> bool
        requires { IsThere (length (states_of (game_data self.now.game))) before at }
        ensures { result ≡ judged (game_data self.now.game) (assumptions_hold (game_data self.now.game) (before_of (game_data self.now.game) before)) at }
    {
        all_hold(
            &self.game.initial_asm,
            &self.game.safe_asm,
            &self.waits,
            &self.seen,
            before,
            at,
        )
    }

    /// Whether the guarantees hold.
    fn guarantees(&self, before: Option<usize>, at: usize) -> bool
        requires { IsThere (length (states_of (game_data self.now.game))) before at }
        ensures { result ≡ judged (game_data self.now.game) (guarantees_hold (game_data self.now.game) (before_of (game_data self.now.game) before)) at }
    {
        all_hold(
            &self.game.initial_gar,
            &self.game.safe_gar,
            &self.nexts,
            &self.seen,
            before,
            at,
        )
    }

    /// The number of the first state after an input, where the hidden values have this place.
    pub fn base(&self, place: usize, i: usize) -> usize
        requires place { place < length self.now.hidden.items }
        requires input { i < length self.now.inputs.items }
        ensures number { result ≡ number_at (game_data self.now.game) place i 0 }
        ensures room { result + length self.now.outputs.items ≤ length (states_of (game_data self.now.game)) }
    {
        let outputs = self.outputs.len();
        let _states = self.seen.len();
        place * (self.inputs.len() * outputs) + i * outputs
    }

    /// Whether the input is legal to whose outputs the states from a number on belong.
    fn is_legal(&self, before: Option<usize>, base: usize) -> bool
        requires before { IsBefore (length (states_of (game_data self.now.game))) before }
        requires room { base + length self.now.outputs.items ≤ length (states_of (game_data self.now.game)) }
        ensures { result ≡ is_legal_from (game_data self.now.game) before base }
    {
        for k in 0..self.outputs.len() {
            if !self.assumptions(before, base + k) {
                return false;
            }
        }
        true
    }

    fn answer(&self, before: Option<usize>, at: usize) -> Option<usize>
        requires { IsThere (length (states_of (game_data self.now.game))) before at }
        ensures { result ≡ answer_at (game_data self.now.game) before at }
    {
        if self.guarantees(before, at) {
            Some(at)
        } else {
            None
        }
    }

    /// The states that the legal outputs lead to.
    fn answers(
        &self,
        alloc: Global,
        before: Option<usize>,
        base: usize,
    ) -> Result<Vec<Option<usize>>, AllocError>
        requires before { IsBefore (length (states_of (game_data self.now.game))) before }
        requires room { base + length self.now.outputs.items ≤ length (states_of (game_data self.now.game)) }
        ensures { IfOk result (λ v. v.items ≡ answers_from (game_data self.now.game) before base) }
    {
        let mut answers = Vec::new(alloc);
        for k in 0..self.outputs.len() {
            answers.push(self.answer(before, base + k))?;
        }
        Ok(answers)
    }

    fn input_moves(
        &self,
        alloc: Global,
        before: Option<usize>,
        base: usize,
    ) -> Result<Option<Vec<Option<usize>>>, AllocError>
        requires before { IsBefore (length (states_of (game_data self.now.game))) before }
        requires room { base + length self.now.outputs.items ≤ length (states_of (game_data self.now.game)) }
        ensures { IfOk result (λ v. option_map (λ a. a.items) v ≡ input_moves_from (game_data self.now.game) before base) }
    {
        if self.is_legal(before, base) {
            Ok(Some(self.answers(alloc, before, base)?))
        } else {
            Ok(None)
        }
    }

    /// The answers to each legal input, from a state whose next hidden values have this place.
    pub fn moves(
        &self,
        alloc: Global,
        before: Option<usize>,
        place: usize,
    ) -> Result<Vec<Option<Vec<Option<usize>>>>, AllocError>
        requires before { IsBefore (length (states_of (game_data self.now.game))) before }
        requires place { place < length self.now.hidden.items }
        ensures { IfOk result (λ v. map (option_map (λ a. a.items)) v.items ≡ moves_from (game_data self.now.game) before place) }
    {
        let mut moves = Vec::new(alloc);
        for i in 0..self.inputs.len() {
            let base = self.base(place, i);
            moves.push(self.input_moves(alloc, before, base)?)?;
        }
        Ok(moves)
    }

    /// The first moves.
    pub fn first_moves(&self, alloc: Global) -> Result<Vec<Option<Vec<Option<usize>>>>, AllocError>
        ensures { IfOk result (λ v. map (option_map (λ a. a.items)) v.items ≡ moves_of (game_data self.now.game) None) }
    {
        let firsts = firsts(alloc, &self.game.hidden)?;
        let place = place_of_numbers(&self.hidden, &firsts);
        self.moves(alloc, None, place)
    }

    /// The moves from a state.
    fn moves_after(
        &self,
        alloc: Global,
        from: usize,
    ) -> Result<Vec<Option<Vec<Option<usize>>>>, AllocError>
        requires { from < length (states_of (game_data self.now.game)) }
        ensures { IfOk result (λ v. map (option_map (λ a. a.items)) v.items ≡ moves_of (game_data self.now.game) (slice_get (states_of (game_data self.now.game)) from)) }
    {
        let place = place_of_numbers(&self.hidden, &self.seen[from].next);
        self.moves(alloc, Some(from), place)
    }

    /// The moves from each state, by its number.
    pub fn later_moves(
        &self,
        alloc: Global,
    ) -> Result<Vec<Vec<Option<Vec<Option<usize>>>>>, AllocError>
        ensures { IfOk result (λ all. map (λ v. map (option_map (λ a. a.items)) v.items) all.items ≡ map (λ s. moves_of (game_data self.now.game) (Some s)) (states_of (game_data self.now.game))) }
    {
        let mut all = Vec::new(alloc);
        for from in 0..self.seen.len() {
            all.push(self.moves_after(alloc, from)?)?;
        }
        Ok(all)
    }

    /// How many states there are.
    pub fn count(&self) -> usize
        ensures { result ≡ length (states_of (game_data self.now.game)) }
    {
        self.seen.len()
    }

    /// For each state, whether a goal holds there.
    pub fn holding(&self, alloc: Global, goal: &Goal) -> Result<Vec<bool>, AllocError>
        requires { is_state_formula (scope_of (game_data self.now.game)) (formula goal.now.holds) ≡ true }
        ensures { IfOk result (λ bits. bits.items ≡ map (λ s. holds_at (step_reading (game_data self.now.game) s s) (formula goal.now.holds) 0) (states_of (game_data self.now.game))) }
    {
        let mut bits = Vec::new(alloc);
        for at in 0..self.seen.len() {
            let moment = &self.seen[at].moment;
            bits.push(holds_between(&goal.holds, moment, moment))?;
        }
        Ok(bits)
    }
}
