//! Regions as rows.

ghost use Rattle.std.specs.Prelude.{◌≡◌, ◌<◌, ◌↔◌, [], None, Some, map, option_map, length, slice_get, find, true, IfOk, IsErrOf, IsTrue};
ghost use Rattle.spec_model.specs.GameViews.{game_data};
ghost use Rattle.spec_model.specs.Steps.{Before, is_state, states_of};
ghost use Rattle.spec_model.specs.WellMade.{WellMade, scope_of, is_state_formula};
ghost use Rattle.spec_model.specs.Views.{formula};
ghost use Rattle.spec_model.specs.Meaning.{holds_at};
ghost use Rattle.region_rows.specs.Rows.{Shows};
ghost use Rattle.game_states.specs.Tables.{moves_of};
ghost use Rattle.region_rows.specs.Slots.{kept_in, marked, content_meaning, content_at};
ghost use Rattle.region_rows.specs.Finds.{output_test, input_test};
ghost use Rattle.spec_model.specs.Games.{State, listed, inputs_of, outputs_of, step_reading};
ghost use Rattle.spec_model.specs.Sets.{StateSet};
ghost use Rattle.regions.specs.Kept.{Outputs, Inputs};
ghost use Rattle.regions.specs.Rules.{outputs_into, inputs_into, AreBefore, Found, output_count, input_count, goals_like, number_of, states_holding};

use crate::finding::{first_input, first_output};
use crate::row::{self, Row};
use crate::slots::{RowMove, Slot, Slots};
use game_states::{Numbered, PAST, number, state_count};
use regions::{Recur, When};
use spec_model::game::{Game, Goal};
use spec_model::value::Value;
use std::alloc::{AllocError, Global};

/// Why no rows were made.
#[derive(Clone, Copy, Debug, PartialEq, Eq)]
pub enum RowsRefusal {
    /// There are more than 1,024 states.
    TooManyStates,
    /// No memory was given.
    Memory,
}

/// Regions over a game of at most 1,024 states.
#[derive(Drop)]
pub struct RegionRows {
    pub alloc: Global,
    pub numbered: Numbered,
    pub first: Vec<Option<Vec<Option<usize>>>>,
    pub later: Vec<Vec<Option<Vec<Option<usize>>>>>,
    pub slots: Slots,
    pub ghost first_moves: { map (option_map (λ a. a.items)) first.items ≡ moves_of (game_data numbered.game) None },
    pub ghost later_moves: { map (λ v. map (option_map (λ a. a.items)) v.items) later.items ≡ map (λ s. moves_of (game_data numbered.game) (Some s)) (states_of (game_data numbered.game)) },
}

fn tabulated(alloc: Global, game: Game) -> Result<RegionRows, AllocError>
    requires { WellMade (game_data game) }
    ensures { IfOk result (λ r. kept_in (game_data r.numbered.game) r.slots.slots.items ≡ kept_in (game_data game) []) }
{
    let numbered = number(alloc, game)?;
    let first = numbered.first_moves(alloc)?;
    let later = numbered.later_moves(alloc)?;
    let slots = Slots {
        slots: Vec::new(alloc),
        free: 0,
    };
    Ok(RegionRows {
        alloc,
        numbered,
        first,
        later,
        slots,
    })
}

impl RegionRows {
    /// Tabulates the moves of a game. Nothing is held at first. `TooManyStates` past 1,024 states, `Memory` where none was given.
    pub fn make(alloc: Global, game: Game) -> Result<RegionRows, RowsRefusal>
        requires { WellMade (game_data game) }
        ensures made { IfOk result (λ r. kept_in (game_data r.numbered.game) r.slots.slots.items ≡ kept_in (game_data game) []) }
        ensures too_many { IsErrOf result RowsRefusal.TooManyStates ↔ 1024 < length (states_of (game_data game)) }
    {
        if state_count(&game) == PAST {
            return Err(RowsRefusal::TooManyStates);
        }
        match tabulated(alloc, game) {
            Ok(rows) => Ok(rows),
            Err(_) => Err(RowsRefusal::Memory),
        }
    }

    /// Writes the first output, in order, that the moves give after the state and the input.
    pub fn find_output(
        &self,
        m: &RowMove,
        state: &[Value],
        input: &[Value],
        out: &mut [Value],
    ) -> bool
        requires there { m.now.slot < length self.now.slots.slots.items }
        requires room { length out.old ≡ output_count (game_data self.now.numbered.game) }
        ensures { let g = game_data self.now.numbered.game in (when : When) (t : StateSet) (b : Before) → content_meaning g (content_at self.now.slots.slots.items m.now.slot) ≡ Outputs when t →
            AreBefore g when b state.now → Found result out.new (find (outputs_into g when t b input.now) (outputs_of g)) }
    {
        match &self.slots.slots[m.slot] {
            Slot::Outputs(when, row) => self.output_when(*when, row, state, input, out),
            _ => false,
        }
    }

    fn output_when(
        &self,
        when: When,
        row: &Row,
        state: &[Value],
        input: &[Value],
        out: &mut [Value],
    ) -> bool
        requires { length out.old ≡ output_count (game_data self.now.numbered.game) }
        ensures { let g = game_data self.now.numbered.game in (b : Before) →
            AreBefore g when b state.now → Found result out.new (find (outputs_into g when (marked g row.now) b input.now) (outputs_of g)) }
    {
        let k = match when {
            When::First => first_output(&self.numbered, &self.first, row, input),
            When::Later => self.later_output(row, state, input),
        };
        self.numbered.write_output(k, out)
    }

    fn later_output(&self, row: &Row, state: &[Value], input: &[Value]) -> usize
        ensures { let g = game_data self.now.numbered.game in (s : State) → IsTrue (is_state g s) → listed s ≡ state.now →
            slice_get (outputs_of g) result ≡ find (output_test g (marked g row.now) (Some s) input.now) (outputs_of g) }
    {
        match self.numbered.number_of(state) {
            Some(p) => {
                if p < self.later.len() {
                    return first_output(&self.numbered, &self.later[p], row, input);
                }
                self.numbered.outputs.len()
            }
            None => self.numbered.outputs.len(),
        }
    }

    /// Writes the first input, in order, that the moves give after the state.
    pub fn find_input(&self, m: &RowMove, state: &[Value], input: &mut [Value]) -> bool
        requires there { m.now.slot < length self.now.slots.slots.items }
        requires room { length input.old ≡ input_count (game_data self.now.numbered.game) }
        ensures { let g = game_data self.now.numbered.game in (when : When) (t : StateSet) (b : Before) → content_meaning g (content_at self.now.slots.slots.items m.now.slot) ≡ Inputs when t →
            AreBefore g when b state.now → Found result input.new (find (inputs_into g when t b) (inputs_of g)) }
    {
        match &self.slots.slots[m.slot] {
            Slot::Inputs(when, row) => self.input_when(*when, row, state, input),
            _ => false,
        }
    }

    fn input_when(&self, when: When, row: &Row, state: &[Value], input: &mut [Value]) -> bool
        requires { length input.old ≡ input_count (game_data self.now.numbered.game) }
        ensures { let g = game_data self.now.numbered.game in (b : Before) →
            AreBefore g when b state.now → Found result input.new (find (inputs_into g when (marked g row.now) b) (inputs_of g)) }
    {
        let k = match when {
            When::First => first_input(&self.numbered, &self.first, row),
            When::Later => self.later_input(row, state),
        };
        self.numbered.write_input(k, input)
    }

    fn later_input(&self, row: &Row, state: &[Value]) -> usize
        ensures { let g = game_data self.now.numbered.game in (s : State) → IsTrue (is_state g s) → listed s ≡ state.now →
            slice_get (inputs_of g) result ≡ find (input_test g (marked g row.now) (Some s)) (inputs_of g) }
    {
        match self.numbered.number_of(state) {
            Some(p) => {
                if p < self.later.len() {
                    return first_input(&self.numbered, &self.later[p], row);
                }
                self.numbered.inputs.len()
            }
            None => self.numbered.inputs.len(),
        }
    }

    /// The states at which one goal holds.
    fn row_of(&self, goal: &Goal) -> Result<Row, AllocError>
        requires { is_state_formula (scope_of (game_data self.now.numbered.game)) (formula goal.now.holds) ≡ true }
        ensures { IfOk result (λ row. Shows row (map (λ s. holds_at (step_reading (game_data self.now.numbered.game) s s) (formula goal.now.holds) 0) (states_of (game_data self.now.numbered.game)))) }
    {
        let bits = self.numbered.holding(self.alloc, goal)?;
        row::packed(self.alloc, &bits)
    }

    /// The states at which a goal holds.
    pub fn goal_row(&self, what: Recur) -> Result<Row, AllocError>
        requires { number_of what < length (goals_like (game_data self.now.numbered.game) what) }
        ensures { IfOk result (λ row. marked (game_data self.now.numbered.game) row ≡ states_holding (game_data self.now.numbered.game) what) }
    {
        match what {
            Recur::Assumption(k) => self.row_of(&self.numbered.game.assume[k]),
            Recur::Guarantee(k) => self.row_of(&self.numbered.game.goals[k]),
        }
    }
}
