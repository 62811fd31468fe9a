//! The first moves that lead into a row, in order.

ghost use Rattle.std.specs.Prelude.{◌≡◌, map, option_map, slice_get, find};
ghost use Rattle.spec_model.specs.GameViews.{game_data};
ghost use Rattle.spec_model.specs.Games.{inputs_of, outputs_of};
ghost use Rattle.spec_model.specs.Steps.{Before};
ghost use Rattle.region_rows.specs.Rows.{bit_of};
ghost use Rattle.region_rows.specs.Into.{leads, environment_into, first_place};
ghost use Rattle.region_rows.specs.Slots.{marked};
ghost use Rattle.game_states.specs.Tables.{moves_of};
ghost use Rattle.region_rows.specs.Finds.{LeadsToStates, output_test, input_test};

use crate::moves::{all_stay, leads_into};
use crate::row::Row;
use game_states::{Numbered, place};
use spec_model::value::Value;

fn first_lead(answers: &[Option<usize>], t: &Row) -> usize
    ensures { result ≡ first_place (leads (bit_of t.now)) answers.now }
{
    for k in 0..answers.len() {
        if leads_into(answers[k], t) {
            return k;
        }
    }
    answers.len()
}

fn stays_at(answers: &Option<Vec<Option<usize>>>, t: &Row) -> bool
    ensures { result ≡ environment_into (bit_of t.now) (option_map (λ a. a.items) answers.now) }
{
    match answers {
        None => false,
        Some(answers) => all_stay(answers, t),
    }
}

fn first_stay(moves: &[Option<Vec<Option<usize>>>], t: &Row) -> usize
    ensures { result ≡ first_place (environment_into (bit_of t.now)) (map (option_map (λ a. a.items)) moves.now) }
{
    for k in 0..moves.len() {
        if stays_at(&moves[k], t) {
            return k;
        }
    }
    moves.len()
}

/// The place of the first output into the row after a legal input, or the number of outputs.
pub fn first_output(
    numbered: &Numbered,
    moves: &[Option<Vec<Option<usize>>>],
    t: &Row,
    input: &[Value],
) -> usize
    ensures { (b : Before) → LeadsToStates (game_data numbered.now.game) b → map (option_map (λ a. a.items)) moves.now ≡ moves_of (game_data numbered.now.game) b →
        slice_get (outputs_of (game_data numbered.now.game)) result ≡ find (output_test (game_data numbered.now.game) (marked (game_data numbered.now.game) t.now) b input.now) (outputs_of (game_data numbered.now.game)) }
{
    let i = place(&numbered.inputs, input);
    if i >= moves.len() {
        return numbered.outputs.len();
    }
    match &moves[i] {
        Some(answers) => first_lead(answers, t),
        None => numbered.outputs.len(),
    }
}

/// The place of the first input whose legal outputs all stay in the row, or the number of inputs.
pub fn first_input(numbered: &Numbered, moves: &[Option<Vec<Option<usize>>>], t: &Row) -> usize
    ensures { (b : Before) → LeadsToStates (game_data numbered.now.game) b → map (option_map (λ a. a.items)) moves.now ≡ moves_of (game_data numbered.now.game) b →
        slice_get (inputs_of (game_data numbered.now.game)) result ≡ find (input_test (game_data numbered.now.game) (marked (game_data numbered.now.game) t.now) b) (inputs_of (game_data numbered.now.game)) }
{
    first_stay(moves, t)
}
