//! The number of a state by its values, and moves by their places.

ghost use Rattle.std.specs.Prelude.{◌≡◌, ◌≤◌, ◌<◌, not, Some, None, IsTrue, take, drop, length, slice_get, if◌then◌else◌};
ghost use Rattle.spec_model.specs.GameViews.{game_data};
ghost use Rattle.spec_model.specs.Games.{State, listed, inputs_of, outputs_of};
ghost use Rattle.spec_model.specs.Moves.{is_env, domains_of};
ghost use Rattle.spec_model.specs.Steps.{is_state};
ghost use Rattle.game_states.specs.Numbers.{number_at, number_of_state};

use crate::choices::place;
use crate::numbered::Numbered;
use spec_model::value::Value;
use spec_model::variables::count_inputs;

fn front(values: &[Value], n: usize) -> &[Value]
    requires { n ≤ length values.now }
    ensures { result.now ≡ take n values.now }
{
    &values[..n]
}

fn back(values: &[Value], n: usize) -> &[Value]
    requires { n ≤ length values.now }
    ensures { result.now ≡ drop n values.now }
{
    &values[n..]
}

impl Numbered {
    /// The number of the state at three places, if there is one.
    fn number_with(&self, h: usize, i: usize, o: usize) -> Option<usize>
        ensures { h < length self.now.hidden.items → i < length self.now.inputs.items → o < length self.now.outputs.items → result ≡ Some (number_at (game_data self.now.game) h i o) }
    {
        if h < self.hidden.len() && i < self.inputs.len() && o < self.outputs.len() {
            Some(self.base(h, i) + o)
        } else {
            None
        }
    }

    /// The number of a state, by its values.
    pub fn number_of(&self, state: &[Value]) -> Option<usize>
        ensures { (s : State) → IsTrue (is_state (game_data self.now.game) s) → listed s ≡ state.now → result ≡ Some (number_of_state (game_data self.now.game) s) }
    {
        let tables = self.game.hidden.len();
        let inputs = count_inputs(&self.game.vars);
        if state.len() < tables {
            return None;
        }
        let moves = back(state, tables);
        if moves.len() < inputs {
            return None;
        }
        let h = place(&self.hidden, front(state, tables));
        let i = place(&self.inputs, front(moves, inputs));
        let o = place(&self.outputs, back(moves, inputs));
        self.number_with(h, i, o)
    }

    /// Writes an output, if there is one at the place.
    pub fn write_output(&self, k: usize, out: &mut [Value]) -> bool
        requires { length out.old ≡ length (domains_of (λ o. not (is_env o)) (game_data self.now.game).variables) }
        ensures { slice_get (outputs_of (game_data self.now.game)) k ≡ (if result then Some out.new else None) }
    {
        if k < self.outputs.len() {
            out.copy_from_slice(&self.outputs[k]);
            true
        } else {
            false
        }
    }

    /// Writes an input, if there is one at the place.
    pub fn write_input(&self, k: usize, out: &mut [Value]) -> bool
        requires { length out.old ≡ length (domains_of is_env (game_data self.now.game).variables) }
        ensures { slice_get (inputs_of (game_data self.now.game)) k ≡ (if result then Some out.new else None) }
    {
        if k < self.inputs.len() {
            out.copy_from_slice(&self.inputs[k]);
            true
        } else {
            false
        }
    }
}
