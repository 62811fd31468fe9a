//! Whether a region has a state, and the first moves into it. Nothing here takes memory.

ghost use Rattle.std.specs.Prelude.{◌≡◌, length, find, IsTrue};
ghost use Rattle.spec_model.specs.Games.{State, listed, inputs_of, outputs_of};
ghost use Rattle.spec_model.specs.Steps.{Before, is_state};
ghost use Rattle.spec_model.specs.Sets.{StateSet};
ghost use Rattle.regions.specs.declared.types.When.{When};
ghost use Rattle.regions.specs.Kept.{Outputs, Inputs, HasRegion, HasMove, GivesOutputs, GivesInputs, Stays, IsSameGame};
ghost use Rattle.regions.specs.Rules.{outputs_into, inputs_into, AreBefore, Found, input_count, output_count};
ghost use Rattle.region_bdd.specs.Seen.{seen};

use crate::finding::{ask_inputs, ask_outputs, fix_before, fix_move};
use crate::object::RegionBdd;
use crate::slots::{BddMove, BddRegion, Content};
use bdd_search::{fit, read};
use game_values::seen::At;
use spec_model::value::Value;

impl RegionBdd {
    /// Whether the region has the state.
    pub fn has(&mut self, a: &BddRegion, state: &[Value]) -> bool
        requires a { HasRegion (seen self.old) a.now }
        ensures answer { let k = seen self.old in (s : State) → IsTrue (is_state k.game s) →
            listed s ≡ state.now → result ≡ k.set a.now s }
        ensures held { Stays (seen self.old) (seen self.new) }
        ensures keeps { IsSameGame (seen self.old) (seen self.new) }
    {
        if !fit(&self.codes, 0, self.codes.count(), state) {
            return false;
        }
        self.codes.write(At::Now, state, &mut self.search.bits);
        let root = self.slots.region(a);
        self.diagrams
            .eval(root, &self.search.bits, &mut self.search.all)
    }

    /// Writes the first output, in order, that the moves give after the state and the input.
    pub fn first_out(
        &mut self,
        m: &BddMove,
        state: &[Value],
        input: &[Value],
        out: &mut [Value],
    ) -> bool
        requires m { HasMove (seen self.old) m.now }
        requires kind { GivesOutputs (seen self.old) m.now }
        requires room { length out.old ≡ output_count (seen self.old).game }
        ensures first { let k = seen self.old in (when : When) (t : StateSet) (b : Before) →
            k.choice m.now ≡ Outputs when t → AreBefore k.game when b state.now →
            Found result out.new (find (outputs_into k.game when t b input.now) (outputs_of k.game)) }
        ensures held { Stays (seen self.old) (seen self.new) }
        ensures keeps { IsSameGame (seen self.old) (seen self.new) }
    {
        let Content::Outputs(when, target) = self.slots.content(m.slot) else {
            unreachable!()
        };
        let from = self.game.hidden.len();
        let count = self.codes.count();
        let end = count - out.len();
        let search = &mut self.search;
        if !fix_move(
            &self.codes,
            *when,
            state,
            from,
            end,
            input,
            &mut search.fixed,
        ) {
            return false;
        }
        ask_outputs(&mut search.all, &self.diagrams, &self.own, *when, target);
        if !self
            .diagrams
            .first_common_path(&mut search.all, &search.fixed, &mut search.bits)
        {
            return false;
        }
        read(&self.codes, At::Next, end, count, &search.bits, out);
        true
    }

    /// Writes the first input, in order, that the moves give after the state.
    pub fn first_in(&mut self, m: &BddMove, state: &[Value], input: &mut [Value]) -> bool
        requires m { HasMove (seen self.old) m.now }
        requires kind { GivesInputs (seen self.old) m.now }
        requires room { length input.old ≡ input_count (seen self.old).game }
        ensures first { let k = seen self.old in (when : When) (t : StateSet) (b : Before) →
            k.choice m.now ≡ Inputs when t → AreBefore k.game when b state.now →
            Found result input.new (find (inputs_into k.game when t b) (inputs_of k.game)) }
        ensures held { Stays (seen self.old) (seen self.new) }
        ensures keeps { IsSameGame (seen self.old) (seen self.new) }
    {
        let Content::Inputs(when, _, leads) = self.slots.content(m.slot) else {
            unreachable!()
        };
        let from = self.game.hidden.len();
        let end = from + input.len();
        let search = &mut self.search;
        if !fix_before(&self.codes, *when, state, &mut search.fixed) {
            return false;
        }
        let members = self.own.members(*when);
        ask_inputs(&mut search.all, &self.diagrams, members, leads);
        if !self
            .diagrams
            .first_common_path(&mut search.all, &search.fixed, &mut search.bits)
        {
            return false;
        }
        read(&self.codes, At::Next, from, end, &search.bits, input);
        true
    }
}
