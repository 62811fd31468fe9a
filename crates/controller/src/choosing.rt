//! The least rank that a legal output reaches, and the least index of a part that has a state.

ghost use Rattle.std.specs.Prelude.{◌≡◌, ◌<◌, ℕ, length, IsTrue};
ghost use Rattle.spec_model.specs.Values.{Assignment};
ghost use Rattle.spec_model.specs.Games.{State, listed};
ghost use Rattle.spec_model.specs.Steps.{Before, is_state};
ghost use Rattle.spec_model.specs.Sets.{StateSet};
ghost use Rattle.regions.specs.declared.types.When.{When};
ghost use Rattle.regions.specs.Kept.{Stays, IsSameGame};
ghost use Rattle.regions.specs.Rules.{AreBefore, output_count};
ghost use Rattle.gr1_law.specs.Layers.{IsLeastNumber};
ghost use Rattle.strategy_parts.specs.Owned.{AreSomewhere, RegionsAre};
ghost use Rattle.controller.specs.Aims.{LeadSomewhere, AimsLead};
ghost use Rattle.controller.specs.Turns.{IsFirstReached};

use crate::aims::Aim;
use regions::Regions;
use spec_model::value::Value;

/// The number of the first of some layers that a legal output leads into; the first such output is written.
pub fn least_rank<G: Regions>(
    g: &mut G,
    aims: &[Aim<G>],
    state: &[Value],
    input: &[Value],
    out: &mut [Value],
) -> usize
    requires aims { LeadSomewhere (G.kept g.old) aims.now }
    requires room { length out.old ≡ output_count (G.kept g.old).game }
    ensures least { let k = G.kept g.old in (when : When) (y : ℕ → StateSet) (x : ℕ → ℕ → StateSet) (b : Before) (r : ℕ) (reply : Assignment) →
        AimsLead k when aims.now y x → AreBefore k.game when b state.now → IsFirstReached k.game when y b input.now r reply → r < length aims.now →
        (result ≡ r) × (out.new ≡ reply) }
    ensures held { Stays (G.kept g.old) (G.kept g.new) }
    ensures keeps { IsSameGame (G.kept g.old) (G.kept g.new) }
{
    for r in 0..aims.len() {
        if g.first_out(&aims[r].layer, state, input, out) {
            return r;
        }
    }
    aims.len()
}

/// The number of the first of some regions that has the state, where one of them has it: so the last isn't asked.
pub fn least_index<G: Regions>(g: &mut G, regions: &[G::R], state: &[Value]) -> usize
    requires { AreSomewhere (G.kept g.old) regions.now }
    ensures least { let k = G.kept g.old in (sets : ℕ → StateSet) (s : State) (i : ℕ) → RegionsAre k regions.now sets → IsTrue (is_state k.game s) → listed s ≡ state.now →
        IsLeastNumber (λ n. IsTrue (sets n s)) i → i < length regions.now → result ≡ i }
    ensures held { Stays (G.kept g.old) (G.kept g.new) }
    ensures keeps { IsSameGame (G.kept g.old) (G.kept g.new) }
{
    let last = regions.len().saturating_sub(1);
    for i in 0..last {
        if g.has(&regions[i], state) {
            return i;
        }
    }
    last
}
