//! What is remembered after a position.

ghost use Rattle.std.specs.Prelude.{◌≡◌, ◌<◌, ℕ, length, IsTrue};
ghost use Rattle.spec_model.specs.Values.{Assignment};
ghost use Rattle.spec_model.specs.Games.{State, listed};
ghost use Rattle.spec_model.specs.Sets.{StateSet};
ghost use Rattle.spec_model.specs.Steps.{Before, is_state};
ghost use Rattle.regions.specs.Kept.{Stays, IsSameGame};
ghost use Rattle.gr1_law.specs.Layers.{LayerSets, IsLeastNumber};
ghost use Rattle.gr1_law.specs.Choice.{Memory};
ghost use Rattle.controller.specs.Settled.{Settles};
ghost use Rattle.controller.specs.Aims.{LayersAre};
ghost use Rattle.gr1_sys.specs.Held.{HaveParts};

use crate::choosing::least_index;
use crate::remembered::Remembered;
use gr1_sys::SysLayer;
use regions::Regions;
use spec_model::value::Value;

/// The number of the first part of a layer that has the state.
fn first_part<G: Regions>(g: &mut G, layers: &[SysLayer<G>], rank: usize, state: &[Value]) -> usize
    requires rank { rank < length layers.now }
    requires layers { (x : ℕ → ℕ → StateSet) × LayersAre (G.kept g.old) layers.now x }
    ensures first { let k = G.kept g.old in (x : ℕ → ℕ → StateSet) (n : ℕ) (s : State) (i : ℕ) → LayersAre k layers.now x → HaveParts n layers.now → IsTrue (is_state k.game s) → listed s ≡ state.now →
        IsLeastNumber (λ m. IsTrue (x rank m s)) i → i < n → result ≡ i }
    ensures held { Stays (G.kept g.old) (G.kept g.new) }
    ensures keeps { IsSameGame (G.kept g.old) (G.kept g.new) }
{
    least_index(g, &layers[rank].x, state)
}

/// The index that is remembered after a position: where the play waits the same, else that of the first part with the state.
pub fn new_index<G: Regions>(
    g: &mut G,
    goals: &[Vec<SysLayer<G>>],
    place: &Remembered,
    goal: usize,
    rank: usize,
    waits: bool,
) -> usize
    requires { (l : LayerSets) × (b : Before) × (m : Memory) × (x : Assignment) × (y : Assignment) × (next : Memory) × Settles (G.kept g.old) goals.now place.now goal rank waits l b m x y next }
    ensures index { let k = G.kept g.old in (l : LayerSets) (b : Before) (m : Memory) (x : Assignment) (y : Assignment) (next : Memory) →
        Settles k goals.now place.now goal rank waits l b m x y next → result ≡ next.index }
    ensures held { Stays (G.kept g.old) (G.kept g.new) }
    ensures keeps { IsSameGame (G.kept g.old) (G.kept g.new) }
{
    if waits {
        place.index
    } else {
        first_part(g, &goals[goal], rank, place.values())
    }
}
