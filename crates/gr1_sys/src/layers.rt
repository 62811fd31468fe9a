//! The layers of the system's winning states.

ghost use Rattle.std.specs.Prelude.{◌≡◌, ◌+◌, ◌≤◌, ◌∷◌, sum};
ghost use Rattle.regions.specs.Kept.{IsSameGame};
ghost use Rattle.gr1_law.specs.Layers.{round_count};
ghost use Rattle.gr1_sys.specs.Held.{HasTogether, SpendsAll, ranks_of, all_regions};

use crate::spending::spend_goals;
use regions::Regions;

/// One layer of a goal: `y` is the union of its parts, and `x` has the part of each assumption, in text order. All must be spent.
pub struct SysLayer<G: Regions> {
    pub y: G::R,
    pub x: Vec<G::R>,
}

/// The system's winning states, and the layers of each goal, in text order, from rank 1 to its greatest. All must be spent.
pub struct SysLayers<G: Regions> {
    pub z: G::R,
    pub goals: Vec<Vec<SysLayer<G>>>,
    pub ghost counted: { 1 + sum (ranks_of goals.items) ≤ 18446744073709551615 },
}

impl<G: Regions> SysLayers<G> {
    /// K, in rounds: one more than the greatest ranks together. It takes no memory.
    pub fn k(&self) -> u64
        ensures { result ≡ round_count (ranks_of self.now.goals.items) }
    {
        let mut k = 1;
        for layers in &self.goals {
            k += layers.len() as u64;
        }
        k
    }

    /// Spends Z and all layers.
    pub fn spend_all(self, g: &mut G)
        requires { HasTogether (G.kept g.old) (self.z ∷ all_regions self.goals.items) }
        ensures spends { SpendsAll (G.kept g.old) (G.kept g.new) (self.z ∷ all_regions self.goals.items) }
        ensures keeps { IsSameGame (G.kept g.old) (G.kept g.new) }
    {
        let SysLayers { z, goals } = self;
        g.spend(z);
        spend_goals(g, goals);
    }
}
