//! The layers of the environment's winning states.

ghost use Rattle.std.specs.Prelude.{◌≡◌, ◌≤◌, length};
ghost use Rattle.regions.specs.Kept.{IsSameGame};
ghost use Rattle.gr1_sys.specs.Held.{HasTogether, SpendsAll};
ghost use Rattle.gr1_env.specs.Held.{all_regions};
ghost use Rattle.gr1_env.specs.Solved.{denials_of};

use crate::numbers::denials;
use crate::spending::spend_layers;
use regions::Regions;

/// The hold of one goal above a layer: `y` are its states, and `x` has for each assumption, in text order, its iterates from
/// rank 1 to the greatest. All must be spent.
pub struct EnvGoal<G: Regions> {
    pub y: G::R,
    pub x: Vec<Vec<G::R>>,
}

/// One layer: `z` is the union of the holds, and `goals` has that of each goal, in text order. All must be spent.
pub struct EnvLayer<G: Regions> {
    pub z: G::R,
    pub goals: Vec<EnvGoal<G>>,
}

/// The layers from 1 to the last, which has the environment's winning states. All must be spent.
pub struct EnvLayers<G: Regions> {
    pub layers: Vec<EnvLayer<G>>,
    pub ghost counted: { denials_of layers.items ≤ 18446744073709551615 },
}

impl<G: Regions> EnvLayers<G> {
    /// N, the most shifts of a play: how many layers there are. It takes no memory.
    pub fn n(&self) -> u64
        ensures { result ≡ length self.now.layers.items }
    {
        self.layers.len() as u64
    }

    /// M, in positions: one more than the most iterates of one hold. It takes no memory.
    pub fn m(&self) -> u64
        ensures { result ≡ denials_of self.now.layers.items }
    {
        // The layers were counted when they were made, so there is a number.
        denials::<G>(&self.layers).unwrap_or(0)
    }

    /// Spends all layers.
    pub fn spend_all(self, g: &mut G)
        requires { HasTogether (G.kept g.old) (all_regions self.layers.items) }
        ensures spends { SpendsAll (G.kept g.old) (G.kept g.new) (all_regions self.layers.items) }
        ensures keeps { IsSameGame (G.kept g.old) (G.kept g.new) }
    {
        let EnvLayers { layers } = self;
        spend_layers(g, layers);
    }
}
