//! Giving regions back.

ghost use Rattle.regions.specs.Kept.{Region, HasRegion, Spends, IsSameGame};
ghost use Rattle.region_bdd.specs.Seen.{seen};

use crate::object::RegionBdd;
use crate::slots::BddRegion;

impl RegionBdd {
    /// Takes a region out of what is held. After the budget ran out its diagram stays, since the object tells of it.
    pub fn spend(&mut self, a: BddRegion)
        requires { HasRegion (seen self.old) a }
        ensures spends { Spends (seen self.old) (seen self.new) (Region a) }
        ensures keeps { IsSameGame (seen self.old) (seen self.new) }
    {
        let BddRegion { slot } = a;
        if self.refused.is_some() {
            self.slots.spend(slot);
            return;
        }
        let root = self.slots.free_region(slot);
        self.diagrams.release(root);
    }
}
