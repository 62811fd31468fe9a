//! What players force, as regions.

ghost use Rattle.std.specs.Prelude.{◌≡◌, [], ◌∷◌, None, IfOk, IfErr};
ghost use Rattle.spec_model.specs.Sets.{pre_sys as pre_sys_lem, pre_env as pre_env_lem};
ghost use Rattle.regions.specs.Kept.{States, PreSys, PreEnv, HasRegion, MakesRegion, Halts, IsSameGame};
ghost use Rattle.region_bdd.specs.Seen.{seen};

use crate::keeping::settle;
use crate::object::RegionBdd;
use crate::own::Asked;
use crate::slots::BddRegion;
use bdd_products::early::{environment_states, system_states};
use regions::Halt;

impl RegionBdd {
    /// The states from which every legal next input has a legal output that leads into `t`.
    pub fn pre_sys(&mut self, t: &BddRegion) -> Result<BddRegion, Halt>
        requires free { (seen self.old).jam ≡ None }
        requires t { HasRegion (seen self.old) t.now }
        ensures made { let k = seen self.old in
            IfOk result (λ r. MakesRegion k (seen self.new) r (pre_sys_lem k.game (k.set t.now))) }
        ensures halted { let k = seen self.old in
            IfErr result (Halts k (seen self.new) PreSys (States (k.set t.now) ∷ [])) }
        ensures keeps { IsSameGame (seen self.old) (seen self.new) }
    {
        let Ok(()) = self.slots.room() else {
            return Err(Halt::Memory);
        };
        let made = system_states(
            &mut self.diagrams,
            self.slots.region(t),
            &self.own.step,
            &self.levels,
            &self.own.early,
        );
        let why = Asked::PreSys.of(Some(t.slot), None);
        settle(&mut self.slots, &mut self.refused, made, why)
    }

    /// The states from which some legal next input leads into `t` under every legal output.
    pub fn pre_env(&mut self, t: &BddRegion) -> Result<BddRegion, Halt>
        requires free { (seen self.old).jam ≡ None }
        requires t { HasRegion (seen self.old) t.now }
        ensures made { let k = seen self.old in
            IfOk result (λ r. MakesRegion k (seen self.new) r (pre_env_lem k.game (k.set t.now))) }
        ensures halted { let k = seen self.old in
            IfErr result (Halts k (seen self.new) PreEnv (States (k.set t.now) ∷ [])) }
        ensures keeps { IsSameGame (seen self.old) (seen self.new) }
    {
        let Ok(()) = self.slots.room() else {
            return Err(Halt::Memory);
        };
        let made = environment_states(
            &mut self.diagrams,
            self.slots.region(t),
            &self.own.step,
            &self.levels,
            &self.own.early,
        );
        let why = Asked::PreEnv.of(Some(t.slot), None);
        settle(&mut self.slots, &mut self.refused, made, why)
    }
}
