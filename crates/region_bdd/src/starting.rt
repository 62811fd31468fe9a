//! What players force at the first move.

ghost use Rattle.std.specs.Prelude.{◌≡◌, [], ◌∷◌, None, IfOk, IfErr};
ghost use Rattle.spec_model.specs.Sets.{system_forces, environment_forces};
ghost use Rattle.regions.specs.Kept.{States, StartSys, StartEnv, HasRegion, Halts, Stays, IsSameGame};
ghost use Rattle.region_bdd.specs.Seen.{seen};

use crate::asking::{avoiding_rest, avoiding_set, is_empty, is_not_empty};
use crate::keeping::settle_answer;
use crate::object::RegionBdd;
use crate::own::Asked;
use crate::slots::BddRegion;
use regions::Halt;

impl RegionBdd {
    /// Whether every legal first input has a legal first output into `t`.
    pub fn start_sys(&mut self, t: &BddRegion) -> Result<bool, Halt>
        requires free { (seen self.old).jam ≡ None }
        requires t { HasRegion (seen self.old) t.now }
        ensures answer { let k = seen self.old in
            let forces = system_forces k.game (k.set t.now) None in
            IfOk result (λ yes. (yes ≡ forces) × Stays k (seen self.new)) }
        ensures halted { let k = seen self.old in
            IfErr result (Halts k (seen self.new) StartSys (States (k.set t.now) ∷ [])) }
        ensures keeps { IsSameGame (seen self.old) (seen self.new) }
    {
        let made = avoiding_set(
            &mut self.diagrams,
            self.slots.region(t),
            &self.own,
            &self.levels,
        );
        let asked = is_empty(&mut self.diagrams, made, &self.own.step.nothing);
        let why = Asked::StartSys.of(Some(t.slot), None);
        settle_answer(&mut self.refused, asked, why)
    }

    /// Whether some legal first input has all its legal first outputs in `t`.
    pub fn start_env(&mut self, t: &BddRegion) -> Result<bool, Halt>
        requires free { (seen self.old).jam ≡ None }
        requires t { HasRegion (seen self.old) t.now }
        ensures answer { let k = seen self.old in
            let forces = environment_forces k.game (k.set t.now) None in
            IfOk result (λ yes. (yes ≡ forces) × Stays k (seen self.new)) }
        ensures halted { let k = seen self.old in
            IfErr result (Halts k (seen self.new) StartEnv (States (k.set t.now) ∷ [])) }
        ensures keeps { IsSameGame (seen self.old) (seen self.new) }
    {
        let made = avoiding_rest(
            &mut self.diagrams,
            self.slots.region(t),
            &self.own,
            &self.levels,
        );
        let asked = is_not_empty(&mut self.diagrams, made, &self.own.step.nothing);
        let why = Asked::StartEnv.of(Some(t.slot), None);
        settle_answer(&mut self.refused, asked, why)
    }
}
