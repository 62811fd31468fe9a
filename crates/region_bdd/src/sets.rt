//! The algebra of regions.

ghost use Rattle.std.specs.Prelude.{◌≡◌, ◌↔◌, ◌<◌, length, [], ◌∷◌, None, Err, IfOk, IfErr, IsTrue};
ghost use Rattle.spec_model.specs.Sets.{no_states, all_states, both, either, rest};
ghost use Rattle.regions.specs.Kept.{States, All, NoStates, Copy as CopyCall, And, Or, Not, Holding, HasRegion, MakesRegion, Halts, IsSameGame};
ghost use Rattle.regions.specs.Rules.{goals_like, number_of, states_holding};
ghost use Rattle.region_bdd.specs.Seen.{seen};

use crate::keeping::settle;
use crate::object::RegionBdd;
use crate::own::Asked;
use crate::slots::BddRegion;
use bdd_sets::steps::ite;
use bit_compile::steps::{and, or, told};
use regions::{Halt, Recur};

impl RegionBdd {
    /// Every assignment of the domains, legal or not.
    pub fn all(&mut self) -> Result<BddRegion, Halt>
        requires { (seen self.old).jam ≡ None }
        ensures made { IfOk result (λ r. MakesRegion (seen self.old) (seen self.new) r (all_states (seen self.old).game)) }
        ensures halted { IfErr result (Halts (seen self.old) (seen self.new) All []) }
        ensures keeps { IsSameGame (seen self.old) (seen self.new) }
        ensures never { result ≡ Err Halt.Budget → ⊥ }
    {
        let Ok(()) = self.slots.room() else {
            return Err(Halt::Memory);
        };
        let made = told(self.diagrams.keep(&self.own.step.proper));
        let why = Asked::All.of(None, None);
        settle(&mut self.slots, &mut self.refused, made, why)
    }

    /// No state.
    pub fn none(&mut self) -> Result<BddRegion, Halt>
        requires { (seen self.old).jam ≡ None }
        ensures made { IfOk result (λ r. MakesRegion (seen self.old) (seen self.new) r no_states) }
        ensures halted { IfErr result (Halts (seen self.old) (seen self.new) NoStates []) }
        ensures keeps { IsSameGame (seen self.old) (seen self.new) }
        ensures never { result ≡ Err Halt.Budget → ⊥ }
    {
        let Ok(()) = self.slots.room() else {
            return Err(Halt::Memory);
        };
        let made = told(self.diagrams.keep(&self.own.step.nothing));
        let why = Asked::NoStates.of(None, None);
        settle(&mut self.slots, &mut self.refused, made, why)
    }

    /// A second region of the same states.
    pub fn copy(&mut self, a: &BddRegion) -> Result<BddRegion, Halt>
        requires free { (seen self.old).jam ≡ None }
        requires a { HasRegion (seen self.old) a.now }
        ensures made { IfOk result (λ r. MakesRegion (seen self.old) (seen self.new) r ((seen self.old).set a.now)) }
        ensures halted { IfErr result (Halts (seen self.old) (seen self.new) CopyCall (States ((seen self.old).set a.now) ∷ [])) }
        ensures keeps { IsSameGame (seen self.old) (seen self.new) }
        ensures never { result ≡ Err Halt.Budget → ⊥ }
    {
        let Ok(()) = self.slots.room() else {
            return Err(Halt::Memory);
        };
        let made = told(self.diagrams.keep(self.slots.region(a)));
        let why = Asked::Copy.of(Some(a.slot), None);
        settle(&mut self.slots, &mut self.refused, made, why)
    }

    /// The states of both.
    pub fn and(&mut self, a: &BddRegion, b: &BddRegion) -> Result<BddRegion, Halt>
        requires free { (seen self.old).jam ≡ None }
        requires a { HasRegion (seen self.old) a.now }
        requires b { HasRegion (seen self.old) b.now }
        ensures made { let set = (seen self.old).set in
            IfOk result (λ r. MakesRegion (seen self.old) (seen self.new) r (both (set a.now) (set b.now))) }
        ensures halted { let set = (seen self.old).set in
            IfErr result (Halts (seen self.old) (seen self.new) And (States (set a.now) ∷ States (set b.now) ∷ [])) }
        ensures keeps { IsSameGame (seen self.old) (seen self.new) }
    {
        let Ok(()) = self.slots.room() else {
            return Err(Halt::Memory);
        };
        let made = and(
            &mut self.diagrams,
            self.slots.region(a),
            self.slots.region(b),
        );
        let why = Asked::And.of(Some(a.slot), Some(b.slot));
        settle(&mut self.slots, &mut self.refused, made, why)
    }

    /// The states of either.
    pub fn or(&mut self, a: &BddRegion, b: &BddRegion) -> Result<BddRegion, Halt>
        requires free { (seen self.old).jam ≡ None }
        requires a { HasRegion (seen self.old) a.now }
        requires b { HasRegion (seen self.old) b.now }
        ensures made { let set = (seen self.old).set in
            IfOk result (λ r. MakesRegion (seen self.old) (seen self.new) r (either (set a.now) (set b.now))) }
        ensures halted { let set = (seen self.old).set in
            IfErr result (Halts (seen self.old) (seen self.new) Or (States (set a.now) ∷ States (set b.now) ∷ [])) }
        ensures keeps { IsSameGame (seen self.old) (seen self.new) }
    {
        let Ok(()) = self.slots.room() else {
            return Err(Halt::Memory);
        };
        let made = or(
            &mut self.diagrams,
            self.slots.region(a),
            self.slots.region(b),
        );
        let why = Asked::Or.of(Some(a.slot), Some(b.slot));
        settle(&mut self.slots, &mut self.refused, made, why)
    }

    /// The states of the game that are not in it.
    pub fn not(&mut self, a: &BddRegion) -> Result<BddRegion, Halt>
        requires free { (seen self.old).jam ≡ None }
        requires a { HasRegion (seen self.old) a.now }
        ensures made { let k = seen self.old in
            IfOk result (λ r. MakesRegion k (seen self.new) r (rest k.game (k.set a.now))) }
        ensures halted { let k = seen self.old in
            IfErr result (Halts k (seen self.new) Not (States (k.set a.now) ∷ [])) }
        ensures keeps { IsSameGame (seen self.old) (seen self.new) }
    {
        let Ok(()) = self.slots.room() else {
            return Err(Halt::Memory);
        };
        let made = ite(
            &mut self.diagrams,
            self.slots.region(a),
            &self.own.step.nothing,
            &self.own.step.proper,
        );
        let why = Asked::Not.of(Some(a.slot), None);
        settle(&mut self.slots, &mut self.refused, made, why)
    }

    /// The states at which a recurring goal holds.
    pub fn holding(&mut self, what: Recur) -> Result<BddRegion, Halt>
        requires free { (seen self.old).jam ≡ None }
        requires there { number_of what < length (goals_like (seen self.old).game what) }
        ensures made { let k = seen self.old in
            IfOk result (λ r. MakesRegion k (seen self.new) r (states_holding k.game what)) }
        ensures halted { IfErr result (Halts (seen self.old) (seen self.new) Holding []) }
        ensures keeps { IsSameGame (seen self.old) (seen self.new) }
    {
        let Ok(()) = self.slots.room() else {
            return Err(Halt::Memory);
        };
        let own = &self.own;
        let made = and(&mut self.diagrams, own.goal(what), &own.step.proper);
        let why = Asked::Holding.of(None, None);
        settle(&mut self.slots, &mut self.refused, made, why)
    }

    /// Whether two regions have the same states.
    pub fn same(&self, a: &BddRegion, b: &BddRegion) -> bool
        requires a { HasRegion (seen self.now) a.now }
        requires b { HasRegion (seen self.now) b.now }
        ensures { IsTrue result ↔ (seen self.now).set a.now ≡ (seen self.now).set b.now }
    {
        self.diagrams
            .equal(self.slots.region(a), self.slots.region(b))
    }
}
