//! Where a greatest set begins, and regions joined in place.

ghost use Rattle.std.specs.Prelude.{◌≡◌, [], ◌∷◌, None, IfOk, IfErr, OnErr};
ghost use Rattle.spec_model.specs.Sets.{StateSet, all_states as all_states_lem, either, both};
ghost use Rattle.regions.specs.Kept.{And, Or, Region, States, HasRegion, HoldsBesides, HoldsWithout, IsSameGame, MakesRegion, Replaces, jam_after};
ghost use Rattle.gr1_sys.specs.Told.{TellsHalt};

use regions::{Halt, Regions};

/// All states: from them the iterates of an equation fall to the greatest set that it allows.
pub fn all_states<G: Regions>(g: &mut G) -> Result<G::R, Halt>
    requires free { (G.kept g.old).jam ≡ None }
    ensures made { let k = G.kept g.old in IfOk result (λ r. MakesRegion k (G.kept g.new) r (all_states_lem k.game)) }
    ensures halted { OnErr result (HoldsBesides (G.kept g.old) (G.kept g.new) []) }
    ensures told { (z : StateSet) → IfErr result (TellsHalt (G.kept g.old) (G.kept g.new) z) }
    ensures keeps { IsSameGame (G.kept g.old) (G.kept g.new) }
{
    g.all()
}

/// The states of `a` or `b`, in the place of `a`, which is spent on a halt too.
pub fn or_in<G: Regions>(g: &mut G, a: G::R, b: &G::R) -> Result<G::R, Halt>
    requires free { (G.kept g.old).jam ≡ None }
    requires a { HasRegion (G.kept g.old) a }
    requires b { HasRegion (G.kept g.old) b.now }
    ensures made { let k = G.kept g.old in
        IfOk result (λ r. Replaces k (G.kept g.new) (Region a) (States (k.set a)) (Region r) (States (either (k.set a) (k.set b.now)))) }
    ensures halted { let k = G.kept g.old in OnErr result (HoldsWithout k (G.kept g.new) (Region a) (States (k.set a))) }
    ensures told { let k = G.kept g.old in IfErr result (λ halt. (G.kept g.new).jam ≡ jam_after k Or (States (k.set a) ∷ States (k.set b.now) ∷ []) halt) }
    ensures keeps { IsSameGame (G.kept g.old) (G.kept g.new) }
{
    match g.or(&a, b) {
        Ok(joined) => {
            g.spend(a);
            Ok(joined)
        }
        Err(halt) => {
            g.spend(a);
            Err(halt)
        }
    }
}

/// The states of `a` and `b`, in the place of `a`, which is spent on a halt too.
pub fn and_in<G: Regions>(g: &mut G, a: G::R, b: &G::R) -> Result<G::R, Halt>
    requires free { (G.kept g.old).jam ≡ None }
    requires a { HasRegion (G.kept g.old) a }
    requires b { HasRegion (G.kept g.old) b.now }
    ensures made { let k = G.kept g.old in
        IfOk result (λ r. Replaces k (G.kept g.new) (Region a) (States (k.set a)) (Region r) (States (both (k.set a) (k.set b.now)))) }
    ensures halted { let k = G.kept g.old in OnErr result (HoldsWithout k (G.kept g.new) (Region a) (States (k.set a))) }
    ensures told { let k = G.kept g.old in IfErr result (λ halt. (G.kept g.new).jam ≡ jam_after k And (States (k.set a) ∷ States (k.set b.now) ∷ []) halt) }
    ensures keeps { IsSameGame (G.kept g.old) (G.kept g.new) }
{
    match g.and(&a, b) {
        Ok(common) => {
            g.spend(a);
            Ok(common)
        }
        Err(halt) => {
            g.spend(a);
            Err(halt)
        }
    }
}
