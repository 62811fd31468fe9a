//! The parts of a layer: where the play can wait while an assumption is false.

ghost use Rattle.std.specs.Prelude.{◌≡◌, ◌↔◌, ℕ, [], None, IfOk, IfErr, OnErr, IsTrue};
ghost use Rattle.spec_model.specs.Sets.{StateSet, no_states};
ghost use Rattle.regions.specs.Kept.{Region, States, HasRegion, HoldsBesides, HoldsWithout, MakesRegion, IsSameGame, Replaces};
ghost use Rattle.gr1_sys.specs.Solution.{greatest_of};
ghost use Rattle.gr1_sys.specs.Moment.{part_iterate};
ghost use Rattle.gr1_sys.specs.Told.{AreOfPart, TellsHalt};
ghost use Rattle.gr1_sys.specs.Held.{waiting};

use crate::joining::{all_states, and_in, or_in};
use regions::{Halt, Regions};

/// The value of the part's equation at `x`.
fn part_step<G: Regions>(g: &mut G, base: &G::R, lapse: &G::R, x: &G::R) -> Result<G::R, Halt>
    requires free { (G.kept g.old).jam ≡ None }
    requires base { HasRegion (G.kept g.old) base.now }
    requires lapse { HasRegion (G.kept g.old) lapse.now }
    requires x { HasRegion (G.kept g.old) x.now }
    ensures made { let k = G.kept g.old in
        IfOk result (λ r. MakesRegion k (G.kept g.new) r (waiting k.game (k.set base.now) (k.set lapse.now) (k.set x.now))) }
    ensures halted { OnErr result (HoldsBesides (G.kept g.old) (G.kept g.new) []) }
    ensures told { let k = G.kept g.old in (z : StateSet) (j r i n : ℕ) → AreOfPart k.game z j r i (k.set base.now) (k.set lapse.now) →
        k.set x.now ≡ part_iterate k.game z j r i n → IfErr result (TellsHalt k (G.kept g.new) z) }
    ensures keeps { IsSameGame (G.kept g.old) (G.kept g.new) }
{
    let forced = g.pre_sys(x)?;
    let waits = and_in(g, forced, lapse)?;
    or_in(g, waits, base)
}

/// The value of the part's equation in the place of `x`, and whether they are the same.
fn next_part<G: Regions>(
    g: &mut G,
    base: &G::R,
    lapse: &G::R,
    x: G::R,
) -> Result<(G::R, bool), Halt>
    requires free { (G.kept g.old).jam ≡ None }
    requires base { HasRegion (G.kept g.old) base.now }
    requires lapse { HasRegion (G.kept g.old) lapse.now }
    requires x { HasRegion (G.kept g.old) x }
    ensures made { let k = G.kept g.old in
        IfOk result (λ r. Replaces k (G.kept g.new) (Region x) (States (k.set x)) (Region r.0) (States (waiting k.game (k.set base.now) (k.set lapse.now) (k.set x)))) }
    ensures settled { let k = G.kept g.old in
        IfOk result (λ r. IsTrue r.1 ↔ k.set x ≡ waiting k.game (k.set base.now) (k.set lapse.now) (k.set x)) }
    ensures halted { let k = G.kept g.old in OnErr result (HoldsWithout k (G.kept g.new) (Region x) (States (k.set x))) }
    ensures told { let k = G.kept g.old in (z : StateSet) (j r i n : ℕ) → AreOfPart k.game z j r i (k.set base.now) (k.set lapse.now) →
        k.set x ≡ part_iterate k.game z j r i n → IfErr result (TellsHalt k (G.kept g.new) z) }
    ensures keeps { IsSameGame (G.kept g.old) (G.kept g.new) }
{
    match part_step(g, base, lapse, &x) {
        Ok(next) => {
            let settled = g.same(&x, &next);
            g.spend(x);
            Ok((next, settled))
        }
        Err(halt) => {
            g.spend(x);
            Err(halt)
        }
    }
}

/// The greatest set that is its own value: the base, and where the play can wait for it while the assumption is false. Where it
/// is never false that is the base alone, and no predecessor is asked for.
pub fn greatest_part<G: Regions>(
    g: &mut G,
    base: &G::R,
    lapse: &G::R,
    none: &G::R,
) -> Result<G::R, Halt>
    requires free { (G.kept g.old).jam ≡ None }
    requires base { HasRegion (G.kept g.old) base.now }
    requires lapse { HasRegion (G.kept g.old) lapse.now }
    requires none { HasRegion (G.kept g.old) none.now × ((G.kept g.old).set none.now ≡ no_states) }
    ensures made { let k = G.kept g.old in
        IfOk result (λ x. MakesRegion k (G.kept g.new) x (greatest_of k.game (waiting k.game (k.set base.now) (k.set lapse.now)))) }
    ensures halted { OnErr result (HoldsBesides (G.kept g.old) (G.kept g.new) []) }
    ensures told { let k = G.kept g.old in (z : StateSet) (j r i : ℕ) → AreOfPart k.game z j r i (k.set base.now) (k.set lapse.now) → IfErr result (TellsHalt k (G.kept g.new) z) }
    ensures keeps { IsSameGame (G.kept g.old) (G.kept g.new) }
{
    if g.same(lapse, none) {
        return g.or(base, lapse);
    }
    let mut x = all_states(g)?;
    loop {
        let (next, settled) = next_part(g, base, lapse, x)?;
        x = next;
        if settled {
            return Ok(x);
        }
    }
}
