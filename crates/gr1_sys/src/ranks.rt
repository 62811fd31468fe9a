//! The layers of one goal, rank by rank.

ghost use Rattle.std.specs.Prelude.{◌≡◌, ◌≤◌, ℕ, List, [], None, Some, IfOk, IfErr, OnErr, length, map};
ghost use Rattle.std.specs.Vec.{vec_len};
ghost use Rattle.spec_model.specs.Steps.{below};
ghost use Rattle.spec_model.specs.Sets.{StateSet, no_states, either, both, pre_sys};
ghost use Rattle.regions.specs.Kept.{HasRegion, HoldsBesides, MakesRegion, IsSameGame};
ghost use Rattle.gr1_law.specs.Layers.{goal_set, assumption_sets, union};
ghost use Rattle.gr1_sys.specs.Solution.{layer_of, part_of};
ghost use Rattle.gr1_sys.specs.Moment.{IsGoal, base_of};
ghost use Rattle.gr1_sys.specs.Told.{AreLapses, TellsHalt};
ghost use Rattle.gr1_sys.specs.Held.{part_at, set_at, layer_sets, rank_sets, HasEach, MakesRegions, IsGiven, layer_regions, last_region};

use crate::givens::Given;
use crate::joining::or_in;
use crate::layers::SysLayer;
use crate::parts::greatest_part;
use crate::spending::{spend_all, spend_layer, spend_layers};
use regions::{Halt, Regions};
use std::alloc::Global;

/// The parts of a layer above the base, one for each assumption.
fn solutions<G: Regions>(
    alloc: Global,
    g: &mut G,
    base: &G::R,
    lapses: &[G::R],
    none: &G::R,
) -> Result<Vec<G::R>, Halt>
    requires free { (G.kept g.old).jam ≡ None }
    requires base { HasRegion (G.kept g.old) base.now }
    requires lapses { HasEach (G.kept g.old) lapses.now }
    requires none { HasRegion (G.kept g.old) none.now × ((G.kept g.old).set none.now ≡ no_states) }
    ensures made { let k = G.kept g.old in
        IfOk result (λ xs. MakesRegions k (G.kept g.new) xs.items (map (part_at k base.now lapses.now) (below (length lapses.now)))) }
    ensures halted { OnErr result (HoldsBesides (G.kept g.old) (G.kept g.new) []) }
    ensures told { let k = G.kept g.old in (z : StateSet) (j r : ℕ) → IsGoal k.game j → k.set base.now ≡ base_of k.game z j r → AreLapses k.game (map k.set lapses.now) → IfErr result (TellsHalt k (G.kept g.new) z) }
    ensures keeps { IsSameGame (G.kept g.old) (G.kept g.new) }
{
    let Ok(mut xs) = Vec::with_capacity(alloc, lapses.len()) else {
        return Err(Halt::Memory);
    };
    for lapse in lapses {
        match greatest_part(g, base, lapse, none) {
            Ok(x) => xs.push_reserved(x),
            Err(halt) => {
                spend_all(g, xs);
                return Err(halt);
            }
        }
    }
    Ok(xs)
}

/// The states of all of the regions.
fn union_of<G: Regions>(g: &mut G, xs: &[G::R]) -> Result<G::R, Halt>
    requires free { (G.kept g.old).jam ≡ None }
    requires xs { HasEach (G.kept g.old) xs.now }
    ensures made { let k = G.kept g.old in
        IfOk result (λ r. MakesRegion k (G.kept g.new) r (union (set_at k xs.now) (length xs.now))) }
    ensures halted { OnErr result (HoldsBesides (G.kept g.old) (G.kept g.new) []) }
    ensures told { let k = G.kept g.old in (z : StateSet) (j r n : ℕ) → IsGoal k.game j → length xs.now ≤ length (assumption_sets k.game) → map k.set xs.now ≡ map (part_of k.game z (layer_of k.game z j r) j) (below n) → IfErr result (TellsHalt k (G.kept g.new) z) }
    ensures keeps { IsSameGame (G.kept g.old) (G.kept g.new) }
{
    let mut joined = g.none()?;
    for x in xs {
        joined = or_in(g, joined, x)?;
    }
    Ok(joined)
}

/// The layer above the base, with its parts.
fn layer_on<G: Regions>(
    alloc: Global,
    g: &mut G,
    base: &G::R,
    lapses: &[G::R],
    none: &G::R,
) -> Result<SysLayer<G>, Halt>
    requires free { (G.kept g.old).jam ≡ None }
    requires base { HasRegion (G.kept g.old) base.now }
    requires lapses { HasEach (G.kept g.old) lapses.now }
    requires none { HasRegion (G.kept g.old) none.now × ((G.kept g.old).set none.now ≡ no_states) }
    ensures made { let k = G.kept g.old in
        IfOk result (λ l. MakesRegions k (G.kept g.new) (layer_regions l) (layer_sets (part_at k base.now lapses.now) (length lapses.now))) }
    ensures parts { IfOk result (λ l. vec_len l.x ≡ length lapses.now) }
    ensures halted { OnErr result (HoldsBesides (G.kept g.old) (G.kept g.new) []) }
    ensures told { let k = G.kept g.old in (z : StateSet) (j r : ℕ) → IsGoal k.game j → k.set base.now ≡ base_of k.game z j r → AreLapses k.game (map k.set lapses.now) → IfErr result (TellsHalt k (G.kept g.new) z) }
    ensures keeps { IsSameGame (G.kept g.old) (G.kept g.new) }
{
    let x = solutions(alloc, g, base, lapses, none)?;
    match union_of(g, &x) {
        Ok(y) => Ok(SysLayer { y, x }),
        Err(halt) => {
            spend_all(g, x);
            Err(halt)
        }
    }
}

/// The base of a layer's parts: the states that reach the goal, and those from which the next is forced into the layer below.
fn base_above<G: Regions>(g: &mut G, reach: &G::R, below: &G::R) -> Result<G::R, Halt>
    requires free { (G.kept g.old).jam ≡ None }
    requires reach { HasRegion (G.kept g.old) reach.now }
    requires below { HasRegion (G.kept g.old) below.now }
    ensures made { let k = G.kept g.old in
        IfOk result (λ r. MakesRegion k (G.kept g.new) r (either (pre_sys k.game (k.set below.now)) (k.set reach.now))) }
    ensures halted { OnErr result (HoldsBesides (G.kept g.old) (G.kept g.new) []) }
    ensures told { let k = G.kept g.old in (z : StateSet) (j r : ℕ) → IsGoal k.game j → k.set reach.now ≡ both (goal_set k.game j) (pre_sys k.game z) → k.set below.now ≡ layer_of k.game z j r → IfErr result (TellsHalt k (G.kept g.new) z) }
    ensures keeps { IsSameGame (G.kept g.old) (G.kept g.new) }
{
    let forced = g.pre_sys(below)?;
    or_in(g, forced, reach)
}

/// The layer above another.
pub fn layer_above<G: Regions>(
    alloc: Global,
    g: &mut G,
    reach: &G::R,
    below: &G::R,
    given: &Given<G>,
) -> Result<SysLayer<G>, Halt>
    requires free { (G.kept g.old).jam ≡ None }
    requires reach { HasRegion (G.kept g.old) reach.now }
    requires below { HasRegion (G.kept g.old) below.now }
    requires given { IsGiven (G.kept g.old) given.now }
    ensures made { let k = G.kept g.old in (z : StateSet) (j r : ℕ) → k.set reach.now ≡ both (goal_set k.game j) (pre_sys k.game z) → k.set below.now ≡ layer_of k.game z j r →
        IfOk result (λ l. MakesRegions k (G.kept g.new) (layer_regions l) (rank_sets k.game z j r)) }
    ensures some { IfOk result (λ l. (sets : List StateSet) × MakesRegions (G.kept g.old) (G.kept g.new) (layer_regions l) sets) }
    ensures parts { IfOk result (λ l. vec_len l.x ≡ length (assumption_sets (G.kept g.old).game)) }
    ensures halted { OnErr result (HoldsBesides (G.kept g.old) (G.kept g.new) []) }
    ensures told { let k = G.kept g.old in (z : StateSet) (j r : ℕ) → IsGoal k.game j → k.set reach.now ≡ both (goal_set k.game j) (pre_sys k.game z) → k.set below.now ≡ layer_of k.game z j r → IfErr result (TellsHalt k (G.kept g.new) z) }
    ensures keeps { IsSameGame (G.kept g.old) (G.kept g.new) }
{
    let base = base_above(g, reach, below)?;
    match layer_on(alloc, g, &base, &given.lapses, &given.none) {
        Ok(layer) => {
            g.spend(base);
            Ok(layer)
        }
        Err(halt) => {
            g.spend(base);
            Err(halt)
        }
    }
}

/// The last layer, or the region given where there is none.
pub fn last_layer<'a, G: Regions>(none: &'a G::R, layers: &'a [SysLayer<G>]) -> &'a G::R
    ensures { result.now ≡ last_region none.now layers.now }
{
    match layers.last() {
        Some(layer) => &layer.y,
        None => none,
    }
}
