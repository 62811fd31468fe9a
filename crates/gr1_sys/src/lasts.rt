//! The last layer of one goal, and its rank: a layer is spent as soon as the next one is made.

ghost use Rattle.std.specs.Prelude.{◌≡◌, ℕ, suc, [], None, IfOk, IfErr, OnErr};
ghost use Rattle.spec_model.specs.Sets.{StateSet, both, pre_sys};
ghost use Rattle.regions.specs.Kept.{Region, States, HasRegion, HoldsBesides, HoldsWithout, MakesRegion, IsSameGame};
ghost use Rattle.gr1_law.specs.Layers.{goal_set};
ghost use Rattle.gr1_sys.specs.Solution.{layer_of};
ghost use Rattle.gr1_sys.specs.Moment.{IsGoal};
ghost use Rattle.gr1_sys.specs.Told.{TellsHalt};
ghost use Rattle.gr1_sys.specs.Held.{IsGiven, Reaches};
ghost use Rattle.gr1_sys.specs.Counted.{AreOfLayer, AreOfGoal, ClimbsTo, MakesLast};

use crate::givens::Given;
use crate::layers::SysLayer;
use crate::ranks::layer_above;
use crate::spending::spend_all;
use regions::{Halt, Regions};
use std::alloc::Global;

/// The layer above `y`, alone.
fn next_layer<G: Regions>(
    alloc: Global,
    g: &mut G,
    reach: &G::R,
    y: &G::R,
    given: &Given<G>,
) -> Result<G::R, Halt>
    requires free { (G.kept g.old).jam ≡ None }
    requires reach { HasRegion (G.kept g.old) reach.now }
    requires y { HasRegion (G.kept g.old) y.now }
    requires layer { let k = G.kept g.old in (z : StateSet) × ((j : ℕ) × ((r : ℕ) × AreOfLayer k.game (k.set reach.now) (k.set y.now) z j r)) }
    requires given { IsGiven (G.kept g.old) given.now }
    ensures made { let k = G.kept g.old in (z : StateSet) (j r : ℕ) → AreOfLayer k.game (k.set reach.now) (k.set y.now) z j r →
        IfOk result (λ n. MakesRegion k (G.kept g.new) n (layer_of k.game z j (suc r))) }
    ensures halted { OnErr result (HoldsBesides (G.kept g.old) (G.kept g.new) []) }
    ensures told { let k = G.kept g.old in (z : StateSet) (j r : ℕ) → IsGoal k.game j → AreOfLayer k.game (k.set reach.now) (k.set y.now) z j r → IfErr result (TellsHalt k (G.kept g.new) z) }
    ensures keeps { IsSameGame (G.kept g.old) (G.kept g.new) }
{
    let layer = layer_above(alloc, g, reach, y, given)?;
    let SysLayer { y: next, x } = layer;
    spend_all(g, x);
    Ok(next)
}

/// The layer above `y` in its place, and whether they are the same.
fn climb<G: Regions>(
    alloc: Global,
    g: &mut G,
    reach: &G::R,
    y: G::R,
    given: &Given<G>,
) -> Result<(G::R, bool), Halt>
    requires free { (G.kept g.old).jam ≡ None }
    requires reach { HasRegion (G.kept g.old) reach.now }
    requires y { HasRegion (G.kept g.old) y }
    requires layer { let k = G.kept g.old in (z : StateSet) × ((j : ℕ) × ((r : ℕ) × AreOfLayer k.game (k.set reach.now) (k.set y) z j r)) }
    requires given { IsGiven (G.kept g.old) given.now }
    ensures climbed { let k = G.kept g.old in (z : StateSet) (j r : ℕ) → AreOfLayer k.game (k.set reach.now) (k.set y) z j r → IfOk result (λ p. ClimbsTo k (G.kept g.new) y p.0 z j r p.1) }
    ensures halted { let k = G.kept g.old in OnErr result (HoldsWithout k (G.kept g.new) (Region y) (States (k.set y))) }
    ensures told { let k = G.kept g.old in (z : StateSet) (j r : ℕ) → IsGoal k.game j → AreOfLayer k.game (k.set reach.now) (k.set y) z j r → IfErr result (TellsHalt k (G.kept g.new) z) }
    ensures keeps { IsSameGame (G.kept g.old) (G.kept g.new) }
{
    match next_layer(alloc, g, reach, &y, given) {
        Ok(next) => {
            let settled = g.same(&y, &next);
            g.spend(y);
            Ok((next, settled))
        }
        Err(halt) => {
            g.spend(y);
            Err(halt)
        }
    }
}

/// The last layer of the goal whose states that reach it are `reach`, and its rank. `Memory` where that passes 2^64 - 1 too.
fn last_above<G: Regions>(
    alloc: Global,
    g: &mut G,
    reach: &G::R,
    given: &Given<G>,
) -> Result<(G::R, u64), Halt>
    requires free { (G.kept g.old).jam ≡ None }
    requires reach { HasRegion (G.kept g.old) reach.now }
    requires reaches { let k = G.kept g.old in Reaches k.game (k.set reach.now) }
    requires given { IsGiven (G.kept g.old) given.now }
    ensures last { let k = G.kept g.old in (z : StateSet) (j : ℕ) → k.set reach.now ≡ both (goal_set k.game j) (pre_sys k.game z) → IfOk result (λ p. MakesLast k (G.kept g.new) p.0 z j p.1) }
    ensures halted { OnErr result (HoldsBesides (G.kept g.old) (G.kept g.new) []) }
    ensures told { let k = G.kept g.old in (z : StateSet) (j : ℕ) → IsGoal k.game j → k.set reach.now ≡ both (goal_set k.game j) (pre_sys k.game z) → IfErr result (TellsHalt k (G.kept g.new) z) }
    ensures keeps { IsSameGame (G.kept g.old) (G.kept g.new) }
{
    let mut y = g.none()?;
    let mut n: u64 = 0;
    loop {
        let (next, settled) = climb(alloc, g, reach, y, given)?;
        y = next;
        if settled {
            return Ok((y, n));
        }
        match n.checked_add(1) {
            Some(more) => n = more,
            None => {
                g.spend(y);
                return Err(Halt::Memory);
            }
        }
    }
}

/// The last layer of a goal and its rank, where `ready` are the states from which the next is forced into Z.
pub fn last_of<G: Regions>(
    alloc: Global,
    g: &mut G,
    goal: &G::R,
    ready: &G::R,
    given: &Given<G>,
) -> Result<(G::R, u64), Halt>
    requires free { (G.kept g.old).jam ≡ None }
    requires goal { HasRegion (G.kept g.old) goal.now }
    requires ready { HasRegion (G.kept g.old) ready.now }
    requires are { let k = G.kept g.old in (z : StateSet) × ((j : ℕ) × AreOfGoal k.game (k.set goal.now) (k.set ready.now) z j) }
    requires given { IsGiven (G.kept g.old) given.now }
    ensures last { let k = G.kept g.old in (z : StateSet) (j : ℕ) → AreOfGoal k.game (k.set goal.now) (k.set ready.now) z j → IfOk result (λ p. MakesLast k (G.kept g.new) p.0 z j p.1) }
    ensures halted { OnErr result (HoldsBesides (G.kept g.old) (G.kept g.new) []) }
    ensures told { let k = G.kept g.old in (z : StateSet) (j : ℕ) → IsGoal k.game j → AreOfGoal k.game (k.set goal.now) (k.set ready.now) z j → IfErr result (TellsHalt k (G.kept g.new) z) }
    ensures keeps { IsSameGame (G.kept g.old) (G.kept g.new) }
{
    let reach = g.and(goal, ready)?;
    match last_above(alloc, g, &reach, given) {
        Ok(last) => {
            g.spend(reach);
            Ok(last)
        }
        Err(halt) => {
            g.spend(reach);
            Err(halt)
        }
    }
}
