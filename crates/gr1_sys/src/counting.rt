//! The number K alone: no layers are held but the last one of a goal, and that until it is met with those before it.

ghost use Rattle.std.specs.Prelude.{◌≡◌, ℕ, ◌+◌, true, false, [], ◌∷◌, None, IfOk, IfErr, OnErr, MatchOption};
ghost use Rattle.spec_model.specs.Sets.{StateSet, pre_sys, system_forces};
ghost use Rattle.regions.specs.Kept.{Region, States, HasRegion, HoldsBesides, HoldsWithout, IsSameGame, Stays, Spends};
ghost use Rattle.gr1_sys.specs.Moment.{IsGoal, IsNamed};
ghost use Rattle.gr1_sys.specs.Told.{TellsHalt, TellsOneMoment};
ghost use Rattle.gr1_sys.specs.Held.{HasTogether, HoldsWithoutAll, IsGiven};
ghost use Rattle.gr1_sys.specs.Solved.{IsLost};
ghost use Rattle.gr1_sys.specs.Counted.{AreOfGoal, TurnsInto, Meets, MeetsGoal, MakesFollowing, HasCounted};
ghost use Rattle.gr1_sys.specs.Numbers.{IsWonGame};

use crate::givens::{Given, give, spend_given};
use crate::joining::{all_states, and_in};
use crate::lasts::last_of;
use regions::{Halt, Regions};
use std::alloc::Global;

/// The states of both, in the place of both.
fn meet_with<G: Regions>(g: &mut G, met: G::R, last: G::R) -> Result<G::R, Halt>
    requires free { (G.kept g.old).jam ≡ None }
    requires held { HasTogether (G.kept g.old) (met ∷ last ∷ []) }
    ensures met { let k = G.kept g.old in IfOk result (λ r. Meets k (G.kept g.new) met last r) }
    ensures halted { OnErr result (HoldsWithoutAll (G.kept g.old) (G.kept g.new) (met ∷ last ∷ [])) }
    ensures told { let k = G.kept g.old in (z : StateSet) → IsNamed k.game z (k.set met) → IsNamed k.game z (k.set last) → IfErr result (TellsHalt k (G.kept g.new) z) }
    ensures keeps { IsSameGame (G.kept g.old) (G.kept g.new) }
{
    match and_in(g, met, &last) {
        Ok(common) => {
            g.spend(last);
            Ok(common)
        }
        Err(halt) => {
            g.spend(last);
            Err(halt)
        }
    }
}

/// The same, with a goal's greatest rank added to a number. `Memory` where that passes 2^64 - 1 too.
fn added<G: Regions>(
    g: &mut G,
    met: G::R,
    last: G::R,
    so_far: u64,
    rank: u64,
) -> Result<(G::R, u64), Halt>
    requires free { (G.kept g.old).jam ≡ None }
    requires held { HasTogether (G.kept g.old) (met ∷ last ∷ []) }
    ensures met { let k = G.kept g.old in IfOk result (λ p. Meets k (G.kept g.new) met last p.0) }
    ensures counted { IfOk result (λ p. p.1 ≡ so_far + rank) }
    ensures halted { OnErr result (HoldsWithoutAll (G.kept g.old) (G.kept g.new) (met ∷ last ∷ [])) }
    ensures told { let k = G.kept g.old in (z : StateSet) → IsNamed k.game z (k.set met) → IsNamed k.game z (k.set last) → IfErr result (TellsHalt k (G.kept g.new) z) }
    ensures keeps { IsSameGame (G.kept g.old) (G.kept g.new) }
{
    let common = meet_with(g, met, last)?;
    match so_far.checked_add(rank) {
        Some(k) => Ok((common, k)),
        None => {
            g.spend(common);
            Err(Halt::Memory)
        }
    }
}

/// The states of `met` that are in the last layer of a goal, in its place, and a number with the goal's greatest rank.
fn with_goal<G: Regions>(
    alloc: Global,
    g: &mut G,
    met: G::R,
    so_far: u64,
    goal: &G::R,
    ready: &G::R,
    given: &Given<G>,
) -> Result<(G::R, u64), Halt>
    requires free { (G.kept g.old).jam ≡ None }
    requires met { HasRegion (G.kept g.old) met }
    requires goal { HasRegion (G.kept g.old) goal.now }
    requires ready { HasRegion (G.kept g.old) ready.now }
    requires are { let k = G.kept g.old in (z : StateSet) × ((j : ℕ) × AreOfGoal k.game (k.set goal.now) (k.set ready.now) z j) }
    requires given { IsGiven (G.kept g.old) given.now }
    ensures met { let k = G.kept g.old in (z : StateSet) (j : ℕ) → AreOfGoal k.game (k.set goal.now) (k.set ready.now) z j → IfOk result (λ p. MeetsGoal k (G.kept g.new) met p.0 z j so_far p.1) }
    ensures halted { let k = G.kept g.old in OnErr result (HoldsWithout k (G.kept g.new) (Region met) (States (k.set met))) }
    ensures told { let k = G.kept g.old in (z : StateSet) (j : ℕ) → IsGoal k.game j → AreOfGoal k.game (k.set goal.now) (k.set ready.now) z j → IsNamed k.game z (k.set met) → IfErr result (TellsHalt k (G.kept g.new) z) }
    ensures keeps { IsSameGame (G.kept g.old) (G.kept g.new) }
{
    match last_of(alloc, g, goal, ready, given) {
        Ok((last, rank)) => added(g, met, last, so_far, rank),
        Err(halt) => {
            g.spend(met);
            Err(halt)
        }
    }
}

/// The states that are in the last layer of each goal, and one more than the greatest ranks together.
fn all_goals<G: Regions>(
    alloc: Global,
    g: &mut G,
    ready: &G::R,
    given: &Given<G>,
) -> Result<(G::R, u64), Halt>
    requires free { (G.kept g.old).jam ≡ None }
    requires ready { HasRegion (G.kept g.old) ready.now }
    requires is_ready { let k = G.kept g.old in (z : StateSet) × (k.set ready.now ≡ pre_sys k.game z) }
    requires given { IsGiven (G.kept g.old) given.now }
    ensures made { let k = G.kept g.old in (z : StateSet) → k.set ready.now ≡ pre_sys k.game z → IfOk result (λ p. MakesFollowing k (G.kept g.new) p.0 z p.1) }
    ensures halted { OnErr result (HoldsBesides (G.kept g.old) (G.kept g.new) []) }
    ensures told { let k = G.kept g.old in (z : StateSet) → k.set ready.now ≡ pre_sys k.game z → IfErr result (TellsHalt k (G.kept g.new) z) }
    ensures keeps { IsSameGame (G.kept g.old) (G.kept g.new) }
{
    let mut met = g.all()?;
    let mut k: u64 = 1;
    for goal in &given.goals {
        let (next, more) = with_goal(alloc, g, met, k, goal, ready, given)?;
        met = next;
        k = more;
    }
    Ok((met, k))
}

/// The value of Z that follows `z`, and one more than the greatest ranks for `z` together.
fn following_alone<G: Regions>(
    alloc: Global,
    g: &mut G,
    z: &G::R,
    given: &Given<G>,
) -> Result<(G::R, u64), Halt>
    requires free { (G.kept g.old).jam ≡ None }
    requires z { HasRegion (G.kept g.old) z.now }
    requires given { IsGiven (G.kept g.old) given.now }
    ensures made { let k = G.kept g.old in IfOk result (λ p. MakesFollowing k (G.kept g.new) p.0 (k.set z.now) p.1) }
    ensures halted { OnErr result (HoldsBesides (G.kept g.old) (G.kept g.new) []) }
    ensures told { let k = G.kept g.old in IfErr result (TellsHalt k (G.kept g.new) (k.set z.now)) }
    ensures keeps { IsSameGame (G.kept g.old) (G.kept g.new) }
{
    let ready = g.pre_sys(z)?;
    match all_goals(alloc, g, &ready, given) {
        Ok(next) => {
            g.spend(ready);
            Ok(next)
        }
        Err(halt) => {
            g.spend(ready);
            Err(halt)
        }
    }
}

/// The value of Z that follows `z`, in its place, one more than the greatest ranks for `z` together, and whether both are the same.
fn one_turn<G: Regions>(
    alloc: Global,
    g: &mut G,
    z: G::R,
    given: &Given<G>,
) -> Result<((G::R, u64), bool), Halt>
    requires free { (G.kept g.old).jam ≡ None }
    requires z { HasRegion (G.kept g.old) z }
    requires given { IsGiven (G.kept g.old) given.now }
    ensures turned { IfOk result (λ p. TurnsInto (G.kept g.old) (G.kept g.new) z p.0.0 p.0.1 p.1) }
    ensures halted { let k = G.kept g.old in OnErr result (HoldsWithout k (G.kept g.new) (Region z) (States (k.set z))) }
    ensures told { let k = G.kept g.old in IfErr result (TellsHalt k (G.kept g.new) (k.set z)) }
    ensures keeps { IsSameGame (G.kept g.old) (G.kept g.new) }
{
    match following_alone(alloc, g, &z, given) {
        Ok((next, k)) => {
            let settled = g.same(&z, &next);
            g.spend(z);
            Ok(((next, k), settled))
        }
        Err(halt) => {
            g.spend(z);
            Err(halt)
        }
    }
}

/// The winning states, and one more than the greatest ranks for them together.
fn winning<G: Regions>(alloc: Global, g: &mut G, given: &Given<G>) -> Result<(G::R, u64), Halt>
    requires free { (G.kept g.old).jam ≡ None }
    requires given { IsGiven (G.kept g.old) given.now }
    ensures counted { IfOk result (λ p. HasCounted (G.kept g.old) (G.kept g.new) p.0 p.1) }
    ensures halted { OnErr result (HoldsBesides (G.kept g.old) (G.kept g.new) []) }
    ensures told { IfErr result (TellsOneMoment (G.kept g.old) (G.kept g.new)) }
    ensures keeps { IsSameGame (G.kept g.old) (G.kept g.new) }
{
    let mut z = all_states(g)?;
    loop {
        let ((next, k), settled) = one_turn(alloc, g, z, given)?;
        z = next;
        if settled {
            return Ok((z, k));
        }
    }
}

/// The number, where the system forces the first state into Z, which is spent; else none.
fn decide<G: Regions>(g: &mut G, z: G::R, k: u64) -> Result<Option<u64>, Halt>
    requires free { (G.kept g.old).jam ≡ None }
    requires z { HasRegion (G.kept g.old) z }
    ensures decided { let old = G.kept g.old in let forced = system_forces old.game (old.set z) None in IfOk result (λ o. MatchOption o (forced ≡ false) (λ n. (forced ≡ true) × (n ≡ k))) }
    ensures spends { IfOk result (λ _. Spends (G.kept g.old) (G.kept g.new) (Region z)) }
    ensures halted { let k = G.kept g.old in OnErr result (HoldsWithout k (G.kept g.new) (Region z) (States (k.set z))) }
    ensures told { let k = G.kept g.old in IfErr result (TellsHalt k (G.kept g.new) (k.set z)) }
    ensures keeps { IsSameGame (G.kept g.old) (G.kept g.new) }
{
    match g.start_sys(&z) {
        Ok(true) => {
            g.spend(z);
            Ok(Some(k))
        }
        Ok(false) => {
            g.spend(z);
            Ok(None)
        }
        Err(halt) => {
            g.spend(z);
            Err(halt)
        }
    }
}

/// The number K of rounds within which the system wins, by its layers, of which none is held afterwards; none exactly where some
/// legal first input has no legal first output into its winning states. It is the number of `SysLayers::k` (Bloem et al. 2012,
/// solving GR(1) games), by the same sets, but a layer is spent as soon as the next one is made.
///
/// `Budget`: a call of `g` answered it, and what it tells was held then are, besides what was held before, sets of one
/// moment: there is one value of Z, and each is of its equations. `Memory`: none was given, or K passes 2^64 - 1.
pub fn count_sys<G: Regions>(alloc: Global, g: &mut G) -> Result<Option<u64>, Halt>
    requires free { (G.kept g.old).jam ≡ None }
    ensures counted { let k = G.kept g.old in IfOk result (λ o. MatchOption o (IsLost k (G.kept g.new)) (IsWonGame k.game)) }
    ensures held { IfOk result (λ _. Stays (G.kept g.old) (G.kept g.new)) }
    ensures halted { OnErr result (HoldsBesides (G.kept g.old) (G.kept g.new) []) }
    ensures told { IfErr result (TellsOneMoment (G.kept g.old) (G.kept g.new)) }
    ensures keeps { IsSameGame (G.kept g.old) (G.kept g.new) }
{
    let given = give(alloc, g)?;
    match winning(alloc, g, &given) {
        Ok((z, k)) => {
            spend_given(g, given);
            decide(g, z, k)
        }
        Err(halt) => {
            spend_given(g, given);
            Err(halt)
        }
    }
}
