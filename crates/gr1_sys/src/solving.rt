//! The system's winning states, with their layers.

ghost use Rattle.std.specs.Prelude.{◌≡◌, ◌↔◌, ◌+◌, ◌≤◌, [], ◌∷◌, None, Some, IfOk, IfErr, OnErr, IsTrue, MatchOption, sum};
ghost use Rattle.regions.specs.Kept.{Region, States, HasRegion, HoldsBesides, HoldsWithout, IsSameGame, Stays};
ghost use Rattle.gr1_sys.specs.Moment.{IsValueOfZ};
ghost use Rattle.gr1_sys.specs.Told.{TellsHalt, TellsOneMoment};
ghost use Rattle.gr1_sys.specs.Held.{HasTogether, HoldsWithoutAll, IsGiven, ranks_of, all_regions};
ghost use Rattle.gr1_sys.specs.Solved.{Steps, HasWon, IsForced, IsDropped, IsLost, WonBySystem};

use crate::givens::{Given, give, spend_given};
use crate::joining::all_states;
use crate::layers::{SysLayer, SysLayers};
use crate::spending::spend_goals;
use crate::turns::turn;
use regions::{Halt, Regions};
use std::alloc::Global;

/// What one value of Z leads to.
pub enum Iteration<G: Regions> {
    /// It is the winning set, and these are its layers.
    Settled {
        z: G::R,
        goals: Vec<Vec<SysLayer<G>>>,
    },
    /// This value follows.
    Next(G::R),
}

/// Z with its layers, where the next value is the same, or else the next value. Z is spent then, with its layers.
fn one_round<G: Regions>(
    alloc: Global,
    g: &mut G,
    z: G::R,
    given: &Given<G>,
) -> Result<Iteration<G>, Halt>
    requires free { (G.kept g.old).jam ≡ None }
    requires z { HasRegion (G.kept g.old) z }
    requires given { IsGiven (G.kept g.old) given.now }
    ensures steps { let k = G.kept g.old in IfOk result (λ s. Steps k (G.kept g.new) z (k.set z) s) }
    ensures halted { let k = G.kept g.old in OnErr result (HoldsWithout k (G.kept g.new) (Region z) (States (k.set z))) }
    ensures told { let k = G.kept g.old in IfErr result (TellsHalt k (G.kept g.new) (k.set z)) }
    ensures keeps { IsSameGame (G.kept g.old) (G.kept g.new) }
{
    match turn(alloc, g, &z, given) {
        Ok((goals, next)) => {
            if g.same(&z, &next) {
                g.spend(next);
                Ok(Iteration::Settled { z, goals })
            } else {
                spend_goals(g, goals);
                g.spend(z);
                Ok(Iteration::Next(next))
            }
        }
        Err(halt) => {
            g.spend(z);
            Err(halt)
        }
    }
}

/// The winning states with their layers.
fn winning<G: Regions>(
    alloc: Global,
    g: &mut G,
    given: &Given<G>,
) -> Result<(G::R, Vec<Vec<SysLayer<G>>>), Halt>
    requires free { (G.kept g.old).jam ≡ None }
    requires given { IsGiven (G.kept g.old) given.now }
    ensures won { IfOk result (λ r. HasWon (G.kept g.old) (G.kept g.new) r.0 r.1.items) }
    ensures value { IfOk result (λ r. IsValueOfZ (G.kept g.old).game ((G.kept g.new).set r.0)) }
    ensures halted { OnErr result (HoldsBesides (G.kept g.old) (G.kept g.new) []) }
    ensures told { IfErr result (TellsOneMoment (G.kept g.old) (G.kept g.new)) }
    ensures keeps { IsSameGame (G.kept g.old) (G.kept g.new) }
{
    let mut z = all_states(g)?;
    loop {
        match one_round(alloc, g, z, given)? {
            Iteration::Settled { z, goals } => return Ok((z, goals)),
            Iteration::Next(next) => z = next,
        }
    }
}

/// Whether K is below 2^64.
fn fits<T>(goals: &[Vec<T>]) -> bool
    ensures { IsTrue result ↔ 1 + sum (ranks_of goals.now) ≤ 18446744073709551615 }
{
    let mut k: u64 = 1;
    for layers in goals {
        match k.checked_add(layers.len() as u64) {
            Some(more) => k = more,
            None => return false,
        }
    }
    true
}

/// The layers, where K is below 2^64. `Memory` where it isn't.
fn counted<G: Regions>(
    g: &mut G,
    z: G::R,
    goals: Vec<Vec<SysLayer<G>>>,
) -> Result<SysLayers<G>, Halt>
    requires held { HasTogether (G.kept g.old) (z ∷ all_regions goals.items) }
    ensures layers { IfOk result (λ l. (l.z ≡ z) × (l.goals.items ≡ goals.items)) }
    ensures held { IfOk result (λ _. Stays (G.kept g.old) (G.kept g.new)) }
    ensures halted { OnErr result (HoldsWithoutAll (G.kept g.old) (G.kept g.new) (z ∷ all_regions goals.items)) }
    ensures told { IfErr result (λ halt. (halt ≡ Halt.Memory) × ((G.kept g.new).jam ≡ (G.kept g.old).jam)) }
    ensures keeps { IsSameGame (G.kept g.old) (G.kept g.new) }
{
    if fits(&goals) {
        Ok(SysLayers { z, goals })
    } else {
        g.spend(z);
        spend_goals(g, goals);
        Err(Halt::Memory)
    }
}

/// The layers where the system forces the first state into Z, else none.
fn decide<G: Regions>(
    g: &mut G,
    z: G::R,
    goals: Vec<Vec<SysLayer<G>>>,
) -> Result<Option<SysLayers<G>>, Halt>
    requires free { (G.kept g.old).jam ≡ None }
    requires held { HasTogether (G.kept g.old) (z ∷ all_regions goals.items) }
    ensures decided { let k = G.kept g.old in IfOk result (λ o. MatchOption o (IsDropped k (G.kept g.new) z (all_regions goals.items)) (λ l. (l.z ≡ z) × ((l.goals.items ≡ goals.items) × IsForced k (G.kept g.new) z))) }
    ensures halted { OnErr result (HoldsWithoutAll (G.kept g.old) (G.kept g.new) (z ∷ all_regions goals.items)) }
    ensures told { let k = G.kept g.old in IfErr result (TellsHalt k (G.kept g.new) (k.set z)) }
    ensures keeps { IsSameGame (G.kept g.old) (G.kept g.new) }
{
    match g.start_sys(&z) {
        Ok(true) => match counted(g, z, goals) {
            Ok(layers) => Ok(Some(layers)),
            Err(halt) => Err(halt),
        },
        Ok(false) => {
            g.spend(z);
            spend_goals(g, goals);
            Ok(None)
        }
        Err(halt) => {
            g.spend(z);
            spend_goals(g, goals);
            Err(halt)
        }
    }
}

/// The layers of the system's winning states, which must be spent; none exactly where some legal first input has no legal
/// first output into these states. Nothing else is held after the call than before.
///
/// `Budget`: a call of `g` answered it, and what it tells was held then are, besides what was held before, sets of one
/// moment: there is one value of Z, and each is of its equations. `Memory`: none was given, or K passes 2^64 - 1.
pub fn solve_sys<G: Regions>(alloc: Global, g: &mut G) -> Result<Option<SysLayers<G>>, Halt>
    requires free { (G.kept g.old).jam ≡ None }
    ensures solved { let k = G.kept g.old in IfOk result (λ o. MatchOption o (IsLost k (G.kept g.new)) (λ l. (sets : _) × WonBySystem k (G.kept g.new) l.z l.goals.items sets)) }
    ensures halted { OnErr result (HoldsBesides (G.kept g.old) (G.kept g.new) []) }
    ensures told { IfErr result (TellsOneMoment (G.kept g.old) (G.kept g.new)) }
    ensures keeps { IsSameGame (G.kept g.old) (G.kept g.new) }
{
    let given = give(alloc, g)?;
    match winning(alloc, g, &given) {
        Ok((z, goals)) => {
            spend_given(g, given);
            decide(g, z, goals)
        }
        Err(halt) => {
            spend_given(g, given);
            Err(halt)
        }
    }
}
