//! The regions that a solver makes first and keeps to its end.

ghost use Rattle.std.specs.Prelude.{◌≡◌, ◌<◌, ◌∷◌, [], None, IfOk, IfErr, OnErr, length, get_or};
ghost use Rattle.spec_model.specs.Sets.{StateSet, no_states};
ghost use Rattle.regions.specs.Kept.{HoldsBesides, MakesRegion, IsSameGame};
ghost use Rattle.gr1_sys.specs.Told.{TellsHalt};
ghost use Rattle.gr1_sys.specs.Held.{HasTogether, MakesRegions, SpendsAll};
ghost use Rattle.gr1_sys.specs.Givens.{wanted, given_regions, given_sets};

use crate::spending::spend_all;
use regions::{Halt, Recur, Regions};
use std::alloc::Global;

/// Which of the sets that a solver for the system makes first.
#[derive(Clone, Copy, PartialEq, Eq)]
pub enum SysSets {
    /// The states of each goal.
    Goals,
    /// The states at which each assumption is false.
    Lapses,
}

/// No states, the states of each goal, and those at which each assumption is false. They must be spent.
pub struct Given<G: Regions> {
    pub none: G::R,
    pub goals: Vec<G::R>,
    pub lapses: Vec<G::R>,
}

/// How many sets there are: where the game has no goal, or no assumption, the single one is true.
fn count<G: Regions>(g: &G, kind: SysSets) -> usize
    ensures { result ≡ length (wanted (G.kept g.now).game kind) }
{
    let n = match kind {
        SysSets::Goals => g.game().goals.len(),
        SysSets::Lapses => g.game().assume.len(),
    };
    if n == 0 { 1 } else { n }
}

/// The states of a goal, by its number.
fn goal_region<G: Regions>(g: &mut G, j: usize) -> Result<G::R, Halt>
    requires free { (G.kept g.old).jam ≡ None }
    requires there { j < length (wanted (G.kept g.old).game SysSets.Goals) }
    ensures made { let k = G.kept g.old in IfOk result (λ r. MakesRegion k (G.kept g.new) r (get_or (wanted k.game SysSets.Goals) j no_states)) }
    ensures halted { OnErr result (HoldsBesides (G.kept g.old) (G.kept g.new) []) }
    ensures told { (z : StateSet) → IfErr result (TellsHalt (G.kept g.old) (G.kept g.new) z) }
    ensures keeps { IsSameGame (G.kept g.old) (G.kept g.new) }
{
    if g.game().goals.is_empty() {
        g.all()
    } else {
        g.holding(Recur::Guarantee(j))
    }
}

/// The states at which an assumption is false, by its number: none where there is no assumption.
fn lapse_region<G: Regions>(g: &mut G, i: usize) -> Result<G::R, Halt>
    requires free { (G.kept g.old).jam ≡ None }
    requires there { i < length (wanted (G.kept g.old).game SysSets.Lapses) }
    ensures made { let k = G.kept g.old in IfOk result (λ r. MakesRegion k (G.kept g.new) r (get_or (wanted k.game SysSets.Lapses) i no_states)) }
    ensures halted { OnErr result (HoldsBesides (G.kept g.old) (G.kept g.new) []) }
    ensures told { (z : StateSet) → IfErr result (TellsHalt (G.kept g.old) (G.kept g.new) z) }
    ensures keeps { IsSameGame (G.kept g.old) (G.kept g.new) }
{
    if g.game().assume.is_empty() {
        return g.none();
    }
    let holds = g.holding(Recur::Assumption(i))?;
    match g.not(&holds) {
        Ok(lapses) => {
            g.spend(holds);
            Ok(lapses)
        }
        Err(halt) => {
            g.spend(holds);
            Err(halt)
        }
    }
}

/// One of the sets, by its number.
fn region_of<G: Regions>(g: &mut G, kind: SysSets, i: usize) -> Result<G::R, Halt>
    requires free { (G.kept g.old).jam ≡ None }
    requires there { i < length (wanted (G.kept g.old).game kind) }
    ensures made { let k = G.kept g.old in IfOk result (λ r. MakesRegion k (G.kept g.new) r (get_or (wanted k.game kind) i no_states)) }
    ensures halted { OnErr result (HoldsBesides (G.kept g.old) (G.kept g.new) []) }
    ensures told { (z : StateSet) → IfErr result (TellsHalt (G.kept g.old) (G.kept g.new) z) }
    ensures keeps { IsSameGame (G.kept g.old) (G.kept g.new) }
{
    match kind {
        SysSets::Goals => goal_region(g, i),
        SysSets::Lapses => lapse_region(g, i),
    }
}

/// All of the sets.
fn regions_of<G: Regions>(alloc: Global, g: &mut G, kind: SysSets) -> Result<Vec<G::R>, Halt>
    requires free { (G.kept g.old).jam ≡ None }
    ensures made { let k = G.kept g.old in IfOk result (λ rs. MakesRegions k (G.kept g.new) rs.items (wanted k.game kind)) }
    ensures halted { OnErr result (HoldsBesides (G.kept g.old) (G.kept g.new) []) }
    ensures told { (z : StateSet) → IfErr result (TellsHalt (G.kept g.old) (G.kept g.new) z) }
    ensures keeps { IsSameGame (G.kept g.old) (G.kept g.new) }
{
    let n = count(g, kind);
    let Ok(mut rs) = Vec::with_capacity(alloc, n) else {
        return Err(Halt::Memory);
    };
    for i in 0..n {
        match region_of(g, kind, i) {
            Ok(r) => rs.push_reserved(r),
            Err(halt) => {
                spend_all(g, rs);
                return Err(halt);
            }
        }
    }
    Ok(rs)
}

/// The regions that are kept to the end.
pub fn give<G: Regions>(alloc: Global, g: &mut G) -> Result<Given<G>, Halt>
    requires free { (G.kept g.old).jam ≡ None }
    ensures made { let k = G.kept g.old in IfOk result (λ given. MakesRegions k (G.kept g.new) (given_regions given) (given_sets k.game)) }
    ensures counted { let k = G.kept g.old in IfOk result (λ given. length given.goals.items ≡ length (wanted k.game SysSets.Goals)) }
    ensures halted { OnErr result (HoldsBesides (G.kept g.old) (G.kept g.new) []) }
    ensures told { (z : StateSet) → IfErr result (TellsHalt (G.kept g.old) (G.kept g.new) z) }
    ensures keeps { IsSameGame (G.kept g.old) (G.kept g.new) }
{
    let goals = regions_of(alloc, g, SysSets::Goals)?;
    match with_goals(alloc, g) {
        Ok((none, lapses)) => Ok(Given {
            none,
            goals,
            lapses,
        }),
        Err(halt) => {
            spend_all(g, goals);
            Err(halt)
        }
    }
}

/// The regions that stand beside those of the goals.
fn with_goals<G: Regions>(alloc: Global, g: &mut G) -> Result<(G::R, Vec<G::R>), Halt>
    requires free { (G.kept g.old).jam ≡ None }
    ensures made { let k = G.kept g.old in IfOk result (λ r. MakesRegions k (G.kept g.new) (r.0 ∷ r.1.items) (no_states ∷ wanted k.game SysSets.Lapses)) }
    ensures halted { OnErr result (HoldsBesides (G.kept g.old) (G.kept g.new) []) }
    ensures told { (z : StateSet) → IfErr result (TellsHalt (G.kept g.old) (G.kept g.new) z) }
    ensures keeps { IsSameGame (G.kept g.old) (G.kept g.new) }
{
    let lapses = regions_of(alloc, g, SysSets::Lapses)?;
    match g.none() {
        Ok(none) => Ok((none, lapses)),
        Err(halt) => {
            spend_all(g, lapses);
            Err(halt)
        }
    }
}

/// Spends them.
pub fn spend_given<G: Regions>(g: &mut G, given: Given<G>)
    requires { HasTogether (G.kept g.old) (given_regions given) }
    ensures spends { SpendsAll (G.kept g.old) (G.kept g.new) (given_regions given) }
    ensures keeps { IsSameGame (G.kept g.old) (G.kept g.new) }
{
    let Given {
        none,
        goals,
        lapses,
    } = given;
    spend_all(g, goals);
    g.spend(none);
    spend_all(g, lapses);
}
