//! Regions and moves made for a strategy, many at once.

ghost use Rattle.std.specs.Prelude.{◌≡◌, ◌<◌, [], None, length, map, get_or, IfOk, IfErr, OnErr};
ghost use Rattle.spec_model.specs.declared.value.Owner.{Owner};
ghost use Rattle.spec_model.specs.Sets.{no_states};
ghost use Rattle.regions.specs.Kept.{Move, States, HasRegion, HoldsBesides, Makes, MakesRegion, IsSameGame};
ghost use Rattle.gr1_sys.specs.Held.{HasEach};
ghost use Rattle.strategy_parts.specs.Owned.{Every, MakesAll, region_items, move_items};
ghost use Rattle.strategy_parts.specs.Told.{Tale, IsIn, AreTargets, TellsHalt, leadings, moves_meant};
ghost use Rattle.strategy_parts.specs.Wanted.{sets_wanted};

use crate::spending::{spend_moves, spend_regions};
use regions::{Halt, Recur, Regions, When};
use spec_model::value::Owner;
use std::alloc::Global;

/// Which sets of the game: the states of each recurring assumption, or of each recurring guarantee.
#[derive(Clone, Copy, PartialEq, Eq)]
pub enum Wanted {
    Assumptions,
    Guarantees,
}

/// How many sets there are: where the game has none of the kind, the single one has all states.
fn count<G: Regions>(g: &G, kind: Wanted) -> usize
    ensures { result ≡ length (sets_wanted (G.kept g.now).game kind) }
{
    let n = match kind {
        Wanted::Assumptions => g.game().assume.len(),
        Wanted::Guarantees => g.game().goals.len(),
    };
    if n == 0 { 1 } else { n }
}

/// The states of an assumption, by its number.
fn assumption_region<G: Regions>(g: &mut G, i: usize) -> Result<G::R, Halt>
    requires free { (G.kept g.old).jam ≡ None }
    requires there { i < length (sets_wanted (G.kept g.old).game Wanted.Assumptions) }
    ensures made { let k = G.kept g.old in IfOk result (λ r. MakesRegion k (G.kept g.new) r (get_or (sets_wanted k.game Wanted.Assumptions) i no_states)) }
    ensures halted { OnErr result (HoldsBesides (G.kept g.old) (G.kept g.new) []) }
    ensures told { (tale : Tale) → IfErr result (TellsHalt (G.kept g.old) (G.kept g.new) tale) }
    ensures keeps { IsSameGame (G.kept g.old) (G.kept g.new) }
{
    if g.game().assume.is_empty() {
        g.all()
    } else {
        g.holding(Recur::Assumption(i))
    }
}

/// The states of a guarantee, by its number.
fn guarantee_region<G: Regions>(g: &mut G, j: usize) -> Result<G::R, Halt>
    requires free { (G.kept g.old).jam ≡ None }
    requires there { j < length (sets_wanted (G.kept g.old).game Wanted.Guarantees) }
    ensures made { let k = G.kept g.old in IfOk result (λ r. MakesRegion k (G.kept g.new) r (get_or (sets_wanted k.game Wanted.Guarantees) j no_states)) }
    ensures halted { OnErr result (HoldsBesides (G.kept g.old) (G.kept g.new) []) }
    ensures told { (tale : Tale) → IfErr result (TellsHalt (G.kept g.old) (G.kept g.new) tale) }
    ensures keeps { IsSameGame (G.kept g.old) (G.kept g.new) }
{
    if g.game().goals.is_empty() {
        g.all()
    } else {
        g.holding(Recur::Guarantee(j))
    }
}

/// One of the sets, by its number.
fn region_of<G: Regions>(g: &mut G, kind: Wanted, i: usize) -> Result<G::R, Halt>
    requires free { (G.kept g.old).jam ≡ None }
    requires there { i < length (sets_wanted (G.kept g.old).game kind) }
    ensures made { let k = G.kept g.old in IfOk result (λ r. MakesRegion k (G.kept g.new) r (get_or (sets_wanted k.game kind) i no_states)) }
    ensures halted { OnErr result (HoldsBesides (G.kept g.old) (G.kept g.new) []) }
    ensures told { (tale : Tale) → IfErr result (TellsHalt (G.kept g.old) (G.kept g.new) tale) }
    ensures keeps { IsSameGame (G.kept g.old) (G.kept g.new) }
{
    match kind {
        Wanted::Assumptions => assumption_region(g, i),
        Wanted::Guarantees => guarantee_region(g, i),
    }
}

/// The states of each recurring assumption, or of each recurring guarantee, in text order. Where there is none the single
/// set has all states.
pub fn recurring_regions<G: Regions>(
    alloc: Global,
    g: &mut G,
    kind: Wanted,
) -> Result<Vec<G::R>, Halt>
    requires free { (G.kept g.old).jam ≡ None }
    ensures made { let k = G.kept g.old in IfOk result (λ rs. MakesAll k (G.kept g.new) (region_items rs.items) (map States (sets_wanted k.game kind))) }
    ensures halted { OnErr result (HoldsBesides (G.kept g.old) (G.kept g.new) []) }
    ensures told { let k = G.kept g.old in (tale : Tale) → Every (λ s. IsIn s tale.sets) (sets_wanted k.game kind) → IfErr result (TellsHalt k (G.kept g.new) tale) }
    ensures keeps { IsSameGame (G.kept g.old) (G.kept g.new) }
{
    let n = count(g, kind);
    let Ok(mut rs) = Vec::with_capacity(alloc, n) else {
        return Err(Halt::Memory);
    };
    for i in 0..n {
        match region_of(g, kind, i) {
            Ok(r) => rs.push_reserved(r),
            Err(halt) => {
                spend_regions(g, rs);
                return Err(halt);
            }
        }
    }
    Ok(rs)
}

/// A side's moves into a region.
fn moves_to<G: Regions>(g: &mut G, who: Owner, when: When, r: &G::R) -> Result<G::Move, Halt>
    requires free { (G.kept g.old).jam ≡ None }
    requires region { HasRegion (G.kept g.old) r.now }
    ensures made { let k = G.kept g.old in IfOk result (λ m. Makes k (G.kept g.new) (Move m) (moves_meant who when (k.set r.now))) }
    ensures halted { OnErr result (HoldsBesides (G.kept g.old) (G.kept g.new) []) }
    ensures told { let k = G.kept g.old in (tale : Tale) → tale.who ≡ who → IsIn (k.set r.now) (tale.targets when) → IfErr result (TellsHalt k (G.kept g.new) tale) }
    ensures keeps { IsSameGame (G.kept g.old) (G.kept g.new) }
{
    match who {
        Owner::Env => g.in_moves(when, r),
        Owner::Sys => g.out_moves(when, r),
    }
}

/// A side's moves into each region.
pub fn moves_into<G: Regions>(
    alloc: Global,
    g: &mut G,
    who: Owner,
    when: When,
    regions: &[G::R],
) -> Result<Vec<G::Move>, Halt>
    requires free { (G.kept g.old).jam ≡ None }
    requires regions { HasEach (G.kept g.old) regions.now }
    ensures made { let k = G.kept g.old in IfOk result (λ ms. MakesAll k (G.kept g.new) (move_items ms.items) (leadings k who when regions.now)) }
    ensures halted { OnErr result (HoldsBesides (G.kept g.old) (G.kept g.new) []) }
    ensures told { let k = G.kept g.old in (tale : Tale) → tale.who ≡ who → AreTargets tale when k regions.now → IfErr result (TellsHalt k (G.kept g.new) tale) }
    ensures keeps { IsSameGame (G.kept g.old) (G.kept g.new) }
{
    let Ok(mut moves) = Vec::with_capacity(alloc, regions.len()) else {
        return Err(Halt::Memory);
    };
    for r in regions {
        match moves_to(g, who, when, r) {
            Ok(m) => moves.push_reserved(m),
            Err(halt) => {
                spend_moves(g, moves);
                return Err(halt);
            }
        }
    }
    Ok(moves)
}
