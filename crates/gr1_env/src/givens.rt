//! The regions that the solver makes first and keeps to its end.

ghost use Rattle.std.specs.Prelude.{◌≡◌, ◌<◌, ◌∷◌, [], None, IfOk, IfErr, OnErr, length, get_or};
ghost use Rattle.spec_model.specs.Games.{GameData};
ghost use Rattle.spec_model.specs.Sets.{no_states};
ghost use Rattle.regions.specs.Kept.{HoldsBesides, MakesRegion, IsSameGame};
ghost use Rattle.gr1_sys.specs.Held.{HasTogether, MakesRegions, SpendsAll};
ghost use Rattle.gr1_env.specs.Givens.{wanted, given_regions, given_sets};
ghost use Rattle.gr1_env.specs.Moment.{Moment};
ghost use Rattle.gr1_env.specs.Told.{TellsHalt};

use gr1_sys::spend_all;
use regions::{Halt, Recur, Regions};
use std::alloc::Global;

/// Which of the sets that a solver for the environment makes first.
#[derive(Clone, Copy, PartialEq, Eq)]
pub enum EnvSets {
    /// The states at which each goal is false.
    Misses,
    /// The states of each assumption.
    Assumptions,
}

/// No states, the states at which each goal is false, and those of each assumption. They must be spent.
pub struct Given<G: Regions> {
    pub none: G::R,
    pub misses: Vec<G::R>,
    pub asms: Vec<G::R>,
}

/// How many sets there are: where the game has no goal, or no assumption, the single one is true.
fn count<G: Regions>(g: &G, kind: EnvSets) -> usize
    ensures { result ≡ length (wanted (G.kept g.now).game kind) }
{
    let n = match kind {
        EnvSets::Misses => g.game().goals.len(),
        EnvSets::Assumptions => g.game().assume.len(),
    };
    if n == 0 { 1 } else { n }
}

/// The states at which a goal is false, by its number: none where there is no goal.
fn miss_region<G: Regions>(g: &mut G, j: usize) -> Result<G::R, Halt>
    requires free { (G.kept g.old).jam ≡ None }
    requires there { j < length (wanted (G.kept g.old).game EnvSets.Misses) }
    ensures made { let k = G.kept g.old in IfOk result (λ r. MakesRegion k (G.kept g.new) r (get_or (wanted k.game EnvSets.Misses) j no_states)) }
    ensures halted { OnErr result (HoldsBesides (G.kept g.old) (G.kept g.new) []) }
    ensures told { let k = G.kept g.old in (game : GameData) (m : Moment) → k.game ≡ game → IfErr result (TellsHalt game k (G.kept g.new) m) }
    ensures keeps { IsSameGame (G.kept g.old) (G.kept g.new) }
{
    if g.game().goals.is_empty() {
        return g.none();
    }
    let holds = g.holding(Recur::Guarantee(j))?;
    match g.not(&holds) {
        Ok(misses) => {
            g.spend(holds);
            Ok(misses)
        }
        Err(halt) => {
            g.spend(holds);
            Err(halt)
        }
    }
}

/// The states of an assumption, by its number.
fn assumption_region<G: Regions>(g: &mut G, i: usize) -> Result<G::R, Halt>
    requires free { (G.kept g.old).jam ≡ None }
    requires there { i < length (wanted (G.kept g.old).game EnvSets.Assumptions) }
    ensures made { let k = G.kept g.old in IfOk result (λ r. MakesRegion k (G.kept g.new) r (get_or (wanted k.game EnvSets.Assumptions) i no_states)) }
    ensures halted { OnErr result (HoldsBesides (G.kept g.old) (G.kept g.new) []) }
    ensures told { let k = G.kept g.old in (game : GameData) (m : Moment) → k.game ≡ game → IfErr result (TellsHalt game k (G.kept g.new) m) }
    ensures keeps { IsSameGame (G.kept g.old) (G.kept g.new) }
{
    if g.game().assume.is_empty() {
        g.all()
    } else {
        g.holding(Recur::Assumption(i))
    }
}

/// One of the sets, by its number.
fn region_of<G: Regions>(g: &mut G, kind: EnvSets, i: usize) -> Result<G::R, Halt>
    requires free { (G.kept g.old).jam ≡ None }
    requires there { i < length (wanted (G.kept g.old).game kind) }
    ensures made { let k = G.kept g.old in IfOk result (λ r. MakesRegion k (G.kept g.new) r (get_or (wanted k.game kind) i no_states)) }
    ensures halted { OnErr result (HoldsBesides (G.kept g.old) (G.kept g.new) []) }
    ensures told { let k = G.kept g.old in (game : GameData) (m : Moment) → k.game ≡ game → IfErr result (TellsHalt game k (G.kept g.new) m) }
    ensures keeps { IsSameGame (G.kept g.old) (G.kept g.new) }
{
    match kind {
        EnvSets::Misses => miss_region(g, i),
        EnvSets::Assumptions => assumption_region(g, i),
    }
}

/// All of the sets.
fn regions_of<G: Regions>(alloc: Global, g: &mut G, kind: EnvSets) -> Result<Vec<G::R>, Halt>
    requires free { (G.kept g.old).jam ≡ None }
    ensures made { let k = G.kept g.old in IfOk result (λ rs. MakesRegions k (G.kept g.new) rs.items (wanted k.game kind)) }
    ensures halted { OnErr result (HoldsBesides (G.kept g.old) (G.kept g.new) []) }
    ensures told { let k = G.kept g.old in (game : GameData) (m : Moment) → k.game ≡ game → IfErr result (TellsHalt game k (G.kept g.new) m) }
    ensures keeps { IsSameGame (G.kept g.old) (G.kept g.new) }
{
    let n = count(g, kind);
    let Ok(mut rs) = Vec::with_capacity(alloc, n) else {
        return Err(Halt::Memory);
    };
    for i in 0..n {
        match region_of(g, kind, i) {
            Ok(r) => rs.push_reserved(r),
            Err(halt) => {
                spend_all(g, rs);
                return Err(halt);
            }
        }
    }
    Ok(rs)
}

/// The regions that are kept to the end.
pub fn give<G: Regions>(alloc: Global, g: &mut G) -> Result<Given<G>, Halt>
    requires free { (G.kept g.old).jam ≡ None }
    ensures made { let k = G.kept g.old in IfOk result (λ given. MakesRegions k (G.kept g.new) (given_regions given) (given_sets k.game)) }
    ensures counted { let k = G.kept g.old in IfOk result (λ given. length given.misses.items ≡ length (wanted k.game EnvSets.Misses)) }
    ensures halted { OnErr result (HoldsBesides (G.kept g.old) (G.kept g.new) []) }
    ensures told { let k = G.kept g.old in (game : GameData) (m : Moment) → k.game ≡ game → IfErr result (TellsHalt game k (G.kept g.new) m) }
    ensures keeps { IsSameGame (G.kept g.old) (G.kept g.new) }
{
    let misses = regions_of(alloc, g, EnvSets::Misses)?;
    match with_misses(alloc, g) {
        Ok((none, asms)) => Ok(Given { none, misses, asms }),
        Err(halt) => {
            spend_all(g, misses);
            Err(halt)
        }
    }
}

/// The regions that stand beside those of the goals.
fn with_misses<G: Regions>(alloc: Global, g: &mut G) -> Result<(G::R, Vec<G::R>), Halt>
    requires free { (G.kept g.old).jam ≡ None }
    ensures made { let k = G.kept g.old in IfOk result (λ r. MakesRegions k (G.kept g.new) (r.0 ∷ r.1.items) (no_states ∷ wanted k.game EnvSets.Assumptions)) }
    ensures halted { OnErr result (HoldsBesides (G.kept g.old) (G.kept g.new) []) }
    ensures told { let k = G.kept g.old in (game : GameData) (m : Moment) → k.game ≡ game → IfErr result (TellsHalt game k (G.kept g.new) m) }
    ensures keeps { IsSameGame (G.kept g.old) (G.kept g.new) }
{
    let asms = regions_of(alloc, g, EnvSets::Assumptions)?;
    match g.none() {
        Ok(none) => Ok((none, asms)),
        Err(halt) => {
            spend_all(g, asms);
            Err(halt)
        }
    }
}

/// Spends them.
pub fn spend_given<G: Regions>(g: &mut G, given: Given<G>)
    requires { HasTogether (G.kept g.old) (given_regions given) }
    ensures spends { SpendsAll (G.kept g.old) (G.kept g.new) (given_regions given) }
    ensures keeps { IsSameGame (G.kept g.old) (G.kept g.new) }
{
    let Given { none, misses, asms } = given;
    spend_all(g, misses);
    g.spend(none);
    spend_all(g, asms);
}
