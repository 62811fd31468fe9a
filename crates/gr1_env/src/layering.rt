//! The layers, from the first to the last.

ghost use Rattle.std.specs.Prelude.{◌≡◌, ◌<◌, ◌≤◌, ℕ, suc, [], None, IfOk, IfErr, OnErr, length, map};
ghost use Rattle.spec_model.specs.Games.{GameData};
ghost use Rattle.spec_model.specs.Sets.{either, rest, pre_env};
ghost use Rattle.regions.specs.Kept.{HasRegion, HoldsBesides, MakesRegion, IsSameGame};
ghost use Rattle.gr1_law.specs.Layers.{goal_set, goal_sets, assumption_sets, union};
ghost use Rattle.gr1_sys.specs.Held.{HasEach, HasTogether, HoldsWithoutAll};
ghost use Rattle.gr1_sys.specs.Moment.{IsGoal};
ghost use Rattle.gr1_env.specs.Solution.{layer_on};
ghost use Rattle.gr1_env.specs.Held.{goal_regions, all_regions, last_z, hold_set, IsGiven, HasHold, HaveHolds, HasLayer, GrowsLayers, HaveLayers};
ghost use Rattle.gr1_env.specs.Moment.{Moment};
ghost use Rattle.gr1_env.specs.Told.{layer_number, AreGiven, TellsHalt, TellsHold, TellsLayer, TellsLayers};

use crate::givens::Given;
use crate::holds::hold;
use crate::layers::{EnvGoal, EnvLayer};
use crate::spending::{spend_holds, spend_layer, spend_layers};
use gr1_sys::or_in;
use regions::{Halt, Regions};
use std::alloc::Global;

/// The hold of a goal, where `forced` are the states from which the next is forced into the layer below.
fn hold_above<G: Regions>(
    alloc: Global,
    g: &mut G,
    miss: &G::R,
    forced: &G::R,
    given: &Given<G>,
) -> Result<EnvGoal<G>, Halt>
    requires free { (G.kept g.old).jam ≡ None }
    requires miss { HasRegion (G.kept g.old) miss.now }
    requires forced { HasRegion (G.kept g.old) forced.now }
    requires given { IsGiven (G.kept g.old) given.now }
    ensures made { let k = G.kept g.old in IfOk result (λ e. HasHold k.game k (G.kept g.new) (either (k.set miss.now) (k.set forced.now)) (map k.set given.now.asms.items) e) }
    ensures halted { OnErr result (HoldsBesides (G.kept g.old) (G.kept g.new) []) }
    ensures told { let k = G.kept g.old in (game : GameData) (a j : ℕ) → k.game ≡ game → IsGoal game j → k.set miss.now ≡ rest game (goal_set game j) → k.set forced.now ≡ pre_env game (layer_number game a) →
        map k.set given.now.asms.items ≡ assumption_sets game → IfErr result (TellsHold game k (G.kept g.new) a j) }
    ensures keeps { IsSameGame (G.kept g.old) (G.kept g.new) }
{
    let base = g.or(miss, forced)?;
    match hold(alloc, g, &base, &given.asms, &given.none) {
        Ok(e) => {
            g.spend(base);
            Ok(e)
        }
        Err(halt) => {
            g.spend(base);
            Err(halt)
        }
    }
}

/// The hold of each goal.
fn holds_above<G: Regions>(
    alloc: Global,
    g: &mut G,
    forced: &G::R,
    given: &Given<G>,
) -> Result<Vec<EnvGoal<G>>, Halt>
    requires free { (G.kept g.old).jam ≡ None }
    requires forced { HasRegion (G.kept g.old) forced.now }
    requires given { IsGiven (G.kept g.old) given.now }
    ensures made { let k = G.kept g.old in IfOk result (λ goals. HaveHolds k.game k (G.kept g.new) (k.set forced.now) (map k.set given.now.misses.items) (map k.set given.now.asms.items) goals.items) }
    ensures halted { OnErr result (HoldsBesides (G.kept g.old) (G.kept g.new) []) }
    ensures told { let k = G.kept g.old in (game : GameData) (a : ℕ) → k.game ≡ game → k.set forced.now ≡ pre_env game (layer_number game a) → AreGiven game (map k.set given.now.misses.items) (map k.set given.now.asms.items) → IfErr result (TellsLayer game k (G.kept g.new) a) }
    ensures keeps { IsSameGame (G.kept g.old) (G.kept g.new) }
{
    let Ok(mut goals) = Vec::with_capacity(alloc, given.misses.len()) else {
        return Err(Halt::Memory);
    };
    for miss in &given.misses {
        match hold_above(alloc, g, miss, forced, given) {
            Ok(e) => goals.push_reserved(e),
            Err(halt) => {
                spend_holds(g, goals);
                return Err(halt);
            }
        }
    }
    Ok(goals)
}

/// The hold of each goal above the layer `lower`.
fn holds_over<G: Regions>(
    alloc: Global,
    g: &mut G,
    lower: &G::R,
    given: &Given<G>,
) -> Result<Vec<EnvGoal<G>>, Halt>
    requires free { (G.kept g.old).jam ≡ None }
    requires lower { HasRegion (G.kept g.old) lower.now }
    requires given { IsGiven (G.kept g.old) given.now }
    ensures made { let k = G.kept g.old in IfOk result (λ goals. HaveHolds k.game k (G.kept g.new) (pre_env k.game (k.set lower.now)) (map k.set given.now.misses.items) (map k.set given.now.asms.items) goals.items) }
    ensures halted { OnErr result (HoldsBesides (G.kept g.old) (G.kept g.new) []) }
    ensures told { let k = G.kept g.old in (game : GameData) (a : ℕ) → k.game ≡ game → k.set lower.now ≡ layer_number game a → AreGiven game (map k.set given.now.misses.items) (map k.set given.now.asms.items) → IfErr result (TellsLayer game k (G.kept g.new) a) }
    ensures keeps { IsSameGame (G.kept g.old) (G.kept g.new) }
{
    let forced = g.pre_env(lower)?;
    match holds_above(alloc, g, &forced, given) {
        Ok(goals) => {
            g.spend(forced);
            Ok(goals)
        }
        Err(halt) => {
            g.spend(forced);
            Err(halt)
        }
    }
}

/// The states of all of the holds.
fn union_of<G: Regions>(g: &mut G, goals: &[EnvGoal<G>]) -> Result<G::R, Halt>
    requires free { (G.kept g.old).jam ≡ None }
    requires goals { HasEach (G.kept g.old) (goal_regions goals.now) }
    ensures made { let k = G.kept g.old in IfOk result (λ r. MakesRegion k (G.kept g.new) r (union (hold_set k goals.now) (length goals.now))) }
    ensures halted { OnErr result (HoldsBesides (G.kept g.old) (G.kept g.new) []) }
    ensures told { let k = G.kept g.old in (game : GameData) (m : Moment) (a : ℕ) → k.game ≡ game → length goals.now ≤ length (goal_sets game) → ((j : ℕ) → j < length goals.now → hold_set k goals.now j ≡ m.value (suc a) j) → IfErr result (TellsHalt game k (G.kept g.new) m) }
    ensures keeps { IsSameGame (G.kept g.old) (G.kept g.new) }
{
    let mut joined = g.none()?;
    for e in goals {
        joined = or_in(g, joined, &e.y)?;
    }
    Ok(joined)
}

/// The layer above `lower`.
fn layer_above<G: Regions>(
    alloc: Global,
    g: &mut G,
    lower: &G::R,
    given: &Given<G>,
) -> Result<EnvLayer<G>, Halt>
    requires free { (G.kept g.old).jam ≡ None }
    requires lower { HasRegion (G.kept g.old) lower.now }
    requires given { IsGiven (G.kept g.old) given.now }
    ensures made { let k = G.kept g.old in IfOk result (λ l. HasLayer k.game k (G.kept g.new) (k.set lower.now) (map k.set given.now.misses.items) (map k.set given.now.asms.items) l) }
    ensures halted { OnErr result (HoldsBesides (G.kept g.old) (G.kept g.new) []) }
    ensures told { let k = G.kept g.old in (game : GameData) (a : ℕ) → k.game ≡ game → k.set lower.now ≡ layer_number game a → AreGiven game (map k.set given.now.misses.items) (map k.set given.now.asms.items) → IfErr result (TellsLayer game k (G.kept g.new) a) }
    ensures keeps { IsSameGame (G.kept g.old) (G.kept g.new) }
{
    let goals = holds_over(alloc, g, lower, given)?;
    match union_of(g, &goals) {
        Ok(z) => Ok(EnvLayer { z, goals }),
        Err(halt) => {
            spend_holds(g, goals);
            Err(halt)
        }
    }
}

/// The last layer, or the region given where there is none.
pub fn last_layer<'a, G: Regions>(none: &'a G::R, layers: &'a [EnvLayer<G>]) -> &'a G::R
    ensures { result.now ≡ last_z none.now layers.now }
{
    match layers.last() {
        Some(layer) => &layer.z,
        None => none,
    }
}

/// The layers with the next one; or, and then `true`, as they are where the next one has no more states.
fn grow<G: Regions>(
    alloc: Global,
    g: &mut G,
    given: &Given<G>,
    mut layers: Vec<EnvLayer<G>>,
) -> Result<(Vec<EnvLayer<G>>, bool), Halt>
    requires free { (G.kept g.old).jam ≡ None }
    requires given { IsGiven (G.kept g.old) given.now }
    requires layers { HasTogether (G.kept g.old) (all_regions layers.items) }
    ensures grown { let k = G.kept g.old in
        IfOk result (λ r. GrowsLayers k.game k (G.kept g.new) (k.set (last_z given.now.none layers.items)) (map k.set given.now.misses.items) (map k.set given.now.asms.items) layers.items r.0.items r.1) }
    ensures halted { OnErr result (HoldsWithoutAll (G.kept g.old) (G.kept g.new) (all_regions layers.items)) }
    ensures told { let k = G.kept g.old in (game : GameData) (a : ℕ) → k.game ≡ game → k.set (last_z given.now.none layers.items) ≡ layer_number game a → AreGiven game (map k.set given.now.misses.items) (map k.set given.now.asms.items) → IfErr result (TellsLayer game k (G.kept g.new) a) }
    ensures keeps { IsSameGame (G.kept g.old) (G.kept g.new) }
{
    if layers.reserve(1).is_err() {
        spend_layers(g, layers);
        return Err(Halt::Memory);
    }
    match layer_above(alloc, g, last_layer::<G>(&given.none, &layers), given) {
        Ok(next) => {
            if g.same(last_layer::<G>(&given.none, &layers), &next.z) {
                spend_layer(g, next);
                Ok((layers, true))
            } else {
                layers.push_reserved(next);
                Ok((layers, false))
            }
        }
        Err(halt) => {
            spend_layers(g, layers);
            Err(halt)
        }
    }
}

/// The layers from 1 to the last. The next one is made too, to see that it has no more states, and is spent.
pub fn all_layers<G: Regions>(
    alloc: Global,
    g: &mut G,
    given: &Given<G>,
) -> Result<Vec<EnvLayer<G>>, Halt>
    requires free { (G.kept g.old).jam ≡ None }
    requires given { IsGiven (G.kept g.old) given.now }
    ensures made { let k = G.kept g.old in IfOk result (λ layers. HaveLayers k.game k (G.kept g.new) (map k.set given.now.misses.items) (map k.set given.now.asms.items) layers.items) }
    ensures last { let k = G.kept g.old in IfOk result (λ layers. (G.kept g.new).set (last_z given.now.none layers.items) ≡ layer_on k.game (map k.set given.now.misses.items) (map k.set given.now.asms.items) (length layers.items)) }
    ensures halted { OnErr result (HoldsBesides (G.kept g.old) (G.kept g.new) []) }
    ensures told { let k = G.kept g.old in (game : GameData) → k.game ≡ game → AreGiven game (map k.set given.now.misses.items) (map k.set given.now.asms.items) → IfErr result (TellsLayers game k (G.kept g.new)) }
    ensures keeps { IsSameGame (G.kept g.old) (G.kept g.new) }
{
    let mut layers = Vec::new(alloc);
    loop {
        let (more, settled) = grow(alloc, g, given, layers)?;
        layers = more;
        if settled {
            return Ok(layers);
        }
    }
}
