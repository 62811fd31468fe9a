//! The layers of each goal for one value of Z, and the value that follows.

ghost use Rattle.std.specs.Prelude.{◌≡◌, ◌<◌, ◌≤◌, ℕ, [], None, IfOk, IfErr, OnErr, length};
ghost use Rattle.spec_model.specs.Steps.{states_of};
ghost use Rattle.spec_model.specs.Sets.{StateSet, pre_sys};
ghost use Rattle.regions.specs.Kept.{HasRegion, HoldsBesides, MakesRegion, IsSameGame};
ghost use Rattle.gr1_law.specs.Layers.{goal_set, goal_sets};
ghost use Rattle.gr1_sys.specs.Solution.{layer_of, meet};
ghost use Rattle.gr1_sys.specs.Moment.{IsGoal};
ghost use Rattle.gr1_sys.specs.Told.{TellsHalt};
ghost use Rattle.gr1_sys.specs.Held.{HasEach, IsGiven, HasClimbed, HaveClimbed, all_regions, last_set, TurnsTo};

use crate::climbing::goal_layers;
use crate::givens::Given;
use crate::joining::and_in;
use crate::layers::SysLayer;
use crate::ranks::last_layer;
use crate::spending::spend_goals;
use regions::{Halt, Regions};
use std::alloc::Global;

/// The layers of a goal, where `ready` are the states from which the next is forced into Z.
fn layers_of<G: Regions>(
    alloc: Global,
    g: &mut G,
    goal: &G::R,
    ready: &G::R,
    given: &Given<G>,
) -> Result<Vec<SysLayer<G>>, Halt>
    requires free { (G.kept g.old).jam ≡ None }
    requires goal { HasRegion (G.kept g.old) goal.now }
    requires ready { HasRegion (G.kept g.old) ready.now }
    requires is_goal { let k = G.kept g.old in (j : ℕ) × (k.set goal.now ≡ goal_set k.game j) }
    requires is_ready { let k = G.kept g.old in (z : StateSet) × (k.set ready.now ≡ pre_sys k.game z) }
    requires given { IsGiven (G.kept g.old) given.now }
    ensures climbed { let k = G.kept g.old in (z : StateSet) (j : ℕ) → k.set goal.now ≡ goal_set k.game j → k.set ready.now ≡ pre_sys k.game z →
        IfOk result (λ layers. HasClimbed k.game k (G.kept g.new) z j layers.items) }
    ensures halted { OnErr result (HoldsBesides (G.kept g.old) (G.kept g.new) []) }
    ensures told { let k = G.kept g.old in (z : StateSet) (j : ℕ) → IsGoal k.game j → k.set goal.now ≡ goal_set k.game j → k.set ready.now ≡ pre_sys k.game z → IfErr result (TellsHalt k (G.kept g.new) z) }
    ensures keeps { IsSameGame (G.kept g.old) (G.kept g.new) }
{
    let reach = g.and(goal, ready)?;
    match goal_layers(alloc, g, &reach, given) {
        Ok(layers) => {
            g.spend(reach);
            Ok(layers)
        }
        Err(halt) => {
            g.spend(reach);
            Err(halt)
        }
    }
}

/// The layers of each goal.
fn all_layers<G: Regions>(
    alloc: Global,
    g: &mut G,
    ready: &G::R,
    given: &Given<G>,
) -> Result<Vec<Vec<SysLayer<G>>>, Halt>
    requires free { (G.kept g.old).jam ≡ None }
    requires ready { HasRegion (G.kept g.old) ready.now }
    requires is_ready { let k = G.kept g.old in (z : StateSet) × (k.set ready.now ≡ pre_sys k.game z) }
    requires given { IsGiven (G.kept g.old) given.now }
    ensures climbed { let k = G.kept g.old in (z : StateSet) → k.set ready.now ≡ pre_sys k.game z →
        IfOk result (λ goals. HaveClimbed k.game k (G.kept g.new) z goals.items × (length goals.items ≡ length given.now.goals.items)) }
    ensures halted { OnErr result (HoldsBesides (G.kept g.old) (G.kept g.new) []) }
    ensures told { let k = G.kept g.old in (z : StateSet) → k.set ready.now ≡ pre_sys k.game z → IfErr result (TellsHalt k (G.kept g.new) z) }
    ensures keeps { IsSameGame (G.kept g.old) (G.kept g.new) }
{
    let Ok(mut goals) = Vec::with_capacity(alloc, given.goals.len()) else {
        return Err(Halt::Memory);
    };
    for goal in &given.goals {
        match layers_of(alloc, g, goal, ready, given) {
            Ok(layers) => goals.push_reserved(layers),
            Err(halt) => {
                spend_goals(g, goals);
                return Err(halt);
            }
        }
    }
    Ok(goals)
}

/// The layers of each goal for `z`.
fn layers_for<G: Regions>(
    alloc: Global,
    g: &mut G,
    z: &G::R,
    given: &Given<G>,
) -> Result<Vec<Vec<SysLayer<G>>>, Halt>
    requires free { (G.kept g.old).jam ≡ None }
    requires z { HasRegion (G.kept g.old) z.now }
    requires given { IsGiven (G.kept g.old) given.now }
    ensures climbed { let k = G.kept g.old in
        IfOk result (λ goals. HaveClimbed k.game k (G.kept g.new) (k.set z.now) goals.items × (length goals.items ≡ length given.now.goals.items)) }
    ensures halted { OnErr result (HoldsBesides (G.kept g.old) (G.kept g.new) []) }
    ensures told { let k = G.kept g.old in IfErr result (TellsHalt k (G.kept g.new) (k.set z.now)) }
    ensures keeps { IsSameGame (G.kept g.old) (G.kept g.new) }
{
    let ready = g.pre_sys(z)?;
    match all_layers(alloc, g, &ready, given) {
        Ok(goals) => {
            g.spend(ready);
            Ok(goals)
        }
        Err(halt) => {
            g.spend(ready);
            Err(halt)
        }
    }
}

/// The states that are in the last layer of each goal.
fn common<G: Regions>(g: &mut G, none: &G::R, goals: &[Vec<SysLayer<G>>]) -> Result<G::R, Halt>
    requires free { (G.kept g.old).jam ≡ None }
    requires none { HasRegion (G.kept g.old) none.now }
    requires goals { HasEach (G.kept g.old) (all_regions goals.now) }
    ensures made { let k = G.kept g.old in
        IfOk result (λ r. MakesRegion k (G.kept g.new) r (meet k.game (last_set k none.now goals.now) (length goals.now))) }
    ensures halted { OnErr result (HoldsBesides (G.kept g.old) (G.kept g.new) []) }
    ensures told { let k = G.kept g.old in (z : StateSet) → length goals.now ≤ length (goal_sets k.game) → ((j : ℕ) → j < length goals.now → last_set k none.now goals.now j ≡ layer_of k.game z j (length (states_of k.game))) → IfErr result (TellsHalt k (G.kept g.new) z) }
    ensures keeps { IsSameGame (G.kept g.old) (G.kept g.new) }
{
    let mut met = g.all()?;
    for layers in goals {
        met = and_in(g, met, last_layer::<G>(none, layers))?;
    }
    Ok(met)
}

/// The layers of each goal for `z`, and the value of Z that follows.
pub fn turn<G: Regions>(
    alloc: Global,
    g: &mut G,
    z: &G::R,
    given: &Given<G>,
) -> Result<(Vec<Vec<SysLayer<G>>>, G::R), Halt>
    requires free { (G.kept g.old).jam ≡ None }
    requires z { HasRegion (G.kept g.old) z.now }
    requires given { IsGiven (G.kept g.old) given.now }
    ensures turned { let k = G.kept g.old in IfOk result (λ r. TurnsTo k (G.kept g.new) (k.set z.now) r.0.items r.1) }
    ensures halted { OnErr result (HoldsBesides (G.kept g.old) (G.kept g.new) []) }
    ensures told { let k = G.kept g.old in IfErr result (TellsHalt k (G.kept g.new) (k.set z.now)) }
    ensures keeps { IsSameGame (G.kept g.old) (G.kept g.new) }
{
    let goals = layers_for(alloc, g, z, given)?;
    match common(g, &given.none, &goals) {
        Ok(next) => Ok((goals, next)),
        Err(halt) => {
            spend_goals(g, goals);
            Err(halt)
        }
    }
}
