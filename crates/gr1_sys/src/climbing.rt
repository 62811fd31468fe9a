//! The layers of one goal, from the first to the last.

ghost use Rattle.std.specs.Prelude.{◌≡◌, [], None, IfOk, IfErr, OnErr};
ghost use Rattle.spec_model.specs.Sets.{StateSet, both, pre_sys};
ghost use Rattle.regions.specs.Kept.{HasRegion, HoldsBesides, IsSameGame};
ghost use Rattle.gr1_law.specs.Layers.{goal_set};
ghost use Rattle.gr1_sys.specs.Solution.{layer_of};
ghost use Rattle.gr1_sys.specs.Moment.{IsGoal};
ghost use Rattle.gr1_sys.specs.Told.{TellsHalt};
ghost use Rattle.gr1_sys.specs.Held.{HasTogether, HoldsWithoutAll, IsGiven, goal_regions, last_region, Reaches, Grows, HasClimbed};

use crate::givens::Given;
use crate::layers::SysLayer;
use crate::ranks::{last_layer, layer_above};
use crate::spending::{spend_layer, spend_layers};
use regions::{Halt, Regions};
use std::alloc::Global;

/// The layers with the next one; or, and then `true`, as they are where the next one is the last.
fn grow<G: Regions>(
    alloc: Global,
    g: &mut G,
    reach: &G::R,
    given: &Given<G>,
    mut layers: Vec<SysLayer<G>>,
) -> Result<(Vec<SysLayer<G>>, bool), Halt>
    requires free { (G.kept g.old).jam ≡ None }
    requires reach { HasRegion (G.kept g.old) reach.now }
    requires given { IsGiven (G.kept g.old) given.now }
    requires layers { HasTogether (G.kept g.old) (goal_regions layers.items) }
    ensures grown { let k = G.kept g.old in (z : StateSet) (j n : _) → k.set reach.now ≡ both (goal_set k.game j) (pre_sys k.game z) →
        k.set (last_region given.now.none layers.items) ≡ layer_of k.game z j n → IfOk result (λ r. Grows k.game k (G.kept g.new) z j layers.items n r.0.items r.1) }
    ensures halted { OnErr result (HoldsWithoutAll (G.kept g.old) (G.kept g.new) (goal_regions layers.items)) }
    ensures told { let k = G.kept g.old in (z : StateSet) (j n : _) → IsGoal k.game j → k.set reach.now ≡ both (goal_set k.game j) (pre_sys k.game z) →
        k.set (last_region given.now.none layers.items) ≡ layer_of k.game z j n → IfErr result (TellsHalt k (G.kept g.new) z) }
    ensures keeps { IsSameGame (G.kept g.old) (G.kept g.new) }
{
    if layers.reserve(1).is_err() {
        spend_layers(g, layers);
        return Err(Halt::Memory);
    }
    match layer_above(
        alloc,
        g,
        reach,
        last_layer::<G>(&given.none, &layers),
        given,
    ) {
        Ok(next) => {
            if g.same(last_layer::<G>(&given.none, &layers), &next.y) {
                spend_layer(g, next);
                Ok((layers, true))
            } else {
                layers.push_reserved(next);
                Ok((layers, false))
            }
        }
        Err(halt) => {
            spend_layers(g, layers);
            Err(halt)
        }
    }
}

/// The layers of the goal whose states that reach it are `reach`.
pub fn goal_layers<G: Regions>(
    alloc: Global,
    g: &mut G,
    reach: &G::R,
    given: &Given<G>,
) -> Result<Vec<SysLayer<G>>, Halt>
    requires free { (G.kept g.old).jam ≡ None }
    requires reach { HasRegion (G.kept g.old) reach.now }
    requires reaches { let k = G.kept g.old in Reaches k.game (k.set reach.now) }
    requires given { IsGiven (G.kept g.old) given.now }
    ensures climbed { let k = G.kept g.old in (z : StateSet) (j : _) → k.set reach.now ≡ both (goal_set k.game j) (pre_sys k.game z) →
        IfOk result (λ layers. HasClimbed k.game k (G.kept g.new) z j layers.items) }
    ensures halted { OnErr result (HoldsBesides (G.kept g.old) (G.kept g.new) []) }
    ensures told { let k = G.kept g.old in (z : StateSet) (j : _) → IsGoal k.game j → k.set reach.now ≡ both (goal_set k.game j) (pre_sys k.game z) → IfErr result (TellsHalt k (G.kept g.new) z) }
    ensures keeps { IsSameGame (G.kept g.old) (G.kept g.new) }
{
    let mut layers = Vec::new(alloc);
    loop {
        let (more, settled) = grow(alloc, g, reach, given, layers)?;
        layers = more;
        if settled {
            return Ok(layers);
        }
    }
}
