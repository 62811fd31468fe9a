//! The states of the goals, and all moves of a strategy.

ghost use Rattle.std.specs.Prelude.{◌≡◌, ◌<◌, ◌++◌, [], None, length, IfOk, IfErr, OnErr};
ghost use Rattle.regions.specs.Kept.{HoldsBesides, IsSameGame};
ghost use Rattle.regions.specs.declared.types.When.TheVariants.{First, Later};
ghost use Rattle.gr1_law.specs.Layers.{goal_sets};
ghost use Rattle.gr1_sys.specs.Held.{HasEach, all_regions};
ghost use Rattle.strategy_parts.specs.Owned.{MakesAll};
ghost use Rattle.controller.specs.Owned.{aims_items, all_aims_items, made_items};
ghost use Rattle.controller.specs.Made.{Targets, AreTargets, TellsHalt, AreLike, AreAllLike, regions_for, first_layers, move_meanings, made_meanings};

use crate::aims::Aim;
use crate::making::{aims_into, later_aims};
use crate::spending::spend_aims;
use gr1_sys::SysLayer;
use regions::{Halt, Regions, When};
use std::alloc::Global;
use strategy_parts::{Wanted, recurring_regions, spend_regions};

/// The layers of the first goal.
fn layers_of_first<G: Regions>(layers: &[Vec<SysLayer<G>>]) -> &[SysLayer<G>]
    requires { 0 < length layers.now }
    ensures { result.now ≡ first_layers layers.now }
{
    &layers[0]
}

/// The first moves into each layer of the first goal, and the later ones into each layer of each goal.
fn moves_of<G: Regions>(
    alloc: Global,
    g: &mut G,
    layers: &[Vec<SysLayer<G>>],
) -> Result<(Vec<Aim<G>>, Vec<Vec<Aim<G>>>), Halt>
    requires free { (G.kept g.old).jam ≡ None }
    requires some { 0 < length layers.now }
    requires layers { HasEach (G.kept g.old) (all_regions layers.now) }
    ensures made { let k = G.kept g.old in IfOk result (λ m. MakesAll k (G.kept g.new) (aims_items m.0.items ++ all_aims_items m.1.items) (move_meanings k layers.now)) }
    ensures first { IfOk result (λ m. AreLike First m.0.items (first_layers layers.now)) }
    ensures alike { IfOk result (λ m. AreAllLike m.1.items layers.now) }
    ensures halted { OnErr result (HoldsBesides (G.kept g.old) (G.kept g.new) []) }
    ensures told { let k = G.kept g.old in (targets : Targets) → AreTargets targets First k (regions_for First (first_layers layers.now)) → AreTargets targets Later k (all_regions layers.now) → IfErr result (TellsHalt k (G.kept g.new) targets) }
    ensures keeps { IsSameGame (G.kept g.old) (G.kept g.new) }
{
    let first = aims_into(alloc, g, When::First, layers_of_first::<G>(layers))?;
    match later_aims(alloc, g, layers) {
        Ok(goals) => Ok((first, goals)),
        Err(halt) => {
            spend_aims(g, first);
            Err(halt)
        }
    }
}

/// The moves, and the states of each goal.
pub fn equip<G: Regions>(
    alloc: Global,
    g: &mut G,
    layers: &[Vec<SysLayer<G>>],
) -> Result<(Vec<Aim<G>>, Vec<Vec<Aim<G>>>, Vec<G::R>), Halt>
    requires free { (G.kept g.old).jam ≡ None }
    requires count { length layers.now ≡ length (goal_sets (G.kept g.old).game) }
    requires layers { HasEach (G.kept g.old) (all_regions layers.now) }
    ensures made { let k = G.kept g.old in IfOk result (λ m. MakesAll k (G.kept g.new) (made_items m.0.items m.1.items m.2.items) (made_meanings k layers.now)) }
    ensures first { IfOk result (λ m. AreLike First m.0.items (first_layers layers.now)) }
    ensures alike { IfOk result (λ m. AreAllLike m.1.items layers.now) }
    ensures counted { let k = G.kept g.old in IfOk result (λ m. length m.2.items ≡ length (goal_sets k.game)) }
    ensures halted { OnErr result (HoldsBesides (G.kept g.old) (G.kept g.new) []) }
    ensures told { let k = G.kept g.old in (targets : Targets) → AreTargets targets First k (regions_for First (first_layers layers.now)) → AreTargets targets Later k (all_regions layers.now) → IfErr result (TellsHalt k (G.kept g.new) targets) }
    ensures keeps { IsSameGame (G.kept g.old) (G.kept g.new) }
{
    let holds = recurring_regions(alloc, g, Wanted::Guarantees)?;
    match moves_of(alloc, g, layers) {
        Ok((first, goals)) => Ok((first, goals, holds)),
        Err(halt) => {
            spend_regions(g, holds);
            Err(halt)
        }
    }
}
