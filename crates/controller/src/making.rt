//! The moves into the layers, as they are made for a strategy.

ghost use Rattle.std.specs.Prelude.{◌≡◌, [], ◌∷◌, None, IfOk, IfErr, OnErr};
ghost use Rattle.regions.specs.Kept.{HoldsBesides, IsSameGame};
ghost use Rattle.gr1_sys.specs.Held.{HasEach, all_regions};
ghost use Rattle.strategy_parts.specs.Owned.{MakesAll};
ghost use Rattle.controller.specs.Owned.{aim_items, aims_items, all_aims_items};
ghost use Rattle.controller.specs.Made.{Targets, AreTargets, TellsHalt, AreLike, AreAllLike, leadings, parts_for as parts_for_lem, regions_for};

use crate::aims::Aim;
use crate::spending::{spend_aims, spend_all_aims};
use gr1_sys::SysLayer;
use regions::{Halt, Regions, When};
use spec_model::value::Owner;
use std::alloc::Global;
use strategy_parts::{moves_into, spend_moves};

/// The moves into a layer and into each of some parts.
fn aim_into<G: Regions>(
    alloc: Global,
    g: &mut G,
    when: When,
    layer: &G::R,
    parts: &[G::R],
) -> Result<Aim<G>, Halt>
    requires free { (G.kept g.old).jam ≡ None }
    requires regions { HasEach (G.kept g.old) (layer.now ∷ parts.now) }
    ensures made { let k = G.kept g.old in IfOk result (λ a. MakesAll k (G.kept g.new) (aim_items a) (leadings k when (layer.now ∷ parts.now))) }
    ensures halted { OnErr result (HoldsBesides (G.kept g.old) (G.kept g.new) []) }
    ensures told { let k = G.kept g.old in (targets : Targets) → AreTargets targets when k (layer.now ∷ parts.now) → IfErr result (TellsHalt k (G.kept g.new) targets) }
    ensures keeps { IsSameGame (G.kept g.old) (G.kept g.new) }
{
    let parts = moves_into(alloc, g, Owner::Sys, when, parts)?;
    match g.out_moves(when, layer) {
        Ok(layer) => Ok(Aim { layer, parts }),
        Err(halt) => {
            spend_moves(g, parts);
            Err(halt)
        }
    }
}

/// The parts that have moves of their own.
fn parts_for<G: Regions>(when: When, layer: &SysLayer<G>) -> &[G::R]
    ensures { result.now ≡ parts_for_lem when layer.now }
{
    match when {
        When::First => &[],
        When::Later => &layer.x,
    }
}

/// The moves into each layer of a goal, and later into each part.
pub fn aims_into<G: Regions>(
    alloc: Global,
    g: &mut G,
    when: When,
    layers: &[SysLayer<G>],
) -> Result<Vec<Aim<G>>, Halt>
    requires free { (G.kept g.old).jam ≡ None }
    requires layers { HasEach (G.kept g.old) (regions_for when layers.now) }
    ensures made { let k = G.kept g.old in IfOk result (λ aims. MakesAll k (G.kept g.new) (aims_items aims.items) (leadings k when (regions_for when layers.now))) }
    ensures alike { IfOk result (λ aims. AreLike when aims.items layers.now) }
    ensures halted { OnErr result (HoldsBesides (G.kept g.old) (G.kept g.new) []) }
    ensures told { let k = G.kept g.old in (targets : Targets) → AreTargets targets when k (regions_for when layers.now) → IfErr result (TellsHalt k (G.kept g.new) targets) }
    ensures keeps { IsSameGame (G.kept g.old) (G.kept g.new) }
{
    let Ok(mut aims) = Vec::with_capacity(alloc, layers.len()) else {
        return Err(Halt::Memory);
    };
    for layer in layers {
        match aim_into(alloc, g, when, &layer.y, parts_for::<G>(when, layer)) {
            Ok(aim) => aims.push_reserved(aim),
            Err(halt) => {
                spend_aims(g, aims);
                return Err(halt);
            }
        }
    }
    Ok(aims)
}

/// The later moves into each layer of each goal.
pub fn later_aims<G: Regions>(
    alloc: Global,
    g: &mut G,
    layers: &[Vec<SysLayer<G>>],
) -> Result<Vec<Vec<Aim<G>>>, Halt>
    requires free { (G.kept g.old).jam ≡ None }
    requires layers { HasEach (G.kept g.old) (all_regions layers.now) }
    ensures made { let k = G.kept g.old in IfOk result (λ goals. MakesAll k (G.kept g.new) (all_aims_items goals.items) (leadings k When.Later (all_regions layers.now))) }
    ensures alike { IfOk result (λ goals. AreAllLike goals.items layers.now) }
    ensures halted { OnErr result (HoldsBesides (G.kept g.old) (G.kept g.new) []) }
    ensures told { let k = G.kept g.old in (targets : Targets) → AreTargets targets When.Later k (all_regions layers.now) → IfErr result (TellsHalt k (G.kept g.new) targets) }
    ensures keeps { IsSameGame (G.kept g.old) (G.kept g.new) }
{
    let Ok(mut goals) = Vec::with_capacity(alloc, layers.len()) else {
        return Err(Halt::Memory);
    };
    for goal in layers {
        match aims_into(alloc, g, When::Later, goal) {
            Ok(aims) => goals.push_reserved(aims),
            Err(halt) => {
                spend_all_aims(g, goals);
                return Err(halt);
            }
        }
    }
    Ok(goals)
}
