//! The moves of a strategy given back, many at once.

ghost use Rattle.regions.specs.Kept.{IsSameGame};
ghost use Rattle.strategy_parts.specs.Owned.{HasAll, SpendsAll};
ghost use Rattle.controller.specs.Owned.{aim_items, aims_items, all_aims_items, made_items};

use crate::aims::Aim;
use regions::Regions;
use strategy_parts::{spend_moves, spend_regions};

/// Spends the moves into a layer and its parts.
pub fn spend_aim<G: Regions>(g: &mut G, aim: Aim<G>)
    requires { HasAll (G.kept g.old) (aim_items aim) }
    ensures spends { SpendsAll (G.kept g.old) (G.kept g.new) (aim_items aim) }
    ensures keeps { IsSameGame (G.kept g.old) (G.kept g.new) }
{
    let Aim { layer, parts } = aim;
    g.spend_move(layer);
    spend_moves(g, parts);
}

/// Spends the moves of one goal.
pub fn spend_aims<G: Regions>(g: &mut G, mut aims: Vec<Aim<G>>)
    requires { HasAll (G.kept g.old) (aims_items aims.items) }
    ensures spends { SpendsAll (G.kept g.old) (G.kept g.new) (aims_items aims.items) }
    ensures keeps { IsSameGame (G.kept g.old) (G.kept g.new) }
{
    while let Some(a) = aims.pop() {
        spend_aim(g, a);
    }
    aims.destroy_empty();
}

/// Spends the moves of several goals.
pub fn spend_all_aims<G: Regions>(g: &mut G, mut goals: Vec<Vec<Aim<G>>>)
    requires { HasAll (G.kept g.old) (all_aims_items goals.items) }
    ensures spends { SpendsAll (G.kept g.old) (G.kept g.new) (all_aims_items goals.items) }
    ensures keeps { IsSameGame (G.kept g.old) (G.kept g.new) }
{
    while let Some(aims) = goals.pop() {
        spend_aims(g, aims);
    }
    goals.destroy_empty();
}

/// Spends the regions and the moves that were made besides the layers.
pub fn spend_made<G: Regions>(
    g: &mut G,
    first: Vec<Aim<G>>,
    goals: Vec<Vec<Aim<G>>>,
    holds: Vec<G::R>,
)
    requires { HasAll (G.kept g.old) (made_items first.items goals.items holds.items) }
    ensures spends { SpendsAll (G.kept g.old) (G.kept g.new) (made_items first.items goals.items holds.items) }
    ensures keeps { IsSameGame (G.kept g.old) (G.kept g.new) }
{
    spend_regions(g, holds);
    spend_aims(g, first);
    spend_all_aims(g, goals);
}
