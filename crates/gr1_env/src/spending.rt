//! Regions given back, many at once.

ghost use Rattle.regions.specs.Kept.{IsSameGame};
ghost use Rattle.gr1_sys.specs.Held.{HasTogether, SpendsAll};
ghost use Rattle.gr1_env.specs.Held.{list_regions, hold_regions, goal_regions, layer_regions, all_regions};

use crate::layers::{EnvGoal, EnvLayer};
use gr1_sys::spend_all;
use regions::Regions;

/// Spends each region of each list.
pub fn spend_lists<G: Regions>(g: &mut G, mut xs: Vec<Vec<G::R>>)
    requires { HasTogether (G.kept g.old) (list_regions xs.items) }
    ensures spends { SpendsAll (G.kept g.old) (G.kept g.new) (list_regions xs.items) }
    ensures keeps { IsSameGame (G.kept g.old) (G.kept g.new) }
{
    while let Some(rs) = xs.pop() {
        spend_all(g, rs);
    }
    xs.destroy_empty();
}

/// Spends a hold and its iterates.
pub fn spend_hold<G: Regions>(g: &mut G, e: EnvGoal<G>)
    requires { HasTogether (G.kept g.old) (hold_regions e) }
    ensures spends { SpendsAll (G.kept g.old) (G.kept g.new) (hold_regions e) }
    ensures keeps { IsSameGame (G.kept g.old) (G.kept g.new) }
{
    let EnvGoal { y, x } = e;
    g.spend(y);
    spend_lists(g, x);
}

/// Spends several holds.
pub fn spend_holds<G: Regions>(g: &mut G, mut goals: Vec<EnvGoal<G>>)
    requires { HasTogether (G.kept g.old) (goal_regions goals.items) }
    ensures spends { SpendsAll (G.kept g.old) (G.kept g.new) (goal_regions goals.items) }
    ensures keeps { IsSameGame (G.kept g.old) (G.kept g.new) }
{
    while let Some(e) = goals.pop() {
        spend_hold(g, e);
    }
    goals.destroy_empty();
}

/// Spends a layer and its holds.
pub fn spend_layer<G: Regions>(g: &mut G, l: EnvLayer<G>)
    requires { HasTogether (G.kept g.old) (layer_regions l) }
    ensures spends { SpendsAll (G.kept g.old) (G.kept g.new) (layer_regions l) }
    ensures keeps { IsSameGame (G.kept g.old) (G.kept g.new) }
{
    let EnvLayer { z, goals } = l;
    g.spend(z);
    spend_holds(g, goals);
}

/// Spends several layers.
pub fn spend_layers<G: Regions>(g: &mut G, mut layers: Vec<EnvLayer<G>>)
    requires { HasTogether (G.kept g.old) (all_regions layers.items) }
    ensures spends { SpendsAll (G.kept g.old) (G.kept g.new) (all_regions layers.items) }
    ensures keeps { IsSameGame (G.kept g.old) (G.kept g.new) }
{
    while let Some(l) = layers.pop() {
        spend_layer(g, l);
    }
    layers.destroy_empty();
}
