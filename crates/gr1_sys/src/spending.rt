//! Regions given back, many at once.

ghost use Rattle.regions.specs.Kept.{IsSameGame};
ghost use Rattle.gr1_sys.specs.Held.{HasTogether, SpendsAll, layer_regions, goal_regions, all_regions};

use crate::layers::SysLayer;
use regions::Regions;

/// Spends each region.
pub fn spend_all<G: Regions>(g: &mut G, mut rs: Vec<G::R>)
    requires { HasTogether (G.kept g.old) rs.items }
    ensures spends { SpendsAll (G.kept g.old) (G.kept g.new) rs.items }
    ensures keeps { IsSameGame (G.kept g.old) (G.kept g.new) }
{
    while let Some(r) = rs.pop() {
        g.spend(r);
    }
    rs.destroy_empty();
}

/// Spends a layer and its parts.
pub fn spend_layer<G: Regions>(g: &mut G, l: SysLayer<G>)
    requires { HasTogether (G.kept g.old) (layer_regions l) }
    ensures spends { SpendsAll (G.kept g.old) (G.kept g.new) (layer_regions l) }
    ensures keeps { IsSameGame (G.kept g.old) (G.kept g.new) }
{
    let SysLayer { y, x } = l;
    g.spend(y);
    spend_all(g, x);
}

/// Spends the layers of a goal.
pub fn spend_layers<G: Regions>(g: &mut G, mut ls: Vec<SysLayer<G>>)
    requires { HasTogether (G.kept g.old) (goal_regions ls.items) }
    ensures spends { SpendsAll (G.kept g.old) (G.kept g.new) (goal_regions ls.items) }
    ensures keeps { IsSameGame (G.kept g.old) (G.kept g.new) }
{
    while let Some(l) = ls.pop() {
        spend_layer(g, l);
    }
    ls.destroy_empty();
}

/// Spends the layers of several goals.
pub fn spend_goals<G: Regions>(g: &mut G, mut goals: Vec<Vec<SysLayer<G>>>)
    requires { HasTogether (G.kept g.old) (all_regions goals.items) }
    ensures spends { SpendsAll (G.kept g.old) (G.kept g.new) (all_regions goals.items) }
    ensures keeps { IsSameGame (G.kept g.old) (G.kept g.new) }
{
    while let Some(ls) = goals.pop() {
        spend_layers(g, ls);
    }
    goals.destroy_empty();
}
