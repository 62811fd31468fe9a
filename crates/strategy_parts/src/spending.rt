//! Regions and moves given back, many at once.

ghost use Rattle.regions.specs.Kept.{IsSameGame};
ghost use Rattle.strategy_parts.specs.Owned.{HasAll, SpendsAll, region_items, move_items};

use regions::Regions;

/// Spends each of several regions.
pub fn spend_regions<G: Regions>(g: &mut G, mut rs: Vec<G::R>)
    requires { HasAll (G.kept g.old) (region_items rs.items) }
    ensures spends { SpendsAll (G.kept g.old) (G.kept g.new) (region_items rs.items) }
    ensures keeps { IsSameGame (G.kept g.old) (G.kept g.new) }
{
    while let Some(r) = rs.pop() {
        g.spend(r);
    }
    rs.destroy_empty();
}

/// Spends each of several moves.
pub fn spend_moves<G: Regions>(g: &mut G, mut moves: Vec<G::Move>)
    requires { HasAll (G.kept g.old) (move_items moves.items) }
    ensures spends { SpendsAll (G.kept g.old) (G.kept g.new) (move_items moves.items) }
    ensures keeps { IsSameGame (G.kept g.old) (G.kept g.new) }
{
    while let Some(m) = moves.pop() {
        g.spend_move(m);
    }
    moves.destroy_empty();
}
