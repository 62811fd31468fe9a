//! What a strategy has besides its layers.

ghost use Rattle.std.specs.Prelude.{◌++◌};
ghost use Rattle.regions.specs.Kept.{IsSameGame};
ghost use Rattle.strategy_parts.specs.Owned.{HasAll, SpendsAll, move_items};
ghost use Rattle.counterstrategy.specs.Owned.{list_items, kit_items};

use regions::Regions;
use strategy_parts::{spend_moves, spend_regions};

/// The states of the goals and of the assumptions, and all moves. They must be spent.
pub struct Kit<G: Regions> {
    /// The states at which each goal holds, and at which each assumption does.
    pub goals: Vec<G::R>,
    pub asms: Vec<G::R>,
    /// The first moves into each layer, and the later ones, by the layer's number: the first of them lead into no states.
    pub first: Vec<G::Move>,
    pub later: Vec<G::Move>,
    /// The later moves into the iterates of each hold for each assumption, goal by goal and layer by layer.
    pub delays: Vec<Vec<G::Move>>,
}

/// Spends each list of moves.
pub fn spend_lists<G: Regions>(g: &mut G, mut lists: Vec<Vec<G::Move>>)
    requires { HasAll (G.kept g.old) (list_items lists.items) }
    ensures spends { SpendsAll (G.kept g.old) (G.kept g.new) (list_items lists.items) }
    ensures keeps { IsSameGame (G.kept g.old) (G.kept g.new) }
{
    while let Some(moves) = lists.pop() {
        spend_moves(g, moves);
    }
    lists.destroy_empty();
}

/// Spends all moves.
fn spend_all_moves<G: Regions>(
    g: &mut G,
    first: Vec<G::Move>,
    later: Vec<G::Move>,
    delays: Vec<Vec<G::Move>>,
)
    requires { HasAll (G.kept g.old) (move_items first.items ++ (move_items later.items ++ list_items delays.items)) }
    ensures spends { SpendsAll (G.kept g.old) (G.kept g.new) (move_items first.items ++ (move_items later.items ++ list_items delays.items)) }
    ensures keeps { IsSameGame (G.kept g.old) (G.kept g.new) }
{
    spend_moves(g, first);
    spend_moves(g, later);
    spend_lists(g, delays);
}

/// Spends what a strategy has besides its layers.
pub fn spend_kit<G: Regions>(g: &mut G, kit: Kit<G>)
    requires { HasAll (G.kept g.old) (kit_items kit) }
    ensures spends { SpendsAll (G.kept g.old) (G.kept g.new) (kit_items kit) }
    ensures keeps { IsSameGame (G.kept g.old) (G.kept g.new) }
{
    let Kit {
        goals,
        asms,
        first,
        later,
        delays,
    } = kit;
    spend_regions(g, goals);
    spend_regions(g, asms);
    spend_all_moves(g, first, later, delays);
}
