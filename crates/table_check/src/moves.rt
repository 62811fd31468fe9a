//! The rules on a node and those that may come next.

ghost use Rattle.std.specs.Prelude.{◌≡◌, ◌&&◌, nat_le, slice_get};
ghost use Rattle.spec_model.specs.GameViews.{game_data};
ghost use Rattle.strategy_tables.specs.Tables.{passes_if_some, turned as turned_lem};
ghost use Rattle.strategy_tables.specs.Rules.{is_numbered as is_numbered_lem, moves_on as moves_on_lem, denies_on as denies_on_lem, updated as updated_lem, rule_4, rule_9};
ghost use Rattle.strategy_tables.specs.Views.{node_data};
ghost use Rattle.table_check.specs.Nodes.{IsChecker, game_in, nodes_in, held_at};

use crate::checker::Checker;
use crate::held::{Held, asm_count, goal_count};
use spec_model::game::Game;
use strategy_tables::Node;

/// Whether a number is from 1 to a count.
fn is_from_one(n: u32, count: usize) -> bool
    ensures { result ≡ (nat_le 1 n && nat_le n count) }
{
    n >= 1 && n as usize <= count
}

/// Whether a node's goal and assumption are numbers of the game's.
pub fn is_numbered(game: &Game, v: &Node) -> bool
    ensures { result ≡ is_numbered_lem (game_data game.now) (node_data v.now) }
{
    is_from_one(v.goal, goal_count(game)) && is_from_one(v.asm, asm_count(game))
}

/// The next number; after the last comes 1.
fn turned(count: usize, i: u32) -> usize
    ensures { result ≡ turned_lem count i }
{
    if i as usize == count {
        1
    } else {
        i as usize + 1
    }
}

/// The assumption that a node waits for from there on.
pub fn updated(game: &Game, v: &Node, held: Held) -> usize
    requires { held ≡ held_at (game_data game.now) (node_data v.now) }
    ensures { result ≡ updated_lem (game_data game.now) (node_data v.now) }
{
    if held.asm {
        turned(asm_count(game), v.asm)
    } else {
        v.asm as usize
    }
}

/// Whether a system's table may go on from a node to another: once the goal holds to the next one; before, to a lower rank, or to
/// the same rank and assumption while that is false.
fn moves_on(game: &Game, v: &Node, held: Held, w: &Node) -> bool
    requires { held ≡ held_at (game_data game.now) (node_data v.now) }
    ensures { result ≡ moves_on_lem (game_data game.now) (node_data v.now) (node_data w.now) }
{
    if held.goal {
        return w.goal as usize == turned(goal_count(game), v.goal);
    }
    w.goal == v.goal && (w.rank < v.rank || (w.rank == v.rank && w.asm == v.asm && !held.asm))
}

/// Whether an environment's table may go on from a node to another: once the goal holds to a lower layer; before, within the layer
/// and the goal, to the assumption that is waited for, and where neither the goal nor that assumption holds to a lower rank.
fn denies_on(game: &Game, v: &Node, held: Held, w: &Node, next: Held) -> bool
    requires here { held ≡ held_at (game_data game.now) (node_data v.now) }
    requires next { next ≡ held_at (game_data game.now) (node_data w.now) }
    ensures { result ≡ denies_on_lem (game_data game.now) (node_data v.now) (node_data w.now) }
{
    if held.goal {
        return w.layer < v.layer;
    }
    w.layer == v.layer
        && w.goal == v.goal
        && w.asm as usize == updated(game, v, held)
        && v.rank >= 1
        && (next.goal || next.asm || w.rank < v.rank)
}

impl<'a> Checker<'a> {
    fn target_moves_on(&self, v: &Node, held: Held, target: u32) -> bool
        requires checker { IsChecker self.now }
        requires held { held ≡ held_at (game_in self.now) (node_data v.now) }
        ensures { result ≡ passes_if_some (moves_on_lem (game_in self.now) (node_data v.now)) (slice_get (nodes_in self.now) target) }
    {
        let target = target as usize;
        target >= self.nodes.len() || moves_on(&self.judges.game, v, held, &self.nodes[target])
    }

    /// Whether a system's table may go on from a node to each that comes next.
    pub fn each_moves_on(&self, v: &Node, held: Held) -> bool
        requires checker { IsChecker self.now }
        requires held { held ≡ held_at (game_in self.now) (node_data v.now) }
        ensures { result ≡ rule_4 (game_in self.now) (nodes_in self.now) (node_data v.now) }
    {
        for target in &v.next {
            if !self.target_moves_on(v, held, *target) {
                return false;
            }
        }
        true
    }

    fn target_denies_on(&self, v: &Node, held: Held, target: u32) -> bool
        requires checker { IsChecker self.now }
        requires held { held ≡ held_at (game_in self.now) (node_data v.now) }
        ensures { result ≡ passes_if_some (denies_on_lem (game_in self.now) (node_data v.now)) (slice_get (nodes_in self.now) target) }
    {
        let target = target as usize;
        if target >= self.nodes.len() {
            return true;
        }
        let w = &self.nodes[target];
        denies_on(&self.judges.game, v, held, w, self.held[target])
    }

    /// Whether an environment's table may go on from a node to each that comes next.
    pub fn each_denies_on(&self, v: &Node, held: Held) -> bool
        requires checker { IsChecker self.now }
        requires held { held ≡ held_at (game_in self.now) (node_data v.now) }
        ensures { result ≡ rule_9 (game_in self.now) (nodes_in self.now) (node_data v.now) }
    {
        for target in &v.next {
            if !self.target_denies_on(v, held, *target) {
                return false;
            }
        }
        true
    }
}
