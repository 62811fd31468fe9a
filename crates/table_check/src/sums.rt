//! The rules that sum up: the greatest ranks of the goals, and the bounds of each layer and goal. No sum wraps: what is left of
//! the claimed number is counted down.

ghost use Rattle.std.specs.Prelude.{◌≡◌, ℕ, suc, ◌<◌, ◌==◌, ◌&&◌, max, if◌then◌else◌, nat_le, nat_lt, ◌+◌, slice_index, sum, length, map, IfOk};
ghost use Rattle.std.specs.List.{list_all};
ghost use Rattle.spec_model.specs.GameViews.{game_data};
ghost use Rattle.gr1_law.specs.Layers.{goal_sets, assumption_sets};
ghost use Rattle.strategy_tables.specs.Rules.{greatest_rank, greatest_ranks, denies as denies_lem, given, bound, bounds};
ghost use Rattle.strategy_tables.specs.Views.{node_data};
ghost use Rattle.table_check.specs.Nodes.{IsChecker, game_in, nodes_in, held_at, capped};

use crate::checker::Checker;
use crate::held::{Held, asm_count, goal_count};
use crate::moves::updated;
use spec_model::game::Game;
use std::alloc::{AllocError, Global};
use strategy_tables::Node;

/// Writes 0 everywhere.
fn clear(sums: &mut [u64])
    ensures { (i : ℕ) → i < length sums.old → slice_index sums.new i ≡ 0 }
{
    for s in sums.iter_mut() {
        *s = 0;
    }
}

/// Raises the entry of a number to a value, where it is less. Numbers count from 1; one that has no entry raises none.
fn raise(sums: &mut [u64], number: usize, value: u64)
    ensures { (i : ℕ) → i < length sums.old → slice_index sums.new i ≡ max (slice_index sums.old i) (if number == suc i then value else 0) }
{
    if number >= 1 && number <= sums.len() {
        let place = number - 1;
        let entry = sums[place];
        sums[place] = entry.max(value);
    }
}

/// Whether the entries together are less than a limit.
fn sum_is_below(sums: &[u64], limit: u64) -> bool
    ensures { result ≡ nat_lt (sum sums.now) limit }
{
    let mut left = limit;
    for s in sums {
        if *s >= left {
            return false;
        }
        left -= *s;
    }
    left > 0
}

/// Writes the greatest rank of each goal.
fn write_ranks(nodes: &[Node], sums: &mut [u64])
    ensures { (i : ℕ) → i < length sums.old → slice_index sums.new i ≡ greatest_rank (map node_data nodes.now) (suc i) }
{
    clear(sums);
    for v in nodes {
        raise(sums, v.goal as usize, v.rank);
    }
}

/// How many positions a denying node allows until its assumption was met, itself included; past 64 bits the greatest number.
fn positions_left(v: &Node, held: Held) -> u64
    ensures { result ≡ capped (if held.asm then v.now.rank else suc v.now.rank) }
{
    let rank = v.rank;
    if held.asm {
        rank
    } else {
        rank.saturating_add(1)
    }
}

/// Whether a node denies a goal in a layer.
fn denies(game: &Game, v: &Node, held: Held, layer: u64, goal: u32) -> bool
    requires { held ≡ held_at (game_data game.now) (node_data v.now) }
    ensures { result ≡ denies_lem (game_data game.now) (node_data v.now) layer goal }
{
    v.layer == layer && v.goal == goal && !held.goal
}

/// Raises the bounds of assumptions by what a node gives, where it denies the goal in the layer.
fn raise_given(game: &Game, v: &Node, held: Held, layer: u64, goal: u32, sums: &mut [u64])
    requires { held ≡ held_at (game_data game.now) (node_data v.now) }
    ensures { (i : ℕ) → i < length sums.old → slice_index sums.new i ≡ max (slice_index sums.old i) (capped (if denies_lem (game_data game.now) (node_data v.now) layer goal then given (game_data game.now) (node_data v.now) (suc i) else 0)) }
{
    if denies(game, v, held, layer, goal) {
        raise(sums, updated(game, v, held), positions_left(v, held));
        raise(sums, v.asm as usize, 1);
    }
}

impl<'a> Checker<'a> {
    /// Writes the bound of each assumption, for a layer and a goal.
    fn write_bounds(&self, layer: u64, goal: u32, sums: &mut [u64])
        requires { IsChecker self.now }
        ensures { (i : ℕ) → i < length sums.old → slice_index sums.new i ≡ capped (bound (game_in self.now) (nodes_in self.now) layer goal (suc i)) }
    {
        clear(sums);
        for k in 0..self.nodes.len() {
            let v = &self.nodes[k];
            raise_given(&self.judges.game, v, self.held[k], layer, goal, sums);
        }
    }

    /// Whether the bounds for a node's layer and goal are together less than a limit. The sums are written over.
    fn is_bounded(&self, v: &Node, limit: u64, sums: &mut [u64]) -> bool
        requires checker { IsChecker self.now }
        requires room { length sums.old ≡ length (assumption_sets (game_in self.now)) }
        ensures { result ≡ nat_lt (sum (bounds (game_in self.now) (nodes_in self.now) (node_data v.now).layer (node_data v.now).goal)) limit }
    {
        self.write_bounds(v.layer, v.goal, sums);
        sum_is_below(sums, limit)
    }

    fn each_is_bounded(&self, limit: u64, sums: &mut [u64]) -> bool
        requires checker { IsChecker self.now }
        requires room { length sums.old ≡ length (assumption_sets (game_in self.now)) }
        ensures { result ≡ list_all (λ v. nat_lt (sum (bounds (game_in self.now) (nodes_in self.now) v.layer v.goal)) limit) (nodes_in self.now) }
    {
        for v in self.nodes {
            if !self.is_bounded(v, limit, sums) {
                return false;
            }
        }
        true
    }

    /// Whether k is more than the greatest ranks of the goals together. The sums are written over.
    fn ranks_are_below(&self, k: u64, sums: &mut [u64]) -> bool
        requires { length sums.old ≡ length (goal_sets (game_in self.now)) }
        ensures { result ≡ nat_le (1 + sum (greatest_ranks (game_in self.now) (nodes_in self.now))) k }
    {
        write_ranks(self.nodes, sums);
        sum_is_below(sums, k)
    }

    /// The same, with room for the sums. `AllocError`: no memory was given.
    pub fn k_suffices(&self, alloc: Global, k: u64) -> Result<bool, AllocError>
        requires { IsChecker self.now }
        ensures { IfOk result (λ b. b ≡ nat_le (1 + sum (greatest_ranks (game_in self.now) (nodes_in self.now))) k) }
    {
        let mut sums = vec![in alloc; 0u64; goal_count(&self.judges.game)]?;
        Ok(self.ranks_are_below(k, &mut sums))
    }

    /// Whether m is at least 1, and more than the bounds of each layer and goal together. `AllocError`: no memory was given.
    pub fn m_suffices(&self, alloc: Global, m: u64) -> Result<bool, AllocError>
        requires { IsChecker self.now }
        ensures { IfOk result (λ b. b ≡ (nat_le 1 m && list_all (λ v. nat_lt (sum (bounds (game_in self.now) (nodes_in self.now) v.layer v.goal)) m) (nodes_in self.now))) }
    {
        let mut sums = vec![in alloc; 0u64; asm_count(&self.judges.game)]?;
        Ok(m >= 1 && self.each_is_bounded(m, &mut sums))
    }
}
