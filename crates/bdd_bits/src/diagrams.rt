//! Diagrams over bits: made, given back, compared.

ghost use Rattle.std.specs.Prelude.{◌≡◌, ◌<◌, ◌≤◌, ◌↔◌, ◌⊎◌, ◌++◌, ℕ, Bool, length, map, IfOk, OnOk, IsTrue, MatchOption};
ghost use Rattle.spec_model.specs.DiagramReads.{bits_of};
ghost use Rattle.spec_model.specs.Diagrams.{constant};
ghost use Rattle.node_table.specs.Table.{count_of};
ghost use Rattle.bdd_store.specs.State.{IsEdge, IsRoot, diagram_of, SameRoots, AddsRoot, IsNewStore, IsReached};
ghost use Rattle.bdd_ops.specs.Steps.{level_at};
ghost use Rattle.bdd_ops.specs.Straight.{levels_on};
ghost use Rattle.bdd_bits.specs.Orders.{IsOrder, bit_of};
ghost use Rattle.bdd_bits.specs.Moves.{AreMoves};
ghost use Rattle.bdd_bits.specs.Contents.{Contents, over_levels, function_at, IsDeclared};
ghost use Rattle.bdd_bits.specs.Calls.{KeepsRoots, SameNodes};

use crate::OutOfMemory;
use crate::moves::Moves;
use crate::order::Order;
use crate::placing::add_bits;
use bdd_ops::{Diagrams as Levels, Root};
use std::alloc::Global;
use std::marker::Model;

/// Reduced diagrams over bits.
#[derive(Drop)]
pub struct Diagrams {
    pub(crate) over_levels: Levels,
    pub(crate) order: Order,
    /// The levels of a list of bits, while a call works on them.
    pub(crate) levels: Vec<u32>,
    /// The list by which bits were moved last.
    pub(crate) moves: Moves,
}

impl Model for Diagrams {
    ghost Value = { Contents };

    ghost view = { λ d. record { state = d.over_levels.state; lists = d.over_levels.lists; order = d.order } };

    ghost invariant = { λ d. IsOrder d.over_levels.state.table.levels d.order × AreMoves d.order d.moves };
}

impl Diagrams {
    /// Diagrams over the bits of an order, with at most `budget` nodes, the two constants among them.
    pub fn make(alloc: Global, order: Order, budget: u32) -> Result<Diagrams, OutOfMemory>
        requires { 2 ≤ budget }
        ensures store { IfOk result (λ diagrams. IsNewStore diagrams.state (length order.names) budget) }
        ensures order { IfOk result (λ diagrams. diagrams.order ≡ order) }
    {
        let over_levels = Levels::make(alloc, order.len(), budget)?;
        Ok(Diagrams {
            over_levels,
            order,
            levels: Vec::new(alloc),
            moves: Moves::none(alloc),
        })
    }

    /// Diagrams over so many bits, each at the level of its number.
    pub fn declared(alloc: Global, levels: u32, budget: u32) -> Result<Diagrams, OutOfMemory>
        requires { 2 ≤ budget }
        ensures store { IfOk result (λ diagrams. IsNewStore diagrams.state levels budget) }
        ensures declared { IfOk result (λ diagrams. IsDeclared diagrams) }
    {
        let order = Order::declared(alloc, levels)?;
        Diagrams::make(alloc, order, budget)
    }

    /// Gives a root back. Its nodes stay until they are reclaimed.
    pub fn release(&mut self, root: Root)
        requires { IsRoot self.old.state root }
        ensures released { AddsRoot self.new.state self.old.state root }
        ensures nodes { SameNodes self.old self.new }
    {
        self.over_levels.release(root);
    }

    /// Frees each node other than the constants that no kept root reaches.
    pub fn reclaim(&mut self)
        ensures live { (n : ℕ) → IsEdge self.new.state n ↔ ((n < 2) ⊎ IsReached self.old.state n) }
        ensures meaning { (n : ℕ) → IsEdge self.new.state n → diagram_of self.new.state n ≡ diagram_of self.old.state n }
        ensures roots { SameRoots self.old.state self.new.state }
        ensures keeps { KeepsRoots self.old self.new }
    {
        self.over_levels.reclaim();
    }

    /// How many nodes there are, the constants among them.
    pub fn nodes(&self) -> u32
        ensures { result ≡ count_of self.now.state.table }
    {
        self.over_levels.nodes()
    }

    /// Whether two diagrams are one function.
    pub fn equal(&self, a: &Root, b: &Root) -> bool
        requires a_kept { IsRoot self.now.state a.now }
        requires b_kept { IsRoot self.now.state b.now }
        ensures { IsTrue result ↔ (function_at self.now a.now ≡ function_at self.now b.now) }
    {
        self.over_levels.equal(a, b)
    }

    /// The level at which the first bit stands that a diagram reads, and none for a constant. It takes no memory.
    pub fn first_level(&self, a: &Root) -> Option<u32>
        requires { IsRoot self.now.state a.now }
        ensures { MatchOption result ((b : Bool) × (diagram_of self.now.state a.now ≡ constant b)) (λ level. level ≡ level_at (over_levels self.now) a.now) }
    {
        self.over_levels.first_level(a)
    }

    /// Adds the bits that one path of a diagram reads, from the top down: at each node it goes to the part of the bit
    /// `towards`, unless that is false, and then to the other one.
    pub fn path(&self, a: &Root, towards: bool, bits: &mut Vec<u32>) -> Result<(), OutOfMemory>
        requires { IsRoot self.now.state a.now }
        ensures { OnOk result (bits.new.items ≡ bits.old.items ++ map (bit_of self.now.order) (levels_on towards (diagram_of self.now.state a.now))) }
    {
        let mut levels = Vec::new(*bits.allocator());
        self.over_levels.path(a, towards, &mut levels)?;
        add_bits(&self.order, &levels, bits)
    }

    /// The same diagrams, over the levels at which the bits stand.
    pub fn into_levels(self) -> Levels
        ensures { result ≡ over_levels self }
    {
        self.over_levels
    }
}
