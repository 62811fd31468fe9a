//! Reduced diagrams while an operation is under way: what its steps are written over.

ghost use Rattle.std.specs.Prelude.{◌≡◌, ◌<◌, ◌≤◌, ◌↔◌, ◌⊎◌, ◌++◌, ◌∷◌, [], ℕ, List, map, min, take, length, IfOk, OnOk, vec_len, OnErr, MatchOption, IsTrue, true};
ghost use Rattle.spec_model.specs.Diagrams.{IsReduced, IsWithin, constant};
ghost use Rattle.node_table.specs.Table.{count_of};
ghost use Rattle.bdd_store.specs.State.{IsEdge, IsRoot, diagram_of, SameRoots, AddsRoot, IsFullOf, IsHeld, IsNewStore, IsReached, IsConstant, HasParts};
ghost use Rattle.bdd_ops.specs.Reading.{Ignores, IgnoresTo};
ghost use Rattle.bdd_ops.specs.Contents.{Contents, AreRight, function_at};
ghost use Rattle.bdd_ops.specs.Calls.{KeepsRoots};
ghost use Rattle.bdd_ops.specs.Steps.{IsSplitAt, IsSplit, SameNodes, Works, level_at};

use crate::OutOfMemory;
use crate::frames::{Choice, Frame, Pair};
use crate::level_list::LevelList;
use bdd_store::{Edge, Root, Store, StoreFault};
use std::alloc::Global;
use std::marker::Model;

/// Reduced diagrams, and what an operation that is under way needs. Its calls and steps may leave edges on the store's
/// stack only where they say so.
#[derive(Drop)]
pub struct Work {
    pub(crate) store: Store,
    pub(crate) lists: Vec<LevelList>,
    /// Where the next list is looked for first.
    pub(crate) next: usize,
    pub(crate) alloc: Global,
    /// The frames of choices, kept for the memory that they take.
    pub(crate) choices: Vec<Frame<Choice>>,
    /// The same, of operations on one edge.
    pub(crate) edges: Vec<Frame<Edge>>,
    /// The same, of operations on two.
    pub(crate) pairs: Vec<Frame<Pair>>,
    /// The same, of `and` and `or`, which other operations ask while theirs wait.
    pub(crate) joins: Vec<Frame<Pair>>,
}

impl Model for Work {
    ghost Value = { Contents };

    ghost view = { λ d. record { state = d.store; lists = map (λ l. l.levels.items) d.lists.items } };

    ghost invariant = { λ d. AreRight (record { state = d.store; lists = map (λ l. l.levels.items) d.lists.items }) × (vec_len d.lists ≤ 256) };
}

impl Work {
    /// Diagrams over `levels` levels with at most `budget` nodes, the two constants among them.
    pub(crate) fn make(alloc: Global, levels: u32, budget: u32) -> Result<Work, OutOfMemory>
        requires { 2 ≤ budget }
        ensures { IfOk result (λ work. IsNewStore work.state levels budget) }
    {
        let store = Store::make(alloc, levels, budget)?;
        Ok(Work {
            store,
            lists: Vec::new(alloc),
            next: 0,
            alloc,
            choices: Vec::new(alloc),
            edges: Vec::new(alloc),
            pairs: Vec::new(alloc),
            joins: Vec::new(alloc),
        })
    }

    /// Gives a root back. Its nodes stay until they are reclaimed.
    pub(crate) fn release(&mut self, root: Root)
        requires { IsRoot self.old.state root }
        ensures released { AddsRoot self.new.state self.old.state root }
        ensures table { self.new.state.table ≡ self.old.state.table }
        ensures stack { self.new.state.stack ≡ self.old.state.stack }
    {
        self.store.release(root);
    }

    /// Frees each node other than the constants that no kept root reaches.
    pub(crate) fn reclaim(&mut self)
        requires { self.old.state.stack ≡ [] }
        ensures live { (n : ℕ) → IsEdge self.new.state n ↔ ((n < 2) ⊎ IsReached self.old.state n) }
        ensures meaning { (n : ℕ) → IsEdge self.new.state n → diagram_of self.new.state n ≡ diagram_of self.old.state n }
        ensures roots { SameRoots self.old.state self.new.state }
        ensures keeps { KeepsRoots self.old self.new }
        ensures stack { self.new.state.stack ≡ self.old.state.stack }
    {
        self.store.reclaim();
    }

    /// How many nodes there are, the constants among them.
    pub(crate) fn nodes(&self) -> u32
        ensures { result ≡ count_of self.now.state.table }
    {
        self.store.nodes()
    }

    /// Whether two diagrams are one function.
    pub(crate) fn equal(&self, a: &Root, b: &Root) -> bool
        requires a_kept { IsRoot self.now.state a.now }
        requires b_kept { IsRoot self.now.state b.now }
        ensures { IsTrue result ↔ (function_at self.now a.now ≡ function_at self.now b.now) }
    {
        self.store.edge(a) == self.store.edge(b)
    }

    /// Level, low part and high part of an edge.
    pub(crate) fn parts(&self, e: Edge) -> Option<(u32, Edge, Edge)>
        requires { IsEdge self.now.state e.0 }
        ensures { MatchOption result (IsConstant self.now.state e.0) (λ p. HasParts self.now.state e.0 p.0 p.1.0 p.2.0) }
    {
        self.store.parts(e)
    }

    /// A root's edge.
    pub(crate) fn edge(&self, root: &Root) -> Edge
        requires { IsRoot self.now.state root.now }
        ensures value { result.0 ≡ root.now }
        ensures live { IsEdge self.now.state result.0 }
        ensures held { IsHeld self.now.state result.0 }
        ensures reduced { IsReduced (diagram_of self.now.state root.now) }
        ensures within { IsWithin self.now.state.table.levels (diagram_of self.now.state root.now) }
        ensures roots_live { (n : ℕ) → IsRoot self.now.state n → IsEdge self.now.state n }
    {
        self.store.edge(root)
    }

    /// A kept root at an edge.
    pub(crate) fn hold(&mut self, e: Edge) -> Result<Root, StoreFault>
        requires { IsEdge self.old.state e.0 }
        ensures held { IfOk result (λ r. (r ≡ e.0) × AddsRoot self.old.state self.new.state r) }
        ensures table { self.new.state.table ≡ self.old.state.table }
        ensures stack { self.new.state.stack ≡ self.old.state.stack }
        ensures lists { self.new.lists ≡ self.old.lists }
        ensures unchanged { OnErr result (SameRoots self.old.state self.new.state) }
        ensures memory { result ≡ Err StoreFault.Full → ⊥ }
    {
        match self.store.hold(e) {
            Ok(root) => Ok(root),
            Err(_) => Err(StoreFault::Memory),
        }
    }

    /// The level of an edge, if it is before `level`, and else `level`.
    pub(crate) fn earlier(&self, level: u32, e: Edge) -> u32
        requires below { level < self.now.state.table.levels }
        requires live { IsEdge self.now.state e.0 }
        ensures { result ≡ min level (level_at self.now e.0) }
    {
        match self.store.parts(e) {
            Some((own, _, _)) if own < level => own,
            _ => level,
        }
    }

    /// The two parts of an edge at a level that isn't after its own.
    pub(crate) fn parts_at(&self, e: Edge, level: u32) -> (Edge, Edge)
        requires below { level < self.now.state.table.levels }
        requires live { IsEdge self.now.state e.0 }
        requires from { level ≤ level_at self.now e.0 }
        ensures { IsSplitAt self.now level e.0 result.0.0 result.1.0 }
    {
        self.split_at(e, level as usize)
    }

    /// The same, of a level that may be a place in a list.
    pub(crate) fn split_at(&self, e: Edge, level: usize) -> (Edge, Edge)
        requires below { level < self.now.state.table.levels }
        requires live { IsEdge self.now.state e.0 }
        requires from { level ≤ level_at self.now e.0 }
        ensures { IsSplitAt self.now level e.0 result.0.0 result.1.0 }
    {
        match self.store.parts(e) {
            Some((own, low, high)) if own as usize == level => (low, high),
            _ => (e, e),
        }
    }

    /// Which constant an edge is.
    pub(crate) fn constant_at(&self, e: Edge) -> Option<bool>
        requires { IsEdge self.now.state e.0 }
        ensures { MatchOption result (level_at self.now e.0 < self.now.state.table.levels) (λ b. diagram_of self.now.state e.0 ≡ constant b) }
    {
        match self.store.parts(e) {
            None => Some(e == self.store.fixed(true)),
            Some(_) => None,
        }
    }

    /// The edge of a constant.
    pub(crate) fn constant_edge(&self, b: bool) -> Edge
        ensures live { IsEdge self.now.state result.0 }
        ensures held { IsHeld self.now.state result.0 }
        ensures meaning { diagram_of self.now.state result.0 ≡ constant b }
        ensures roots_live { (n : ℕ) → IsRoot self.now.state n → IsEdge self.now.state n }
    {
        self.store.fixed(b)
    }

    /// Whether an edge is this constant.
    pub(crate) fn is_constant(&self, e: Edge, b: bool) -> bool
        requires { IsEdge self.now.state e.0 }
        ensures { IsTrue result → diagram_of self.now.state e.0 ≡ constant b }
    {
        e == self.store.fixed(b)
    }

    /// The level of an edge that is no constant.
    pub(crate) fn level(&self, e: Edge) -> u32
        requires live { IsEdge self.now.state e.0 }
        requires inner { level_at self.now e.0 < self.now.state.table.levels }
        ensures level { result ≡ level_at self.now e.0 }
        ensures ignores { (m : ℕ) → m < result → Ignores m (function_at self.now e.0) }
    {
        match self.store.parts(e) {
            None => unreachable!(),
            Some((own, _, _)) => own,
        }
    }

    /// The edge of a level and two parts that read no level up to it.
    pub(crate) fn join(&mut self, level: u32, low: Edge, high: Edge) -> Result<Edge, StoreFault>
        requires below { level < self.old.state.table.levels }
        requires low_live { IsEdge self.old.state low.0 }
        requires high_live { IsEdge self.old.state high.0 }
        requires low_ignores { IgnoresTo level (function_at self.old low.0) }
        requires high_ignores { IgnoresTo level (function_at self.old high.0) }
        ensures joined { IfOk result (λ e. IsSplit self.new level (function_at self.old low.0) (function_at self.old high.0) e.0) }
        ensures works { Works self.old self.new (self.old.state.stack ++ low.0 ∷ high.0 ∷ []) }
        ensures stack { self.new.state.stack ≡ self.old.state.stack }
        ensures full { result ≡ Err StoreFault.Full → IsFullOf self.new.state (self.old.state.stack ++ low.0 ∷ high.0 ∷ []) }
    {
        self.store.node(level, low, high)
    }

    /// Puts an edge on the stack: what it reaches stays while it is there.
    pub(crate) fn push(&mut self, e: Edge) -> Result<(), StoreFault>
        requires { IsEdge self.old.state e.0 }
        ensures same { SameNodes self.old self.new }
        ensures pushed { OnOk result (self.new.state.stack ≡ self.old.state.stack ++ e.0 ∷ []) }
        ensures refused { OnErr result (self.new.state.stack ≡ self.old.state.stack) }
        ensures memory { result ≡ Err StoreFault.Full → ⊥ }
    {
        match self.store.push(e) {
            Ok(()) => Ok(()),
            Err(_) => Err(StoreFault::Memory),
        }
    }

    /// Takes the last edge off the stack.
    pub(crate) fn pop(&mut self)
        ensures same { SameNodes self.old self.new }
        ensures popped { (base : List ℕ) (e : ℕ) → self.old.state.stack ≡ base ++ e ∷ [] → self.new.state.stack ≡ base }
    {
        let _ = self.store.pop();
    }

    /// How many edges are on the stack.
    pub(crate) fn depth(&self) -> usize
        ensures { result ≡ length self.now.state.stack }
    {
        self.store.depth()
    }

    /// Takes all edges off the stack but the first ones, so many of them.
    pub(crate) fn cut(&mut self, depth: usize)
        ensures same { SameNodes self.old self.new }
        ensures cut { self.new.state.stack ≡ take depth self.old.state.stack }
    {
        self.store.cut(depth);
    }
}
