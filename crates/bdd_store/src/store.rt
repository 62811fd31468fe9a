ghost use Rattle.std.specs.Prelude.{◌≡◌, ◌≢◌, ◌<◌, ◌≤◌, ◌↔◌, ◌⊎◌, ◌==◌, ◌++◌, ◌∷◌, [], ℕ, IfOk, IfSome, OnOk, OnErr, MatchOption, sum, length, take, if◌then◌else◌, true, false, Ok, Err};
ghost use Rattle.std.specs.List.{Contains};
ghost use Rattle.spec_model.specs.Diagrams.{constant, branch, value, Bits, IsLater};
ghost use Rattle.node_table.specs.Table.{count_of};
ghost use Rattle.bdd_cache.specs.declared.answer.Answer.{Answer};
ghost use Rattle.bdd_store.specs.State.{State, IsStore, IsEdge, IsRoot, diagram_of, HasDiagram, IsFull, IsFullOf, HasAnswer, IsOfLiveNodes, KeepsEdges, KeepsHeld, KeepsAnswers, SameRoots, AddsRoot, IsReached, IsConstant, HasParts, IsNewStore};
ghost use Rattle.bdd_store.specs.Kept.{MakesRoom};

use crate::OutOfMemory;
use crate::edge::Edge;
use crate::fault::StoreFault;
use crate::marking::{mark_entries, mark_kept};
use crate::root::{Root, add_root, take_root};
use bdd_cache::Answers;
use node_table::{NodeFault, Nodes};
use std::alloc::Global;
use std::marker::Model;

/// Nodes, the roots that are kept, and answers to operations.
#[derive(Drop)]
pub struct Store {
    nodes: Nodes,
    answers: Answers,
    /// How many roots are kept at each place.
    kept: Vec<u32>,
    /// How many are kept in all.
    roots: usize,
    /// What an operation that is under way still needs.
    stack: Vec<u32>,
}

impl Model for Store {
    ghost use Rattle.bdd_store.specs.State.{State};
    ghost use Rattle.bdd_store.specs.Kept.{IsWhole};

    ghost Value = { State };

    ghost view = { λ s. record { table = s.nodes; kept = s.kept.items; stack = s.stack.items; answers = s.answers } };

    ghost invariant = { λ s. IsWhole (record { table = s.nodes; kept = s.kept.items; stack = s.stack.items; answers = s.answers }) s.roots };
}

impl Store {
    /// A store over `levels` levels with at most `budget` nodes, the two constants among them.
    pub fn make(alloc: Global, levels: u32, budget: u32) -> Result<Store, OutOfMemory>
        requires { 2 ≤ budget }
        ensures { IfOk result (λ s. IsNewStore s levels budget) }
    {
        let nodes = Nodes::make(alloc, levels, budget)?;
        let answers = Answers::make(alloc)?;
        Ok(Store {
            nodes,
            answers,
            kept: Vec::new(alloc),
            roots: 0,
            stack: Vec::new(alloc),
        })
    }

    /// The diagram that is true where the level's bit is. `Full`: there is no such node, and kept roots and the stack hold
    /// the whole budget. `Memory`: none was given.
    pub fn var(&mut self, level: u32) -> Result<Root, StoreFault>
        requires { level < self.old.table.levels }
        ensures meaning { IfOk result (λ r. diagram_of self.new r ≡ branch level (constant false) (constant true)) }
        ensures added { IfOk result (λ r. AddsRoot self.old self.new r) }
        ensures kept { IfOk result (λ r. IsRoot self.new r) }
        ensures keeps { KeepsHeld self.old self.new self.old.stack }
        ensures stack { self.new.stack ≡ self.old.stack }
        ensures answers { KeepsAnswers self.old self.new }
        ensures full { (result ≡ Err StoreFault.Full) ↔ ((HasDiagram self.old (branch level (constant false) (constant true)) → ⊥) × IsFullOf self.old self.old.stack) }
        ensures unchanged { OnErr result (SameRoots self.old self.new) }
        ensures sound { IsStore self.new }
    {
        let e = self.node(level, self.fixed(false), self.fixed(true))?;
        Ok(self.hold(e)?)
    }

    /// A second root of the same diagram.
    pub fn keep(&mut self, root: &Root) -> Result<Root, StoreFault>
        requires { IsRoot self.old root.now }
        ensures same_root { IfOk result (λ r. (r ≡ root.now) × AddsRoot self.old self.new r) }
        ensures kept { IfOk result (λ r. IsRoot self.new r) }
        ensures table { (self.new.table ≡ self.old.table) × (self.new.stack ≡ self.old.stack) × (self.new.answers ≡ self.old.answers) }
        ensures full { result ≡ Err StoreFault.Full → ⊥ }
        ensures unchanged { OnErr result (SameRoots self.old self.new) }
        ensures sound { IsStore self.new }
    {
        let e = self.edge(root);
        Ok(self.hold(e)?)
    }

    /// Gives a root back. Its nodes stay until they are reclaimed.
    pub fn release(&mut self, root: Root)
        requires { IsRoot self.old root }
        ensures released { AddsRoot self.new self.old root }
        ensures table { (self.new.table ≡ self.old.table) × (self.new.stack ≡ self.old.stack) × (self.new.answers ≡ self.old.answers) }
        ensures sound { IsStore self.new }
    {
        let Root { node } = root;
        take_root(&mut self.kept, &mut self.roots, node);
    }

    /// Frees each node other than the constants that no kept root reaches, and the answers about it. Answers about
    /// nodes that stay stay too.
    pub fn reclaim(&mut self)
        requires { self.old.stack ≡ [] }
        ensures live { (n : ℕ) → IsEdge self.new n ↔ ((n < 2) ⊎ IsReached self.old n) }
        ensures meaning { (n : ℕ) → IsEdge self.new n → diagram_of self.new n ≡ diagram_of self.old n }
        ensures roots { SameRoots self.old self.new }
        ensures answers { (a : Answer) → HasAnswer self.new a ↔ (HasAnswer self.old a × IsOfLiveNodes self.new a) }
        ensures bounds { (self.new.table.levels ≡ self.old.table.levels) × (self.new.table.budget ≡ self.old.table.budget) }
        ensures stack { self.new.stack ≡ self.old.stack }
        ensures sound { IsStore self.new }
    {
        self.make_room(&[]);
    }

    /// Frees each node other than the constants that neither a kept root nor the stack nor one of these nodes reaches, and
    /// the answers about it.
    fn make_room(&mut self, more: &[u32])
        requires { (n : ℕ) → Contains more.now n → IsEdge self.old n }
        ensures room { MakesRoom self.old self.new (self.old.stack ++ more.now) }
        ensures sound { IsStore self.new }
    {
        mark_kept(&mut self.nodes, &self.kept);
        mark_entries(&mut self.nodes, &self.stack);
        mark_entries(&mut self.nodes, more);
        self.nodes.sweep();
        self.answers.keep_only(self.nodes.live());
    }

    /// How many nodes the store holds, the constants among them.
    pub fn nodes(&self) -> u32
        ensures { result ≡ count_of self.now.table }
    {
        self.nodes.count()
    }

    /// Puts an edge on the stack: what it reaches stays while it is there.
    pub fn push(&mut self, e: Edge) -> Result<(), OutOfMemory>
        requires { IsEdge self.old e.0 }
        ensures pushed { OnOk result (self.new ≡ record self.old { stack = self.old.stack ++ e.0 ∷ [] }) }
        ensures unchanged { OnErr result (self.new ≡ self.old) }
        ensures rest { self.new ≡ record self.old { stack = self.new.stack } }
        ensures sound { IsStore self.new }
    {
        let _ = &self.nodes;
        if self.stack.len() < self.stack.capacity() {
            self.stack.push_reserved(e.0);
        } else {
            self.stack.push(e.0)?;
        }
        Ok(())
    }

    /// Takes the last edge off the stack.
    pub fn pop(&mut self) -> Option<Edge>
        ensures popped { MatchOption result ((self.old.stack ≡ []) × (self.new.stack ≡ [])) (λ e. self.old.stack ≡ self.new.stack ++ e.0 ∷ []) }
        ensures rest { self.new ≡ record self.old { stack = self.new.stack } }
        ensures live { IfSome result (λ e. IsEdge self.new e.0) }
        ensures sound { IsStore self.new }
    {
        let _ = &self.nodes;
        self.stack.pop().map(Edge)
    }

    /// How many edges are on the stack.
    pub fn depth(&self) -> usize
        ensures { result ≡ length self.now.stack }
    {
        self.stack.len()
    }

    /// Takes all edges off the stack but the first ones, so many of them.
    pub fn cut(&mut self, depth: usize)
        ensures cut { self.new ≡ record self.old { stack = take depth self.old.stack } }
        ensures sound { IsStore self.new }
    {
        let _ = &self.nodes;
        self.stack.truncate(depth);
    }

    /// How many roots are kept.
    pub fn roots(&self) -> usize
        ensures { result ≡ sum self.now.kept }
    {
        self.roots
    }

    /// The root's node.
    pub fn edge(&self, root: &Root) -> Edge
        requires { IsRoot self.now root.now }
        ensures value { result.0 ≡ root.now }
        ensures live { IsEdge self.now result.0 }
        ensures sound { IsStore self.now }
    {
        let _ = &self.nodes;
        Edge(root.node)
    }

    /// A constant's node.
    pub fn fixed(&self, value: bool) -> Edge
        ensures value { result.0 ≡ (if value then 1 else 0) }
        ensures live { IsEdge self.now result.0 }
        ensures meaning { diagram_of self.now result.0 ≡ constant value }
        ensures sound { IsStore self.now }
    {
        let _ = &self.nodes;
        Edge(u32::from(value))
    }

    /// Level, low part and high part of a node, and `None` for a constant.
    pub fn parts(&self, e: Edge) -> Option<(u32, Edge, Edge)>
        requires { IsEdge self.now e.0 }
        ensures parts { MatchOption result (IsConstant self.now e.0) (λ p. HasParts self.now e.0 p.0 p.1.0 p.2.0) }
        ensures sound { IsStore self.now }
    {
        let (level, low, high) = self.nodes.parts(e.0)?;
        Some((level, Edge(low), Edge(high)))
    }

    /// The node of a level and two parts, and the part itself where both are one (Bryant 1986, canonical form). In a full
    /// store it first frees what is not held. `Full`: a new node is wanted, and kept roots, the stack and the two parts
    /// hold the whole budget. `Memory`: none was given.
    pub fn node(&mut self, level: u32, low: Edge, high: Edge) -> Result<Edge, StoreFault>
        requires below { level < self.old.table.levels }
        requires low_live { IsEdge self.old low.0 }
        requires high_live { IsEdge self.old high.0 }
        requires low_later { IsLater level (diagram_of self.old low.0) }
        requires high_later { IsLater level (diagram_of self.old high.0) }
        ensures live { IfOk result (λ e. IsEdge self.new e.0) }
        ensures same { low.0 ≡ high.0 → result ≡ Ok low }
        ensures branch { low.0 ≢ high.0 → IfOk result (λ e. diagram_of self.new e.0 ≡ branch level (diagram_of self.old low.0) (diagram_of self.old high.0)) }
        ensures value { IfOk result (λ e. (s : Bits) → value (diagram_of self.new e.0) s ≡ (if s level then value (diagram_of self.old high.0) s else value (diagram_of self.old low.0) s)) }
        ensures later { IfOk result (λ e. (l : ℕ) → l < level → IsLater l (diagram_of self.new e.0)) }
        ensures keeps { KeepsHeld self.old self.new (self.old.stack ++ low.0 ∷ high.0 ∷ []) }
        ensures roots { SameRoots self.old self.new }
        ensures stack { self.new.stack ≡ self.old.stack }
        ensures answers { KeepsAnswers self.old self.new }
        ensures full { (result ≡ Err StoreFault.Full) ↔ ((low.0 ≢ high.0) × (HasDiagram self.old (branch level (diagram_of self.old low.0) (diagram_of self.old high.0)) → ⊥) × IsFullOf self.old (self.old.stack ++ low.0 ∷ high.0 ∷ [])) }
        ensures filled { result ≡ Err StoreFault.Full → IsFullOf self.new (self.new.stack ++ low.0 ∷ high.0 ∷ []) }
        ensures sound { IsStore self.new }
    {
        match self.find_or_add(level, low, high) {
            Err(StoreFault::Full) => {
                self.make_room(&[low.0, high.0]);
                self.find_or_add(level, low, high)
            }
            given => given,
        }
    }

    /// The same, but it frees nothing. `Full`: a new node is wanted, and the store holds its budget.
    fn find_or_add(&mut self, level: u32, low: Edge, high: Edge) -> Result<Edge, StoreFault>
        requires below { level < self.old.table.levels }
        requires low_live { IsEdge self.old low.0 }
        requires high_live { IsEdge self.old high.0 }
        requires low_later { IsLater level (diagram_of self.old low.0) }
        requires high_later { IsLater level (diagram_of self.old high.0) }
        ensures live { IfOk result (λ e. IsEdge self.new e.0) }
        ensures same { low.0 ≡ high.0 → result ≡ Ok low }
        ensures branch { low.0 ≢ high.0 → IfOk result (λ e. diagram_of self.new e.0 ≡ branch level (diagram_of self.old low.0) (diagram_of self.old high.0)) }
        ensures value { IfOk result (λ e. (s : Bits) → value (diagram_of self.new e.0) s ≡ (if s level then value (diagram_of self.old high.0) s else value (diagram_of self.old low.0) s)) }
        ensures later { IfOk result (λ e. (l : ℕ) → l < level → IsLater l (diagram_of self.new e.0)) }
        ensures keeps { KeepsEdges self.old self.new }
        ensures roots { SameRoots self.old self.new }
        ensures stack { self.new.stack ≡ self.old.stack }
        ensures answers { KeepsAnswers self.old self.new }
        ensures full { (result ≡ Err StoreFault.Full) ↔ ((low.0 ≢ high.0) × (HasDiagram self.old (branch level (diagram_of self.old low.0) (diagram_of self.old high.0)) → ⊥) × IsFull self.old) }
        ensures unchanged { OnErr result (self.new ≡ self.old) }
        ensures sound { IsStore self.new }
    {
        let _ = &self.nodes;
        if low == high {
            return Ok(low);
        }
        match self.nodes.find_or_add(level, low.0, high.0) {
            Ok(n) => Ok(Edge(n)),
            Err(NodeFault::Full) => Err(StoreFault::Full),
            Err(NodeFault::Memory) => Err(StoreFault::Memory),
        }
    }

    /// A kept root at the node.
    pub fn hold(&mut self, e: Edge) -> Result<Root, OutOfMemory>
        requires { IsEdge self.old e.0 }
        ensures held { IfOk result (λ r. (r ≡ e.0) × AddsRoot self.old self.new r) }
        ensures kept { IfOk result (λ r. IsRoot self.new r) }
        ensures table { (self.new.table ≡ self.old.table) × (self.new.stack ≡ self.old.stack) × (self.new.answers ≡ self.old.answers) }
        ensures unchanged { OnErr result (SameRoots self.old self.new) }
        ensures sound { IsStore self.new }
    {
        add_root(&mut self.kept, &mut self.roots, e.0)?;
        Ok(Root { node: e.0 })
    }

    /// An answer that was remembered since the last `forget`, if it is still there.
    pub fn recall(&self, op: u32, a: Edge, b: Edge, c: Edge) -> Option<Edge>
        requires a_live { IsEdge self.now a.0 }
        requires b_live { IsEdge self.now b.0 }
        requires c_live { IsEdge self.now c.0 }
        ensures kept { IfSome result (λ r. HasAnswer self.now (record { op = op; a = a.0; b = b.0; c = c.0; r = r.0 })) }
        ensures live { IfSome result (λ r. IsEdge self.now r.0) }
        ensures sound { IsStore self.now }
    {
        self.answers.get(op, a.0, b.0, c.0).map(Edge)
    }

    /// Keeps the answer `r` of operation `op`, a number from 1 on, in the place of at most one other.
    pub fn remember(&mut self, op: u32, a: Edge, b: Edge, c: Edge, r: Edge)
        requires a_live { IsEdge self.old a.0 }
        requires b_live { IsEdge self.old b.0 }
        requires c_live { IsEdge self.old c.0 }
        requires r_live { IsEdge self.old r.0 }
        ensures added { 0 < op → HasAnswer self.new (record { op = op; a = a.0; b = b.0; c = c.0; r = r.0 }) }
        ensures others { (x : Answer) → HasAnswer self.new x → (x ≡ record { op = op; a = a.0; b = b.0; c = c.0; r = r.0 }) ⊎ HasAnswer self.old x }
        ensures table { (self.new.table ≡ self.old.table) × (self.new.kept ≡ self.old.kept) × (self.new.stack ≡ self.old.stack) }
        ensures sound { IsStore self.new }
    {
        self.answers.put(op, a.0, b.0, c.0, r.0);
    }

    /// Removes all answers.
    pub fn forget(&mut self)
        ensures forgotten { (x : Answer) → HasAnswer self.new x → ⊥ }
        ensures table { (self.new.table ≡ self.old.table) × (self.new.kept ≡ self.old.kept) × (self.new.stack ≡ self.old.stack) }
        ensures sound { IsStore self.new }
    {
        self.answers.clear();
    }
}
