ghost use Rattle.std.specs.Prelude.{◌≡◌, ◌<◌, ◌≤◌, ◌↔◌, ◌⊎◌, ℕ, Ok, Err, IfOk, OnErr, IsOkAnd};
ghost use Rattle.node_table.specs.Table.{IsLive, IsNodeAt, HasNode, IsFit, IsSound, IsNew, SameBounds, AddsNode, KeepsLive, MarksNode, Sweeps, count_of, parts_of, is_marked, diagram_at};
ghost use Rattle.spec_model.specs.Diagrams.{branch};

use crate::OutOfMemory;
use crate::columns::{drop_unmarked, first_free, settle};
use crate::fault::NodeFault;
use crate::index::probe;
use crate::node::Node;
use crate::rebuild::{rebuild, room_for};
use crate::walk::mark_from;
use std::alloc::Global;
use std::marker::Model;

/// The slots of a new table. The numbers of slots are powers of two.
const FIRST: usize = 1024;

/// A table of nodes: each level and pair of parts once.
#[derive(Drop)]
pub struct Nodes {
    levels: u32,
    budget: u32,
    nodes: Vec<Node>,
    live: Vec<bool>,
    marked: Vec<bool>,
    slots: Vec<u32>,
    /// How many nodes are live.
    count: u32,
    /// All places below it are live.
    free: usize,
    /// Where marking keeps its way down: one place more than there are levels.
    way: Vec<u32>,
}

impl Model for Nodes {
    ghost use Rattle.std.specs.Prelude.{◌<◌, vec_len};
    ghost use Rattle.node_table.specs.Table.{Table};
    ghost use Rattle.node_table.specs.Index.{IsKept};

    ghost Value = { Table };

    ghost view = { λ n. record { levels = n.levels; budget = n.budget; nodes = n.nodes.items; live = n.live.items; marked = n.marked.items } };

    ghost invariant = { λ n. IsKept (record { levels = n.levels; budget = n.budget; nodes = n.nodes.items; live = n.live.items; marked = n.marked.items }) n.slots.items n.count n.free × (n.levels < vec_len n.way) };
}

impl Nodes {
    /// A table with the constants alone, for diagrams over `levels` levels, of at most `budget` nodes.
    pub fn make(alloc: Global, levels: u32, budget: u32) -> Result<Nodes, OutOfMemory>
        requires { 2 ≤ budget }
        ensures new { IfOk result (λ t. IsNew t levels budget) }
        ensures sound { IfOk result (λ t. IsSound t) }
    {
        let constants = [0, 1].map(|n| Node {
            level: levels,
            low: n,
            high: n,
        });
        let mut slots = Vec::new(alloc);
        slots.resize(FIRST, 0)?;
        Ok(Nodes {
            levels,
            budget,
            nodes: constants.to_vec(alloc)?,
            live: [true, true].to_vec(alloc)?,
            marked: [false, false].to_vec(alloc)?,
            slots,
            count: 2,
            free: 2,
            way: vec![in alloc; 0; levels as usize + 1]?,
        })
    }

    /// The one node of this level and these parts, which is made if there is none. A constant is later than every
    /// level. `Full`: there is none, and the table holds its budget. `Memory`: none was given.
    pub fn find_or_add(&mut self, level: u32, low: u32, high: u32) -> Result<u32, NodeFault>
        requires { IsFit self.old (record { level = level; low = low; high = high }) }
        ensures node { IfOk result (IsNodeAt self.new (record { level = level; low = low; high = high })) }
        ensures meaning { IfOk result (λ n. diagram_at self.new n ≡ branch level (diagram_at self.old low) (diagram_at self.old high)) }
        ensures found { HasNode self.old (record { level = level; low = low; high = high }) → IsOkAnd result (λ _. self.new ≡ self.old) }
        ensures added { IfOk result (λ n. (self.new ≡ self.old) ⊎ AddsNode self.old self.new n) }

        ensures full { (result ≡ Err NodeFault.Full) ↔ ((¬ HasNode self.old (record { level = level; low = low; high = high })) × (count_of self.old ≡ self.old.budget)) }
        ensures unchanged { OnErr result (self.new ≡ self.old) }
        ensures bounds { SameBounds self.old self.new }
        ensures marks { (k : ℕ) → is_marked self.new k ≡ is_marked self.old k }
        ensures keeps { KeepsLive self.old self.new }
        ensures sound { IsSound self.new }
    {
        let node = Node { level, low, high };
        let at = probe(&self.slots, &self.nodes, node);
        let named = self.slots[at];
        if named != 0 {
            return Ok(named);
        }
        if self.count == self.budget {
            return Err(NodeFault::Full);
        }
        let at = room_for(
            &mut self.slots,
            &self.nodes,
            &self.live,
            self.count,
            node,
            at,
        )?;
        let n = first_free(&self.live, self.free);
        settle(&mut self.nodes, &mut self.live, &mut self.marked, n, node)?;
        self.slots[at] = n as u32;
        self.count += 1;
        self.free = n + 1;
        Ok(n as u32)
    }

    /// Level, low part and high part of a live node, and `None` for a constant.
    pub fn parts(&self, n: u32) -> Option<(u32, u32, u32)>
        requires { IsLive self.now n }
        ensures { result ≡ parts_of self.now n }
    {
        if n < 2 {
            return None;
        }
        let node = self.nodes[n as usize];
        Some((node.level, node.low, node.high))
    }

    /// Marks a live node and all that it reaches. It takes no memory, and looks at each node that it marks three times
    /// at most.
    pub fn mark(&mut self, n: u32)
        requires live { IsLive self.old n }
        ensures marks { MarksNode self.old self.new n }
        ensures sound { IsSound self.new }
    {
        if self.marked[n as usize] {
            return;
        }
        mark_from(&self.nodes, &mut self.marked, &mut self.way, n);
    }

    /// Frees exactly the unmarked nodes other than the constants, and takes the marks away.
    pub fn sweep(&mut self)
        ensures sweeps { Sweeps self.old self.new }
        ensures sound { IsSound self.new }
    {
        self.count = drop_unmarked(&mut self.live, &mut self.marked);
        self.free = 2;
        rebuild(&mut self.slots, &self.nodes, &self.live);
    }

    /// For each place, whether its node is live.
    pub fn live(&self) -> &[bool]
        ensures { result.now ≡ self.now.live }
    {
        &self.live
    }

    /// How many nodes are live, the constants among them.
    pub fn count(&self) -> u32
        ensures count { result ≡ count_of self.now }
        ensures sound { IsSound self.now }
    {
        self.count
    }
}
