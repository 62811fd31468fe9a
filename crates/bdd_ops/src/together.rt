//! Roots that are to be true together.

ghost use Rattle.std.specs.Prelude.{◌≡◌, [], ◌∷◌, ◌++◌, ◌<◌, ◌≤◌, ◌+◌, false, length, IfOk, IsTrue};
ghost use Rattle.std.specs.List.{All};
ghost use Rattle.bdd_store.specs.State.{IsRoot};
ghost use Rattle.spec_model.specs.DiagramReads.{bits_of};
ghost use Rattle.bdd_ops.specs.Paths.{IsFirst, HasNone};
ghost use Rattle.bdd_ops.specs.Together.{Together, all_of};

use crate::OutOfMemory;
use crate::work::Work;
use bdd_store::{Edge, Root};
use std::alloc::{AllocError, Global};
use std::marker::Model;

/// What a place of a row holds before an edge is written there: a constant's node is always live.
const NO_EDGE: Edge = Edge(0);

/// Roots that are to be true together, and the rows that a search for such bits works in.
#[derive(Drop)]
pub struct Conjunction {
    levels: usize,
    most: usize,
    roots: Vec<Edge>,
    /// What is left of them once their fixed levels are passed.
    left: Vec<Edge>,
    /// One row of edges more than there are levels.
    rows: Vec<Edge>,
}

impl Model for Conjunction {
    ghost use Rattle.std.specs.Prelude.{◌≡◌, ◌≤◌, ◌+◌, ◌*◌, map, vec_len, vec_capacity};
    ghost use Rattle.bdd_store.specs.declared.edge.Edge.{Edge};
    ghost use Rattle.bdd_ops.specs.Together.{Together};

    ghost Value = { Together };

    ghost view = { λ x. record { levels = x.levels; most = x.most; roots = map (λ (e : Edge). e.0) x.roots.items } };

    ghost invariant = { λ x. (vec_len x.roots ≤ x.most) × (x.most ≤ vec_capacity x.roots) × (x.most ≤ vec_capacity x.left) × (vec_len x.rows ≡ (x.levels + 1) * x.most) };
}

impl Conjunction {
    /// Room for up to `most` roots over `levels` levels. It takes all the memory that searches need.
    pub fn make(alloc: Global, levels: u32, most: u32) -> Result<Conjunction, OutOfMemory>
        ensures { IfOk result (λ x. x ≡ record { levels = levels; most = most; roots = [] }) }
    {
        let levels = levels as usize;
        let most = most as usize;
        let places = (levels + 1).checked_mul(most).ok_or(AllocError)?;
        Ok(Conjunction {
            levels,
            most,
            roots: Vec::with_capacity(alloc, most)?,
            left: Vec::with_capacity(alloc, most)?,
            rows: vec![in alloc; NO_EDGE; places]?,
        })
    }

    /// Asks for no root any more.
    pub fn clear(&mut self)
        ensures { self.new ≡ record { levels = self.old.levels; most = self.old.most; roots = [] } }
    {
        self.roots.clear();
    }

    /// One root more, by its edge.
    fn push(&mut self, edge: Edge)
        requires { length self.old.roots < self.old.most }
        ensures { self.new ≡ record { levels = self.old.levels; most = self.old.most; roots = self.old.roots ++ edge.0 ∷ [] } }
    {
        let _ = self.roots.push(edge);
    }
}

impl Work {
    /// Asks for one root more.
    pub(crate) fn include(&self, root: &Root, all: &mut Conjunction)
        requires kept { IsRoot self.now.state root.now }
        requires room { length all.old.roots < all.old.most }
        ensures { all.new ≡ record { levels = all.old.levels; most = all.old.most; roots = all.old.roots ++ root.now ∷ [] } }
    {
        all.push(self.edge(root));
    }

    /// Asks for these roots too.
    pub(crate) fn include_all(&self, roots: &[Root], all: &mut Conjunction)
        requires kept { All (λ n. IsRoot self.now.state n) roots.now }
        requires room { length all.old.roots + length roots.now ≤ all.old.most }
        ensures { all.new ≡ record { levels = all.old.levels; most = all.old.most; roots = all.old.roots ++ roots.now } }
    {
        for root in roots {
            self.include(root, all);
        }
    }

    /// Finds the first bits, level by level and false before true, that agree with what is fixed and make all roots
    /// true that `all` asks for, and answers whether there are any. `fixed` and `out` have a place for each level; where
    /// there are none, what `out` holds then means nothing. It takes no memory. Levels at which no edge stands cost
    /// nothing, each edge passes fixed levels at once, and an edge that is true then is left out; in the worst case it tries
    /// both bits of each free level, as the question is satisfiability.
    pub(crate) fn first_common_path(
        &self,
        all: &mut Conjunction,
        fixed: &[Option<bool>],
        out: &mut [bool],
    ) -> bool
        requires kept { All (λ n. IsRoot self.now.state n) all.old.roots }
        requires levels { all.old.levels ≡ self.now.state.table.levels }
        requires fixed_each { length fixed.now ≡ self.now.state.table.levels }
        requires out_each { length out.old ≡ self.now.state.table.levels }
        ensures first { IsTrue result → IsFirst fixed.now (all_of self.now all.old.roots) 0 self.now.state.table.levels (bits_of out.new) }
        ensures none { result ≡ false → HasNone fixed.now (all_of self.now all.old.roots) 0 }
        ensures asked { all.new ≡ all.old }
    {
        let _ = &self.store;
        self.leave(&all.roots, fixed, &mut all.rows, &mut all.left)
            && self.first_from_edges(&all.left, fixed, &mut all.rows, out)
    }
}
