//! What is left of edges that are to be true together, where some bits are fixed. Nothing here takes memory.

ghost use Rattle.std.specs.Prelude.{◌≡◌, ◌⊎◌, ◌<◌, ◌≤◌, ◌++◌, ◌∷◌, [], true, false, length, vec_len, vec_capacity, IsTrue};
ghost use Rattle.std.specs.List.{All};
ghost use Rattle.spec_model.specs.Diagrams.{Bits, constant};
ghost use Rattle.bdd_store.specs.State.{IsEdge, diagram_of};
ghost use Rattle.bdd_ops.specs.Paths.{Agrees};
ghost use Rattle.bdd_ops.specs.Together.{all_in};

use crate::work::Work;
use bdd_store::Edge;

/// One edge more, where there is room.
fn push_edge(left: &mut Vec<Edge>, edge: Edge)
    requires { vec_len left.old < vec_capacity left.old }
    ensures items { left.new.items ≡ left.old.items ++ edge ∷ [] }
    ensures capacity { vec_capacity left.old ≤ vec_capacity left.new }
{
    let _ = left.push(edge);
}

impl Work {
    /// One edge more, unless it is true.
    fn push_unless_true(&self, left: &mut Vec<Edge>, e: Edge)
        requires live { IsEdge self.now.state e.0 }
        requires room { vec_len left.old < vec_capacity left.old }
        ensures items { (left.new.items ≡ left.old.items ++ e ∷ []) ⊎ ((left.new.items ≡ left.old.items) × (diagram_of self.now.state e.0 ≡ constant true)) }
        ensures capacity { vec_capacity left.old ≤ vec_capacity left.new }
    {
        if !self.is_constant(e, true) {
            push_edge(left, e);
        }
    }

    /// The edges of a row that are not true.
    fn without_true(&self, row: &[Edge], left: &mut Vec<Edge>)
        requires live { All (λ e. IsEdge self.now.state e.0) row.now }
        requires room { length row.now ≤ vec_capacity left.old }
        ensures live { All (λ e. IsEdge self.now.state e.0) left.new.items }
        ensures no_more { vec_len left.new ≤ length row.now }
        ensures capacity { vec_capacity left.old ≤ vec_capacity left.new }
        ensures same { (s : Bits) → all_in self.now left.new.items s ≡ all_in self.now row.now s }
    {
        left.clear();
        for &e in row {
            self.push_unless_true(left, e);
        }
    }

    /// The edges that edges come to behind fixed levels, without those that are true. False as soon as one is false.
    pub(crate) fn leave(
        &self,
        edges: &[Edge],
        fixed: &[Option<bool>],
        rows: &mut [Edge],
        left: &mut Vec<Edge>,
    ) -> bool
        requires live { All (λ e. IsEdge self.now.state e.0) edges.now }
        requires fixed_each { length fixed.now ≡ self.now.state.table.levels }
        requires rows { length edges.now ≤ length rows.old }
        requires room { length edges.now ≤ vec_capacity left.old }
        ensures live { IsTrue result → All (λ e. IsEdge self.now.state e.0) left.new.items }
        ensures no_more { vec_len left.new ≤ length edges.now }
        ensures capacity { vec_capacity left.old ≤ vec_capacity left.new }
        ensures same { IsTrue result → (s : Bits) → Agrees fixed.now 0 s → all_in self.now left.new.items s ≡ all_in self.now edges.now s }
        ensures none { result ≡ false → (s : Bits) → Agrees fixed.now 0 s → all_in self.now edges.now s ≡ false }
    {
        left.clear();
        let (row, _) = rows.split_at_mut(edges.len());
        row.copy_from_slice(edges);
        if !self.settle(row, fixed) {
            return false;
        }
        self.without_true(row, left);
        true
    }
}
