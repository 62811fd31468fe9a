//! The first bits that make all edges of a row true. Nothing here takes memory.

ghost use Rattle.std.specs.Prelude.{◌≡◌, ◌<◌, ◌≤◌, ◌+◌, ◌*◌, ℕ, true, false, length, slice_set, slice_index_or, IsTrue};
ghost use Rattle.std.specs.List.{All};
ghost use Rattle.spec_model.specs.DiagramReads.{bits_of};
ghost use Rattle.bdd_store.specs.State.{IsEdge};
ghost use Rattle.bdd_ops.specs.Paths.{fixed_at, IsFirst, HasNone};
ghost use Rattle.bdd_ops.specs.Together.{IsRow, SettlesRow, all_in, first_bit, AreFirst, HasNoneWith};
ghost use Rattle.bdd_ops.specs.Searching.{row_at, top_of, next_of, IsNext};

use crate::paths::allows_at;
use crate::rows::{first_bit, write_first};
use crate::work::Work;
use bdd_store::Edge;

/// The row at a depth.
fn row_at(rows: &[Edge], width: usize, depth: usize) -> &[Edge]
    requires { depth * width + width ≤ length rows.now }
    ensures { result.now ≡ row_at rows.now width depth }
{
    &rows[depth * width..][..width]
}

impl Work {
    /// Writes what a bit at a level, and the fixed bits behind it, leave of a row. False: it may not stand there, or an
    /// edge became false.
    fn leads(
        &self,
        bit: bool,
        row: &[Edge],
        level: usize,
        fixed: &[Option<bool>],
        next: &mut [Edge],
    ) -> bool
        requires row { IsRow self.now level row.now }
        requires below { level < self.now.state.table.levels }
        requires fixed_each { length fixed.now ≡ self.now.state.table.levels }
        requires as_long { length next.old ≡ length row.now }
        ensures next { IsTrue result → IsNext self.now fixed.now level bit row.now next.new }
        ensures none { result ≡ false → HasNoneWith fixed.now (all_in self.now row.now) level bit }
    {
        if !allows_at(fixed, level, bit) {
            return false;
        }
        self.choose(row, level, bit, next);
        self.settle(next, fixed)
    }

    /// Writes the row below the one at a depth, for a bit at a level.
    fn go_on(
        &self,
        bit: bool,
        level: usize,
        width: usize,
        depth: usize,
        fixed: &[Option<bool>],
        rows: &mut [Edge],
    ) -> bool
        requires row { IsRow self.now level (row_at rows.old width depth) }
        requires below { level < self.now.state.table.levels }
        requires fixed_each { length fixed.now ≡ self.now.state.table.levels }
        requires shallow { depth < self.now.state.table.levels }
        requires room { (depth + 1) * width + width ≤ length rows.old }
        ensures kept { (i : ℕ) → i ≤ depth → row_at rows.new width i ≡ row_at rows.old width i }
        ensures next { IsTrue result → IsNext self.now fixed.now level bit (row_at rows.old width depth) (row_at rows.new width (depth + 1)) }
        ensures none { result ≡ false → HasNoneWith fixed.now (all_in self.now (row_at rows.old width depth)) level bit }
    {
        let (above, below) = rows.split_at_mut((depth + 1) * width);
        let (next, _) = below.split_at_mut(width);
        self.leads(bit, row_at(above, width, depth), level, fixed, next)
    }

    /// What comes next at a row, behind the bit that stands at its top; the bit that comes first stands there then.
    fn go_back(&self, row: &[Edge], fixed: &[Option<bool>], out: &mut [bool]) -> Option<bool>
        requires live { All (λ e. IsEdge self.now.state e.0) row.now }
        requires below { top_of self.now row.now < self.now.state.table.levels }
        requires each { (length fixed.now ≡ self.now.state.table.levels) × (length out.old ≡ self.now.state.table.levels) }
        ensures next { result ≡ next_of (slice_index_or out.old (top_of self.now row.now) false) }
        ensures written { out.new ≡ slice_set out.old (top_of self.now row.now) (first_bit (fixed_at fixed.now (top_of self.now row.now))) }
    {
        let top = self.least_level(row, fixed.len());
        let bit = out[top];
        out[top] = first_bit(fixed[top]);
        if bit { None } else { Some(true) }
    }

    /// The first bits that make the first row true. The row at each depth is what the bits that are tried at the tops of
    /// those above leave, so that a bit in `out` says what is left to try there. No level is tried at which no edge
    /// stands: its bit is the one that comes first.
    fn first_in(
        &self,
        width: usize,
        fixed: &[Option<bool>],
        rows: &mut [Edge],
        out: &mut [bool],
    ) -> bool
        requires row { IsRow self.now 0 (row_at rows.old width 0) }
        requires each { (length fixed.now ≡ self.now.state.table.levels) × (length out.old ≡ self.now.state.table.levels) }
        requires room { (self.now.state.table.levels + 1) * width ≤ length rows.old }
        requires idle { AreFirst fixed.now 0 self.now.state.table.levels (bits_of out.old) }
        ensures first { IsTrue result → IsFirst fixed.now (all_in self.now (row_at rows.old width 0)) 0 self.now.state.table.levels (bits_of out.new) }
        ensures none { result ≡ false → HasNone fixed.now (all_in self.now (row_at rows.old width 0)) 0 }
    {
        let mut depth = 0;
        let mut next = Some(false);
        'search: loop {
            match next {
                None => {
                    if depth == 0 {
                        return false;
                    }
                    depth -= 1;
                    next = self.go_back(row_at(rows, width, depth), fixed, out);
                }
                Some(bit) => {
                    let row = row_at(rows, width, depth);
                    let top = self.least_level(row, fixed.len());
                    if top == fixed.len() {
                        if self.all_true(row) {
                            return true;
                        }
                        next = None;
                    } else if self.go_on(bit, top, width, depth, fixed, rows) {
                        out[top] = bit;
                        depth += 1;
                        next = Some(false);
                    } else {
                        next = if bit { None } else { Some(true) };
                    }
                }
            }
        }
    }

    /// Writes the first row: what fixed bits leave of these edges. False: one of them became false.
    fn begin(&self, edges: &[Edge], fixed: &[Option<bool>], rows: &mut [Edge]) -> bool
        requires live { All (λ e. IsEdge self.now.state e.0) edges.now }
        requires fixed_each { length fixed.now ≡ self.now.state.table.levels }
        requires room { length edges.now ≤ length rows.old }
        ensures first { IsTrue result → SettlesRow self.now fixed.now 0 edges.now (row_at rows.new (length edges.now) 0) }
        ensures none { result ≡ false → HasNone fixed.now (all_in self.now edges.now) 0 }
    {
        let (row, _) = rows.split_at_mut(edges.len());
        row.copy_from_slice(edges);
        self.settle(row, fixed)
    }

    /// The first bits that make all these edges true. `rows` has a row for each level, and one more.
    pub(crate) fn first_from_edges(
        &self,
        edges: &[Edge],
        fixed: &[Option<bool>],
        rows: &mut [Edge],
        out: &mut [bool],
    ) -> bool
        requires live { All (λ e. IsEdge self.now.state e.0) edges.now }
        requires each { (length fixed.now ≡ self.now.state.table.levels) × (length out.old ≡ self.now.state.table.levels) }
        requires room { (self.now.state.table.levels + 1) * length edges.now ≤ length rows.old }
        ensures first { IsTrue result → IsFirst fixed.now (all_in self.now edges.now) 0 self.now.state.table.levels (bits_of out.new) }
        ensures none { result ≡ false → HasNone fixed.now (all_in self.now edges.now) 0 }
    {
        write_first(fixed, out);
        self.begin(edges, fixed, rows) && self.first_in(edges.len(), fixed, rows, out)
    }
}
