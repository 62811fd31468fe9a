//! The steps of a search over rows of edges. Nothing here takes memory.

ghost use Rattle.std.specs.Prelude.{◌≡◌, ◌<◌, ◌≤◌, ◌+◌, ℕ, false, length, min, IsTrue};
ghost use Rattle.std.specs.List.{All};
ghost use Rattle.spec_model.specs.Diagrams.{Bits};
ghost use Rattle.spec_model.specs.DiagramReads.{bits_of};
ghost use Rattle.bdd_store.specs.State.{IsEdge};
ghost use Rattle.bdd_ops.specs.Steps.{level_at};
ghost use Rattle.bdd_ops.specs.Paths.{Agrees};
ghost use Rattle.bdd_ops.specs.Together.{IsRow, IsChosen, IsSettled, SettlesRow, all_in, first_bit, AreFirst};
ghost use Rattle.bdd_ops.specs.Searching.{top_of};

use crate::work::Work;
use bdd_store::Edge;

/// The bit that comes first where this is fixed.
pub fn first_bit(fixed: Option<bool>) -> bool
    ensures { result ≡ first_bit fixed }
{
    match fixed {
        None => false,
        Some(bit) => bit,
    }
}

/// Writes the bit that comes first at each level.
pub fn write_first(fixed: &[Option<bool>], out: &mut [bool])
    requires { length out.old ≡ length fixed.now }
    ensures { AreFirst fixed.now 0 (length fixed.now) (bits_of out.new) }
{
    for level in 0..fixed.len() {
        out[level] = first_bit(fixed[level]);
    }
}

impl Work {
    /// The part of an edge that a bit at a level leads to: the edge itself where it stands later.
    pub(crate) fn chosen(&self, e: Edge, level: usize, bit: bool) -> Edge
        requires live { IsEdge self.now.state e.0 }
        requires below { level < self.now.state.table.levels }
        requires from { level ≤ level_at self.now e.0 }
        ensures { IsChosen self.now level bit e result }
    {
        let (low, high) = self.split_at(e, level);
        if bit { high } else { low }
    }

    /// Writes the parts of a row's edges that a bit at a level leads to.
    pub(crate) fn choose(&self, row: &[Edge], level: usize, bit: bool, next: &mut [Edge])
        requires row { IsRow self.now level row.now }
        requires below { level < self.now.state.table.levels }
        requires as_long { length next.old ≡ length row.now }
        ensures row { IsRow self.now (level + 1) next.new }
        ensures same { (s : Bits) → s level ≡ bit → all_in self.now next.new s ≡ all_in self.now row.now s }
    {
        for i in 0..row.len() {
            next[i] = self.chosen(row[i], level, bit);
        }
    }

    /// The edge behind all fixed levels that an edge comes to.
    fn settled(&self, e: Edge, fixed: &[Option<bool>]) -> Edge
        requires live { IsEdge self.now.state e.0 }
        requires fixed_each { length fixed.now ≡ self.now.state.table.levels }
        ensures { IsSettled self.now fixed.now e result }
    {
        let mut edge = e;
        while let Some((level, low, high)) = self.parts(edge) {
            match fixed[level as usize] {
                None => return edge,
                Some(bit) => edge = if bit { high } else { low },
            }
        }
        edge
    }

    /// Moves each edge of a row on through fixed levels, and answers false as soon as one of them is false.
    pub(crate) fn settle(&self, row: &mut [Edge], fixed: &[Option<bool>]) -> bool
        requires live { All (λ e. IsEdge self.now.state e.0) row.old }
        requires fixed_each { length fixed.now ≡ self.now.state.table.levels }
        ensures settles { IsTrue result → (level : ℕ) → IsRow self.now level row.old → SettlesRow self.now fixed.now level row.old row.new }
        ensures none { result ≡ false → (level : ℕ) → IsRow self.now level row.old → (s : Bits) → Agrees fixed.now level s → all_in self.now row.old s ≡ false }
    {
        for i in 0..row.len() {
            let edge = self.settled(row[i], fixed);
            if self.is_constant(edge, false) {
                return false;
            }
            row[i] = edge;
        }
        true
    }

    /// The level of an edge, if it is before `level`, and else `level`.
    fn before(&self, level: usize, e: Edge) -> usize
        requires within { level ≤ self.now.state.table.levels }
        requires live { IsEdge self.now.state e.0 }
        ensures { result ≡ min level (level_at self.now e.0) }
    {
        match self.parts(e) {
            Some((own, _, _)) if (own as usize) < level => own as usize,
            _ => level,
        }
    }

    /// The least level at which an edge of a row stands, and `levels` where all are constants.
    pub(crate) fn least_level(&self, row: &[Edge], levels: usize) -> usize
        requires levels { levels ≡ self.now.state.table.levels }
        requires live { All (λ e. IsEdge self.now.state e.0) row.now }
        ensures within { result ≤ levels }
        ensures row { IsRow self.now result row.now }
        ensures least { (level : ℕ) → level ≤ levels → IsRow self.now level row.now → level ≤ result }
        ensures top { result ≡ top_of self.now row.now }
    {
        let mut least = levels;
        for &e in row {
            least = self.before(least, e);
        }
        least
    }

    /// Whether all edges of a row of constants are true.
    pub(crate) fn all_true(&self, row: &[Edge]) -> bool
        requires row { IsRow self.now self.now.state.table.levels row.now }
        ensures { (s : Bits) → all_in self.now row.now s ≡ result }
    {
        for &e in row {
            if !self.truth(e) {
                return false;
            }
        }
        true
    }
}
