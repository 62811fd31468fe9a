//! The first bits that make a diagram true. Nothing here takes memory.

ghost use Rattle.std.specs.Prelude.{◌≡◌, ◌<◌, ◌≤◌, ◌↔◌, ◌⊎◌, Bool, true, false, length, IsTrue, MatchOption};
ghost use Rattle.spec_model.specs.Diagrams.{constant};
ghost use Rattle.spec_model.specs.DiagramReads.{bits_of};
ghost use Rattle.bdd_store.specs.State.{IsEdge, IsRoot, diagram_of};
ghost use Rattle.bdd_ops.specs.Contents.{function_at};
ghost use Rattle.bdd_ops.specs.Steps.{level_at};
ghost use Rattle.bdd_ops.specs.Reading.{Ignores};
ghost use Rattle.bdd_ops.specs.Paths.{AgreesAt, fixed_at, IsFirst, HasNone};
ghost use Rattle.bdd_ops.specs.Together.{IsChosen, HasNoneWith};
ghost use Rattle.bdd_ops.specs.Ways.{HasNoneBehind, IsWay, IsLed, IsFirstPart, IsLast, IsNextBranch};

use crate::work::Work;
use bdd_store::{Edge, Root};

/// Whether a bit may stand where this is fixed.
fn allows(fixed: Option<bool>, bit: bool) -> bool
    ensures { IsTrue result ↔ AgreesAt fixed bit }
{
    match fixed {
        None => true,
        Some(other) => other == bit,
    }
}

/// Whether a bit may stand at a level.
pub fn allows_at(fixed: &[Option<bool>], level: usize, bit: bool) -> bool
    requires { level < length fixed.now }
    ensures { IsTrue result ↔ AgreesAt (fixed_at fixed.now level) bit }
{
    allows(fixed[level], bit)
}

/// A bit at a level, and the part that it leads to.
#[derive(Clone, Copy)]
pub struct Branch {
    pub level: usize,
    pub bit: bool,
    pub part: Edge,
}

impl Work {
    /// Which constant an edge is that has no level.
    pub(crate) fn truth(&self, e: Edge) -> bool
        requires live { IsEdge self.now.state e.0 }
        requires outer { self.now.state.table.levels ≤ level_at self.now e.0 }
        ensures { diagram_of self.now.state e.0 ≡ constant result }
    {
        match self.constant_at(e) {
            Some(b) => b,
            None => unreachable!(),
        }
    }

    /// The part of an edge that a bit at a level leads to. None: the bit may not stand there, or the part is false.
    fn part(&self, bit: bool, e: Edge, level: usize, fixed: &[Option<bool>]) -> Option<Edge>
        requires live { IsEdge self.now.state e.0 }
        requires below { level < self.now.state.table.levels }
        requires from { level ≤ level_at self.now e.0 }
        requires fixed_each { length fixed.now ≡ self.now.state.table.levels }
        ensures { MatchOption result (HasNoneWith fixed.now (function_at self.now e.0) level bit) (λ part. (AgreesAt (fixed_at fixed.now level) bit) × (IsChosen self.now level bit e part)) }
    {
        if !allows_at(fixed, level, bit) {
            return None;
        }
        let part = self.chosen(e, level, bit);
        if self.is_constant(part, false) {
            return None;
        }
        Some(part)
    }

    /// The part that true leads to, if an edge stands at a level. None: true has none there, or the level is not read.
    fn high_part(&self, e: Edge, level: usize, fixed: &[Option<bool>]) -> Option<Edge>
        requires live { IsEdge self.now.state e.0 }
        requires below { level < self.now.state.table.levels }
        requires from { level ≤ level_at self.now e.0 }
        requires fixed_each { length fixed.now ≡ self.now.state.table.levels }
        ensures { MatchOption result ((HasNoneWith fixed.now (function_at self.now e.0) level true) ⊎ (Ignores level (function_at self.now e.0))) (λ part. (AgreesAt (fixed_at fixed.now level) true) × (IsChosen self.now level true e part)) }
    {
        let (low, high) = self.split_at(e, level);
        if low == high {
            return None;
        }
        self.part(true, e, level, fixed)
    }

    /// The first bit of a level that leads to a part. None: neither does.
    fn first_part(&self, e: Edge, level: usize, fixed: &[Option<bool>]) -> Option<Branch>
        requires live { IsEdge self.now.state e.0 }
        requires below { level < self.now.state.table.levels }
        requires from { level ≤ level_at self.now e.0 }
        requires fixed_each { length fixed.now ≡ self.now.state.table.levels }
        ensures { MatchOption result ((bit : Bool) → HasNoneWith fixed.now (function_at self.now e.0) level bit) (λ b. IsFirstPart self.now fixed.now level e b.level b.bit b.part) }
    {
        if let Some(part) = self.part(false, e, level, fixed) {
            return Some(Branch {
                level,
                bit: false,
                part,
            });
        }
        match self.part(true, e, level, fixed) {
            Some(part) => Some(Branch {
                level,
                bit: true,
                part,
            }),
            None => None,
        }
    }

    /// The last level of the way that bits lead from a root down to a level at which false can be turned to true. A level
    /// that isn't read is passed over: both its bits lead to one part.
    fn last_branch(
        &self,
        root: Edge,
        level: usize,
        fixed: &[Option<bool>],
        out: &[bool],
    ) -> Option<Branch>
        requires live { IsEdge self.now.state root.0 }
        requires within { level ≤ self.now.state.table.levels }
        requires each { (length fixed.now ≡ self.now.state.table.levels) × (length out.now ≡ self.now.state.table.levels) }
        requires way { IsWay fixed.now (function_at self.now root.0) level (bits_of out.now) }
        ensures { MatchOption result (HasNoneBehind fixed.now (function_at self.now root.0) level (bits_of out.now) → HasNone fixed.now (function_at self.now root.0) 0) (λ b. IsLast self.now fixed.now (function_at self.now root.0) out.now level b.level b.bit b.part) }
    {
        let mut edge = root;
        let mut last = None;
        for at in 0..level {
            let above = edge;
            edge = self.chosen(above, at, out[at]);
            if !out[at] {
                if let Some(part) = self.high_part(above, at, fixed) {
                    last = Some(Branch {
                        level: at,
                        bit: true,
                        part,
                    });
                }
            }
        }
        last
    }

    /// Where the search goes from an edge that the bits before a level lead to: on, or back to the last level of the way
    /// that has true left. None: there is no such level.
    fn next_branch(
        &self,
        root: Edge,
        e: Edge,
        level: usize,
        fixed: &[Option<bool>],
        out: &[bool],
    ) -> Option<Branch>
        requires live { IsEdge self.now.state root.0 }
        requires each { (length fixed.now ≡ self.now.state.table.levels) × (length out.now ≡ self.now.state.table.levels) }
        requires way { IsWay fixed.now (function_at self.now root.0) level (bits_of out.now) }
        requires led { IsLed self.now (function_at self.now root.0) level (bits_of out.now) e.0 }
        requires ended { level ≡ self.now.state.table.levels → diagram_of self.now.state e.0 ≡ constant false }
        ensures { MatchOption result (HasNone fixed.now (function_at self.now root.0) 0) (λ b. IsNextBranch self.now fixed.now (function_at self.now root.0) out.now level b.level b.bit b.part) }
    {
        if level < fixed.len() {
            if let Some(branch) = self.first_part(e, level, fixed) {
                return Some(branch);
            }
        }
        self.last_branch(root, level, fixed, out)
    }

    /// Finds the first bits, level by level and false before true, that agree with what is fixed and make `a` true,
    /// and answers whether there are any. `fixed` and `out` have a place for each level; where there are none, what
    /// `out` holds then means nothing. It takes no memory, and one look at each level where nothing is fixed; where what
    /// is fixed later rules a part out, it goes down from the root again to the last level that has a bit left.
    pub(crate) fn first_path(&self, a: &Root, fixed: &[Option<bool>], out: &mut [bool]) -> bool
        requires kept { IsRoot self.now.state a.now }
        requires fixed_each { length fixed.now ≡ self.now.state.table.levels }
        requires out_each { length out.old ≡ self.now.state.table.levels }
        ensures first { IsTrue result → IsFirst fixed.now (function_at self.now a.now) 0 self.now.state.table.levels (bits_of out.new) }
        ensures none { result ≡ false → HasNone fixed.now (function_at self.now a.now) 0 }
    {
        let root = self.edge(a);
        let mut edge = root;
        let mut level = 0;
        'search: loop {
            if level == fixed.len() && self.truth(edge) {
                return true;
            }
            let Some(branch) = self.next_branch(root, edge, level, fixed, out) else {
                return false;
            };
            out[branch.level] = branch.bit;
            edge = branch.part;
            level = branch.level + 1;
        }
    }
}
