//! A diagram's number, the first level that it reads, and its parts there.

ghost use Rattle.std.specs.Prelude.{◌≡◌, ◌↔◌, ℕ, Bool, IfOk, OnErr, MatchOption, Err};
ghost use Rattle.spec_model.specs.Diagrams.{constant};
ghost use Rattle.bdd_store.specs.State.{IsEdge, IsRoot, diagram_of, SameRoots};
ghost use Rattle.bdd_ops.specs.Contents.{function_at};
ghost use Rattle.bdd_ops.specs.Splits.{SplitsAt, AddsBoth};
ghost use Rattle.bdd_ops.specs.Steps.{level_at};

use crate::work::Work;
use bdd_store::{Edge, Root, StoreFault};

/// The first level that a function reads, and the function with that level's bit false and true. Both roots have to be
/// given back.
pub struct Split {
    pub level: u32,
    pub low: Root,
    pub high: Root,
}

impl Work {
    /// A root's number, which two kept roots share exactly where they are one function. It takes no memory.
    pub(crate) fn number(&self, a: &Root) -> u32
        requires { IsRoot self.now.state a.now }
        ensures number { result ≡ a.now }
        ensures live { IsEdge self.now.state result }
        ensures one { (m : ℕ) → IsRoot self.now.state m → (result ≡ m) ↔ (function_at self.now a.now ≡ function_at self.now m) }
        ensures among { (m : ℕ) → IsEdge self.now.state m → function_at self.now m ≡ function_at self.now a.now → m ≡ result }
    {
        self.store.edge(a).0
    }

    /// The first level that a diagram reads, and none for a constant.
    pub(crate) fn first_level(&self, a: &Root) -> Option<u32>
        requires { IsRoot self.now.state a.now }
        ensures { MatchOption result ((b : Bool) × (diagram_of self.now.state a.now ≡ constant b)) (λ level. level ≡ level_at self.now a.now) }
    {
        let edge = self.edge(a);
        match self.parts(edge) {
            None => None,
            Some((level, _, _)) => Some(level),
        }
    }

    /// Kept roots at two edges, or none.
    fn hold_both(&mut self, low: Edge, high: Edge) -> Result<(Root, Root), StoreFault>
        requires low_live { IsEdge self.old.state low.0 }
        requires high_live { IsEdge self.old.state high.0 }
        ensures same { IfOk result (λ both. (both.0 ≡ low.0) × (both.1 ≡ high.0)) }
        ensures added { IfOk result (λ both. AddsBoth self.old.state self.new.state low.0 high.0) }
        ensures refused { OnErr result (SameRoots self.old.state self.new.state) }
        ensures table { self.new.state.table ≡ self.old.state.table }
        ensures stack { self.new.state.stack ≡ self.old.state.stack }
        ensures memory { result ≡ Err StoreFault.Full → ⊥ }
    {
        let first = self.hold(low)?;
        match self.hold(high) {
            Ok(second) => Ok((first, second)),
            Err(fault) => {
                self.release(first);
                Err(fault)
            }
        }
    }

    /// Splits a diagram at the first level that it reads. None: it is a constant. `Memory` alone refuses, and keeps no
    /// root more. No node is made.
    pub(crate) fn split(&mut self, a: &Root) -> Result<Option<Split>, StoreFault>
        requires { IsRoot self.old.state a.now }
        ensures split { IfOk result (λ given. MatchOption given ((b : Bool) × (diagram_of self.old.state a.now ≡ constant b)) (λ x. SplitsAt self.old.state.table.levels x.level (diagram_of self.old.state a.now) (diagram_of self.new.state x.low) (diagram_of self.new.state x.high))) }
        ensures added { IfOk result (λ given. MatchOption given (SameRoots self.old.state self.new.state) (λ x. AddsBoth self.old.state self.new.state x.low x.high)) }
        ensures refused { OnErr result (SameRoots self.old.state self.new.state) }
        ensures table { self.new.state.table ≡ self.old.state.table }
        ensures stack { self.new.state.stack ≡ self.old.state.stack }
        ensures full { result ≡ Err StoreFault.Full → ⊥ }
    {
        let edge = self.edge(a);
        let Some((level, low, high)) = self.parts(edge) else {
            return Ok(None);
        };
        let (low, high) = self.hold_both(low, high)?;
        Ok(Some(Split { level, low, high }))
    }
}
