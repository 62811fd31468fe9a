//! The negation of an edge, and the edge of a bit.

ghost use Rattle.std.specs.Prelude.{◌≡◌, ◌<◌, ℕ, IfOk};
ghost use Rattle.bdd_store.specs.State.{IsEdge, IsHeld, IsRoot, diagram_of};
ghost use Rattle.spec_model.specs.Diagrams.{value};
ghost use Rattle.bdd_ops.specs.Contents.{function_at};
ghost use Rattle.bdd_ops.specs.Steps.{HasFunction, IsSpent, Works};
ghost use Rattle.bdd_ops.specs.Calls.{IsNegatedPart, negated};

use crate::work::Work;
use bdd_store::{Edge, StoreFault};

impl Work {
    /// The negation of an edge.
    pub(crate) fn negation(&mut self, a: Edge) -> Result<Edge, StoreFault>
        requires { IsHeld self.old.state a.0 }
        ensures negated { IfOk result (λ e. HasFunction self.new (negated (function_at self.old a.0)) e.0) }
        ensures works { Works self.old self.new self.old.state.stack }
        ensures stack { self.new.state.stack ≡ self.old.state.stack }
        ensures full { result ≡ Err StoreFault.Full → IsSpent self.new self.old.state.stack (IsNegatedPart (diagram_of self.old.state a.0)) }
    {
        let never = self.constant_edge(false);
        let always = self.constant_edge(true);
        self.choice(a, never, always)
    }

    /// The edge of a level's bit.
    pub(crate) fn bit(&mut self, level: u32) -> Result<Edge, StoreFault>
        requires { level < self.old.state.table.levels }
        ensures bit { IfOk result (λ e. HasFunction self.new (λ s. s level) e.0) }
        ensures works { Works self.old self.new self.old.state.stack }
        ensures stack { self.new.state.stack ≡ self.old.state.stack }
        ensures full { result ≡ Err StoreFault.Full → IsSpent self.new self.old.state.stack (λ made. value made ≡ (λ s. s level)) }
        ensures roots_live { (n : ℕ) → IsRoot self.old.state n → IsEdge self.old.state n }
    {
        let low = self.constant_edge(false);
        let high = self.constant_edge(true);
        self.join(level, low, high)
    }
}
