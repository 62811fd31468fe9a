//! The calls that give roots. Nothing is on the stack before them or behind them.

ghost use Rattle.std.specs.Prelude.{◌≡◌, ◌<◌, [], length, true, false, IfOk};
ghost use Rattle.spec_model.specs.Diagrams.{ite, value, exists_over, and_exists_over, shifted};
ghost use Rattle.spec_model.specs.DiagramReads.{forall_over};
ghost use Rattle.bdd_store.specs.State.{IsRoot, diagram_of};
ghost use Rattle.bdd_ops.specs.Functions.{joined, joined_over, join_of};
ghost use Rattle.bdd_ops.specs.Contents.{function_at, list_at};
ghost use Rattle.bdd_ops.specs.Steps.{IsChoiceOfParts, IsJoinOfParts, IsUnfinished, IsQuantifiedPart, IsRelatedPart, IsShiftedPart};
ghost use Rattle.bdd_ops.specs.Calls.{GivesRoot, IsNegatedPart, RisesOver, negated};

use crate::work::Work;
use bdd_store::{Root, StoreFault};

impl Work {
    /// A constant.
    pub(crate) fn constant(&mut self, value: bool) -> Result<Root, StoreFault>
        requires idle { self.old.state.stack ≡ [] }
        ensures given { GivesRoot self.old self.new result (λ s. value) (λ made. ⊥) }
        ensures full { result ≡ Err StoreFault.Full → ⊥ }
        ensures stack { self.new.state.stack ≡ [] }
    {
        let edge = self.constant_edge(value);
        self.hold(edge)
    }

    /// The diagram that is true where the level's bit is.
    pub(crate) fn var(&mut self, level: u32) -> Result<Root, StoreFault>
        requires idle { self.old.state.stack ≡ [] }
        requires below { level < self.old.state.table.levels }
        ensures given { GivesRoot self.old self.new result (λ s. s level) (λ made. value made ≡ (λ s. s level)) }
        ensures stack { self.new.state.stack ≡ [] }
    {
        let edge = self.bit(level)?;
        self.hold(edge)
    }

    /// A second root of the same diagram.
    pub(crate) fn keep(&mut self, root: &Root) -> Result<Root, StoreFault>
        requires idle { self.old.state.stack ≡ [] }
        requires kept { IsRoot self.old.state root.now }
        ensures same { IfOk result (λ r. r ≡ root.now) }
        ensures given { GivesRoot self.old self.new result (function_at self.old root.now) (λ made. ⊥) }
        ensures full { result ≡ Err StoreFault.Full → ⊥ }
        ensures stack { self.new.state.stack ≡ [] }
    {
        let edge = self.edge(root);
        self.hold(edge)
    }

    /// The diagram that is `b` where `a` is true, and else `c`.
    pub(crate) fn ite(&mut self, a: &Root, b: &Root, c: &Root) -> Result<Root, StoreFault>
        requires idle { self.old.state.stack ≡ [] }
        requires a_kept { IsRoot self.old.state a.now }
        requires b_kept { IsRoot self.old.state b.now }
        requires c_kept { IsRoot self.old.state c.now }
        ensures given { GivesRoot self.old self.new result (ite (function_at self.old a.now) (function_at self.old b.now) (function_at self.old c.now)) (IsChoiceOfParts (diagram_of self.old.state a.now) (diagram_of self.old.state b.now) (diagram_of self.old.state c.now)) }
        ensures stack { self.new.state.stack ≡ [] }
    {
        let (a, b, c) = (self.edge(a), self.edge(b), self.edge(c));
        let edge = self.choice(a, b, c)?;
        self.hold(edge)
    }

    /// The diagram that is true where both are.
    pub(crate) fn and(&mut self, a: &Root, b: &Root) -> Result<Root, StoreFault>
        requires idle { self.old.state.stack ≡ [] }
        requires a_kept { IsRoot self.old.state a.now }
        requires b_kept { IsRoot self.old.state b.now }
        ensures given { GivesRoot self.old self.new result (joined (join_of true) (function_at self.old a.now) (function_at self.old b.now)) (IsJoinOfParts (join_of true) (diagram_of self.old.state a.now) (diagram_of self.old.state b.now)) }
        ensures stack { self.new.state.stack ≡ [] }
    {
        let (a, b) = (self.edge(a), self.edge(b));
        let edge = self.joined(true, a, b)?;
        self.hold(edge)
    }

    /// The diagram that is true where one of them is.
    pub(crate) fn or(&mut self, a: &Root, b: &Root) -> Result<Root, StoreFault>
        requires idle { self.old.state.stack ≡ [] }
        requires a_kept { IsRoot self.old.state a.now }
        requires b_kept { IsRoot self.old.state b.now }
        ensures given { GivesRoot self.old self.new result (joined (join_of false) (function_at self.old a.now) (function_at self.old b.now)) (IsJoinOfParts (join_of false) (diagram_of self.old.state a.now) (diagram_of self.old.state b.now)) }
        ensures stack { self.new.state.stack ≡ [] }
    {
        let (a, b) = (self.edge(a), self.edge(b));
        let edge = self.joined(false, a, b)?;
        self.hold(edge)
    }

    /// The diagram that is true where `a` is false.
    pub(crate) fn not(&mut self, a: &Root) -> Result<Root, StoreFault>
        requires idle { self.old.state.stack ≡ [] }
        requires kept { IsRoot self.old.state a.now }
        ensures given { GivesRoot self.old self.new result (negated (function_at self.old a.now)) (IsNegatedPart (diagram_of self.old.state a.now)) }
        ensures stack { self.new.state.stack ≡ [] }
    {
        let a = self.edge(a);
        let edge = self.negation(a)?;
        self.hold(edge)
    }

    /// The diagram that is true where some values at `levels` make `a` true (Bryant 1986, operations).
    pub(crate) fn exists(&mut self, a: &Root, levels: &[u32]) -> Result<Root, StoreFault>
        requires idle { self.old.state.stack ≡ [] }
        requires kept { IsRoot self.old.state a.now }
        ensures given { GivesRoot self.old self.new result (exists_over levels.now (function_at self.old a.now)) (IsUnfinished (join_of false) (IsQuantifiedPart (join_of false) levels.now (diagram_of self.old.state a.now))) }
        ensures stack { self.new.state.stack ≡ [] }
    {
        let list = self.list(levels)?;
        self.quantified_root(false, list, a)
    }

    /// The diagram that is true where all values at `levels` make `a` true.
    pub(crate) fn forall(&mut self, a: &Root, levels: &[u32]) -> Result<Root, StoreFault>
        requires idle { self.old.state.stack ≡ [] }
        requires kept { IsRoot self.old.state a.now }
        ensures given { GivesRoot self.old self.new result (forall_over levels.now (function_at self.old a.now)) (IsUnfinished (join_of true) (IsQuantifiedPart (join_of true) levels.now (diagram_of self.old.state a.now))) }
        ensures stack { self.new.state.stack ≡ [] }
    {
        let list = self.list(levels)?;
        self.quantified_root(true, list, a)
    }

    /// The diagram that is true where some values at `levels` make both true.
    pub(crate) fn and_exists(
        &mut self,
        a: &Root,
        b: &Root,
        levels: &[u32],
    ) -> Result<Root, StoreFault>
        requires idle { self.old.state.stack ≡ [] }
        requires a_kept { IsRoot self.old.state a.now }
        requires b_kept { IsRoot self.old.state b.now }
        ensures given { GivesRoot self.old self.new result (and_exists_over levels.now (function_at self.old a.now) (function_at self.old b.now)) (IsUnfinished (join_of false) (IsRelatedPart levels.now (diagram_of self.old.state a.now) (diagram_of self.old.state b.now))) }
        ensures stack { self.new.state.stack ≡ [] }
    {
        let list = self.list(levels)?;
        self.related_root(list, a, b)
    }

    /// The diagram that reads at level `to[k]` what `a` reads at level `k`. The list rises over the levels that `a`
    /// depends on; the laws tell which those are at most.
    pub(crate) fn shift(&mut self, a: &Root, to: &[u32]) -> Result<Root, StoreFault>
        requires idle { self.old.state.stack ≡ [] }
        requires kept { IsRoot self.old.state a.now }
        requires rising { RisesOver self.old.state.table.levels to.now (function_at self.old a.now) }
        ensures given { GivesRoot self.old self.new result (shifted to.now (function_at self.old a.now)) (IsShiftedPart to.now (diagram_of self.old.state a.now)) }
        ensures stack { self.new.state.stack ≡ [] }
    {
        let list = self.list(to)?;
        self.moved_root(list, a)
    }

    fn moved_root(&mut self, list: usize, a: &Root) -> Result<Root, StoreFault>
        requires idle { self.old.state.stack ≡ [] }
        requires list { list < length self.old.lists }
        requires kept { IsRoot self.old.state a.now }
        requires rising { RisesOver self.old.state.table.levels (list_at self.old list) (function_at self.old a.now) }
        ensures given { GivesRoot self.old self.new result (shifted (list_at self.old list) (function_at self.old a.now)) (IsShiftedPart (list_at self.old list) (diagram_of self.old.state a.now)) }
        ensures stack { self.new.state.stack ≡ [] }
    {
        let a = self.edge(a);
        let edge = self.moved(list, a)?;
        self.hold(edge)
    }

    fn quantified_root(&mut self, all: bool, list: usize, a: &Root) -> Result<Root, StoreFault>
        requires idle { self.old.state.stack ≡ [] }
        requires list { list < length self.old.lists }
        requires kept { IsRoot self.old.state a.now }
        ensures given { GivesRoot self.old self.new result (joined_over (join_of all) (list_at self.old list) (function_at self.old a.now)) (IsUnfinished (join_of all) (IsQuantifiedPart (join_of all) (list_at self.old list) (diagram_of self.old.state a.now))) }
        ensures stack { self.new.state.stack ≡ [] }
    {
        let a = self.edge(a);
        let edge = self.quantified(all, list, a)?;
        self.hold(edge)
    }

    fn related_root(&mut self, list: usize, a: &Root, b: &Root) -> Result<Root, StoreFault>
        requires idle { self.old.state.stack ≡ [] }
        requires list { list < length self.old.lists }
        requires a_kept { IsRoot self.old.state a.now }
        requires b_kept { IsRoot self.old.state b.now }
        ensures given { GivesRoot self.old self.new result (joined_over (join_of false) (list_at self.old list) (joined (join_of true) (function_at self.old a.now) (function_at self.old b.now))) (IsUnfinished (join_of false) (IsRelatedPart (list_at self.old list) (diagram_of self.old.state a.now) (diagram_of self.old.state b.now))) }
        ensures stack { self.new.state.stack ≡ [] }
    {
        let (a, b) = (self.edge(a), self.edge(b));
        let edge = self.related(list, a, b)?;
        self.hold(edge)
    }
}
