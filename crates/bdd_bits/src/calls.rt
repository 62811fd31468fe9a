//! The calls that give roots.

ghost use Rattle.std.specs.Prelude.{◌≡◌, ◌<◌, true, false, IfOk, OnOk};
ghost use Rattle.spec_model.specs.Diagrams.{ite, value, exists_over, and_exists_over, shifted};
ghost use Rattle.spec_model.specs.DiagramReads.{forall_over};
ghost use Rattle.bdd_store.specs.State.{IsRoot, diagram_of};
ghost use Rattle.bdd_ops.specs.Functions.{joined, join_of};
ghost use Rattle.bdd_ops.specs.Steps.{IsChoiceOfParts, IsJoinOfParts, IsUnfinished, IsQuantifiedPart, IsRelatedPart, IsShiftedPart};
ghost use Rattle.bdd_ops.specs.Calls.{IsNegatedPart, negated};
ghost use Rattle.bdd_bits.specs.Contents.{function_at};
ghost use Rattle.bdd_bits.specs.Orders.{level_of, levels_of, moved_levels};
ghost use Rattle.bdd_bits.specs.Calls.{GivesRoot, RisesOver};

use crate::OutOfMemory;
use crate::diagrams::Diagrams;
use crate::moves::put;
use crate::order::Order;
use bdd_ops::{Root, StoreFault};

/// Writes the levels of several bits.
fn write_levels(order: &Order, bits: &[u32], levels: &mut Vec<u32>) -> Result<(), OutOfMemory>
    ensures { OnOk result (levels.new.items ≡ levels_of order.now bits.now) }
{
    levels.clear();
    for &bit in bits {
        put(levels, order.level(bit))?;
    }
    Ok(())
}

impl Diagrams {
    /// A constant.
    pub fn constant(&mut self, value: bool) -> Result<Root, StoreFault>
        ensures given { GivesRoot self.old self.new result (λ s. value) (λ made. ⊥) }
        ensures full { result ≡ Err StoreFault.Full → ⊥ }
    {
        self.over_levels.constant(value)
    }

    /// The diagram that is true where the bit is.
    pub fn var(&mut self, bit: u32) -> Result<Root, StoreFault>
        requires { bit < self.old.state.table.levels }
        ensures { GivesRoot self.old self.new result (λ s. s bit) (λ made. value made ≡ (λ s. s (level_of self.old.order bit))) }
    {
        let level = self.order.level(bit);
        self.over_levels.var(level)
    }

    /// A second root of the same diagram.
    pub fn keep(&mut self, root: &Root) -> Result<Root, StoreFault>
        requires { IsRoot self.old.state root.now }
        ensures same { IfOk result (λ r. r ≡ root.now) }
        ensures given { GivesRoot self.old self.new result (function_at self.old root.now) (λ made. ⊥) }
        ensures full { result ≡ Err StoreFault.Full → ⊥ }
    {
        self.over_levels.keep(root)
    }

    /// The diagram that is `b` where `a` is true, and else `c`.
    pub fn ite(&mut self, a: &Root, b: &Root, c: &Root) -> Result<Root, StoreFault>
        requires a_kept { IsRoot self.old.state a.now }
        requires b_kept { IsRoot self.old.state b.now }
        requires c_kept { IsRoot self.old.state c.now }
        ensures { GivesRoot self.old self.new result (ite (function_at self.old a.now) (function_at self.old b.now) (function_at self.old c.now)) (IsChoiceOfParts (diagram_of self.old.state a.now) (diagram_of self.old.state b.now) (diagram_of self.old.state c.now)) }
    {
        self.over_levels.ite(a, b, c)
    }

    /// The diagram that is true where both are.
    pub fn and(&mut self, a: &Root, b: &Root) -> Result<Root, StoreFault>
        requires a_kept { IsRoot self.old.state a.now }
        requires b_kept { IsRoot self.old.state b.now }
        ensures { GivesRoot self.old self.new result (joined (join_of true) (function_at self.old a.now) (function_at self.old b.now)) (IsJoinOfParts (join_of true) (diagram_of self.old.state a.now) (diagram_of self.old.state b.now)) }
    {
        self.over_levels.and(a, b)
    }

    /// The diagram that is true where one of them is.
    pub fn or(&mut self, a: &Root, b: &Root) -> Result<Root, StoreFault>
        requires a_kept { IsRoot self.old.state a.now }
        requires b_kept { IsRoot self.old.state b.now }
        ensures { GivesRoot self.old self.new result (joined (join_of false) (function_at self.old a.now) (function_at self.old b.now)) (IsJoinOfParts (join_of false) (diagram_of self.old.state a.now) (diagram_of self.old.state b.now)) }
    {
        self.over_levels.or(a, b)
    }

    /// The diagram that is true where `a` is false.
    pub fn not(&mut self, a: &Root) -> Result<Root, StoreFault>
        requires { IsRoot self.old.state a.now }
        ensures { GivesRoot self.old self.new result (negated (function_at self.old a.now)) (IsNegatedPart (diagram_of self.old.state a.now)) }
    {
        self.over_levels.not(a)
    }

    /// The diagram that is true where some values of these bits make `a` true.
    pub fn exists(&mut self, a: &Root, bits: &[u32]) -> Result<Root, StoreFault>
        requires { IsRoot self.old.state a.now }
        ensures { GivesRoot self.old self.new result (exists_over bits.now (function_at self.old a.now)) (IsUnfinished (join_of false) (IsQuantifiedPart (join_of false) (levels_of self.old.order bits.now) (diagram_of self.old.state a.now))) }
    {
        match write_levels(&self.order, bits, &mut self.levels) {
            Ok(()) => self.over_levels.exists(a, &self.levels),
            Err(_) => Err(StoreFault::Memory),
        }
    }

    /// The diagram that is true where all values of these bits make `a` true.
    pub fn forall(&mut self, a: &Root, bits: &[u32]) -> Result<Root, StoreFault>
        requires { IsRoot self.old.state a.now }
        ensures { GivesRoot self.old self.new result (forall_over bits.now (function_at self.old a.now)) (IsUnfinished (join_of true) (IsQuantifiedPart (join_of true) (levels_of self.old.order bits.now) (diagram_of self.old.state a.now))) }
    {
        match write_levels(&self.order, bits, &mut self.levels) {
            Ok(()) => self.over_levels.forall(a, &self.levels),
            Err(_) => Err(StoreFault::Memory),
        }
    }

    /// The diagram that is true where some values of these bits make both true.
    pub fn and_exists(&mut self, a: &Root, b: &Root, bits: &[u32]) -> Result<Root, StoreFault>
        requires a_kept { IsRoot self.old.state a.now }
        requires b_kept { IsRoot self.old.state b.now }
        ensures { GivesRoot self.old self.new result (and_exists_over bits.now (function_at self.old a.now) (function_at self.old b.now)) (IsUnfinished (join_of false) (IsRelatedPart (levels_of self.old.order bits.now) (diagram_of self.old.state a.now) (diagram_of self.old.state b.now))) }
    {
        match write_levels(&self.order, bits, &mut self.levels) {
            Ok(()) => self.over_levels.and_exists(a, b, &self.levels),
            Err(_) => Err(StoreFault::Memory),
        }
    }

    /// The diagram that reads the bit `to[k]` where `a` reads the bit k. The list keeps the order of the levels of the bits
    /// that `a` depends on; the laws tell which those are at most.
    pub fn shift(&mut self, a: &Root, to: &[u32]) -> Result<Root, StoreFault>
        requires kept { IsRoot self.old.state a.now }
        requires rising { RisesOver self.old.state.table.levels self.old.order to.now (function_at self.old a.now) }
        ensures { GivesRoot self.old self.new result (shifted to.now (function_at self.old a.now)) (IsShiftedPart (moved_levels self.old.order to.now) (diagram_of self.old.state a.now)) }
    {
        match self.moves.learn(&self.order, to) {
            Ok(()) => self.over_levels.shift(a, &self.moves.levels),
            Err(_) => Err(StoreFault::Memory),
        }
    }
}
