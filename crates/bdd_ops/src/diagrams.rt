//! The calls of diagrams. Between them nothing is on the stack.

ghost use Rattle.bdd_ops.specs.Calls.{GivesRoot, IsNegatedPart, KeepsRoots, RisesOver, negated};
ghost use Rattle.bdd_ops.specs.Contents.{function_at};
ghost use Rattle.bdd_ops.specs.Functions.{join_of, joined};
ghost use Rattle.bdd_ops.specs.Paths.{HasNone, IsFirst};
ghost use Rattle.bdd_ops.specs.Splits.{AddsBoth, SplitsAt};
ghost use Rattle.bdd_ops.specs.Steps.{IsChoiceOfParts, IsJoinOfParts, IsQuantifiedPart, IsRelatedPart, IsShiftedPart, IsUnfinished, level_at};
ghost use Rattle.bdd_ops.specs.Straight.{levels_on};
ghost use Rattle.bdd_ops.specs.Together.{all_of};
ghost use Rattle.bdd_store.specs.State.{AddsRoot, IsEdge, IsNewStore, IsReached, IsRoot, SameRoots, diagram_of};
ghost use Rattle.node_table.specs.Table.{count_of};
ghost use Rattle.spec_model.specs.DiagramReads.{bits_of, forall_over};
ghost use Rattle.spec_model.specs.Diagrams.{and_exists_over, constant, exists_over, ite, shifted, value};
ghost use Rattle.std.specs.List.{All};
ghost use Rattle.std.specs.Prelude.{Bool, Err, IfOk, IsTrue, MatchOption, OnErr, OnOk, [], false, length, true, ℕ, ◌++◌, ◌+◌, ◌<◌, ◌↔◌, ◌∷◌, ◌≡◌, ◌≤◌, ◌⊎◌};

use crate::OutOfMemory;
use crate::split::Split;
use crate::together::Conjunction;
use crate::work::Work;
use bdd_store::{Root, StoreFault};
use std::alloc::Global;
use std::marker::Model;

/// Reduced diagrams with their operations.
#[derive(Drop)]
pub struct Diagrams {
    work: Work,
}

impl Model for Diagrams {
    ghost use Rattle.std.specs.Prelude.{◌≡◌, []};
    ghost use Rattle.bdd_ops.specs.Contents.{Contents};

    ghost Value = { Contents };

    ghost view = { λ d. d.work };

    ghost invariant = { λ d. d.work.state.stack ≡ [] };
}

impl Diagrams {
    /// Diagrams over `levels` levels with at most `budget` nodes, the two constants among them.
    pub fn make(alloc: Global, levels: u32, budget: u32) -> Result<Diagrams, OutOfMemory>
        requires { 2 ≤ budget }
        ensures { IfOk result (λ diagrams. IsNewStore diagrams.state levels budget) }
    {
        Ok(Diagrams {
            work: Work::make(alloc, levels, budget)?,
        })
    }

    /// Gives a root back. Its nodes stay until they are reclaimed.
    pub fn release(&mut self, root: Root)
        requires { IsRoot self.old.state root }
        ensures released { AddsRoot self.new.state self.old.state root }
        ensures table { self.new.state.table ≡ self.old.state.table }
    {
        self.work.release(root);
    }

    /// Frees each node other than the constants that no kept root reaches.
    pub fn reclaim(&mut self)
        ensures live { (n : ℕ) → IsEdge self.new.state n ↔ ((n < 2) ⊎ IsReached self.old.state n) }
        ensures meaning { (n : ℕ) → IsEdge self.new.state n → diagram_of self.new.state n ≡ diagram_of self.old.state n }
        ensures roots { SameRoots self.old.state self.new.state }
        ensures keeps { KeepsRoots self.old self.new }
    {
        self.work.reclaim();
    }

    /// How many nodes there are, the constants among them.
    pub fn nodes(&self) -> u32
        ensures { result ≡ count_of self.now.state.table }
    {
        self.work.nodes()
    }

    /// Whether two diagrams are one function.
    pub fn equal(&self, a: &Root, b: &Root) -> bool
        requires a_kept { IsRoot self.now.state a.now }
        requires b_kept { IsRoot self.now.state b.now }
        ensures { IsTrue result ↔ (function_at self.now a.now ≡ function_at self.now b.now) }
    {
        self.work.equal(a, b)
    }

    /// A constant.
    pub fn constant(&mut self, value: bool) -> Result<Root, StoreFault>
        ensures given { GivesRoot self.old self.new result (λ s. value) (λ made. ⊥) }
        ensures full { result ≡ Err StoreFault.Full → ⊥ }
    {
        self.work.constant(value)
    }

    /// The diagram that is true where the level's bit is.
    pub fn var(&mut self, level: u32) -> Result<Root, StoreFault>
        requires { level < self.old.state.table.levels }
        ensures { GivesRoot self.old self.new result (λ s. s level) (λ made. value made ≡ (λ s. s level)) }
    {
        self.work.var(level)
    }

    /// A second root of the same diagram.
    pub fn keep(&mut self, root: &Root) -> Result<Root, StoreFault>
        requires { IsRoot self.old.state root.now }
        ensures same { IfOk result (λ r. r ≡ root.now) }
        ensures given { GivesRoot self.old self.new result (function_at self.old root.now) (λ made. ⊥) }
        ensures full { result ≡ Err StoreFault.Full → ⊥ }
    {
        self.work.keep(root)
    }

    /// The diagram that is `b` where `a` is true, and else `c`.
    pub fn ite(&mut self, a: &Root, b: &Root, c: &Root) -> Result<Root, StoreFault>
        requires a_kept { IsRoot self.old.state a.now }
        requires b_kept { IsRoot self.old.state b.now }
        requires c_kept { IsRoot self.old.state c.now }
        ensures { GivesRoot self.old self.new result (ite (function_at self.old a.now) (function_at self.old b.now) (function_at self.old c.now)) (IsChoiceOfParts (diagram_of self.old.state a.now) (diagram_of self.old.state b.now) (diagram_of self.old.state c.now)) }
    {
        self.work.ite(a, b, c)
    }

    /// The diagram that is true where both are.
    pub fn and(&mut self, a: &Root, b: &Root) -> Result<Root, StoreFault>
        requires a_kept { IsRoot self.old.state a.now }
        requires b_kept { IsRoot self.old.state b.now }
        ensures { GivesRoot self.old self.new result (joined (join_of true) (function_at self.old a.now) (function_at self.old b.now)) (IsJoinOfParts (join_of true) (diagram_of self.old.state a.now) (diagram_of self.old.state b.now)) }
    {
        self.work.and(a, b)
    }

    /// The diagram that is true where one of them is.
    pub fn or(&mut self, a: &Root, b: &Root) -> Result<Root, StoreFault>
        requires a_kept { IsRoot self.old.state a.now }
        requires b_kept { IsRoot self.old.state b.now }
        ensures { GivesRoot self.old self.new result (joined (join_of false) (function_at self.old a.now) (function_at self.old b.now)) (IsJoinOfParts (join_of false) (diagram_of self.old.state a.now) (diagram_of self.old.state b.now)) }
    {
        self.work.or(a, b)
    }

    /// The diagram that is true where `a` is false.
    pub fn not(&mut self, a: &Root) -> Result<Root, StoreFault>
        requires { IsRoot self.old.state a.now }
        ensures { GivesRoot self.old self.new result (negated (function_at self.old a.now)) (IsNegatedPart (diagram_of self.old.state a.now)) }
    {
        self.work.not(a)
    }

    /// The diagram that is true where some values at `levels` make `a` true (Bryant 1986, operations).
    pub fn exists(&mut self, a: &Root, levels: &[u32]) -> Result<Root, StoreFault>
        requires { IsRoot self.old.state a.now }
        ensures { GivesRoot self.old self.new result (exists_over levels.now (function_at self.old a.now)) (IsUnfinished (join_of false) (IsQuantifiedPart (join_of false) levels.now (diagram_of self.old.state a.now))) }
    {
        self.work.exists(a, levels)
    }

    /// The diagram that is true where all values at `levels` make `a` true.
    pub fn forall(&mut self, a: &Root, levels: &[u32]) -> Result<Root, StoreFault>
        requires { IsRoot self.old.state a.now }
        ensures { GivesRoot self.old self.new result (forall_over levels.now (function_at self.old a.now)) (IsUnfinished (join_of true) (IsQuantifiedPart (join_of true) levels.now (diagram_of self.old.state a.now))) }
    {
        self.work.forall(a, levels)
    }

    /// The diagram that is true where some values at `levels` make both true.
    pub fn and_exists(&mut self, a: &Root, b: &Root, levels: &[u32]) -> Result<Root, StoreFault>
        requires a_kept { IsRoot self.old.state a.now }
        requires b_kept { IsRoot self.old.state b.now }
        ensures { GivesRoot self.old self.new result (and_exists_over levels.now (function_at self.old a.now) (function_at self.old b.now)) (IsUnfinished (join_of false) (IsRelatedPart levels.now (diagram_of self.old.state a.now) (diagram_of self.old.state b.now))) }
    {
        self.work.and_exists(a, b, levels)
    }

    /// The diagram that reads at level `to[k]` what `a` reads at level `k`. The list rises over the levels that `a`
    /// depends on; the laws tell which those are at most.
    pub fn shift(&mut self, a: &Root, to: &[u32]) -> Result<Root, StoreFault>
        requires kept { IsRoot self.old.state a.now }
        requires rising { RisesOver self.old.state.table.levels to.now (function_at self.old a.now) }
        ensures { GivesRoot self.old self.new result (shifted to.now (function_at self.old a.now)) (IsShiftedPart to.now (diagram_of self.old.state a.now)) }
    {
        self.work.shift(a, to)
    }

    /// The diagram's value where each level has this bit.
    pub fn eval(&self, a: &Root, bits: &[bool]) -> bool
        requires kept { IsRoot self.now.state a.now }
        requires one_each { length bits.now ≡ self.now.state.table.levels }
        ensures { result ≡ function_at self.now a.now (bits_of bits.now) }
    {
        self.work.eval(a, bits)
    }

    /// Adds the levels that one path of a diagram reads, from the top down: at each node it goes to the part of the bit
    /// `towards`, unless that is false, and then to the other one.
    pub fn path(&self, a: &Root, towards: bool, levels: &mut Vec<u32>) -> Result<(), OutOfMemory>
        requires { IsRoot self.now.state a.now }
        ensures { OnOk result (levels.new.items ≡ levels.old.items ++ levels_on towards (diagram_of self.now.state a.now)) }
    {
        self.work.path(a, towards, levels)
    }

    /// Finds the first bits, level by level and false before true, that agree with what is fixed and make `a` true,
    /// and answers whether there are any. `fixed` and `out` have a place for each level; where there are none, what
    /// `out` holds then means nothing. It takes no memory, and one look at each level where nothing is fixed; where what
    /// is fixed later rules a part out, it goes down from the root again to the last level that has a bit left.
    pub fn first_path(&self, a: &Root, fixed: &[Option<bool>], out: &mut [bool]) -> bool
        requires kept { IsRoot self.now.state a.now }
        requires fixed_each { length fixed.now ≡ self.now.state.table.levels }
        requires out_each { length out.old ≡ self.now.state.table.levels }
        ensures first { IsTrue result → IsFirst fixed.now (function_at self.now a.now) 0 self.now.state.table.levels (bits_of out.new) }
        ensures none { result ≡ false → HasNone fixed.now (function_at self.now a.now) 0 }
    {
        self.work.first_path(a, fixed, out)
    }

    /// A root's number, which two kept roots share exactly where they are one function. It takes no memory.
    pub fn number(&self, a: &Root) -> u32
        requires { IsRoot self.now.state a.now }
        ensures number { result ≡ a.now }
        ensures live { IsEdge self.now.state result }
        ensures one { (m : ℕ) → IsRoot self.now.state m → (result ≡ m) ↔ (function_at self.now a.now ≡ function_at self.now m) }
        ensures among { (m : ℕ) → IsEdge self.now.state m → function_at self.now m ≡ function_at self.now a.now → m ≡ result }
    {
        self.work.number(a)
    }

    /// The first level that a diagram reads, and none for a constant. It takes no memory.
    pub fn first_level(&self, a: &Root) -> Option<u32>
        requires { IsRoot self.now.state a.now }
        ensures { MatchOption result ((b : Bool) × (diagram_of self.now.state a.now ≡ constant b)) (λ level. level ≡ level_at self.now a.now) }
    {
        self.work.first_level(a)
    }

    /// Splits a diagram at the first level that it reads. None: it is a constant. `Memory` alone refuses, and keeps no
    /// root more. No node is made.
    pub fn split(&mut self, a: &Root) -> Result<Option<Split>, StoreFault>
        requires { IsRoot self.old.state a.now }
        ensures split { IfOk result (λ given. MatchOption given ((b : Bool) × (diagram_of self.old.state a.now ≡ constant b)) (λ x. SplitsAt self.old.state.table.levels x.level (diagram_of self.old.state a.now) (diagram_of self.new.state x.low) (diagram_of self.new.state x.high))) }
        ensures added { IfOk result (λ given. MatchOption given (SameRoots self.old.state self.new.state) (λ x. AddsBoth self.old.state self.new.state x.low x.high)) }
        ensures refused { OnErr result (SameRoots self.old.state self.new.state) }
        ensures table { self.new.state.table ≡ self.old.state.table }
        ensures full { result ≡ Err StoreFault.Full → ⊥ }
    {
        self.work.split(a)
    }

    /// Asks for one root more.
    pub fn include(&self, root: &Root, all: &mut Conjunction)
        requires kept { IsRoot self.now.state root.now }
        requires room { length all.old.roots < all.old.most }
        ensures { all.new ≡ record { levels = all.old.levels; most = all.old.most; roots = all.old.roots ++ root.now ∷ [] } }
    {
        self.work.include(root, all);
    }

    /// Asks for these roots too.
    pub fn include_all(&self, roots: &[Root], all: &mut Conjunction)
        requires kept { All (λ n. IsRoot self.now.state n) roots.now }
        requires room { length all.old.roots + length roots.now ≤ all.old.most }
        ensures { all.new ≡ record { levels = all.old.levels; most = all.old.most; roots = all.old.roots ++ roots.now } }
    {
        self.work.include_all(roots, all);
    }

    /// Finds the first bits, level by level and false before true, that agree with what is fixed and make all roots
    /// true that `all` asks for, and answers whether there are any. `fixed` and `out` have a place for each level; where
    /// there are none, what `out` holds then means nothing. It takes no memory. Levels at which no edge stands cost
    /// nothing, each edge passes fixed levels at once, and an edge that is true then is left out; in the worst case it tries
    /// both bits of each free level, as the question is satisfiability.
    pub fn first_common_path(
        &self,
        all: &mut Conjunction,
        fixed: &[Option<bool>],
        out: &mut [bool],
    ) -> bool
        requires kept { All (λ n. IsRoot self.now.state n) all.old.roots }
        requires levels { all.old.levels ≡ self.now.state.table.levels }
        requires fixed_each { length fixed.now ≡ self.now.state.table.levels }
        requires out_each { length out.old ≡ self.now.state.table.levels }
        ensures first { IsTrue result → IsFirst fixed.now (all_of self.now all.old.roots) 0 self.now.state.table.levels (bits_of out.new) }
        ensures none { result ≡ false → HasNone fixed.now (all_of self.now all.old.roots) 0 }
        ensures asked { all.new ≡ all.old }
    {
        self.work.first_common_path(all, fixed, out)
    }
}
