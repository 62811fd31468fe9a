//! Products of lines, and levels taken out of a target joined with them.

ghost use Rattle.std.specs.Prelude.{◌≡◌, ◌<◌, ◌≤◌, ◌+◌, ℕ, List, Ok, false, IfOk, length};
ghost use Rattle.spec_model.specs.Diagrams.{Function, and_exists_over};
ghost use Rattle.bdd_store.specs.State.{IsRoot, roots_at};
ghost use Rattle.bdd_bits.specs.Contents.{Contents, function_at};
ghost use Rattle.bdd_bits.specs.Calls.{SameNodes};
ghost use Rattle.bit_compile.specs.Making.{Makes};
ghost use Rattle.bdd_sets.specs.Members.{AreRoots, functions_at};
ghost use Rattle.bdd_sets.specs.Lists.{times_in};
ghost use Rattle.bdd_products.specs.Products.{IsProduct, MakesProduct, MakesLines, AreOfMembers, both_lists};

use crate::front::lines_of;
use crate::grouping::grouped;
use crate::spreading::spread;
use bdd_bits::{Diagrams, Root};
use bdd_sets::lists::release_list;
use bdd_sets::steps::and_exists;
use regions::Halt;
use std::alloc::Global;

/// The conjunction of several lines, each with the levels that no later one reads. It has to be given back.
pub struct Product {
    pub lines: Vec<Root>,
    /// For each line the levels that are taken out when it is joined.
    pub outs: Vec<Vec<u32>>,
}

/// The lines of a product of two lists of members: in groups, if they are asked for, and else in their order.
fn lines_by(
    diagrams: &mut Diagrams,
    alloc: Global,
    first: &[Root],
    second: &[Root],
    in_groups: bool,
) -> Result<Vec<Root>, Halt>
    requires first { AreRoots diagrams.old first.now }
    requires second { AreRoots diagrams.old second.now }
    ensures lines { let old = diagrams.old in
        MakesLines old diagrams.new result (both_lists (functions_at old first.now) (functions_at old second.now)) }
    ensures some { IfOk result (λ roots. 0 < length roots.items) }
    ensures members { let old = diagrams.old in
        in_groups ≡ false → IfOk result (λ roots. AreOfMembers (functions_at old first.now) (functions_at old second.now) (functions_at diagrams.new roots.items)) }
{
    if in_groups {
        grouped(diagrams, alloc, first, second)
    } else {
        lines_of(diagrams, alloc, first, second)
    }
}

impl Product {
    /// The product of two lists of members, out of which the levels `out` are taken. Where the members are to stand in groups,
    /// nothing is told of each line. `Budget`: the store is full. `Memory`: none was given.
    pub fn make(
        diagrams: &mut Diagrams,
        alloc: Global,
        first: &[Root],
        second: &[Root],
        out: &[u32],
        in_groups: bool,
    ) -> Result<Product, Halt>
        requires first { AreRoots diagrams.old first.now }
        requires second { AreRoots diagrams.old second.now }
        ensures product { let old = diagrams.old in
            MakesProduct old diagrams.new result (both_lists (functions_at old first.now) (functions_at old second.now)) out.now }
        ensures members { let old = diagrams.old in
            in_groups ≡ false → IfOk result (λ p. AreOfMembers (functions_at old first.now) (functions_at old second.now) (functions_at diagrams.new p.lines.items)) }
    {
        let lines = lines_by(diagrams, alloc, first, second, in_groups)?;
        match spread(diagrams, alloc, &lines, out) {
            Ok(outs) => Ok(Product { lines, outs }),
            Err(halt) => {
                release_list(diagrams, lines);
                Err(halt)
            }
        }
    }

    /// Gives the lines back.
    pub fn release(self, diagrams: &mut Diagrams)
        requires { (n : ℕ) → times_in n self.lines.items ≤ roots_at diagrams.old.state n }
        ensures released { (n : ℕ) → roots_at diagrams.old.state n ≡ roots_at diagrams.new.state n + times_in n self.lines.items }
        ensures nodes { SameNodes diagrams.old diagrams.new }
    {
        let Product { lines, outs: _ } = self;
        release_list(diagrams, lines);
    }
}

/// A diagram joined with a line, and levels taken out then. The diagram is given back.
fn and_exists_spent(
    diagrams: &mut Diagrams,
    a: Root,
    line: &Root,
    levels: &[u32],
) -> Result<Root, Halt>
    requires a_kept { IsRoot diagrams.old.state a }
    requires line_kept { IsRoot diagrams.old.state line.now }
    ensures { (base : Contents) (f : Function) → Makes base diagrams.old (Ok a) f →
        Makes base diagrams.new result (and_exists_over levels.now f (function_at diagrams.old line.now)) }
{
    let whole = and_exists(diagrams, &a, line, levels);
    diagrams.release(a);
    whole
}

/// The diagram that is true where some values at the product's levels make the target and all lines true. The target is
/// given back. `Budget`: the store is full. `Memory`: none was given.
pub fn taken_out(diagrams: &mut Diagrams, target: Root, product: &Product) -> Result<Root, Halt>
    requires { (base : Contents) × (f whole : Function) × (out : List ℕ) × Makes base diagrams.old (Ok target) f ×
        AreRoots base product.now.lines.items × IsProduct whole out base product.now }
    ensures { (base : Contents) (f whole : Function) (out : List ℕ) → Makes base diagrams.old (Ok target) f →
        AreRoots base product.now.lines.items → IsProduct whole out base product.now →
        Makes base diagrams.new result (and_exists_over out f whole) }
{
    let mut made = target;
    for k in 0..product.lines.len() {
        made = and_exists_spent(diagrams, made, &product.lines[k], &product.outs[k])?;
    }
    Ok(made)
}
