//! The lines of a product: the first several members joined, as many as take few nodes, and each other one alone.

ghost use Rattle.std.specs.Prelude.{◌≡◌, ◌<◌, ◌≤◌, true, Ok, IfOk, IfErr, length, take, if◌then◌else◌};
ghost use Rattle.spec_model.specs.Diagrams.{Function};
ghost use Rattle.bdd_store.specs.State.{IsRoot};
ghost use Rattle.bdd_ops.specs.Functions.{joined, join_of};
ghost use Rattle.bdd_bits.specs.Contents.{Contents, function_at};
ghost use Rattle.bit_compile.specs.Making.{Makes};
ghost use Rattle.bdd_sets.specs.Members.{AreRoots, all_true, functions_at};
ghost use Rattle.bdd_products.specs.Products.{MakesLines, AreOfMembers, both_lists};

use bdd_bits::{Diagrams, Root};
use bdd_sets::lists::push_made;
use bdd_sets::members::with_kept;
use bit_compile::steps::{and, constant};
use regions::Halt;
use std::alloc::Global;

/// How many nodes more a member may take that is joined to those before it. With three times as many, lifts take longer;
/// with a third, the pairs of 64 clients stay apart.
const FEW: u32 = 100;

/// The conjunction of the first several members.
pub struct Front {
    pub lines: Root,
    pub count: usize,
}

/// What is joined so far with one member more, where that takes few nodes, and else what is joined so far; and whether
/// the member is in it. What is joined so far is given back.
fn longer(diagrams: &mut Diagrams, lines: Root, member: &Root) -> Result<(Root, bool), Halt>
    requires lines { IsRoot diagrams.old.state lines }
    requires member { IsRoot diagrams.old.state member.now }
    ensures made { (base : Contents) (f : Function) → Makes base diagrams.old (Ok lines) f →
        IfOk result (λ p. Makes base diagrams.new (Ok p.0) (if p.1 then joined (join_of true) f (function_at diagrams.old member.now) else f)) }
    ensures refused { (base : Contents) (f : Function) → Makes base diagrams.old (Ok lines) f →
        IfErr result (λ halt. Makes base diagrams.new (Err halt) f) }
{
    let before = diagrams.nodes();
    match and(diagrams, &lines, member) {
        Ok(whole) => {
            if diagrams.nodes().saturating_sub(before) <= FEW {
                diagrams.release(lines);
                Ok((whole, true))
            } else {
                diagrams.release(whole);
                Ok((lines, false))
            }
        }
        Err(halt) => {
            diagrams.release(lines);
            Err(halt)
        }
    }
}

/// The conjunction of the first members, of as many as take few nodes more.
pub fn front_of(diagrams: &mut Diagrams, members: &[Root]) -> Result<Front, Halt>
    requires { AreRoots diagrams.old members.now }
    ensures some { IfOk result (λ front. front.count ≤ length members.now) }
    ensures made { IfOk result (λ front. Makes diagrams.old diagrams.new (Ok front.lines) (all_true (functions_at diagrams.old (take front.count members.now)))) }
    ensures refused { IfErr result (λ halt. Makes diagrams.old diagrams.new (Err halt) (λ s. true)) }
{
    let mut lines = constant(diagrams, true)?;
    let mut count = 0;
    for member in members {
        let (next, is_in) = longer(diagrams, lines, member)?;
        lines = next;
        if !is_in {
            return Ok(Front { lines, count });
        }
        count += 1;
    }
    Ok(Front { lines, count })
}

/// The lines of a product of two lists of members.
pub fn lines_of(
    diagrams: &mut Diagrams,
    alloc: Global,
    first: &[Root],
    second: &[Root],
) -> Result<Vec<Root>, Halt>
    requires first { AreRoots diagrams.old first.now }
    requires second { AreRoots diagrams.old second.now }
    ensures lines { let old = diagrams.old in
        MakesLines old diagrams.new result (both_lists (functions_at old first.now) (functions_at old second.now)) }
    ensures some { IfOk result (λ roots. 0 < length roots.items) }
    ensures members { let old = diagrams.old in
        IfOk result (λ roots. AreOfMembers (functions_at old first.now) (functions_at old second.now) (functions_at diagrams.new roots.items)) }
{
    let front = front_of(diagrams, first)?;
    let Front { lines, count } = front;
    let list = push_made(diagrams, Vec::new(alloc), Ok(lines))?;
    let (_, rest) = first.split_at(count);
    let list = with_kept(diagrams, list, rest)?;
    with_kept(diagrams, list, second)
}
