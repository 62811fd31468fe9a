//! The lines of a product in groups: members joined one after the other, in the order of the levels at which they begin, as
//! long as each takes few nodes more. No group has a name, so lines are grouped only where nothing is told of what fills a budget.

ghost use Rattle.std.specs.Prelude.{◌≡◌, ◌<◌, ◌≤◌, ◌++◌, ◌∷◌, [], length, take, IfOk, IfErr, Ok, Err, List, true};
ghost use Rattle.spec_model.specs.Diagrams.{Function};
ghost use Rattle.bdd_bits.specs.Contents.{Contents};
ghost use Rattle.bdd_sets.specs.Members.{AreRoots, all_true, functions_at};
ghost use Rattle.bdd_sets.specs.Lists.{MakesList};
ghost use Rattle.bit_compile.specs.Making.{Makes};
ghost use Rattle.bdd_products.specs.Products.{MakesLines, both_lists};

use crate::front::{Front, front_of};
use crate::sorting::{First, sorted};
use bdd_bits::{Diagrams, Root};
use bdd_sets::lists::{push_made, release_list};
use bdd_sets::members::with_kept;
use bit_compile::steps::keep;
use regions::Halt;
use std::alloc::Global;

/// The first several members joined, as many as take few nodes more, and at least one of them.
fn group_of(diagrams: &mut Diagrams, members: &[Root]) -> Result<Front, Halt>
    requires members { AreRoots diagrams.old members.now }
    requires some { 0 < length members.now }
    ensures some { IfOk result (λ group. 0 < group.count) }
    ensures within { IfOk result (λ group. group.count ≤ length members.now) }
    ensures made { IfOk result (λ group. Makes diagrams.old diagrams.new (Ok group.lines) (all_true (functions_at diagrams.old (take group.count members.now)))) }
    ensures refused { IfErr result (λ halt. Makes diagrams.old diagrams.new (Err halt) (λ s. true)) }
{
    let front = front_of(diagrams, members)?;
    if front.count > 0 {
        return Ok(front);
    }
    let Front { lines, count: _ } = front;
    let alone = keep(diagrams, &members[0]);
    diagrams.release(lines);
    let lines = alone?;
    Ok(Front { lines, count: 1 })
}

/// The list with one group more, and how many members are in that. Where it is refused, all are given back.
fn with_group(
    diagrams: &mut Diagrams,
    list: Vec<Root>,
    members: &[Root],
) -> Result<(Vec<Root>, usize), Halt>
    requires list { (base : Contents) × (fs : List Function) × MakesList base diagrams.old (Ok list) fs × AreRoots base members.now }
    requires some { 0 < length members.now }
    ensures some { IfOk result (λ p. 0 < p.1) }
    ensures within { IfOk result (λ p. p.1 ≤ length members.now) }
    ensures made { (base : Contents) (fs : List Function) → MakesList base diagrams.old (Ok list) fs → AreRoots base members.now →
        IfOk result (λ p. MakesList base diagrams.new (Ok p.0) (fs ++ all_true (functions_at base (take p.1 members.now)) ∷ [])) }
    ensures refused { (base : Contents) (fs : List Function) → MakesList base diagrams.old (Ok list) fs → AreRoots base members.now →
        IfErr result (λ halt. MakesList base diagrams.new (Err halt) fs) }
{
    match group_of(diagrams, members) {
        Ok(group) => {
            let Front { lines, count } = group;
            let list = push_made(diagrams, list, Ok(lines))?;
            Ok((list, count))
        }
        Err(halt) => {
            release_list(diagrams, list);
            Err(halt)
        }
    }
}

/// Members in groups, in their order.
fn groups_of(diagrams: &mut Diagrams, alloc: Global, members: &[Root]) -> Result<Vec<Root>, Halt>
    requires { AreRoots diagrams.old members.now }
    ensures lines { MakesLines diagrams.old diagrams.new result (all_true (functions_at diagrams.old members.now)) }
    ensures some { IfOk result (λ roots. 0 < length roots.items) }
{
    let front = front_of(diagrams, members)?;
    let Front { lines, count } = front;
    let mut list = push_made(diagrams, Vec::new(alloc), Ok(lines))?;
    let mut from = count;
    while from < members.len() {
        let (_, rest) = members.split_at(from);
        let (more, count) = with_group(diagrams, list, rest)?;
        list = more;
        from += count;
    }
    Ok(list)
}

/// Members in groups, in the order of the levels at which they begin.
fn sorted_groups(
    diagrams: &mut Diagrams,
    alloc: Global,
    members: &[Root],
    first: First,
) -> Result<Vec<Root>, Halt>
    requires { AreRoots diagrams.old members.now }
    ensures lines { MakesLines diagrams.old diagrams.new result (all_true (functions_at diagrams.old members.now)) }
    ensures some { IfOk result (λ roots. 0 < length roots.items) }
{
    let sorted = sorted(diagrams, alloc, members, first)?;
    let made = groups_of(diagrams, alloc, &sorted);
    release_list(diagrams, sorted);
    made
}

/// The groups, or those of another order, where these are made and are fewer than so many. The others are given back. None are
/// made where they can't be fewer, since each order has a group.
fn fewer(
    diagrams: &mut Diagrams,
    alloc: Global,
    members: &[Root],
    groups: Vec<Root>,
    first: First,
    end: usize,
) -> Vec<Root>
    requires groups { (base : Contents) × MakesLines base diagrams.old (Ok groups) (all_true (functions_at base members.now)) × AreRoots base members.now }
    requires some { 0 < length groups.items }
    ensures lines { (base : Contents) → MakesLines base diagrams.old (Ok groups) (all_true (functions_at base members.now)) → AreRoots base members.now →
        MakesLines base diagrams.new (Ok result) (all_true (functions_at base members.now)) }
    ensures some { 0 < length result.items }
{
    if end < 2 {
        return groups;
    }
    match sorted_groups(diagrams, alloc, members, first) {
        Ok(other) => {
            if other.len() < end {
                release_list(diagrams, groups);
                other
            } else {
                release_list(diagrams, other);
                groups
            }
        }
        Err(_) => groups,
    }
}

/// Members in groups of one of three orders, of those that are made: the deepest first, the topmost first, where these are
/// fewer, or the last of the deepest first, where these are fewer than half. Where the first order is refused, that is answered.
fn fewest_groups(
    diagrams: &mut Diagrams,
    alloc: Global,
    members: &[Root],
) -> Result<Vec<Root>, Halt>
    requires { AreRoots diagrams.old members.now }
    ensures lines { MakesLines diagrams.old diagrams.new result (all_true (functions_at diagrams.old members.now)) }
    ensures some { IfOk result (λ roots. 0 < length roots.items) }
{
    let groups = sorted_groups(diagrams, alloc, members, First::Deepest)?;
    let end = groups.len();
    let groups = fewer(diagrams, alloc, members, groups, First::Topmost, end);
    let end = groups.len() / 2;
    Ok(fewer(diagrams, alloc, members, groups, First::LastOfDeepest, end))
}

/// The members of two lists in groups.
pub fn grouped(
    diagrams: &mut Diagrams,
    alloc: Global,
    first: &[Root],
    second: &[Root],
) -> Result<Vec<Root>, Halt>
    requires first { AreRoots diagrams.old first.now }
    requires second { AreRoots diagrams.old second.now }
    ensures lines { let old = diagrams.old in
        MakesLines old diagrams.new result (both_lists (functions_at old first.now) (functions_at old second.now)) }
    ensures some { IfOk result (λ roots. 0 < length roots.items) }
{
    let all = with_kept(diagrams, Vec::new(alloc), first)?;
    let all = with_kept(diagrams, all, second)?;
    let made = fewest_groups(diagrams, alloc, &all);
    release_list(diagrams, all);
    made
}
