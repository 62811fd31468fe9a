//! Writing quantifiers out, within room for nodes.

ghost use Rattle.std.specs.Prelude.{◌≡◌, ◌++◌, ◌∷◌, [], Some, map, option_map, true, ◌≤◌, IfOk, IfSome, OnOk, IsErrOf};
ghost use Rattle.spectra_resolved.specs.Resolved.{tree, Form};
ghost use Rattle.spectra_resolved.specs.Chained.{chained, trees};
ghost use Rattle.spectra_resolved.specs.Views.{resolved_data, link_data, form_data};
ghost use Rattle.spectra_copies.specs.Levels.{within_room};
ghost use Rattle.spectra_copies.specs.Making.{Makes, MakesEach, MakesLinks};
ghost use Rattle.spectra_copies.specs.Operands.{one_of, has_several, several_of};
ghost use Rattle.spectra_copies.specs.PartViews.{quantifier_data};
ghost use Rattle.spectra_copies.specs.Ranges.{numbers_between};
ghost use Rattle.spectra_copies.specs.Copies.{bound_with, written_leaf as written_leaf_lem, copies_for, copies_of, written, form_out, each_out};
ghost use Rattle.spectra_copies.specs.QuantifiedLinks.{links_out};

use crate::counted::Counted;
use crate::nodes::{
    Operands, add_link, add_tree, chain_of, each_above, leaf_at, left_of, node, one_above,
    quantifier_above, stop_chain, stop_operands, stop_quantifier,
};
use crate::numbers::number_in;
use crate::parts::{Quantifier, quantifier_of};
use crate::ranges::{Bound, Range, extent_of, number_at, range_of};
use crate::refusal::Refusal;
use spectra_resolved::spot::{Mark, Spot};
use spectra_resolved::tree::{Extent, Leaf, Link, Misuse, Resolved, Shape};
use std::alloc::{AllocError, Global};

/// By what quantifiers are written out: the numbers of the defines that have one.
#[derive(Clone, Copy)]
pub struct Writing<'s> {
    pub alloc: Global,
    pub numbers: &'s [Option<i64>],
}

// A part without parts, with a number for a quantifier's variable that has one.
fn written_leaf(bounds: &[Bound], leaf: Leaf) -> Leaf
    ensures { result ≡ written_leaf_lem bounds.now leaf }
{
    match leaf {
        Leaf::Bound(at) => match number_at(bounds, at) {
            Some(number) => Leaf::Number(number),
            None => leaf,
        },
        _ => leaf,
    }
}

// An expression, where `bounds` has the numbers of the quantifiers around it.
#[cycle(writing)]
fn write<'s>(
    by: &Writing<'s>,
    bounds: &mut Vec<Bound>,
    room: usize,
    t: &Resolved,
) -> Result<Counted, Refusal>
    ensures made { Makes room (written by.now.numbers.now bounds.old.items (resolved_data t.now)) result }
    ensures not_deep { IsErrOf result Refusal.Deep → ⊥ }
    ensures bounds { OnOk result (bounds.new.items ≡ bounds.old.items) }
{
    match t {
        Resolved::Chain(head, links) => write_chain(by, bounds, room, head, links),
        Resolved::Node(first, at, shape) => write_shape(by, bounds, room, *first, *at, shape),
    }
}

// An expression with operators behind it.
#[cycle(writing)]
fn write_chain<'s>(
    by: &Writing<'s>,
    bounds: &mut Vec<Bound>,
    room: usize,
    head: &Resolved,
    links: &[Link],
) -> Result<Counted, Refusal>
    ensures made { Makes room (written by.now.numbers.now bounds.old.items (chained (resolved_data head.now) (map link_data links.now))) result }
    ensures not_deep { IsErrOf result Refusal.Deep → ⊥ }
    ensures bounds { OnOk result (bounds.new.items ≡ bounds.old.items) }
{
    let own = write(by, bounds, room, head)?;
    let left = room - own.nodes;
    let mut all = Vec::new(by.alloc);
    match write_links(by, bounds, left, links, &mut all) {
        Ok(nodes) => chain_of(by.alloc, room, own, all, nodes),
        Err(halt) => stop_chain(own, all, halt),
    }
}

// Operators with their second operands: they are added to others. It gives how many nodes they have together.
#[cycle(writing)]
#[inline(never)]
fn write_links<'s>(
    by: &Writing<'s>,
    bounds: &mut Vec<Bound>,
    room: usize,
    links: &[Link],
    all: &mut Vec<Link>,
) -> Result<usize, Refusal>
    ensures made { MakesLinks room (links_out by.now.numbers.now bounds.old.items (map link_data links.now)) all.old.items all.new.items result }
    ensures not_deep { IsErrOf result Refusal.Deep → ⊥ }
    ensures bounds { OnOk result (bounds.new.items ≡ bounds.old.items) }
{
    let mut left = room;
    for link in links {
        let second = write(by, bounds, left, &link.second)?;
        left = add_link(all, left, &None, link, second)?;
    }
    Ok(room - left)
}

// What stands at a place.
#[cycle(writing)]
fn write_shape<'s>(
    by: &Writing<'s>,
    bounds: &mut Vec<Bound>,
    room: usize,
    first: Spot,
    at: Mark,
    shape: &Shape,
) -> Result<Counted, Refusal>
    ensures made { Makes room (tree first at (form_out by.now.numbers.now bounds.old.items (form_data shape.now))) result }
    ensures not_deep { IsErrOf result Refusal.Deep → ⊥ }
    ensures bounds { OnOk result (bounds.new.items ≡ bounds.old.items) }
{
    match shape {
        Shape::Leaf(leaf) => {
            let leaf = written_leaf(bounds, *leaf);
            leaf_at(by.alloc, room, first, at, leaf)
        }
        Shape::Predicate(number, ts) => {
            write_predicate(by, bounds, room, first, at, *number, ts)
        }
        Shape::Misuse(misuse, ts) => write_misuse(by, bounds, room, first, at, *misuse, ts),
        Shape::Next(t) => write_one(by, bounds, room, first, at, shape, t),
        Shape::Prefix(_, t) => write_one(by, bounds, room, first, at, shape, t),
        Shape::Mod(t, _, _) => write_one(by, bounds, room, first, at, shape, t),
        Shape::Index(_, _, t) => write_one(by, bounds, room, first, at, shape, t),
        Shape::And(ts, _) => write_several(by, bounds, room, first, at, shape, ts),
        Shape::Or(ts, _) => write_several(by, bounds, room, first, at, shape, ts),
        Shape::Quantified(word, variable, extent, low, high, copies) => {
            let quantifier = quantifier_of(*word, *variable, *extent, low, high, copies);
            write_quantified(by, bounds, room, first, at, &quantifier)
        }
    }
}

// An operator with one operand.
#[cycle(writing)]
fn write_one<'s>(
    by: &Writing<'s>,
    bounds: &mut Vec<Bound>,
    room: usize,
    first: Spot,
    at: Mark,
    shape: &Shape,
    t: &Resolved,
) -> Result<Counted, Refusal>
    requires { Some (resolved_data t.now) ≡ one_of (form_data shape.now) }
    ensures made { Makes room (tree first at (form_out by.now.numbers.now bounds.old.items (form_data shape.now))) result }
    ensures not_deep { IsErrOf result Refusal.Deep → ⊥ }
    ensures bounds { OnOk result (bounds.new.items ≡ bounds.old.items) }
{
    let operand = write(by, bounds, room, t)?;
    one_above(by.alloc, room, first, at, &None, shape, operand)
}

// An operator with a list of operands.
#[cycle(writing)]
fn write_several<'s>(
    by: &Writing<'s>,
    bounds: &mut Vec<Bound>,
    room: usize,
    first: Spot,
    at: Mark,
    shape: &Shape,
    ts: &[Resolved],
) -> Result<Counted, Refusal>
    requires several { has_several (form_data shape.now) ≡ true }
    requires operands { trees (map resolved_data ts.now) ≡ several_of (form_data shape.now) }
    ensures made { Makes room (tree first at (form_out by.now.numbers.now bounds.old.items (form_data shape.now))) result }
    ensures not_deep { IsErrOf result Refusal.Deep → ⊥ }
    ensures bounds { OnOk result (bounds.new.items ≡ bounds.old.items) }
{
    let mut all = Vec::new(by.alloc);
    match write_each(by, bounds, room, ts, &mut all) {
        Ok(nodes) => each_above(by.alloc, room, first, at, &None, shape, all, nodes),
        Err(halt) => stop_operands(all, halt),
    }
}

// The use of a predicate.
#[cycle(writing)]
fn write_predicate<'s>(
    by: &Writing<'s>,
    bounds: &mut Vec<Bound>,
    room: usize,
    first: Spot,
    at: Mark,
    number: usize,
    ts: &[Resolved],
) -> Result<Counted, Refusal>
    ensures made { Makes room (tree first at (Form.PredicateOf number (each_out by.now.numbers.now bounds.old.items (trees (map resolved_data ts.now))))) result }
    ensures not_deep { IsErrOf result Refusal.Deep → ⊥ }
    ensures bounds { OnOk result (bounds.new.items ≡ bounds.old.items) }
{
    let mut all = Vec::new(by.alloc);
    match write_each(by, bounds, room, ts, &mut all) {
        Ok(nodes) => node(
            by.alloc,
            room,
            first,
            at,
            Shape::Predicate(number, all),
            nodes,
        ),
        Err(halt) => stop_operands(all, halt),
    }
}

// A misused name.
#[cycle(writing)]
fn write_misuse<'s>(
    by: &Writing<'s>,
    bounds: &mut Vec<Bound>,
    room: usize,
    first: Spot,
    at: Mark,
    misuse: Misuse,
    ts: &[Resolved],
) -> Result<Counted, Refusal>
    ensures made { Makes room (tree first at (Form.MisuseOf misuse (each_out by.now.numbers.now bounds.old.items (trees (map resolved_data ts.now))))) result }
    ensures not_deep { IsErrOf result Refusal.Deep → ⊥ }
    ensures bounds { OnOk result (bounds.new.items ≡ bounds.old.items) }
{
    let mut all = Vec::new(by.alloc);
    match write_each(by, bounds, room, ts, &mut all) {
        Ok(nodes) => node(by.alloc, room, first, at, Shape::Misuse(misuse, all), nodes),
        Err(halt) => stop_operands(all, halt),
    }
}

// Several expressions: they are added to others. It gives how many nodes they have together.
#[cycle(writing)]
#[inline(never)]
fn write_each<'s>(
    by: &Writing<'s>,
    bounds: &mut Vec<Bound>,
    room: usize,
    ts: &[Resolved],
    all: &mut Vec<Resolved>,
) -> Result<usize, Refusal>
    ensures made { MakesEach room (each_out by.now.numbers.now bounds.old.items (trees (map resolved_data ts.now))) all.old.items all.new.items result }
    ensures not_deep { IsErrOf result Refusal.Deep → ⊥ }
    ensures bounds { OnOk result (bounds.new.items ≡ bounds.old.items) }
{
    let mut left = room;
    for t in ts {
        let made = write(by, bounds, left, t)?;
        left -= made.nodes;
        add_tree(all, made)?;
    }
    Ok(room - left)
}

// A quantifier: its bounds first, and its body for each number between them.
#[cycle(writing)]
#[inline(never)]
fn write_quantified<'s>(
    by: &Writing<'s>,
    bounds: &mut Vec<Bound>,
    room: usize,
    first: Spot,
    at: Mark,
    quantifier: &Quantifier<'_>,
) -> Result<Counted, Refusal>
    ensures made { Makes room (tree first at (form_out by.now.numbers.now bounds.old.items (quantifier_data quantifier.now))) result }
    ensures not_deep { IsErrOf result Refusal.Deep → ⊥ }
    ensures bounds { OnOk result (bounds.new.items ≡ bounds.old.items) }
{
    let inside = left_of(room, 0)?;
    let low = write(by, bounds, inside, quantifier.low)?;
    let behind_low = inside - low.nodes;
    let high = write(by, bounds, behind_low, quantifier.high)?;
    let left = behind_low - high.nodes;
    let range = range_of(
        number_in(by.numbers, &low.tree),
        number_in(by.numbers, &high.tree),
    );
    let mut all = Vec::new(by.alloc);
    match write_copies(by, bounds, left, quantifier, range, &mut all) {
        Ok(nodes) => {
            let extent = extent_of(quantifier.extent, range);
            let copies = Operands { all, nodes };
            quantifier_above(
                by.alloc, room, first, at, quantifier, extent, low, high, copies,
            )
        }
        Err(halt) => stop_quantifier(low, high, all, halt),
    }
}

// The copies of a body, for each number of a range, or the body alone: they are added to others.
#[cycle(writing)]
fn write_copies<'s>(
    by: &Writing<'s>,
    bounds: &mut Vec<Bound>,
    room: usize,
    quantifier: &Quantifier<'_>,
    range: Range,
    all: &mut Vec<Resolved>,
) -> Result<usize, Refusal>
    ensures made { MakesEach room (copies_of quantifier.now.extent range
        (λ z. each_out by.now.numbers.now (bounds.old.items ++ bound_with quantifier.now.variable z ∷ []) (trees (map resolved_data quantifier.now.copies.now)))
        (each_out by.now.numbers.now bounds.old.items (trees (map resolved_data quantifier.now.copies.now)))) all.old.items all.new.items result }
    ensures not_deep { IsErrOf result Refusal.Deep → ⊥ }
    ensures bounds { OnOk result (bounds.new.items ≡ bounds.old.items) }
{
    match (quantifier.extent, range) {
        (Extent::Open, Range::Right(low, high)) => {
            write_between(by, bounds, room, quantifier, low, high, all)
        }
        (_, _) => write_each(by, bounds, room, quantifier.copies, all),
    }
}

// The copies for each number from one to another.
#[cycle(writing)]
fn write_between<'s>(
    by: &Writing<'s>,
    bounds: &mut Vec<Bound>,
    room: usize,
    quantifier: &Quantifier<'_>,
    low: i64,
    high: i64,
    all: &mut Vec<Resolved>,
) -> Result<usize, Refusal>
    ensures made { MakesEach room (copies_for
        (λ z. each_out by.now.numbers.now (bounds.old.items ++ bound_with quantifier.now.variable z ∷ []) (trees (map resolved_data quantifier.now.copies.now)))
        (numbers_between low high)) all.old.items all.new.items result }
    ensures not_deep { IsErrOf result Refusal.Deep → ⊥ }
    ensures bounds { OnOk result (bounds.new.items ≡ bounds.old.items) }
{
    let mut left = room;
    for number in low..=high {
        left -= write_copy(by, bounds, left, quantifier, number, all)?;
    }
    Ok(room - left)
}

// The copy with a number.
#[cycle(writing)]
fn write_copy<'s>(
    by: &Writing<'s>,
    bounds: &mut Vec<Bound>,
    room: usize,
    quantifier: &Quantifier<'_>,
    number: i64,
    all: &mut Vec<Resolved>,
) -> Result<usize, Refusal>
    ensures made { MakesEach room (each_out by.now.numbers.now (bounds.old.items ++ bound_with quantifier.now.variable number ∷ [])
        (trees (map resolved_data quantifier.now.copies.now))) all.old.items all.new.items result }
    ensures not_deep { IsErrOf result Refusal.Deep → ⊥ }
    ensures bounds { OnOk result (bounds.new.items ≡ bounds.old.items) }
{
    let at = quantifier.variable;
    bounds.push(Bound { at, number })?;
    let nodes = write_each(by, bounds, room, quantifier.copies, all)?;
    bounds.pop();
    Ok(nodes)
}

/// An expression in which each quantifier whose bounds have numbers is written out, where it has at most so many nodes then.
/// `numbers` has those of the defines that have one. The error is that memory is short.
pub fn write_out(
    alloc: Global,
    numbers: &[Option<i64>],
    room: usize,
    t: &Resolved,
) -> Result<Option<Counted>, AllocError>
    ensures made { IfOk result (λ made. option_map (λ m. resolved_data m.tree.value) made ≡ within_room room (written numbers.now [] (resolved_data t.now))) }
    ensures within { IfOk result (λ made. IfSome made (λ m. m.nodes ≤ room)) }
{
    let by = Writing { alloc, numbers };
    let mut bounds = Vec::new(alloc);
    match write(&by, &mut bounds, room, t) {
        Ok(made) => Ok(Some(made)),
        Err(Refusal::Memory) => Err(AllocError),
        Err(Refusal::Large) => Ok(None),
        Err(Refusal::Deep) => Ok(None),
    }
}
