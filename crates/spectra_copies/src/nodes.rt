//! Nodes above what is made already, where there is room for them.
//!
//! `room` counts nodes. Each call that makes a tree gives `Large` only where the tree has more, and `Memory` only where none was given.

ghost use Rattle.std.specs.Prelude.{◌≡◌, ◌+◌, ◌<◌, ◌≤◌, ◌++◌, ◌∷◌, [], true, map, MatchResult, OnOk, IsErrOf, IsErrAnd};
ghost use Rattle.spectra_resolved.specs.Resolved.{tree, Form};
ghost use Rattle.spectra_resolved.specs.Chained.{chained, trees};
ghost use Rattle.spectra_resolved.specs.Views.{resolved_data, link_data, form_data};
ghost use Rattle.spectra_copies.specs.Links.{link_nodes, placed_link as placed_link_lem};
ghost use Rattle.spectra_copies.specs.Nodes.{form_nodes, each_nodes};
ghost use Rattle.spectra_copies.specs.Operands.{has_one, over_one, has_several, over_each};
ghost use Rattle.spectra_copies.specs.Making.{Makes};

use crate::counted::Counted;
use crate::parts::{Quantifier, chain, placed, placed_each, placed_link};
use crate::refusal::Refusal;
use spectra_resolved::spot::{Mark, Spot};
use spectra_resolved::tree::{Extent, Leaf, Link, Resolved, Shape};
use spectra_trees::tree::PrefixWord;
use std::alloc::{AllocError, Global};

/// What is left of a room behind a node and so many below it. `Large`: there is less room.
pub fn left_of(room: usize, below: usize) -> Result<usize, Refusal>
    ensures { MatchResult result (λ left. left + (1 + below) ≡ room) (λ halt. (halt ≡ Refusal.Large) × (room < 1 + below)) }
{
    if below >= room {
        return Err(Refusal::Large);
    }
    Ok(room - below - 1)
}

#[tactic(auto, unfolding(crate::specs::Making::Makes))]
/// A node with so many nodes below it. `Large`: there is less room.
pub fn node(
    alloc: Global,
    room: usize,
    first: Spot,
    at: Mark,
    shape: Shape,
    below: usize,
) -> Result<Counted, Refusal>
    requires { form_nodes (form_data shape) ≡ 1 + below }
    ensures made { Makes room (tree first at (form_data shape)) result }
    ensures not_deep { IsErrOf result Refusal.Deep → ⊥ }
{
    if below >= room {
        return Err(Refusal::Large);
    }
    let tree = Box::new(alloc, Resolved::Node(first, at, shape))?;
    Ok(Counted {
        tree,
        nodes: below + 1,
    })
}

/// A part without parts.
pub fn leaf_at(
    alloc: Global,
    room: usize,
    first: Spot,
    at: Mark,
    leaf: Leaf,
) -> Result<Counted, Refusal>
    ensures made { Makes room (tree first at (Form.LeafOf leaf)) result }
    ensures not_deep { IsErrOf result Refusal.Deep → ⊥ }
{
    node(alloc, room, first, at, Shape::Leaf(leaf), 0)
}

// A `next` above its operand.
fn next_above(
    alloc: Global,
    room: usize,
    first: Spot,
    at: Mark,
    operand: Counted,
) -> Result<Counted, Refusal>
    ensures made { Makes room (tree first at (Form.Next (resolved_data operand.tree.value))) result }
    ensures not_deep { IsErrOf result Refusal.Deep → ⊥ }
{
    node(
        alloc,
        room,
        first,
        at,
        Shape::Next(operand.tree),
        operand.nodes,
    )
}

// An operator before its operand.
fn prefix_above(
    alloc: Global,
    room: usize,
    first: Spot,
    at: Mark,
    word: PrefixWord,
    operand: Counted,
) -> Result<Counted, Refusal>
    ensures made { Makes room (tree first at (Form.Prefix word (resolved_data operand.tree.value))) result }
    ensures not_deep { IsErrOf result Refusal.Deep → ⊥ }
{
    node(
        alloc,
        room,
        first,
        at,
        Shape::Prefix(word, operand.tree),
        operand.nodes,
    )
}

// A remainder of its operand by a number.
fn mod_above(
    alloc: Global,
    room: usize,
    first: Spot,
    at: Mark,
    operand: Counted,
    number_at: Spot,
    number: i64,
) -> Result<Counted, Refusal>
    ensures made { Makes room (tree first at (Form.Mod (resolved_data operand.tree.value) number_at number)) result }
    ensures not_deep { IsErrOf result Refusal.Deep → ⊥ }
{
    let shape = Shape::Mod(operand.tree, number_at, number);
    node(alloc, room, first, at, shape, operand.nodes)
}

// An element of an array of so many, the first of which has this number, above what says which.
fn index_above(
    alloc: Global,
    room: usize,
    first: Spot,
    at: Mark,
    array: usize,
    count: usize,
    operand: Counted,
) -> Result<Counted, Refusal>
    ensures made { Makes room (tree first at (Form.Index array count (resolved_data operand.tree.value))) result }
    ensures not_deep { IsErrOf result Refusal.Deep → ⊥ }
{
    let shape = Shape::Index(array, count, operand.tree);
    node(alloc, room, first, at, shape, operand.nodes)
}

/// An operator with one operand, above another one.
#[inline(never)]
pub fn one_above(
    alloc: Global,
    room: usize,
    first: Spot,
    at: Mark,
    brought: &Option<Spot>,
    shape: &Shape,
    operand: Counted,
) -> Result<Counted, Refusal>
    requires { has_one (form_data shape.now) ≡ true }
    ensures made { Makes room (tree first at (over_one brought.now (form_data shape.now) (resolved_data operand.tree.value))) result }
    ensures not_deep { IsErrOf result Refusal.Deep → ⊥ }
{
    match shape {
        Shape::Next(_) => next_above(alloc, room, first, at, operand),
        Shape::Prefix(word, _) => prefix_above(alloc, room, first, at, *word, operand),
        Shape::Mod(_, number_at, number) => {
            let place = placed(*brought, *number_at);
            mod_above(alloc, room, first, at, operand, place, *number)
        }
        Shape::Index(array, count, _) => index_above(
            alloc, room, first, at, *array, *count, operand,
        ),
        Shape::Leaf(_)
        | Shape::Predicate(_, _)
        | Shape::Misuse(_, _)
        | Shape::And(_, _)
        | Shape::Or(_, _)
        | Shape::Quantified(_, _, _, _, _, _) => unreachable!(),
    }
}

// A conjunction of its operands, which have so many nodes.
fn and_above(
    alloc: Global,
    room: usize,
    first: Spot,
    at: Mark,
    operands: Vec<Resolved>,
    nodes: usize,
    between: Vec<Spot>,
) -> Result<Counted, Refusal>
    requires { nodes ≡ each_nodes (trees (map resolved_data operands.items)) }
    ensures made { Makes room (tree first at (Form.And (trees (map resolved_data operands.items)) between.items)) result }
    ensures not_deep { IsErrOf result Refusal.Deep → ⊥ }
{
    node(alloc, room, first, at, Shape::And(operands, between), nodes)
}

// A disjunction of its operands, which have so many nodes.
fn or_above(
    alloc: Global,
    room: usize,
    first: Spot,
    at: Mark,
    operands: Vec<Resolved>,
    nodes: usize,
    between: Vec<Spot>,
) -> Result<Counted, Refusal>
    requires { nodes ≡ each_nodes (trees (map resolved_data operands.items)) }
    ensures made { Makes room (tree first at (Form.Or (trees (map resolved_data operands.items)) between.items)) result }
    ensures not_deep { IsErrOf result Refusal.Deep → ⊥ }
{
    node(alloc, room, first, at, Shape::Or(operands, between), nodes)
}

/// An operator with operands in a list, above others, which have so many nodes.
#[inline(never)]
pub fn each_above(
    alloc: Global,
    room: usize,
    first: Spot,
    at: Mark,
    brought: &Option<Spot>,
    shape: &Shape,
    operands: Vec<Resolved>,
    nodes: usize,
) -> Result<Counted, Refusal>
    requires several { has_several (form_data shape.now) ≡ true }
    requires counted { nodes ≡ each_nodes (trees (map resolved_data operands.items)) }
    ensures made { Makes room (tree first at (over_each brought.now (form_data shape.now) (trees (map resolved_data operands.items)))) result }
    ensures not_deep { IsErrOf result Refusal.Deep → ⊥ }
{
    match shape {
        Shape::And(_, operators) => {
            let between = placed_each(alloc, *brought, operators)?;
            and_above(alloc, room, first, at, operands, nodes, between)
        }
        Shape::Or(_, operators) => {
            let between = placed_each(alloc, *brought, operators)?;
            or_above(alloc, room, first, at, operands, nodes, between)
        }
        Shape::Leaf(_)
        | Shape::Predicate(_, _)
        | Shape::Misuse(_, _)
        | Shape::Next(_)
        | Shape::Prefix(_, _)
        | Shape::Mod(_, _, _)
        | Shape::Index(_, _, _)
        | Shape::Quantified(_, _, _, _, _, _) => unreachable!(),
    }
}

/// Expressions, and how many nodes they have together.
#[derive(Drop)]
pub struct Operands {
    pub all: Vec<Resolved>,
    pub nodes: usize,
    pub ghost counted: { nodes ≡ each_nodes (trees (map resolved_data all.items)) },
}

/// A quantifier above its bounds and its copies. There is room for all of these.
#[inline(never)]
pub fn quantifier_above(
    alloc: Global,
    room: usize,
    first: Spot,
    at: Mark,
    quantifier: &Quantifier<'_>,
    extent: Extent,
    low: Counted,
    high: Counted,
    copies: Operands,
) -> Result<Counted, Refusal>
    requires fits { low.nodes + (high.nodes + copies.nodes) ≤ room }
    ensures made { Makes room (tree first at (Form.Quantified quantifier.now.word quantifier.now.variable extent (resolved_data low.tree.value) (resolved_data high.tree.value)
        (trees (map resolved_data copies.all.items)))) result }
    ensures not_deep { IsErrOf result Refusal.Deep → ⊥ }
{
    let nodes = low.nodes + (high.nodes + copies.nodes);
    let word = quantifier.word;
    let variable = quantifier.variable;
    let shape = Shape::Quantified(word, variable, extent, low.tree, high.tree, copies.all);
    node(alloc, room, first, at, shape, nodes)
}

#[tactic(auto, unfolding(crate::specs::Making::Makes))]
/// Operators, which have so many nodes, behind what stands before them. There is room for all.
#[inline(never)]
pub fn chain_of(
    alloc: Global,
    room: usize,
    head: Counted,
    links: Vec<Link>,
    nodes: usize,
) -> Result<Counted, Refusal>
    requires counted { nodes ≡ link_nodes (map link_data links.items) }
    requires fits { head.nodes + nodes ≤ room }
    ensures made { Makes room (chained (resolved_data head.tree.value) (map link_data links.items)) result }
    ensures not_deep { IsErrOf result Refusal.Deep → ⊥ }
{
    let all = head.nodes + nodes;
    let tree = chain(alloc, head.tree, links)?;
    Ok(Counted { tree, nodes: all })
}

/// Adds an operator where it stands, with another second operand, and gives the room that is left. `Large`: there is less.
#[inline(never)]
pub fn add_link(
    all: &mut Vec<Link>,
    room: usize,
    brought: &Option<Spot>,
    link: &Link,
    second: Counted,
) -> Result<usize, Refusal>
    ensures added { OnOk result (map link_data all.new.items ≡ map link_data all.old.items ++ placed_link_lem brought.now (link_data link.now) (resolved_data second.tree.value) ∷ []) }
    ensures left { MatchResult result (λ left. left + (1 + second.nodes) ≡ room) (λ halt. halt ≡ Refusal.Large → room < 1 + second.nodes) }
    ensures not_deep { IsErrOf result Refusal.Deep → ⊥ }
{
    let left = left_of(room, second.nodes)?;
    all.push(placed_link(*brought, link, Box::into_inner(second.tree)))?;
    Ok(left)
}

/// Adds an operand.
#[inline(never)]
pub fn add_tree(all: &mut Vec<Resolved>, operand: Counted) -> Result<(), AllocError>
    ensures { OnOk result (map resolved_data all.new.items ≡ map resolved_data all.old.items ++ resolved_data operand.tree.value ∷ []) }
{
    all.push(Box::into_inner(operand.tree))?;
    Ok(())
}

/// Gives up a chain. It is a function of its own since a drop takes stack, which callers would take on each level.
#[inline(never)]
pub fn stop_chain(_head: Counted, _links: Vec<Link>, halt: Refusal) -> Result<Counted, Refusal>
    ensures { IsErrAnd result (λ y. y ≡ halt) }
{
    Err(halt)
}

/// Gives up a quantifier, likewise.
#[inline(never)]
pub fn stop_quantifier(
    _low: Counted,
    _high: Counted,
    _copies: Vec<Resolved>,
    halt: Refusal,
) -> Result<Counted, Refusal>
    ensures { IsErrAnd result (λ y. y ≡ halt) }
{
    Err(halt)
}

/// Gives up operands, likewise.
#[inline(never)]
pub fn stop_operands(_operands: Vec<Resolved>, halt: Refusal) -> Result<Counted, Refusal>
    ensures { IsErrAnd result (λ y. y ≡ halt) }
{
    Err(halt)
}
