//! Which definitions only use another one, and what stands at the end of a chain of such.

ghost use Rattle.std.specs.Prelude.{◌≡◌, ℕ, true, Some, None, get_or, map, slice_set, IfOk, IfSome};
ghost use Rattle.spectra_resolved.specs.Resolved.{Form};
ghost use Rattle.spectra_resolved.specs.Chained.{trees};
ghost use Rattle.spectra_resolved.specs.Views.{resolved_data, form_data};
ghost use Rattle.spectra_elaboration.specs.Putting.{Bodies};
ghost use Rattle.spectra_elaboration.specs.PuttingViews.{bodies_data};
ghost use Rattle.spectra_elaboration.specs.Handing.{is_parameter as is_parameter_lem, form_is_parameter, are_parameters as are_parameters_lem, leaf_next, form_next, tree_next, IsLast, AreLast};

use crate::last::Last;
use crate::parts::body_of;
use spectra_resolved::tree::{Hole, Leaf, Resolved, Shape};
use std::alloc::{AllocError, Global};

/// What a table says of a definition.
pub fn last_at(lasts: &[Option<Last>], number: usize) -> Option<Last>
    ensures { result ≡ get_or lasts.now number None }
{
    match lasts.get(number) {
        Some(found) => *found,
        None => None,
    }
}

// Whether what stands at a place is that parameter.
fn shape_is_parameter(shape: &Shape, place: usize) -> bool
    ensures { result ≡ true → form_is_parameter place (form_data shape.now) ≡ true }
{
    match shape {
        Shape::Leaf(Leaf::Parameter(k)) => *k == place,
        _ => false,
    }
}

// Whether an expression is that parameter.
fn is_parameter(t: &Resolved, place: usize) -> bool
    ensures { result ≡ true → is_parameter_lem place (resolved_data t.now) ≡ true }
{
    match t {
        Resolved::Chain(_, _) => false,
        Resolved::Node(_, _, shape) => shape_is_parameter(shape, place),
    }
}

// Whether expressions are parameters in order, from the first one on.
fn are_parameters(ts: &[Resolved]) -> bool
    ensures { result ≡ true → are_parameters_lem 0 (trees (map resolved_data ts.now)) ≡ true }
{
    for place in 0..ts.len() {
        if !is_parameter(&ts[place], place) {
            return false;
        }
    }
    true
}

// The use of a predicate: with the parameters in order it is that of the next one.
fn next_predicate(number: usize, ts: &[Resolved]) -> Option<Last>
    ensures { IfSome result (λ next. form_next (Form.PredicateOf number (trees (map resolved_data ts.now))) ≡ Some next) }
{
    if !are_parameters(ts) {
        return None;
    }
    Some(Last {
        number,
        hole: Hole::Truth,
        count: ts.len(),
        deep: 1,
    })
}

// A part without parts: the use of a define is that of the next one.
fn next_define(leaf: Leaf) -> Option<Last>
    ensures { result ≡ leaf_next leaf }
{
    match leaf {
        Leaf::Define(number) => Some(Last {
            number,
            hole: Hole::Anything,
            count: 0,
            deep: 1,
        }),
        Leaf::Parameter(_)
        | Leaf::Truth(_)
        | Leaf::Number(_)
        | Leaf::EnumName(_)
        | Leaf::Variable(_)
        | Leaf::Own(_)
        | Leaf::Bound(_)
        | Leaf::Hole(_) => None,
    }
}

// What stands at a place.
fn next_at_node(shape: &Shape) -> Option<Last>
    ensures { IfSome result (λ next. form_next (form_data shape.now) ≡ Some next) }
{
    match shape {
        Shape::Leaf(leaf) => next_define(*leaf),
        Shape::Predicate(number, ts) => next_predicate(*number, ts),
        Shape::Misuse(_, _) => None,
        Shape::Next(_) => None,
        Shape::Prefix(_, _) => None,
        Shape::Mod(_, _, _) => None,
        Shape::And(_, _) => None,
        Shape::Or(_, _) => None,
        Shape::Index(_, _, _) => None,
        Shape::Quantified(_, _, _, _, _, _) => None,
    }
}

// The definition that a body uses, where it does nothing else.
fn next_of(body: &Resolved) -> Option<Last>
    ensures { IfSome result (λ next. tree_next (resolved_data body.now) ≡ Some next) }
{
    match body {
        Resolved::Chain(_, _) => None,
        Resolved::Node(_, _, shape) => next_at_node(shape),
    }
}

// The next one of the chain that a definition begins.
fn next_at(bodies: &[Option<Resolved>], number: usize) -> Option<Last>
    ensures { IfSome result (λ next. IsLast (bodies_data bodies.now) number next) }
{
    match body_of(bodies, number) {
        Some(body) => next_of(body),
        None => None,
    }
}

// The last one of a chain, by the next one and the last one of that.
fn join(next: Last, last: Last) -> Last
    ensures { (b : Bodies) (k : ℕ) → IsLast b k next → IsLast b next.number last → IsLast b k result }
{
    if last.count != next.count || last.deep > usize::MAX - next.deep {
        return next;
    }
    Last {
        number: last.number,
        hole: last.hole,
        count: last.count,
        deep: next.deep + last.deep,
    }
}

// The last one of a chain, by the next one and what is known of that.
fn behind(lasts: &[Option<Last>], next: Last) -> Last
    ensures { (b : Bodies) (k : ℕ) → AreLast b lasts.now → IsLast b k next → IsLast b k result }
{
    match last_at(lasts, next.number) {
        Some(last) => join(next, last),
        None => next,
    }
}

// The last one of the chain that a definition begins, by what is known of the others.
fn last_of(bodies: &[Option<Resolved>], lasts: &[Option<Last>], number: usize) -> Option<Last>
    requires { AreLast (bodies_data bodies.now) lasts.now }
    ensures { IfSome result (λ last. IsLast (bodies_data bodies.now) number last) }
{
    match next_at(bodies, number) {
        Some(next) => Some(behind(lasts, next)),
        None => None,
    }
}

// Notes the last one of the chain that a definition begins.
fn note(lasts: &mut Vec<Option<Last>>, number: usize, found: Option<Last>)
    ensures { lasts.new.items ≡ slice_set lasts.old.items number found }
{
    if let Some(entry) = lasts.get_mut(number) {
        *entry = found;
    }
}

// Looks for the last one of the chain that a definition begins.
fn look_up(bodies: &[Option<Resolved>], lasts: &mut Vec<Option<Last>>, number: usize)
    requires { AreLast (bodies_data bodies.now) lasts.old.items }
    ensures { AreLast (bodies_data bodies.now) lasts.new.items }
{
    if let Some(found) = last_of(bodies, lasts, number) {
        note(lasts, number, Some(found));
    }
}

// Nothing is known of so many definitions yet.
fn nothing_known(
    alloc: Global,
    bodies: &[Option<Resolved>],
) -> Result<Vec<Option<Last>>, AllocError>
    ensures { IfOk result (λ lasts. AreLast (bodies_data bodies.now) lasts.items) }
{
    let mut lasts = Vec::new(alloc);
    lasts.resize(bodies.len(), None)?;
    Ok(lasts)
}

/// The last ones of the chains that definitions begin, looked up in this order. The error is that memory is short.
pub fn lasts_in_order(
    alloc: Global,
    bodies: &[Option<Resolved>],
    order: &[usize],
) -> Result<Vec<Option<Last>>, AllocError>
    ensures { IfOk result (λ lasts. AreLast (bodies_data bodies.now) lasts.items) }
{
    let mut lasts = nothing_known(alloc, bodies)?;
    for number in order {
        look_up(bodies, &mut lasts, *number);
    }
    Ok(lasts)
}
