//! Which parameter a definition gives back as it is: what its uses come to is then that argument, and nothing else.

ghost use Rattle.std.specs.Prelude.{◌≡◌, ◌+◌, ℕ, true, List, Option, None, Some, get_or, map, IfSome};
ghost use Rattle.spectra_resolved.specs.Resolved.{Form};
ghost use Rattle.spectra_resolved.specs.Chained.{chained, trees};
ghost use Rattle.spectra_resolved.specs.Views.{resolved_data, link_data, form_data};
ghost use Rattle.spectra_elaboration.specs.declared.given.Given.{Given};
ghost use Rattle.spectra_elaboration.specs.Giving.{gives, form_gives, leaf_gives, is_given};
ghost use Rattle.spectra_elaboration.specs.Looking.{Looks};

use crate::given::Given;
use spectra_resolved::tree::{Leaf, Link, Resolved, Shape};

/// A step on the way to a parameter: it goes on with an expression, where bodies may have to stand so deep, or it has found the
/// parameter, or there is none.
#[derive(Clone, Copy)]
pub enum Look<'s> {
    On(&'s Resolved, usize),
    Found(usize),
    Nothing,
}

/// What a table says of a definition.
pub fn given_at(given: &[Option<Given>], number: usize) -> Option<Given>
    ensures { result ≡ get_or given.now number None }
{
    match given.get(number) {
        Some(found) => *found,
        None => None,
    }
}

// A part without parts.
fn look_at_leaf<'s>(leaf: Leaf) -> Look<'s>
    ensures { (gs : List (Option Given)) (need : ℕ) → Looks gs need (λ deep place. leaf_gives place leaf) result }
{
    match leaf {
        Leaf::Parameter(place) => Look::Found(place),
        Leaf::Define(_)
        | Leaf::Truth(_)
        | Leaf::Number(_)
        | Leaf::EnumName(_)
        | Leaf::Variable(_)
        | Leaf::Own(_)
        | Leaf::Bound(_)
        | Leaf::Hole(_) => Look::Nothing,
    }
}

// The use of a definition: on to the argument that it gives back.
fn look_at_use<'s>(
    given: &[Option<Given>],
    need: usize,
    number: usize,
    ts: &'s [Resolved],
) -> Look<'s>
    ensures { Looks given.now need (λ deep place. form_gives given.now deep place (Form.PredicateOf number (trees (map resolved_data ts.now)))) result }
{
    match given_at(given, number) {
        Some(found) => match ts.get(found.place) {
            Some(t) => Look::On(t, need.max(found.deep)),
            None => Look::Nothing,
        },
        None => Look::Nothing,
    }
}

// What stands at a place.
fn look_at_node<'s>(given: &[Option<Given>], need: usize, shape: &'s Shape) -> Look<'s>
    ensures { Looks given.now need (λ deep place. form_gives given.now deep place (form_data shape.now)) result }
{
    match shape {
        Shape::Leaf(leaf) => look_at_leaf(*leaf),
        Shape::Predicate(number, ts) => look_at_use(given, need, *number, ts),
        Shape::Misuse(_, _) => Look::Nothing,
        Shape::Next(_) => Look::Nothing,
        Shape::Prefix(_, _) => Look::Nothing,
        Shape::Mod(_, _, _) => Look::Nothing,
        Shape::And(_, _) => Look::Nothing,
        Shape::Or(_, _) => Look::Nothing,
        Shape::Index(_, _, _) => Look::Nothing,
        Shape::Quantified(_, _, _, _, _, _) => Look::Nothing,
    }
}

// Operators in a row, of which there may be none.
fn look_in_row<'s>(
    given: &[Option<Given>],
    need: usize,
    head: &'s Resolved,
    links: &'s [Link],
) -> Look<'s>
    ensures { Looks given.now need (λ deep place. gives given.now deep place (chained (resolved_data head.now) (map link_data links.now))) result }
{
    if links.is_empty() {
        return Look::On(head, need);
    }
    Look::Nothing
}

// One step.
fn one_look<'s>(given: &[Option<Given>], need: usize, t: &'s Resolved) -> Look<'s>
    ensures { Looks given.now need (λ deep place. gives given.now deep place (resolved_data t.now)) result }
{
    match t {
        Resolved::Chain(head, links) => look_in_row(given, need, head, links),
        Resolved::Node(_, _, shape) => look_at_node(given, need, shape),
    }
}

// A body comes to a parameter, where bodies may have to stand so deep in it.
fn found_in_body(place: usize, need: usize) -> Option<Given>
    ensures { IfSome result (λ found. (found.place ≡ place) × (found.deep ≡ need + 1)) }
{
    if need == usize::MAX {
        return None;
    }
    Some(Given {
        place,
        deep: need + 1,
    })
}

/// The parameter that a body comes to, by what is known of the definitions that it uses.
pub fn given_of(given: &[Option<Given>], body: &Resolved) -> Option<Given>
    ensures { IfSome result (λ found. is_given given.now (Some (resolved_data body.now)) found ≡ true) }
{
    let mut here = body;
    let mut need = 0;
    for _ in 0..u64::MAX {
        match one_look(given, need, here) {
            Look::On(next, deep) => {
                here = next;
                need = deep;
            }
            Look::Found(place) => return found_in_body(place, need),
            Look::Nothing => return None,
        }
    }
    None
}
