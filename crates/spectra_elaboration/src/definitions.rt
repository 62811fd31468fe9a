//! What is put in for definitions.

ghost use Rattle.std.specs.Prelude.{◌≡◌, true, None, get_or, slice_set, IfOk, IfSome};
ghost use Rattle.spectra_elaboration.specs.Putting.{body_of as body_of_lem};
ghost use Rattle.spectra_elaboration.specs.PuttingViews.{bodies_data};
ghost use Rattle.spectra_elaboration.specs.Giving.{is_given, AreGiven};
ghost use Rattle.spectra_elaboration.specs.Handing.{AreLast};

use crate::given::Given;
use crate::giving::{given_at, given_of};
use crate::handing::lasts_in_order;
use crate::last::Last;
use crate::parts::body_of;
use spectra_resolved::tree::Resolved;
use std::alloc::{AllocError, Global};

/// What is put in for each definition of a text: its body, or nothing where it has no meaning; and what is known of those that
/// give back a parameter as it is, and of those that only use another one.
#[derive(Drop)]
pub struct Definitions {
    pub bodies: Vec<Option<Resolved>>,
    pub given: Vec<Option<Given>>,
    pub ghost right: { AreGiven (bodies_data bodies.items) given.items },
    pub lasts: Vec<Option<Last>>,
    pub ghost ends: { AreLast (bodies_data bodies.items) lasts.items },
}

// What a definition gives back of which nothing is known yet.
fn given_anew(bodies: &[Option<Resolved>], given: &[Option<Given>], number: usize) -> Option<Given>
    ensures empty { IfSome result (λ found. get_or given.now number None ≡ None) }
    ensures right { IfSome result (λ found. is_given given.now (body_of_lem (bodies_data bodies.now) number) found ≡ true) }
{
    match given_at(given, number) {
        Some(_) => None,
        None => match body_of(bodies, number) {
            Some(body) => given_of(given, body),
            None => None,
        },
    }
}

// Notes what a definition gives back.
fn note(given: &mut Vec<Option<Given>>, number: usize, found: Option<Given>)
    ensures { given.new.items ≡ slice_set given.old.items number found }
{
    if let Some(entry) = given.get_mut(number) {
        *entry = found;
    }
}

// Looks what a definition gives back, by what those give back that it uses.
fn look_up(bodies: &[Option<Resolved>], given: &mut Vec<Option<Given>>, number: usize)
    requires { AreGiven (bodies_data bodies.now) given.old.items }
    ensures { AreGiven (bodies_data bodies.now) given.new.items }
{
    if let Some(found) = given_anew(bodies, given, number) {
        note(given, number, Some(found));
    }
}

// Nothing is known of so many definitions.
fn nothing_given(
    alloc: Global,
    bodies: &[Option<Resolved>],
) -> Result<Vec<Option<Given>>, AllocError>
    ensures { IfOk result (λ given. AreGiven (bodies_data bodies.now) given.items) }
{
    let mut given = Vec::new(alloc);
    given.resize(bodies.len(), None)?;
    Ok(given)
}

// What is known of definitions, looked up in this order.
fn given_in_order(
    alloc: Global,
    bodies: &[Option<Resolved>],
    order: &[usize],
) -> Result<Vec<Option<Given>>, AllocError>
    ensures { IfOk result (λ given. AreGiven (bodies_data bodies.now) given.items) }
{
    let mut given = nothing_given(alloc, bodies)?;
    for number in order {
        look_up(bodies, &mut given, *number);
    }
    Ok(given)
}

/// Definitions with these bodies. Where each stands in `order` behind those that it uses, all is known of what they give back,
/// and of where the chains end that they begin.
/// The error is that memory is short.
pub fn definitions_of(
    alloc: Global,
    bodies: Vec<Option<Resolved>>,
    order: &[usize],
) -> Result<Definitions, AllocError>
    ensures { IfOk result (λ definitions. definitions.bodies.items ≡ bodies.items) }
{
    let given = given_in_order(alloc, &bodies, order)?;
    let lasts = lasts_in_order(alloc, &bodies, order)?;
    Ok(Definitions {
        bodies,
        given,
        lasts,
    })
}
