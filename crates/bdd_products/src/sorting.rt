//! Members in the order of the levels at which they begin.

ghost use Rattle.std.specs.Prelude.{◌≡◌, ◌<◌, length, reverse, IfOk, Err, IsPermutation};
ghost use Rattle.std.specs.List.{All};
ghost use Rattle.bdd_store.specs.State.{IsRoot};
ghost use Rattle.bdd_sets.specs.Members.{AreRoots, all_true, functions_at};
ghost use Rattle.bdd_sets.specs.Lists.{MakesList};
ghost use Rattle.bdd_products.specs.Products.{MakesLines, members_in};

use bdd_bits::{Diagrams, Root};
use bdd_sets::lists::push_made;
use bit_compile::steps::keep;
use regions::Halt;
use std::alloc::Global;

/// Which members come first: those that begin deepest or those that begin at the top, equals in their order; or those that
/// begin deepest, the last of equals first.
#[derive(Clone, Copy)]
pub enum First {
    Deepest,
    Topmost,
    LastOfDeepest,
}

/// The level at which a member begins to read, and one behind all levels for a constant.
fn begin_of(diagrams: &Diagrams, member: &Root) -> usize
    requires { IsRoot diagrams.now.state member.now }
{
    match diagrams.first_level(member) {
        Some(level) => level as usize,
        None => usize::MAX,
    }
}

/// The place of each member, with a number by which it is put in order; equals are in their order.
fn places_of(
    diagrams: &Diagrams,
    alloc: Global,
    members: &[Root],
    first: First,
) -> Result<Vec<(usize, usize)>, Halt>
    requires { AreRoots diagrams.now members.now }
    ensures places { IfOk result (λ places. IsPermutation members.now (members_in members.now places.items)) }
    ensures within { IfOk result (λ places. All (λ p. p.1 < length members.now) places.items) }
    ensures memory { result ≡ Err Halt.Budget → ⊥ }
{
    let mut places = Vec::new(alloc);
    for place in 0..members.len() {
        let begin = begin_of(diagrams, &members[place]);
        let number = match first {
            First::Deepest => usize::MAX - begin,
            First::Topmost | First::LastOfDeepest => begin,
        };
        if places.push((number, place)).is_err() {
            return Err(Halt::Memory);
        }
    }
    if places.sort().is_err() {
        return Err(Halt::Memory);
    }
    Ok(places)
}

/// The last first.
fn turned(mut places: Vec<(usize, usize)>) -> Vec<(usize, usize)>
    ensures { result.items ≡ reverse places.items }
{
    places.reverse();
    places
}

/// The place of each member, in the order in which they come.
fn order_of(
    diagrams: &Diagrams,
    alloc: Global,
    members: &[Root],
    first: First,
) -> Result<Vec<(usize, usize)>, Halt>
    requires { AreRoots diagrams.now members.now }
    ensures places { IfOk result (λ places. IsPermutation members.now (members_in members.now places.items)) }
    ensures within { IfOk result (λ places. All (λ p. p.1 < length members.now) places.items) }
    ensures memory { result ≡ Err Halt.Budget → ⊥ }
{
    let places = places_of(diagrams, alloc, members, first)?;
    match first {
        First::LastOfDeepest => Ok(turned(places)),
        First::Deepest | First::Topmost => Ok(places),
    }
}

/// A second root of each member, in the order of these places.
fn picked(
    diagrams: &mut Diagrams,
    alloc: Global,
    members: &[Root],
    places: &[(usize, usize)],
) -> Result<Vec<Root>, Halt>
    requires members { AreRoots diagrams.old members.now }
    requires places { All (λ p. p.1 < length members.now) places.now }
    ensures { MakesList diagrams.old diagrams.new result (functions_at diagrams.old (members_in members.now places.now)) }
{
    let mut list = Vec::new(alloc);
    for &(_, place) in places {
        let again = keep(diagrams, &members[place]);
        list = push_made(diagrams, list, again)?;
    }
    Ok(list)
}

/// A second root of each member, in the order of the levels at which they begin.
pub fn sorted(
    diagrams: &mut Diagrams,
    alloc: Global,
    members: &[Root],
    first: First,
) -> Result<Vec<Root>, Halt>
    requires { AreRoots diagrams.old members.now }
    ensures { MakesLines diagrams.old diagrams.new result (all_true (functions_at diagrams.old members.now)) }
{
    let places = order_of(diagrams, alloc, members, first)?;
    picked(diagrams, alloc, members, &places)
}
