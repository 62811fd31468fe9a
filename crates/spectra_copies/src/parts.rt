//! The parts of trees, and their places.

ghost use Rattle.std.specs.Prelude.{◌≡◌, option_map, map, IfOk};
ghost use Rattle.spectra_resolved.specs.Chained.{chained, trees};
ghost use Rattle.spectra_resolved.specs.Views.{resolved_data, link_data, form_data};
ghost use Rattle.spectra_resolved.specs.Resolved.{Form};
ghost use Rattle.spectra_copies.specs.PartViews.{quantifier_data};
ghost use Rattle.spectra_copies.specs.Places.{placed as placed_lem, marked as marked_lem};
ghost use Rattle.spectra_copies.specs.Operands.{one_of as one_of_lem, several_of as several_of_lem};
ghost use Rattle.spectra_copies.specs.Links.{placed_link as placed_link_lem};

use spectra_resolved::spot::{Mark, Spot, brought_at};
use spectra_resolved::tree::{Extent, Link, QuantifierWord, Resolved, Shape};
use std::alloc::{AllocError, Global};

/// A quantifier: its variable, what is known of its range, its bounds and its copies.
#[derive(Clone, Copy)]
pub struct Quantifier<'s> {
    pub word: QuantifierWord,
    pub variable: Spot,
    pub extent: Extent,
    pub low: &'s Resolved,
    pub high: &'s Resolved,
    pub copies: &'s [Resolved],
}

/// A quantifier of these parts.
pub fn quantifier_of<'s>(
    word: QuantifierWord,
    variable: Spot,
    extent: Extent,
    low: &'s Resolved,
    high: &'s Resolved,
    copies: &'s [Resolved],
) -> Quantifier<'s>
    ensures whole { quantifier_data result ≡ Form.Quantified word variable extent (resolved_data low.now) (resolved_data high.now) (trees (map resolved_data copies.now)) }
    ensures parts { (result.low.now ≡ low.now) × ((result.high.now ≡ high.now) × (result.copies.now ≡ copies.now)) }
{
    Quantifier {
        word,
        variable,
        extent,
        low,
        high,
        copies,
    }
}

/// Where a part stands of a line, or of a body that a name in the line brings.
pub fn placed(brought: Option<Spot>, at: Spot) -> Spot
    ensures { result ≡ placed_lem brought at }
{
    match brought {
        Some(name) => name,
        None => at,
    }
}

/// The same of a part with its mark, which says then that a body brings it.
pub fn marked(brought: Option<Spot>, at: Mark) -> Mark
    ensures { result ≡ marked_lem brought at }
{
    match brought {
        Some(name) => brought_at(name),
        None => at,
    }
}

/// Where several parts stand.
pub fn placed_each(
    alloc: Global,
    brought: Option<Spot>,
    places: &[Spot],
) -> Result<Vec<Spot>, AllocError>
    ensures { IfOk result (λ made. made.items ≡ map (placed_lem brought) places.now) }
{
    let mut made = Vec::new(alloc);
    for at in places {
        made.push(placed(brought, *at))?;
    }
    Ok(made)
}

/// An operator where it stands, with another second operand.
pub fn placed_link(brought: Option<Spot>, link: &Link, second: Resolved) -> Link
    ensures { link_data result ≡ placed_link_lem brought (link_data link.now) (resolved_data second) }
{
    Link {
        first: placed(brought, link.first),
        at: marked(brought, link.at),
        word: link.word,
        second,
    }
}

#[tactic(auto, using(spectra_resolved::proofs::Trees::chain_data))]
/// A tree with operators behind it.
pub fn chain(
    alloc: Global,
    head: Box<Resolved>,
    links: Vec<Link>,
) -> Result<Box<Resolved>, AllocError>
    ensures { IfOk result (λ t. resolved_data t.value ≡ chained (resolved_data head.value) (map link_data links.items)) }
{
    Ok(Box::new(alloc, Resolved::Chain(head, links))?)
}

/// The one operand of an operator that has no others.
pub fn one_of<'s>(shape: &'s Shape) -> Option<&'s Resolved>
    ensures { option_map (λ t. resolved_data t.now) result ≡ one_of_lem (form_data shape.now) }
{
    match shape {
        Shape::Leaf(_) => None,
        Shape::Predicate(_, _) => None,
        Shape::Misuse(_, _) => None,
        Shape::Next(t) => Some(t),
        Shape::Prefix(_, t) => Some(t),
        Shape::Mod(t, _, _) => Some(t),
        Shape::And(_, _) => None,
        Shape::Or(_, _) => None,
        Shape::Index(_, _, t) => Some(t),
        Shape::Quantified(_, _, _, _, _, _) => None,
    }
}

/// The operands of an operator that has a list of them.
pub fn several_of<'s>(shape: &'s Shape) -> &'s [Resolved]
    ensures { trees (map resolved_data result.now) ≡ several_of_lem (form_data shape.now) }
{
    match shape {
        Shape::Leaf(_) => &[],
        Shape::Predicate(_, _) => &[],
        Shape::Misuse(_, _) => &[],
        Shape::Next(_) => &[],
        Shape::Prefix(_, _) => &[],
        Shape::Mod(_, _, _) => &[],
        Shape::And(ts, _) => ts,
        Shape::Or(ts, _) => ts,
        Shape::Index(_, _, _) => &[],
        Shape::Quantified(_, _, _, _, _, _) => &[],
    }
}
