//! Which expressions have a quantifier.

ghost use Rattle.std.specs.Prelude.{◌≡◌, map};
ghost use Rattle.spectra_resolved.specs.Chained.{chained, trees};
ghost use Rattle.spectra_resolved.specs.Views.{resolved_data, link_data, form_data};
ghost use Rattle.spectra_copies.specs.Copies.{has_quantifier as has_quantifier_lem, form_quantified, some_quantified as some_quantified_lem};
ghost use Rattle.spectra_copies.specs.QuantifiedLinks.{links_quantified};

use spectra_resolved::tree::{Link, Resolved, Shape};

/// Whether a quantifier stands in an expression.
#[cycle(quantifying)]
pub fn has_quantifier(t: &Resolved) -> bool
    ensures { result ≡ has_quantifier_lem (resolved_data t.now) }
{
    match t {
        Resolved::Chain(head, links) => chain_has(head, links),
        Resolved::Node(_, _, shape) => shape_has(shape),
    }
}

// In an expression with operators behind it.
#[cycle(quantifying)]
fn chain_has(head: &Resolved, links: &[Link]) -> bool
    ensures { result ≡ has_quantifier_lem (chained (resolved_data head.now) (map link_data links.now)) }
{
    has_quantifier(head) || links_have(links)
}

// In the second operands of operators.
#[cycle(quantifying)]
fn links_have(links: &[Link]) -> bool
    ensures { result ≡ links_quantified (map link_data links.now) }
{
    for link in links {
        if has_quantifier(&link.second) {
            return true;
        }
    }
    false
}

// In one of several expressions.
#[cycle(quantifying)]
fn some_has(ts: &[Resolved]) -> bool
    ensures { result ≡ some_quantified_lem (trees (map resolved_data ts.now)) }
{
    for t in ts {
        if has_quantifier(t) {
            return true;
        }
    }
    false
}

// In what stands at a place.
#[cycle(quantifying)]
fn shape_has(shape: &Shape) -> bool
    ensures { result ≡ form_quantified (form_data shape.now) }
{
    match shape {
        Shape::Leaf(_) => false,
        Shape::Predicate(_, ts) => some_has(ts),
        Shape::Misuse(_, ts) => some_has(ts),
        Shape::Next(t) => has_quantifier(t),
        Shape::Prefix(_, t) => has_quantifier(t),
        Shape::Mod(t, _, _) => has_quantifier(t),
        Shape::And(ts, _) => some_has(ts),
        Shape::Or(ts, _) => some_has(ts),
        Shape::Index(_, _, t) => has_quantifier(t),
        Shape::Quantified(_, _, _, _, _, _) => true,
    }
}
