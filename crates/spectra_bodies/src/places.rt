//! Whether an expression stands behind a place.

ghost use Rattle.std.specs.Prelude.{◌≡◌, ◌&&◌, map};
ghost use Rattle.std.specs.List.{list_all};
ghost use Rattle.spectra_resolved.specs.Chained.{chained, trees};
ghost use Rattle.spectra_resolved.specs.Reports.{found_in};
ghost use Rattle.spectra_resolved.specs.Views.{resolved_data, link_data, form_data};
ghost use Rattle.spectra_judge.specs.Around.{comes_before as comes_before_lem};
ghost use Rattle.spectra_bodies.specs.Places.{all_places, form_places, each_places, link_places, is_behind as is_behind_lem};

use spectra_judge::around::comes_before;
use spectra_resolved::findings::Findings;
use spectra_resolved::spot::Spot;
use spectra_resolved::tree::{Link, Resolved, Shape};

// Whether all places of an expression stand behind one.
#[cycle(placing)]
fn stands_behind(at: Spot, t: &Resolved) -> bool
    ensures { result ≡ all_places (comes_before_lem at) (resolved_data t.now) }
{
    match t {
        Resolved::Chain(head, links) => chain_behind(at, head, links),
        Resolved::Node(first, mark, shape) => {
            both_behind(at, *first, mark.spot) && shape_behind(at, shape)
        }
    }
}

// Whether two places stand behind one.
fn both_behind(at: Spot, first: Spot, second: Spot) -> bool
    ensures { result ≡ (comes_before_lem at first && comes_before_lem at second) }
{
    comes_before(at, first) && comes_before(at, second)
}

#[tactic(auto, using(crate::proofs::Chained::chained_places))]
// So it is with those of an expression with operators behind it.
#[cycle(placing)]
fn chain_behind(at: Spot, head: &Resolved, links: &[Link]) -> bool
    ensures { result ≡ all_places (comes_before_lem at) (chained (resolved_data head.now) (map link_data links.now)) }
{
    stands_behind(at, head) && links_behind(at, links)
}

// So it is with operators and their second operands.
#[cycle(placing)]
fn links_behind(at: Spot, links: &[Link]) -> bool
    ensures { result ≡ list_all (link_places (comes_before_lem at)) (map link_data links.now) }
{
    for link in links {
        if !link_behind(at, link) {
            return false;
        }
    }
    true
}

// So it is with one of them.
#[cycle(placing)]
fn link_behind(at: Spot, link: &Link) -> bool
    ensures { result ≡ link_places (comes_before_lem at) (link_data link.now) }
{
    both_behind(at, link.first, link.at.spot) && stands_behind(at, &link.second)
}

// So it is with a node.
#[cycle(placing)]
fn shape_behind(at: Spot, shape: &Shape) -> bool
    ensures { result ≡ form_places (comes_before_lem at) (form_data shape.now) }
{
    match shape {
        Shape::Leaf(_) => true,
        Shape::Predicate(_, ts) => each_behind(at, ts),
        Shape::Misuse(_, ts) => each_behind(at, ts),
        Shape::Next(t) => stands_behind(at, t),
        Shape::Prefix(_, t) => stands_behind(at, t),
        Shape::Mod(t, number_at, _) => stands_behind(at, t) && comes_before(at, *number_at),
        Shape::And(ts, operators) => each_behind(at, ts) && all_behind(at, operators),
        Shape::Or(ts, operators) => each_behind(at, ts) && all_behind(at, operators),
        Shape::Index(_, _, t) => stands_behind(at, t),
        Shape::Quantified(_, _, _, low, high, copies) => bounded_behind(at, low, high, copies),
    }
}

// So it is with the bounds and the copies of a quantifier.
#[cycle(placing)]
fn bounded_behind(at: Spot, low: &Resolved, high: &Resolved, copies: &[Resolved]) -> bool
    ensures { result ≡ (all_places (comes_before_lem at) (resolved_data low.now) && (all_places (comes_before_lem at) (resolved_data high.now) && each_places (comes_before_lem at) (trees (map resolved_data copies.now)))) }
{
    stands_behind(at, low) && (stands_behind(at, high) && each_behind(at, copies))
}

// So it is with several expressions.
#[cycle(placing)]
fn each_behind(at: Spot, ts: &[Resolved]) -> bool
    ensures { result ≡ each_places (comes_before_lem at) (trees (map resolved_data ts.now)) }
{
    for t in ts {
        if !stands_behind(at, t) {
            return false;
        }
    }
    true
}

// Whether several places stand behind one.
fn all_behind(at: Spot, places: &[Spot]) -> bool
    ensures { result ≡ list_all (comes_before_lem at) places.now }
{
    for place in places {
        if !comes_before(at, *place) {
            return false;
        }
    }
    true
}

/// Whether a fault was found that stands before all of an expression: then none in it is the first one.
pub fn is_behind(findings: &Findings, t: &Resolved) -> bool
    ensures { result ≡ is_behind_lem (found_in findings.now) (resolved_data t.now) }
{
    match findings.first() {
        Some(first) => stands_behind(first.at, t),
        None => false,
    }
}
