//! Holes for faulty arguments.

ghost use Rattle.std.specs.Prelude.{◌≡◌, ℕ, map, drop, Some, IfOk};
ghost use Rattle.spectra_resolved.specs.Chained.{trees};
ghost use Rattle.spectra_resolved.specs.Views.{resolved_data, link_data, form_data};
ghost use Rattle.spectra_judge.specs.KindViews.{kind_data, known_data, setting_data};
ghost use Rattle.spectra_judge.specs.Known.{wanted};
ghost use Rattle.spectra_holes.specs.Holed.{own_bans as own_bans_lem, is_anything as is_anything_lem, is_lost as is_lost_lem, hole_for as hole_for_lem, part_holed, form_holed, each_holed, arguments_holed, holed as holed_lem};
ghost use Rattle.spectra_holes.specs.HoleViews.{argument_holed, links_holed};
ghost use Rattle.spectra_judge.specs.OpenedViews.{opened_at};
ghost use Rattle.spectra_judge.specs.Chains.{opened as opened_lem};

use spectra_judge::around::{Around, in_bound, nothing_open, under_next, within};
use spectra_judge::chains::{Opened, first_of, opened_in};
use spectra_judge::kind::{Kind, can_equal};
use spectra_judge::known::{Known, Setting};
use spectra_judge::operators::is_past_prefix;
use spectra_judge::standing::{Bans, bans_of};
use spectra_judge::walking::walk;
use spectra_resolved::findings::Findings;
use spectra_resolved::spot::{Mark, Spot, in_text};
use spectra_resolved::stand::Stand;
use spectra_resolved::tree::{Hole, Leaf, Link, Resolved, Shape};
use std::alloc::{AllocError, Global};

// By what holes are made.
#[derive(Clone, Copy)]
struct Holing<'s, 'a> {
    alloc: Global,
    setting: Setting<'s, 'a>,
}

// What may not stand in an argument, but for what a `next` around it is blamed for.
fn own_bans(next: Option<Mark>, bans: Bans) -> Bans
    ensures { result ≡ own_bans_lem next bans }
{
    match next {
        Some(_) => Bans {
            shifted_system: false,
            shifted_parameter: false,
            ..bans
        },
        None => bans,
    }
}

// Whether a type has no meaning.
fn is_anything(kind: Kind<'_>) -> bool
    ensures { result ≡ is_anything_lem (kind_data kind.entry) }
{
    match kind {
        Kind::Anything => true,
        Kind::Truth | Kind::Whole(_, _) | Kind::SomeWhole | Kind::NameOf(_) | Kind::OneName(_) =>
            false,
    }
}

// Whether nothing is left of an argument for a parameter of a kind.
#[tactic(auto, using(crate::proofs::Holes::some_found))]
fn is_lost(setting: &Setting<'_, '_>, around: Around, parameter: Kind<'_>, t: &Resolved) -> bool
    ensures { result ≡ is_lost_lem (setting_data setting.now) around (kind_data parameter.entry) (resolved_data t.now) }
{
    let own = Setting {
        known: setting.known,
        bans: own_bans(around.next, setting.bans),
    };
    let mut findings = Findings::new();
    let kind = walk(&mut findings, &own, around, t);
    let is_faulty = findings.first().is_some();
    is_anything(parameter) || !can_equal(parameter, kind) || is_faulty
}

// A hole at the first token of what stood there.
fn hole_for(t: &Resolved) -> Resolved
    ensures { resolved_data result ≡ hole_for_lem (resolved_data t.now) }
{
    let at = first_of(t);
    Resolved::Node(at, in_text(at), Shape::Leaf(Leaf::Hole(Hole::Anything)))
}

/// Places that are the same.
pub fn copy_spots(alloc: Global, places: &[Spot]) -> Result<Vec<Spot>, AllocError>
    ensures { IfOk result (λ copies. copies.items ≡ places.now) }
{
    let mut copies = Vec::new(alloc);
    for at in places {
        copies.push(*at)?;
    }
    Ok(copies)
}

#[cycle(holing)]
fn hole_part(holing: &Holing<'_, '_>, around: Around, t: &Resolved) -> Result<Resolved, AllocError>
    ensures { IfOk result (λ made. resolved_data made ≡ part_holed (setting_data holing.now.setting) around (resolved_data t.now)) }
{
    match t {
        Resolved::Chain(head, links) => {
            let opened = opened_in(links);
            let own = hole_boxed(holing, opened.at(around, 0), head)?;
            let made = hole_links(holing, around, opened, links)?;
            Ok(Resolved::Chain(own, made))
        }
        Resolved::Node(first, at, shape) => {
            Ok(Resolved::Node(*first, *at, hole_shape(holing, around, *at, shape)?))
        }
    }
}

// Operators with their second operands. `opened` says what is open in the operands of each.
#[cycle(holing)]
fn hole_links(
    holing: &Holing<'_, '_>,
    around: Around,
    opened: Opened,
    links: &[Link],
) -> Result<Vec<Link>, AllocError>
    requires opened { (place : ℕ) → opened_lem around (map link_data (drop place links.now)) ≡ opened_at opened around place }
    ensures { IfOk result (λ made. map link_data made.items ≡ links_holed (setting_data holing.now.setting) around (map link_data links.now)) }
{
    let mut made = Vec::new(holing.alloc);
    for link in links {
        let inner = opened.at(around, made.len());
        made.push(Link {
            first: link.first,
            at: link.at,
            word: link.word,
            second: hole_part(holing, inner, &link.second)?,
        })?;
    }
    Ok(made)
}

// A node that stands at a place.
#[cycle(holing)]
fn hole_shape(
    holing: &Holing<'_, '_>,
    around: Around,
    at: Mark,
    shape: &Shape,
) -> Result<Shape, AllocError>
    ensures { IfOk result (λ made. form_data made ≡ form_holed (setting_data holing.now.setting) around at (form_data shape.now)) }
{
    match shape {
        Shape::Leaf(leaf) => Ok(Shape::Leaf(*leaf)),
        Shape::Predicate(number, ts) => {
            Ok(Shape::Predicate(*number, hole_arguments(holing, around, *number, ts)?))
        }
        Shape::Misuse(misuse, _) => Ok(Shape::Misuse(*misuse, Vec::new(holing.alloc))),
        Shape::Next(t) => Ok(Shape::Next(hole_boxed(holing, under_next(at, around), t)?)),
        Shape::Prefix(word, t) => {
            let past = is_past_prefix(*word);
            let inner = within(past, at, around);
            Ok(Shape::Prefix(*word, hole_boxed(holing, inner, t)?))
        }
        Shape::Mod(t, number_at, n) => {
            Ok(Shape::Mod(hole_boxed(holing, around, t)?, *number_at, *n))
        }
        Shape::And(ts, operators) => {
            let operands = hole_each(holing, around, ts)?;
            Ok(Shape::And(operands, copy_spots(holing.alloc, operators)?))
        }
        Shape::Or(ts, operators) => {
            let operands = hole_each(holing, around, ts)?;
            Ok(Shape::Or(operands, copy_spots(holing.alloc, operators)?))
        }
        Shape::Index(array, count, t) => {
            Ok(Shape::Index(*array, *count, hole_boxed(holing, around, t)?))
        }
        Shape::Quantified(word, variable, extent, low, high, copies) => {
            let inner = in_bound(at, around);
            let low = hole_boxed(holing, inner, low)?;
            let high = hole_boxed(holing, inner, high)?;
            let copies = hole_each(holing, around, copies)?;
            Ok(Shape::Quantified(*word, *variable, *extent, low, high, copies))
        }
    }
}

#[cycle(holing)]
fn hole_boxed(
    holing: &Holing<'_, '_>,
    around: Around,
    t: &Resolved,
) -> Result<Box<Resolved>, AllocError>
    ensures { IfOk result (λ made. resolved_data made.value ≡ part_holed (setting_data holing.now.setting) around (resolved_data t.now)) }
{
    Ok(Box::new(holing.alloc, hole_part(holing, around, t)?)?)
}

#[cycle(holing)]
fn hole_each(
    holing: &Holing<'_, '_>,
    around: Around,
    ts: &[Resolved],
) -> Result<Vec<Resolved>, AllocError>
    ensures { IfOk result (λ made. trees (map resolved_data made.items) ≡ each_holed (setting_data holing.now.setting) around (trees (map resolved_data ts.now))) }
{
    let mut made = Vec::new(holing.alloc);
    for t in ts {
        made.push(hole_part(holing, around, t)?)?;
    }
    Ok(made)
}

// The arguments of a predicate.
#[cycle(holing)]
fn hole_arguments(
    holing: &Holing<'_, '_>,
    around: Around,
    predicate: usize,
    ts: &[Resolved],
) -> Result<Vec<Resolved>, AllocError>
    ensures { IfOk result (λ made. trees (map resolved_data made.items) ≡ arguments_holed (setting_data holing.now.setting) around (wanted (setting_data holing.now.setting).known (Some predicate)) (trees (map resolved_data ts.now))) }
{
    let mut made = Vec::new(holing.alloc);
    for t in ts {
        let parameter = holing.setting.known.wanted(Some(predicate), made.len());
        made.push(hole_argument(holing, around, parameter, t)?)?;
    }
    Ok(made)
}

// An argument for a parameter of a kind.
#[cycle(holing)]
fn hole_argument(
    holing: &Holing<'_, '_>,
    around: Around,
    parameter: Kind<'_>,
    t: &Resolved,
) -> Result<Resolved, AllocError>
    ensures { IfOk result (λ made. resolved_data made ≡ argument_holed (setting_data holing.now.setting) around (kind_data parameter.entry) (resolved_data t.now)) }
{
    if is_lost(&holing.setting, around, parameter, t) {
        Ok(hole_for(t))
    } else {
        hole_part(holing, around, t)
    }
}

/// An expression as it is written and stands somewhere, with a hole for each argument of a predicate of which nothing is left:
/// one that is faulty, that misfits its parameter, or whose parameter has a type without meaning. The error is that memory is
/// short.
pub fn holed(
    alloc: Global,
    known: &Known<'_, '_>,
    stand: Stand,
    t: &Resolved,
) -> Result<Resolved, AllocError>
    ensures { IfOk result (λ made. resolved_data made ≡ holed_lem (known_data known.now) stand (resolved_data t.now)) }
{
    let holing = Holing {
        alloc,
        setting: Setting {
            known: *known,
            bans: bans_of(stand),
        },
    };
    hole_part(&holing, nothing_open(), t)
}
