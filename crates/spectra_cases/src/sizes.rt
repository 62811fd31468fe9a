//! How large the formula of an expression is, found without making it.
//!
//! The case of an index stands around the comparison that it is in, so a part of a comparison has a size of its own, and a
//! wrap: what becomes of the size of the comparison around it. Every number is held at the greatest one of 64 bits.

ghost use Rattle.std.specs.Prelude.{◌≡◌, ℕ, false, ◌&&◌, nat_le, map, IfOk};
ghost use Rattle.spectra_resolved.specs.Resolved.{Form};
ghost use Rattle.spectra_resolved.specs.Chained.{chained, trees};
ghost use Rattle.spectra_resolved.specs.Views.{resolved_data, link_data, form_data};
ghost use Rattle.spectra_judge.specs.KindViews.{known_data};
ghost use Rattle.spectra_cases.specs.Formulas.{formula_of};
ghost use Rattle.spectra_cases.specs.Sizes.{size_of as size_of_lem, one as one_lem, above as above_lem, joined as joined_lem, together as together_lem, no_wrap as no_wrap_lem, around as around_lem, choice_wrap as choice_wrap_lem, closed as closed_lem, whole as whole_lem, equation_size as equation_size_lem, link_side as link_side_lem, above_side, measured, form_measured, each_measured};
ghost use Rattle.spectra_cases.specs.SizeViews.{size_data, wrap_data, side_data};

use crate::readings::{Reading, is_comparing, reading_at};
use spectra_copies::rows::{before_row, is_row_word};
use spectra_judge::known::Known;
use spectra_resolved::tree::{Link, Resolved, Shape};
use spectra_trees::tree::BinaryWord;
use std::alloc::AllocError;

/// The nodes and the levels of a formula.
#[derive(Clone, Copy)]
pub struct Size {
    pub nodes: u64,
    pub levels: u64,
}

/// What cases around a comparison make of its size: so many times its nodes and some more, and its levels with some above, or
/// those of the cases where these are more.
#[derive(Clone, Copy)]
pub struct Wrap {
    pub times: u64,
    pub more: u64,
    pub above: u64,
    pub least: u64,
}

/// A part of a comparison: its own size, and what its indexes make of that of the comparison.
#[derive(Clone, Copy)]
pub struct Side {
    pub own: Size,
    pub wrap: Wrap,
}

// One node.
fn one() -> Size
    ensures { size_data result ≡ one_lem }
{
    Size {
        nodes: 1,
        levels: 1,
    }
}

// A node above another one.
fn above(size: Size) -> Size
    ensures { size_data result ≡ above_lem (size_data size) }
{
    Size {
        nodes: size.nodes.saturating_add(1),
        levels: size.levels.saturating_add(1),
    }
}

// One more of several.
fn together(a: Size, b: Size) -> Size
    ensures { size_data result ≡ together_lem (size_data a) (size_data b) }
{
    Size {
        nodes: a.nodes.saturating_add(b.nodes),
        levels: a.levels.max(b.levels),
    }
}

// A node above two others.
fn joined(a: Size, b: Size) -> Size
    ensures { size_data result ≡ joined_lem (size_data a) (size_data b) }
{
    Size {
        nodes: a.nodes.saturating_add(b.nodes).saturating_add(1),
        levels: a.levels.max(b.levels).saturating_add(1),
    }
}

// No cases.
fn no_wrap() -> Wrap
    ensures { wrap_data result ≡ no_wrap_lem }
{
    Wrap {
        times: 1,
        more: 0,
        above: 0,
        least: 0,
    }
}

// Cases around other cases.
fn around(outer: Wrap, inner: Wrap) -> Wrap
    ensures { wrap_data result ≡ around_lem (wrap_data outer) (wrap_data inner) }
{
    Wrap {
        times: outer.times.saturating_mul(inner.times),
        more: outer
            .times
            .saturating_mul(inner.more)
            .saturating_add(outer.more),
        above: outer.above.saturating_add(inner.above),
        least: outer.least.max(outer.above.saturating_add(inner.least)),
    }
}

// As many cases as there are elements, in each of which an equation of a size holds.
fn choice_wrap(count: u64, equation: Size) -> Wrap
    ensures { wrap_data result ≡ choice_wrap_lem count (size_data equation) }
{
    let each = equation.nodes.saturating_add(1);
    Wrap {
        times: count,
        more: count.saturating_mul(each).saturating_add(1),
        above: 2,
        least: equation.levels.saturating_add(2),
    }
}

// A comparison with the cases around it.
fn closed(side: Side) -> Size
    ensures { size_data result ≡ closed_lem (side_data side) }
{
    let wrap = side.wrap;
    let nodes = side.own.nodes.saturating_mul(wrap.times);
    let levels = side.own.levels.saturating_add(wrap.above);
    Size {
        nodes: nodes.saturating_add(wrap.more),
        levels: levels.max(wrap.least),
    }
}

// What no index is left of.
fn whole(own: Size) -> Side
    ensures { side_data result ≡ whole_lem (size_data own) }
{
    Side {
        own,
        wrap: no_wrap(),
    }
}

// The size of the equation of a part with a number, under a `next` or not.
fn equation(under: bool, side: Side) -> Size
    ensures { size_data result ≡ equation_size_lem under (side_data side) }
{
    let read = if under { above(side.own) } else { side.own };
    closed(Side {
        own: joined(read, one()),
        wrap: side.wrap,
    })
}

// What an operator makes of its operands.
fn link_side(word: BinaryWord, first: Side, second: Side) -> Side
    ensures { side_data result ≡ link_side_lem word (side_data first) (side_data second) }
{
    let both = Side {
        own: joined(first.own, second.own),
        wrap: around(first.wrap, second.wrap),
    };
    if is_row_word(word) {
        both
    } else if is_comparing(word) {
        whole(closed(both))
    } else {
        whole(joined(closed(first), closed(second)))
    }
}

// Whether what stands behind so many operators is under the `next` around them: it is of the row, before which so many stand.
fn is_in_row(under: bool, before: usize, place: usize) -> bool
    ensures { result ≡ (under && nat_le before place) }
{
    under && before <= place
}

// A part of a comparison, under a `next` or not.
#[cycle(measuring)]
fn measure(known: &Known<'_, '_>, under: bool, t: &Resolved) -> Result<Side, AllocError>
    ensures { IfOk result (λ side. side_data side ≡ measured (known_data known.now) (resolved_data t.now) under) }
{
    match t {
        Resolved::Chain(head, links) => measure_row(known, under, head, links),
        Resolved::Node(_, _, shape) => measure_shape(known, under, shape),
    }
}

// An expression with operators behind it. What stands before the row at their end is no part of a comparison around it.
#[cycle(measuring)]
fn measure_row(
    known: &Known<'_, '_>,
    under: bool,
    head: &Resolved,
    links: &[Link],
) -> Result<Side, AllocError>
    ensures { IfOk result (λ side. side_data side ≡ measured (known_data known.now) (chained (resolved_data head.now) (map link_data links.now)) under) }
{
    let before = before_row(links);
    let first = is_in_row(under, before, 0);
    let mut side = measure(known, first, head)?;
    let mut place = 0;
    for link in links {
        let inside = is_in_row(under, before, place);
        let second = measure(known, inside, &link.second)?;
        side = link_side(link.word, side, second);
        place += 1;
    }
    Ok(side)
}

// What stands at a place.
#[cycle(measuring)]
fn measure_shape(known: &Known<'_, '_>, under: bool, shape: &Shape) -> Result<Side, AllocError>
    ensures { IfOk result (λ side. side_data side ≡ form_measured (known_data known.now) (form_data shape.now) under) }
{
    match shape {
        Shape::Leaf(_) => Ok(whole(one())),
        Shape::Predicate(_, _) => Ok(whole(one())),
        Shape::Misuse(_, _) => Ok(whole(one())),
        Shape::Next(t) => measure_above(known, true, t),
        Shape::Prefix(_, t) => Ok(whole(above(measure_apart(known, t)?))),
        Shape::Mod(t, _, _) => measure_above(known, under, t),
        Shape::And(ts, _) => Ok(whole(above(size_of_each(known, ts)?))),
        Shape::Or(ts, _) => Ok(whole(above(size_of_each(known, ts)?))),
        Shape::Index(first, count, t) => measure_index(known, under, *first, *count, t),
        Shape::Quantified(_, _, _, _, _, copies) => Ok(whole(above(size_of_each(known, copies)?))),
    }
}

// An operator above a part.
#[cycle(measuring)]
fn measure_above(known: &Known<'_, '_>, under: bool, t: &Resolved) -> Result<Side, AllocError>
    ensures { IfOk result (λ side. side_data side ≡ above_side (measured (known_data known.now) (resolved_data t.now) under)) }
{
    let side = measure(known, under, t)?;
    Ok(Side {
        own: above(side.own),
        wrap: side.wrap,
    })
}

// An element of an array.
#[cycle(measuring)]
fn measure_index(
    known: &Known<'_, '_>,
    under: bool,
    first: usize,
    count: usize,
    t: &Resolved,
) -> Result<Side, AllocError>
    ensures { IfOk result (λ side. side_data side ≡ form_measured (known_data known.now) (Form.Index first count (resolved_data t.now)) under) }
{
    match reading_at(known, first, count, t)? {
        Reading::One(_) => Ok(whole(one())),
        Reading::Here => {
            let equal = equation(false, measure(known, false, t)?);
            let wrap = choice_wrap(count as u64, equal);
            Ok(whole(closed(Side { own: one(), wrap })))
        }
        Reading::Outside => {
            let equal = equation(under, measure(known, under, t)?);
            let wrap = choice_wrap(count as u64, equal);
            Ok(Side { own: one(), wrap })
        }
    }
}

// Several expressions together.
#[cycle(measuring)]
fn size_of_each(known: &Known<'_, '_>, ts: &[Resolved]) -> Result<Size, AllocError>
    ensures { IfOk result (λ size. size_data size ≡ each_measured (known_data known.now) (trees (map resolved_data ts.now))) }
{
    let mut all = Size {
        nodes: 0,
        levels: 0,
    };
    for t in ts {
        let size = measure_apart(known, t)?;
        all = together(all, size);
    }
    Ok(all)
}

// An expression that is no part of a comparison.
#[cycle(measuring)]
fn measure_apart(known: &Known<'_, '_>, t: &Resolved) -> Result<Size, AllocError>
    ensures { IfOk result (λ size. size_data size ≡ closed_lem (measured (known_data known.now) (resolved_data t.now) false)) }
{
    Ok(closed(measure(known, false, t)?))
}

/// The size of an expression's formula, each number of it at most the greatest one of 64 bits. It takes no memory. The error is
/// a number of a variable past 64 bits, which no text has.
pub fn size_of(known: &Known<'_, '_>, t: &Resolved) -> Result<Size, AllocError>
    ensures { IfOk result (λ size. (params : ℕ) → size_data size ≡ size_of_lem (formula_of (known_data known.now) params (resolved_data t.now))) }
{
    measure_apart(known, t)
}
