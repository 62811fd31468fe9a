//! What is open around a part of an expression, and where a fault of two parts stands.

ghost use Rattle.std.specs.Prelude.{◌≡◌};
ghost use Rattle.spectra_judge.specs.Around.{comes_before as comes_before_lem, meeting as meeting_lem, nothing_open as nothing_open_lem, outer_of as outer_of_lem, in_bound as in_bound_lem, under_next as under_next_lem, first_brought as first_brought_lem, within as within_lem};

use spectra_resolved::spot::{Mark, Spot};

/// What is open around a part: the outermost `next`, whether there is a past operator, and the place of the outermost one of
/// those that bodies bring; and the outermost quantifier in whose bounds it stands.
#[derive(Clone, Copy)]
pub struct Around {
    pub next: Option<Mark>,
    pub past: bool,
    pub brought: Option<Spot>,
    pub bound: Option<Mark>,
}

/// Whether a place comes before another.
pub fn comes_before(a: Spot, b: Spot) -> bool
    ensures { result ≡ comes_before_lem a b }
{
    if a.file != b.file {
        a.file < b.file
    } else if a.line != b.line {
        a.line < b.line
    } else {
        a.column < b.column
    }
}

/// Where a fault of two parts stands, and at `said` where no body brings either.
pub fn meeting(outer: Mark, inner: Mark, said: Mark) -> Spot
    ensures { result ≡ meeting_lem outer inner said }
{
    if outer.brought {
        outer.spot
    } else if inner.brought {
        inner.spot
    } else {
        said.spot
    }
}

/// Nothing is open.
pub fn nothing_open() -> Around
    ensures { result ≡ nothing_open_lem }
{
    Around {
        next: None,
        past: false,
        brought: None,
        bound: None,
    }
}

// The outer one of two that are open.
fn outer_of(outer: Option<Mark>, at: Mark) -> Mark
    ensures { result ≡ outer_of_lem outer at }
{
    match outer {
        Some(outer) => outer,
        None => at,
    }
}

/// What is open in the operand of a `next`.
#[inline(never)]
pub fn under_next(at: Mark, around: Around) -> Around
    ensures { result ≡ under_next_lem at around }
{
    Around {
        next: Some(outer_of(around.next, at)),
        past: around.past,
        brought: around.brought,
        bound: around.bound,
    }
}

/// What is open in the bounds of a quantifier.
pub fn in_bound(at: Mark, around: Around) -> Around
    ensures { result ≡ in_bound_lem at around }
{
    Around {
        next: around.next,
        past: around.past,
        brought: around.brought,
        bound: Some(outer_of(around.bound, at)),
    }
}

// The outermost past operator that a body brings, with one more inside.
fn first_brought(outer: Option<Spot>, at: Mark) -> Option<Spot>
    ensures { result ≡ first_brought_lem outer at.brought at.spot }
{
    match outer {
        Some(outer) => Some(outer),
        None => { if at.brought { Some(at.spot) } else { None } }
    }
}

/// What is open in the operands of an operator, which speaks of the past or not.
#[inline(never)]
pub fn within(past: bool, at: Mark, around: Around) -> Around
    ensures { result ≡ within_lem past at around }
{
    if past {
        Around {
            next: around.next,
            past: true,
            brought: first_brought(around.brought, at),
            bound: around.bound,
        }
    } else {
        around
    }
}
