//! Operators in text order, each of which has all before it as its first operand.

ghost use Rattle.std.specs.Prelude.{◌≡◌, ℕ, ◌∷◌, ◌&&◌, get_or, map, drop, nat_lt, if◌then◌else◌, None};
ghost use Rattle.spectra_resolved.specs.Views.{resolved_data, link_data};
ghost use Rattle.spectra_judge.specs.Operators.{is_past as is_past_lem};
ghost use Rattle.spectra_judge.specs.Around.{Around};
ghost use Rattle.spectra_judge.specs.Judged.{first_of as first_of_lem};
ghost use Rattle.spectra_judge.specs.Chains.{opened, has_past, brought_in};
ghost use Rattle.spectra_judge.specs.OpenedViews.{outer_or, opened_at};

use crate::around::Around;
use crate::operators::is_past;
use spectra_resolved::spot::Spot;
use spectra_resolved::tree::{Link, Resolved};

/// So many of several operators have one behind them that a body brings and that speaks of the past, or are one. The last of
/// these stands at `first`.
#[derive(Clone, Copy)]
pub struct Bringing {
    pub until: usize,
    pub first: Option<Spot>,
}

/// What is open in the operands of several operators: so many have a past operator behind them or are one, and so many one
/// that a body brings.
#[derive(Clone, Copy)]
pub struct Opened {
    pub past: usize,
    pub bringing: Bringing,
}

impl Opened {
    // The outermost past operator that a body brings around an operator's operands, by its place.
    fn brought_at(&self, outer: Option<Spot>, place: usize) -> Option<Spot>
        ensures { result ≡ outer_or outer (if nat_lt place self.now.bringing.until then self.now.bringing.first else None) }
    {
        match outer {
            Some(outer) => Some(outer),
            None => {
                if place < self.bringing.until {
                    self.bringing.first
                } else {
                    None
                }
            }
        }
    }

    /// What is open in the operands of an operator by its place, where `around` is around all.
    pub fn at(&self, around: Around, place: usize) -> Around
        ensures { result ≡ opened_at self.now around place }
    {
        Around {
            next: around.next,
            past: around.past || place < self.past,
            brought: self.brought_at(around.brought, place),
            bound: around.bound,
        }
    }
}

// How many operators have a past operator behind them or are one.
fn past_until(links: &[Link]) -> usize
    ensures { (place : ℕ) → has_past (map link_data (drop place links.now)) ≡ nat_lt place result }
{
    let mut last = links.len();
    while last > 0 {
        let link = &links[last - 1];
        if is_past(link.word) {
            return last;
        }
        last -= 1;
    }
    last
}

// Whether an operator is a past operator that a body brings.
fn brings_past(link: &Link) -> bool
    ensures { result ≡ (is_past_lem link.now.word && link.now.at.brought) }
{
    is_past(link.word) && link.at.brought
}

// How many operators have a past operator behind them that a body brings or are one, and the last of these.
fn bringing_in(links: &[Link]) -> Bringing
    ensures { (place : ℕ) → brought_in (map link_data (drop place links.now)) ≡ (if nat_lt place result.until then result.first else None) }
{
    let mut last = links.len();
    while last > 0 {
        let link = &links[last - 1];
        if brings_past(link) {
            return Bringing {
                until: last,
                first: Some(link.at.spot),
            };
        }
        last -= 1;
    }
    Bringing {
        until: last,
        first: None,
    }
}

/// What is open in the operands of operators.
#[inline(never)]
pub fn opened_in(links: &[Link]) -> Opened
    ensures { (around : Around) (place : ℕ) → opened around (map link_data (drop place links.now)) ≡ opened_at result around place }
{
    Opened {
        past: past_until(links),
        bringing: bringing_in(links),
    }
}

/// The place of the operator of a numbered operand: the first one's is `at`, and each later one's stands before it.
pub fn operator_at(at: Spot, operators: &[Spot], operand: usize) -> Spot
    ensures { result ≡ get_or (at ∷ operators.now) operand at }
{
    if operand > 0 && operand - 1 < operators.len() {
        operators[operand - 1]
    } else {
        at
    }
}

/// The place of a tree's first token.
pub fn first_of(tree: &Resolved) -> Spot
    ensures { result ≡ first_of_lem (resolved_data tree.now) }
{
    match tree {
        Resolved::Node(first, _, _) => *first,
        Resolved::Chain(head, links) => match links.last() {
            Some(link) => link.first,
            None => first_of(head),
        },
    }
}
