//! The ranges of quantifiers, and the numbers of their variables.

ghost use Rattle.std.specs.Prelude.{◌≡◌, ℤ};
ghost use Rattle.spectra_copies.specs.Ranges.{range_of as range_of_lem, number_at as number_at_lem};
ghost use Rattle.spectra_copies.specs.Copies.{extent_of as extent_of_lem};

use spectra_resolved::spot::{Spot, same_place};
use spectra_resolved::tree::Extent;

/// The range of a quantifier: without numbers, since a bound has none; with numbers that are no range; or from one number to
/// another.
#[derive(Clone, Copy)]
pub enum Range {
    Open,
    Wrong,
    Right(i64, i64),
}

/// A quantifier's variable, by the place of its name, and its number.
#[derive(Clone, Copy)]
pub struct Bound {
    pub at: Spot,
    pub number: i64,
}

// The most numbers of a range.
const MOST_NUMBERS: i64 = 256;

/// The range between two bounds.
pub fn range_of(low: Option<i64>, high: Option<i64>) -> Range
    ensures { result ≡ range_of_lem low high }
{
    match (low, high) {
        (Some(low), Some(high)) => {
            if low <= high && high.saturating_sub(low) < MOST_NUMBERS {
                Range::Right(low, high)
            } else {
                Range::Wrong
            }
        }
        (_, _) => Range::Open,
    }
}

/// What is known of a range behind its bounds.
pub fn extent_of(extent: Extent, range: Range) -> Extent
    ensures { result ≡ extent_of_lem extent range }
{
    match (extent, range) {
        (Extent::Open, Range::Open) => Extent::Open,
        (Extent::Open, Range::Wrong) => Extent::Wrong,
        (Extent::Open, Range::Right(_, _)) => Extent::Right,
        (_, _) => extent,
    }
}

/// The number of a quantifier's variable, by the place of its name: that of the last one of several.
pub fn number_at(bounds: &[Bound], at: Spot) -> Option<i64>
    ensures { result ≡ number_at_lem bounds.now at }
{
    let mut number = None;
    for bound in bounds {
        if same_place(bound.at, at) {
            number = Some(bound.number);
        }
    }
    number
}
