//! The fault that comes first among those that were found.

ghost use Rattle.std.specs.Prelude.{◌≡◌, None};
ghost use Rattle.spectra_resolved.specs.Findings.{precedes as precedes_lem, with_fault};
ghost use Rattle.spectra_resolved.specs.Reports.{found_in};

use crate::spot::Spot;

/// What is wrong, by the number of the fault, and where.
#[derive(Clone, Copy, PartialEq, Eq)]
pub struct Finding {
    pub number: u8,
    pub at: Spot,
}

/// The finding that comes first among all so far.
#[derive(Clone, Copy, Drop)]
pub struct Findings {
    first: Option<Finding>,
}

// Whether a finding comes before another: in an earlier file, at a lesser place in it, or with a smaller number at the same
// place.
fn precedes(a: Finding, b: Finding) -> bool
    ensures { result ≡ precedes_lem a b }
{
    if a.at.file != b.at.file {
        a.at.file < b.at.file
    } else if a.at.line != b.at.line {
        a.at.line < b.at.line
    } else if a.at.column != b.at.column {
        a.at.column < b.at.column
    } else {
        a.number < b.number
    }
}

impl Findings {
    /// No findings.
    pub fn new() -> Findings
        ensures { found_in result ≡ None }
    {
        Findings { first: None }
    }

    /// Puts a finding among those so far.
    pub fn report(&mut self, number: u8, at: Spot)
        ensures put { found_in self.new ≡ with_fault (found_in self.old) (record { number = number; at = at }) }
    {
        let finding = Finding { number, at };
        match self.first {
            Some(first) => {
                if precedes(finding, first) {
                    self.first = Some(finding);
                }
            }
            None => self.first = Some(finding),
        }
    }

    /// The first finding.
    pub fn first(&self) -> Option<Finding>
        ensures { result ≡ found_in self.now }
    {
        self.first
    }
}
