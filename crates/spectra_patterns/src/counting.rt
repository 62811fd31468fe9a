//! The numbers of repeats.

ghost use Rattle.std.specs.Prelude.{◌≡◌, map};
ghost use Rattle.std.specs.List.{list_all};
ghost use Rattle.spectra_resolved.specs.declared.tree.Times.{Times};
ghost use Rattle.spectra_resolved.specs.Chained.{regexes};
ghost use Rattle.spectra_resolved.specs.Views.{regex_data};
ghost use Rattle.spectra_patterns.specs.Triggers.{is_count as is_count_lem, are_counts as are_counts_lem, counts_well as counts_well_lem, each_counts_well as each_counts_well_lem};

use spectra_resolved::tree::{Regex, Times};

/// The greatest number of a repeat.
pub const MAX_COUNT: i64 = 256;

// Whether a number of a repeat is right.
fn is_count(n: i64) -> bool
    ensures { result ≡ is_count_lem n }
{
    0 <= n && n <= MAX_COUNT
}

// Whether the numbers of a repeat are.
fn are_counts(times: Times) -> bool
    ensures { result ≡ are_counts_lem times.least times.most }
{
    match times.most {
        None => is_count(times.least),
        Some(most) => is_count(times.least) && is_count(most) && times.least <= most,
    }
}

// Whether those of several repeats are.
fn all_counts(times: &[Times]) -> bool
    ensures { result ≡ list_all (λ (t : Times). are_counts_lem t.least t.most) times.now }
{
    for t in times {
        if !are_counts(*t) {
            return false;
        }
    }
    true
}

/// Whether the numbers of all repeats are right.
#[cycle(counting)]
pub fn counts_well(r: &Regex) -> bool
    ensures { result ≡ counts_well_lem (regex_data r.now) }
{
    match r {
        Regex::Atom(_) => true,
        Regex::Cat(rs) => each_counts_well(rs),
        Regex::Alt(rs) => each_counts_well(rs),
        Regex::Repeat(part, times) => all_counts(times) && counts_well(part),
    }
}

#[cycle(counting)]
fn each_counts_well(rs: &[Regex]) -> bool
    ensures { result ≡ each_counts_well_lem (regexes (map regex_data rs.now)) }
{
    for r in rs {
        if !counts_well(r) {
            return false;
        }
    }
    true
}
