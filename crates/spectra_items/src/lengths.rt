//! How many elements arrays have.

ghost use Rattle.std.specs.Prelude.{◌≡◌, option_map};
ghost use Rattle.spectra_trees.specs.Views.{length_data};
ghost use Rattle.spectra_items.specs.Lengths.{elements_of as elements_of_lem, count_of as count_of_lem, length_faults};
ghost use Rattle.spectra_items.specs.Steps.{Finds};

use spectra_resolved::findings::Findings;
use spectra_resolved::numbers::number_of;
use spectra_resolved::spot::spot_at;
use spectra_trees::faults::WIDE_ARRAY;
use spectra_trees::tree::Length;

// The most elements of an array.
const MOST_ELEMENTS: i64 = 256;

/// How many elements an array has, and 0 where its length is faulty.
pub fn elements_of(length: &Length) -> usize
    ensures { result ≡ elements_of_lem (length_data length.now) }
{
    let number = number_of(length.digits.as_str());
    if 0 < number && number <= MOST_ELEMENTS {
        number as usize
    } else {
        0
    }
}

/// How many variables a declaration makes: the elements of an array, one where its length is faulty, and else one.
pub fn count_of(length: &Option<Length>) -> usize
    ensures { result ≡ count_of_lem (option_map length_data length.now) }
{
    match length {
        Some(length) => elements_of(length).max(1),
        None => 1,
    }
}

/// Reports a length of 0, or past 256, at its bracket (26).
pub fn report_length(findings: &mut Findings, file: usize, length: &Option<Length>)
    ensures { Finds findings.old findings.new (length_faults file (option_map length_data length.now)) }
{
    match length {
        Some(length) => {
            if elements_of(length) == 0 {
                findings.report(WIDE_ARRAY, spot_at(file, length.bracket));
            }
        }
        None => {}
    }
}
