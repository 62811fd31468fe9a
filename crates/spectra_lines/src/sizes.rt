//! The room that is left behind formulas.

ghost use Rattle.std.specs.Prelude.{◌≡◌, Option, Some, IfOk};
ghost use Rattle.spectra_resolved.specs.Views.{resolved_data};
ghost use Rattle.spectra_judge.specs.KindViews.{known_data};
ghost use Rattle.spectra_cases.specs.SizeViews.{size_data};
ghost use Rattle.spectra_lines.specs.Rooms.{behind_size, behind_formulas};
ghost use Rattle.spectra_lines.specs.Views.{trees_data};

use spectra_cases::sizes::{Size, size_of};
use spectra_judge::known::Known;
use spectra_resolved::tree::Resolved;
use std::alloc::AllocError;

// The most levels of a formula.
const MOST_LEVELS: u64 = 512;

/// The room that is left behind a formula of a size, where there is room for its nodes and it hasn't too many levels.
pub fn behind(room: u32, size: Size) -> Option<u32>
    ensures { result ≡ behind_size room (size_data size) }
{
    if size.levels > MOST_LEVELS || size.nodes > u64::from(room) {
        return None;
    }
    Some(room - size.nodes as u32)
}

/// The room that is left behind the formulas of expressions of a line, where there is so much and none has too many levels. The
/// error is that of `size_of`.
pub fn behind_trees(
    known: &Known<'_, '_>,
    room: u32,
    trees: &[&Resolved],
) -> Result<Option<u32>, AllocError>
    ensures { IfOk result (λ left. left ≡ behind_formulas (known_data known.now) (Some room) (trees_data trees.now)) }
{
    let mut left = room;
    for t in trees {
        match behind(left, size_of(known, t)?) {
            Some(rest) => left = rest,
            None => return Ok(None),
        }
    }
    Ok(Some(left))
}
