//! Places in several files.

ghost use Rattle.std.specs.Prelude.{◌≡◌};
ghost use Rattle.spectra_trees.specs.Views.{name_data};
ghost use Rattle.spectra_resolved.specs.Spots.{same_place as same_place_lem, spot_at as spot_at_lem, spot_of as spot_of_lem, in_text as in_text_lem, brought_at as brought_at_lem, mentioned as mentioned_lem};
ghost use Rattle.spectra_resolved.specs.MentionViews.{mention_data};

use spectra_trees::tree::{Name, Place};

/// A place in one of several files: the file's number in the order of reading, from 0, with the line and the column, from 1.
#[derive(Clone, Copy, PartialEq, Eq)]
pub struct Spot {
    pub file: usize,
    pub line: u32,
    pub column: u32,
}

/// A place of a part of an expression, and whether a body brings the part that is put in: the place is then that of the name
/// that brings it.
#[derive(Clone, Copy, PartialEq, Eq)]
pub struct Mark {
    pub spot: Spot,
    pub brought: bool,
}

/// A name as it is written, and where.
#[derive(Clone, Copy)]
pub struct Mention<'t> {
    pub text: &'t str,
    pub at: Spot,
}

/// Whether two places are one.
pub fn same_place(a: Spot, b: Spot) -> bool
    ensures { result ≡ same_place_lem a b }
{
    a.file == b.file && a.line == b.line && a.column == b.column
}

/// A place of a file.
pub fn spot_at(file: usize, at: Place) -> Spot
    ensures { result ≡ spot_at_lem file at }
{
    Spot {
        file,
        line: at.line,
        column: at.column,
    }
}

/// Where a name of a file stands.
pub fn spot_of(file: usize, name: &Name) -> Spot
    ensures { result ≡ spot_of_lem file (name_data name.now) }
{
    Spot {
        file,
        line: name.line,
        column: name.column,
    }
}

/// Where a part stands of the text itself.
pub fn in_text(spot: Spot) -> Mark
    ensures { result ≡ in_text_lem spot }
{
    Mark {
        spot,
        brought: false,
    }
}

/// Where a part stands that a body brings, by the place of its name.
pub fn brought_at(spot: Spot) -> Mark
    ensures { result ≡ brought_at_lem spot }
{
    Mark {
        spot,
        brought: true,
    }
}

/// A name of a file, and where it stands.
pub fn mentioned<'t>(file: usize, name: &'t Name) -> Mention<'t>
    ensures { mention_data result ≡ mentioned_lem file (name_data name.now) }
{
    Mention {
        text: name.text.as_str(),
        at: spot_of(file, name),
    }
}
