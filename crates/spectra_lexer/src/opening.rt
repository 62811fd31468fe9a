//! What the first characters of a text open.

ghost use Rattle.std.specs.Prelude.{◌≡◌};
ghost use Rattle.std.specs.Str.{chars};
ghost use Rattle.spectra_lexer.specs.Pieces.{opening_of};

use crate::characters::{begins_name, begins_with, is_blank, is_digit, split_first};

/// What the piece at the front of a text is.
#[derive(Clone, Copy, PartialEq, Eq)]
pub enum Opening {
    /// There are no characters.
    Nothing,
    Blank,
    LineComment,
    BlockComment,
    /// A name or a reserved word.
    Name,
    Number,
    Quoted,
    /// A sign, if there is a piece at all.
    Sign,
}

/// What the first one or two characters open.
pub fn what_opens(text: &str) -> Opening
    ensures { result ≡ opening_of (chars text.now) }
{
    let Some((c, after)) = split_first(text) else {
        return Opening::Nothing;
    };
    if is_blank(c) {
        Opening::Blank
    } else if begins_name(c) {
        Opening::Name
    } else if is_digit(c) {
        Opening::Number
    } else if c == '"' {
        Opening::Quoted
    } else if (c == '/' || c == '-') && begins_with(after, c) {
        Opening::LineComment
    } else if c == '/' && begins_with(after, '*') {
        Opening::BlockComment
    } else {
        Opening::Sign
    }
}
