//! The characters of a text, one by one, and runs of them.

ghost use Rattle.std.specs.Prelude.{◌≡◌, ◌+◌, ◌<◌, ◌∷◌, [], ℕ, List, length, MatchOption};
ghost use Rattle.std.specs.Str.{chars, IsUtf8};
ghost use Rattle.std.specs.Char.{len_utf8};
ghost use Rattle.spectra_lexer.specs.Characters.{is_blank as blank_test, is_digit as digit_test, begins_name as name_test, goes_on as run_test, IsRun};
ghost use Rattle.spectra_lexer.specs.Pieces.{begins_with as begins_test};
ghost use Rattle.spectra_lexer.specs.Tokens.{past};
ghost use Rattle.spectra_lexer.specs.Progress.{IsInside};

use crate::spot::Spot;

/// What goes on in a run.
#[derive(Clone, Copy, PartialEq, Eq)]
pub enum Run {
    /// Blanks.
    Blank,
    /// The rest of a line.
    Line,
    /// What a name goes on with.
    Name,
    /// Digits.
    Number,
    /// What may be quoted.
    Quoted,
    /// Every character.
    Every,
}

/// Whether a character only separates tokens.
pub fn is_blank(c: char) -> bool
    ensures { result ≡ blank_test c }
{
    c == ' ' || c == '\t' || c == '\r' || c == '\n'
}

/// Whether a character is an ASCII digit.
pub fn is_digit(c: char) -> bool
    ensures { result ≡ digit_test c }
{
    '0' <= c && c <= '9'
}

/// Whether a name may begin with a character.
pub fn begins_name(c: char) -> bool
    ensures { result ≡ name_test c }
{
    unicode_ident::is_xid_start(c) || c == '_'
}

/// Whether a run goes on with a character.
fn goes_on(run: Run, c: char) -> bool
    ensures { result ≡ run_test run c }
{
    match run {
        Run::Blank => is_blank(c),
        Run::Line => c != '\n',
        Run::Name => unicode_ident::is_xid_continue(c),
        Run::Number => is_digit(c),
        Run::Quoted => c != '"' && c != '\n',
        Run::Every => true,
    }
}

/// The first character of a text, and the rest.
pub fn split_first(text: &str) -> Option<(char, &str)>
    ensures { MatchOption result (chars text.now ≡ []) (λ split.
        (chars text.now ≡ split.0 ∷ chars split.1.now)
        × (length text.now ≡ len_utf8 split.0 + length split.1.now) × IsUtf8 split.1.now) }
{
    let mut characters = text.chars();
    let c = characters.next()?;
    Some((c, characters.as_str()))
}

/// Whether a text begins with a character.
pub fn begins_with(text: &str, c: char) -> bool
    ensures { result ≡ begins_test c (chars text.now) }
{
    match split_first(text) {
        Some((first, _)) => first == c,
        None => false,
    }
}

/// What is behind the longest run at the front, and the spot there.
pub fn behind_run<'a>(run: Run, at: Spot, text: &'a str) -> (Spot, &'a str)
    requires inside { IsInside at text.now }
    ensures run { (front : List ℕ) × IsRun run (chars text.entry.now) front (chars result.1.now)
        × (result.0 ≡ past front at) }
    ensures inside { IsInside result.0 result.1.now }
{
    let mut at = at;
    let mut rest = text;
    while let Some((c, after)) = split_first(rest) {
        if !goes_on(run, c) {
            break;
        }
        at = at.over(c);
        rest = after;
    }
    (at, rest)
}
