//! Where the piece at the front of a text ends.

ghost use Rattle.std.specs.Prelude.{◌≡◌, ◌≢◌, ◌==◌, ◌&&◌, ◌+◌, ◌<◌, ◌++◌, [], ℕ, List, codes, IfSome, IfNone};
ghost use Rattle.std.specs.Str.{chars};
ghost use Rattle.spectra_lexer.specs.declared.opening.Opening.TheVariants as opens;
ghost use Rattle.spectra_lexer.specs.Pieces.{begins_with as begins_test, opening_of, IsPiece};
ghost use Rattle.spectra_lexer.specs.Progress.{IsInside, LeadsOver, Ends, Closes};

use crate::characters::{Run, begins_with, behind_run, split_first};
use crate::opening::Opening;
use crate::spot::Spot;
use crate::words::sign_size;

/// What is behind the piece at the front, and the spot there, if there is a piece.
pub fn behind_piece<'a>(opening: Opening, at: Spot, text: &'a str) -> Option<(Spot, &'a str)>
    requires opens { opening ≡ opening_of (chars text.now) }
    requires inside { IsInside at text.now }
    ensures ends { IfSome result (λ next.
        Ends opening at (chars text.entry.now) next.0 (chars next.1.now)) }
    ensures inside { IfSome result (λ next. IsInside next.0 next.1.now) }
    ensures none { IfNone result ((piece rest : List ℕ)
        → ¬ IsPiece opening (chars text.entry.now) piece rest) }
{
    match opening {
        Opening::Nothing => None,
        Opening::Blank => Some(behind_first_and_run(Run::Blank, at, text)),
        Opening::LineComment => Some(behind_first_and_run(Run::Line, at, text)),
        Opening::BlockComment => behind_block(at, text),
        Opening::Name => Some(behind_first_and_run(Run::Name, at, text)),
        Opening::Number => Some(behind_first_and_run(Run::Number, at, text)),
        Opening::Quoted => behind_quoted(at, text),
        Opening::Sign => behind_sign(at, text),
    }
}

/// What is behind the first character and the run behind it.
fn behind_first_and_run<'a>(run: Run, at: Spot, text: &'a str) -> (Spot, &'a str)
    requires some { chars text.now ≢ [] }
    requires inside { IsInside at text.now }
    ensures leads { LeadsOver run at (chars text.entry.now) result.0 (chars result.1.now) }
    ensures inside { IsInside result.0 result.1.now }
{
    let Some((c, rest)) = split_first(text) else {
        unreachable!()
    };
    behind_run(run, at.over(c), rest)
}

/// What is behind a quoted text.
fn behind_quoted<'a>(at: Spot, text: &'a str) -> Option<(Spot, &'a str)>
    requires some { chars text.now ≢ [] }
    requires inside { IsInside at text.now }
    ensures ends { IfSome result (λ next.
        Ends opens.Quoted at (chars text.entry.now) next.0 (chars next.1.now)) }
    ensures inside { IfSome result (λ next. IsInside next.0 next.1.now) }
    ensures none { IfNone result ((piece rest : List ℕ)
        → ¬ IsPiece opens.Quoted (chars text.entry.now) piece rest) }
{
    let (end, rest) = behind_first_and_run(Run::Quoted, at, text);
    let Some((c, after)) = split_first(rest) else {
        return None;
    };
    if c != '"' {
        return None;
    }
    Some((end.over('"'), after))
}

/// What is behind a comment in `/*` and `*/`.
fn behind_block<'a>(at: Spot, text: &'a str) -> Option<(Spot, &'a str)>
    requires begins { (inner : List ℕ) × (chars text.now ≡ codes "/*" ++ inner) }
    requires inside { IsInside at text.now }
    ensures ends { IfSome result (λ next.
        Ends opens.BlockComment at (chars text.entry.now) next.0 (chars next.1.now)) }
    ensures inside { IfSome result (λ next. IsInside next.0 next.1.now) }
    ensures none { IfNone result ((piece rest : List ℕ)
        → ¬ IsPiece opens.BlockComment (chars text.entry.now) piece rest) }
{
    let (slash, behind_slash) = split_first(text)?;
    let (star, inner) = split_first(behind_slash)?;
    let (next, rest) = behind_close(at.over(slash).over(star), inner)?;
    Some((next, rest))
}

/// What is behind the next `*/`.
fn behind_close<'a>(at: Spot, text: &'a str) -> Option<(Spot, &'a str)>
    requires inside { IsInside at text.now }
    ensures closes { IfSome result (λ next.
        Closes at (chars text.entry.now) next.0 (chars next.1.now)) }
    ensures inside { IfSome result (λ next. IsInside next.0 next.1.now) }
    ensures none { IfNone result ((other more : List ℕ)
        → chars text.entry.now ≢ other ++ (codes "*/" ++ more)) }
{
    let mut at = at;
    let mut rest = text;
    while let Some((c, after)) = split_first(rest) {
        at = at.over(c);
        rest = after;
        if closes(c, rest) {
            let (slash, behind_slash) = split_first(rest)?;
            return Some((at.over(slash), behind_slash));
        }
    }
    None
}

/// Whether `*/` is this character and the one behind it.
fn closes(c: char, after: &str) -> bool
    ensures { result ≡ (c == 42 && begins_test 47 (chars after.now)) }
{
    c == '*' && begins_with(after, '/')
}

/// What is behind the longest sign.
fn behind_sign<'a>(at: Spot, text: &'a str) -> Option<(Spot, &'a str)>
    requires inside { IsInside at text.now }
    ensures ends { IfSome result (λ next.
        Ends opens.Sign at (chars text.entry.now) next.0 (chars next.1.now)) }
    ensures inside { IfSome result (λ next. IsInside next.0 next.1.now) }
    ensures none { IfNone result ((piece rest : List ℕ)
        → ¬ IsPiece opens.Sign (chars text.entry.now) piece rest) }
{
    let Some(size) = sign_size(text.as_bytes()) else {
        return None;
    };
    let (_, rest) = text.split_at(size);
    Some((at.skip(size as u32), rest))
}
