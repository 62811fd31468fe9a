//! From a text to its tokens.

ghost use Rattle.std.specs.Prelude.{◌≡◌, ◌≢◌, ◌<◌, ◌++◌, [], ℕ, List, length, IfOk, IfErr, IsErrOf, ◌↔◌, ◌⊎◌};
ghost use Rattle.std.specs.Str.{chars};
ghost use Rattle.spectra_lexer.specs.Tokens.{AreTokens, Lexes, token_if, kind_of_piece as kind_of_piece_lem};
ghost use Rattle.spectra_lexer.specs.Faults.{IsTooLong, IsNotUtf8At, IsBadAt, IsStranger, FailsAt, IsPlaced};
ghost use Rattle.spectra_lexer.specs.Progress.{Leads, IsInside, ComesLater};

use crate::beginning::{beginning, decode};
use crate::fault::LexFault;
use crate::opening::{Opening, what_opens};
use crate::pieces::behind_piece;
use crate::spot::Spot;
use crate::token::{Kind, Token};
use crate::words::kind_of;
use std::alloc::{AllocError, Global};

/// The greatest number of bytes of a text.
pub const MAX_BYTES: usize = 1_048_576;

/// The tokens of a text, the last one `Finish`. `TooLong`: it has more than `MAX_BYTES` bytes. `NotUtf8`: it has no
/// more than that, and a byte that begins no character; the place is that of the first one. `BadCharacter`: it is
/// UTF-8, and no token, comment or blank begins at the place, the first such. `Memory`: none was given.
pub fn lex(alloc: Global, text: &[u8]) -> Result<Vec<Token>, LexFault>
    ensures tokens { IfOk result (λ tokens. AreTokens text.now tokens.items) }
    ensures only { IfOk result (λ tokens. (others : List Token)
        → AreTokens text.now others → others ≡ tokens.items) }
    ensures too_long { IsErrOf result LexFault.TooLong ↔ IsTooLong text.now }
    ensures not_utf8 { (line column : ℕ)
        → IsErrOf result (LexFault.NotUtf8 line column) ↔ IsNotUtf8At text.now line column }
    ensures bad_character { (line column : ℕ)
        → IsErrOf result (LexFault.BadCharacter line column) → IsBadAt text.now line column }

    // Where memory is given, the other directions hold too.
    ensures read { (tokens : List Token) → AreTokens text.now tokens
        → IfErr result (λ fault. fault ≡ LexFault.Memory) }
    ensures refused { (line column : ℕ) → IsBadAt text.now line column
        → IsErrOf result (LexFault.BadCharacter line column) ⊎ IsErrOf result LexFault.Memory }
{
    if text.len() > MAX_BYTES {
        return Err(LexFault::TooLong);
    }
    let (at, rest) = beginning(decode(text)?);
    read_all(alloc, at, rest)
}

/// The tokens of what is left of a text.
fn read_all(alloc: Global, at: Spot, text: &str) -> Result<Vec<Token>, LexFault>
    requires { IsInside at text.now }
    ensures tokens { IfOk result (λ tokens. Lexes at (chars text.now) tokens.items) }
    ensures bad { (line column : ℕ) → IsErrOf result (LexFault.BadCharacter line column)
        → (spot : Spot) × FailsAt at (chars text.now) spot × IsPlaced spot line column }
    ensures faults { IfErr result ComesLater }
{
    let mut tokens = Vec::new(alloc);
    let mut here = at;
    let mut rest = text;
    while !rest.is_empty() {
        let (next, after) = read_piece(here, rest, &mut tokens)?;
        here = next;
        rest = after;
    }
    tokens.push(here.token(Kind::Finish, here))?;
    Ok(tokens)
}

/// Reads the piece at the front of what is left: a blank, a comment or a token.
fn read_piece<'a>(
    at: Spot,
    rest: &'a str,
    tokens: &mut Vec<Token>,
) -> Result<(Spot, &'a str), LexFault>
    requires some { chars rest.now ≢ [] }
    requires inside { IsInside at rest.now }
    ensures leads { IfOk result (λ next. Leads at (chars rest.entry.now) tokens.old.items
        next.0 (chars next.1.now) tokens.new.items) }
    ensures inside { IfOk result (λ next. IsInside next.0 next.1.now) }
    ensures shorter { IfOk result (λ next.
        length (chars next.1.now) < length (chars rest.entry.now)) }
    ensures bad { (line column : ℕ) → IsErrOf result (LexFault.BadCharacter line column)
        → IsStranger (chars rest.entry.now) × IsPlaced at line column }
    ensures faults { IfErr result ComesLater }
{
    let opening = what_opens(rest);
    let Some((next, after)) = behind_piece(opening, at, rest) else {
        return Err(LexFault::BadCharacter {
            line: at.line,
            column: at.column,
        });
    };
    push_if(tokens, kind_of_front(opening, rest, after), at, next)?;
    Ok((next, after))
}

/// Adds the token of a kind from a spot to another, if there is a kind.
fn push_if(
    tokens: &mut Vec<Token>,
    kind: Option<Kind>,
    at: Spot,
    next: Spot,
) -> Result<(), AllocError>
    ensures { IfOk result (λ _. tokens.new.items ≡ tokens.old.items ++ token_if kind at next) }
{
    if let Some(kind) = kind {
        tokens.push(at.token(kind, next))?;
    }
    Ok(())
}

/// What token the piece in front of what is behind it is, if it is one.
fn kind_of_front(opening: Opening, text: &str, after: &str) -> Option<Kind>
    requires { (piece : List ℕ) × (chars text.now ≡ piece ++ chars after.now) }
    ensures { (piece : List ℕ) → chars text.now ≡ piece ++ chars after.now
        → result ≡ kind_of_piece_lem opening piece }
{
    let size = text.len() - after.len();
    kind_of_piece(opening, &text.as_bytes()[..size])
}

/// What token a piece of these bytes is, if it is one.
fn kind_of_piece(opening: Opening, piece: &[u8]) -> Option<Kind>
    ensures { result ≡ kind_of_piece_lem opening piece.now }
{
    match opening {
        Opening::Nothing | Opening::Blank | Opening::LineComment | Opening::BlockComment => None,
        Opening::Name => Some(kind_of(piece)),
        Opening::Number => Some(Kind::Number),
        Opening::Quoted => Some(Kind::Text),
        Opening::Sign => Some(Kind::Sign),
    }
}
