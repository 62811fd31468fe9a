//! The faults of one text by their numbers, each at its place.

ghost use Rattle.std.specs.Prelude.{◌≡◌, option_map};
ghost use Rattle.spectra_files.specs.Reading.{named_by as named_by_lem, place_of_token as place_of_token_lem};
ghost use Rattle.spectra_files.specs.Refusals.{lexing_fault, parsing_fault};

use spectra_lexer::{LexFault, Token};
use spectra_parser::SyntaxFault;
use spectra_trees::faults::{BAD_CHARACTER, NOT_UTF8, PARENTHESES, TOO_DEEP, TOO_LONG, UNEXPECTED};

/// Why a text has no tree.
#[derive(Clone, Copy, PartialEq, Eq)]
pub enum TextFault {
    /// It is refused by the fault with this number, at this line and column.
    Refused { number: u8, line: u32, column: u32 },
    /// No memory was given.
    Memory,
}

/// The fault of a text that has no tokens.
pub fn of_lexing(fault: LexFault) -> TextFault
    ensures { result ≡ lexing_fault fault }
{
    let (number, line, column) = match fault {
        LexFault::NotUtf8 { line, column } => (NOT_UTF8, line, column),
        LexFault::BadCharacter { line, column } => (BAD_CHARACTER, line, column),
        LexFault::TooLong => (TOO_LONG, 1, 1),
        LexFault::Memory => return TextFault::Memory,
    };
    TextFault::Refused {
        number,
        line,
        column,
    }
}

// The token that a fault names, and the fault's number.
fn named_by(fault: SyntaxFault) -> Option<(u32, u8)>
    ensures { option_map (λ t. (t.0, t.1)) result ≡ named_by_lem fault }
{
    match fault {
        SyntaxFault::Unexpected(at) => Some((at, UNEXPECTED)),
        SyntaxFault::TooDeep(at) => Some((at, TOO_DEEP)),
        SyntaxFault::Parentheses(at) => Some((at, PARENTHESES)),
        SyntaxFault::Memory => None,
    }
}

// The line and the column of a token, by its number.
fn place_of_token(tokens: &[Token], at: u32) -> (u32, u32)
    ensures { (result.0, result.1) ≡ place_of_token_lem tokens.now at }
{
    match tokens.get(at as usize) {
        Some(token) => (token.line, token.column),
        None => (1, 1),
    }
}

/// The fault of a text whose tokens have no tree.
pub fn of_parsing(tokens: &[Token], fault: SyntaxFault) -> TextFault
    ensures { result ≡ parsing_fault tokens.now fault }
{
    match named_by(fault) {
        Some((at, number)) => {
            let (line, column) = place_of_token(tokens, at);
            TextFault::Refused {
                number,
                line,
                column,
            }
        }
        None => TextFault::Memory,
    }
}
