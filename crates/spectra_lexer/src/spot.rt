//! A spot in a text, and the steps from it.

use crate::token::{Kind, Token};

/// What lines and columns count from.
const FIRST: u32 = 1;

/// How many bytes come before a character, and its line and column, from 1.
#[derive(Clone, Copy, PartialEq, Eq)]
pub struct Spot {
    pub byte: u32,
    pub line: u32,
    pub column: u32,
}

impl Spot {
    ghost use Rattle.std.specs.Prelude.{◌≡◌, ◌+◌, ◌<◌, ◌^◌};
    ghost use Rattle.spectra_lexer.specs.Tokens.{behind, token_to};
    ghost use Rattle.spectra_lexer.specs.Progress.{further};

    /// Where the characters of a text begin, behind so many bytes.
    pub fn first(byte: u32) -> Spot
        ensures { result ≡ record { byte = byte; line = 1; column = 1 } }
    {
        Spot {
            byte,
            line: FIRST,
            column: FIRST,
        }
    }

    /// The spot behind a character.
    pub fn over(self, c: char) -> Spot
        requires byte { self.byte + 4 < 2 ^ 32 }
        requires line { self.line + 1 < 2 ^ 32 }
        requires column { self.column + 1 < 2 ^ 32 }
        ensures { result ≡ behind c self }
    {
        let byte = self.byte + c.len_utf8() as u32;
        if c == '\n' {
            return Spot {
                byte,
                line: self.line + 1,
                column: FIRST,
            };
        }
        Spot {
            byte,
            line: self.line,
            column: self.column + 1,
        }
    }

    /// The spot behind so many characters of one byte that end no line.
    pub fn skip(self, size: u32) -> Spot
        requires byte { self.byte + size < 2 ^ 32 }
        requires column { self.column + size < 2 ^ 32 }
        ensures { result ≡ further size self }
    {
        Spot {
            byte: self.byte + size,
            line: self.line,
            column: self.column + size,
        }
    }

    /// The token from here to another spot.
    pub fn token(self, kind: Kind, next: Spot) -> Token
        ensures { result ≡ token_to self kind next }
    {
        Token {
            kind,
            from: self.byte,
            to: next.byte,
            line: self.line,
            column: self.column,
        }
    }
}
