//! Why a text has no tokens.

ghost use Rattle.std.specs.Prelude.{◌≡◌};
ghost use Rattle.spectra_lexer.specs.declared.fault.LexFault.TheVariants.{Memory};

use std::alloc::{AllocError, AllocFailed};
use thiserror::Error;

/// Why a text has no tokens. Lines and columns count from 1, and a column is a character.
#[derive(Clone, Copy, Debug, PartialEq, Eq, Error)]
pub enum LexFault {
    /// The bytes aren't UTF-8, from the first one that begins no character.
    #[error("line {line}, column {column}: the text isn't UTF-8")]
    NotUtf8 { line: u32, column: u32 },
    /// A character that begins no token, comment or blank; a comment or a quoted text that has no end.
    #[error("line {line}, column {column}: no token begins here")]
    BadCharacter { line: u32, column: u32 },
    /// There are more than `MAX_BYTES` bytes.
    #[error("the text is too long")]
    TooLong,
    /// No memory was given.
    #[error("no memory was given")]
    Memory,
}

impl From<AllocError> for LexFault {
    ghost from_gives = { λ _ e. e ≡ Memory };

    fn from(_e: AllocError) -> LexFault {
        LexFault::Memory
    }
}

impl<T: Drop> From<AllocFailed<T>> for LexFault {
    ghost from_gives = { λ _ e. e ≡ Memory };

    fn from(_e: AllocFailed<T>) -> LexFault {
        LexFault::Memory
    }
}
