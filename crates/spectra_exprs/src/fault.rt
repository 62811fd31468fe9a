//! Why tokens are no text of the grammar.

ghost use Rattle.std.specs.Prelude.{◌≡◌};
ghost use Rattle.spectra_exprs.specs.declared.fault.SyntaxFault.TheVariants.{Memory};

use std::alloc::{AllocError, AllocFailed};

/// Why tokens have no tree. Each number is the place of the refused token in the list, from 0.
#[derive(Clone, Copy, Debug, PartialEq, Eq)]
pub enum SyntaxFault {
    /// A token that goes on no text.
    Unexpected(u32),
    /// A token that opens level 129.
    TooDeep(u32),
    /// An operator behind a whole expression, which wants parentheses.
    Parentheses(u32),
    /// No memory was given.
    Memory,
}

impl From<AllocError> for SyntaxFault {
    ghost from_gives = { λ _ e. e ≡ Memory };

    fn from(_e: AllocError) -> SyntaxFault {
        SyntaxFault::Memory
    }
}

impl<T: Drop> From<AllocFailed<T>> for SyntaxFault {
    ghost from_gives = { λ _ e. e ≡ Memory };

    fn from(_e: AllocFailed<T>) -> SyntaxFault {
        SyntaxFault::Memory
    }
}
