//! Why files have no specification.

ghost use Rattle.std.specs.Prelude.{◌≡◌};
ghost use Rattle.spectra_types.specs.declared.fault.TypeFault.TheVariants.{Memory};

use std::alloc::{AllocError, AllocFailed};

/// Why trees mean no specification.
#[derive(Clone, Copy, Debug, PartialEq, Eq)]
pub enum TypeFault {
    /// The fault with this number stands in the tree numbered from 0, at this line and column.
    Refused {
        number: u8,
        tree: u32,
        line: u32,
        column: u32,
    },
    /// No memory was given.
    Memory,
}

impl From<AllocError> for TypeFault {
    ghost from_gives = { λ _ e. e ≡ Memory };

    fn from(_e: AllocError) -> TypeFault {
        TypeFault::Memory
    }
}

impl<T: Drop> From<AllocFailed<T>> for TypeFault {
    ghost from_gives = { λ _ e. e ≡ Memory };

    fn from(_e: AllocFailed<T>) -> TypeFault {
        TypeFault::Memory
    }
}
