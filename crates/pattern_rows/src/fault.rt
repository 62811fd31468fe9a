ghost use Rattle.std.specs.Prelude.{◌≡◌};
ghost use Rattle.pattern_rows.specs.declared.fault.RowFault.TheVariants.{Memory};

use std::alloc::{AllocError, AllocFailed};

/// Why a pattern has no table.
#[derive(Clone, Copy, Debug, PartialEq, Eq)]
pub enum RowFault {
    /// Its lines don't allow one first assignment alone, or one next assignment for each assignment and letter.
    Open,
    /// It has more than 8 parameters, or its own variables have more than 64 values.
    Wide,
    /// No memory was given.
    Memory,
}

impl From<AllocError> for RowFault {
    ghost from_gives = { λ _ fault. fault ≡ Memory };

    fn from(_: AllocError) -> Self {
        RowFault::Memory
    }
}

impl<T: Drop> From<AllocFailed<T>> for RowFault {
    ghost from_gives = { λ _ fault. fault ≡ Memory };

    fn from(_: AllocFailed<T>) -> Self {
        RowFault::Memory
    }
}
