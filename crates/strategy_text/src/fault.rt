//! Why a text is no table.

ghost use Rattle.std.specs.Prelude.{◌≡◌};
ghost use Rattle.strategy_text.specs.declared.fault.ReadRefusal.TheVariants as read_refusal;

use std::alloc::{AllocError, AllocFailed};

/// Why a text was not read.
#[derive(Clone, Copy, Debug, PartialEq, Eq)]
pub enum ReadRefusal {
    /// It isn't the text of a table of the specification.
    Shape,
    /// No memory was given.
    Memory,
}

impl From<AllocError> for ReadRefusal {
    ghost from_gives = { λ _ refusal. refusal ≡ read_refusal.Memory };

    fn from(_: AllocError) -> Self {
        ReadRefusal::Memory
    }
}

impl<T: Drop> From<AllocFailed<T>> for ReadRefusal {
    ghost from_gives = { λ _ refusal. refusal ≡ read_refusal.Memory };

    fn from(_: AllocFailed<T>) -> Self {
        ReadRefusal::Memory
    }
}
