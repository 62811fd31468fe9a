//! Why nothing was put in.

ghost use Rattle.std.specs.Prelude.{◌≡◌};
ghost use Rattle.spectra_copies.specs.declared.refusal.Refusal.TheVariants.{Memory};

use std::alloc::{AllocError, AllocFailed};

/// Why nothing was put in.
#[derive(Clone, Copy, PartialEq, Eq)]
pub enum Refusal {
    /// There is no room for all nodes.
    Large,
    /// There is no room for all levels.
    Deep,
    /// No memory was given.
    Memory,
}

impl From<AllocError> for Refusal {
    ghost from_gives = { λ _ halt. halt ≡ Memory };

    fn from(_: AllocError) -> Self {
        Refusal::Memory
    }
}

impl<T: Drop> From<AllocFailed<T>> for Refusal {
    ghost from_gives = { λ _ halt. halt ≡ Memory };

    fn from(_: AllocFailed<T>) -> Self {
        Refusal::Memory
    }
}
