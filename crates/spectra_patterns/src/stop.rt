//! Why no more hidden tables are counted.

ghost use Rattle.std.specs.Prelude.{◌≡◌};
ghost use Rattle.spectra_patterns.specs.declared.stop.Stop.TheVariants.{Memory};

use std::alloc::{AllocError, AllocFailed};

/// Why no more hidden tables are counted.
#[derive(Clone, Copy, PartialEq, Eq)]
pub enum Stop {
    /// There are too many.
    Many,
    /// No memory was given.
    Memory,
}

impl From<AllocError> for Stop {
    ghost from_gives = { λ _ stop. stop ≡ Memory };

    fn from(_: AllocError) -> Self {
        Stop::Memory
    }
}

impl<T: Drop> From<AllocFailed<T>> for Stop {
    ghost from_gives = { λ _ stop. stop ≡ Memory };

    fn from(_: AllocFailed<T>) -> Self {
        Stop::Memory
    }
}
