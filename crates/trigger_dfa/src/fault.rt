//! Why a trigger has no table.

ghost use Rattle.std.specs.Prelude.{◌≡◌};
ghost use Rattle.trigger_dfa.specs.declared.fault.DfaFault.TheVariants.{Memory};

use std::alloc::AllocError;

/// Why a trigger has no table.
#[derive(Clone, Copy, Debug, PartialEq, Eq)]
pub enum DfaFault {
    /// There are more than 8 atoms, more than 64 positions on a side, or more than 256 states in both sides together.
    Wide,
    /// No memory was given.
    Memory,
}

impl From<AllocError> for DfaFault {
    ghost from_gives = { λ _ fault. fault ≡ Memory };

    fn from(_: AllocError) -> Self {
        DfaFault::Memory
    }
}
