ghost use Rattle.std.specs.Prelude.{◌≡◌};
ghost use Rattle.bdd_store.specs.declared.fault.StoreFault.TheVariants.{Memory};

use std::alloc::AllocError;

/// Why a diagram was not made.
#[derive(Clone, Copy, Debug, PartialEq, Eq)]
pub enum StoreFault {
    /// A new node is wanted, and the store holds its budget.
    Full,
    /// No memory was given.
    Memory,
}

impl From<AllocError> for StoreFault {
    ghost from_gives = { λ _ fault. fault ≡ Memory };

    fn from(_: AllocError) -> Self {
        StoreFault::Memory
    }
}
