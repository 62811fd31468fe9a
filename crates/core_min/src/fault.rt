//! Why no core was found.

ghost use Rattle.std.specs.Prelude.{◌≡◌};
ghost use Rattle.core_min.specs.declared.fault.CoreFault.TheVariants.{Memory};

use std::alloc::AllocError;

/// Why no core was found.
#[derive(Clone, Copy, Debug, PartialEq, Eq)]
pub enum CoreFault<F> {
    /// No memory was given.
    Memory,
    /// The judge could not judge a set.
    Judge(F),
}

impl<F> From<AllocError> for CoreFault<F> {
    ghost from_gives = { λ _ fault. fault ≡ Memory };

    fn from(_e: AllocError) -> CoreFault<F> {
        CoreFault::Memory
    }
}
