ghost use Rattle.std.specs.Prelude.{◌≡◌};
ghost use Rattle.sp_outside.specs.declared.fault.FileFault.TheVariants.{Memory};
ghost use Rattle.sp_outside.specs.declared.fault.InputFault.TheVariants as input;

use std::alloc::AllocError;

/// The outside refused a call, and its count of faults says so.
#[derive(Clone, Copy, Debug, PartialEq, Eq)]
pub struct Failed;

/// Why a file was not read.
#[derive(Clone, Copy, Debug, PartialEq, Eq)]
pub enum FileFault {
    /// There is no such file.
    Missing,
    /// The shelf failed.
    Shelf,
    /// No memory was given.
    Memory,
}

impl From<AllocError> for FileFault {
    ghost from_gives = { λ _ fault. fault ≡ Memory };

    fn from(_: AllocError) -> FileFault {
        FileFault::Memory
    }
}

/// Why an input was not read.
#[derive(Clone, Copy, Debug, PartialEq, Eq)]
pub enum InputFault {
    /// The input failed.
    Input,
    /// No memory was given.
    Memory,
}

impl From<AllocError> for InputFault {
    ghost from_gives = { λ _ fault. fault ≡ input.Memory };

    fn from(_: AllocError) -> InputFault {
        InputFault::Memory
    }
}

impl From<Failed> for InputFault {
    ghost from_gives = { λ _ fault. fault ≡ input.Input };

    fn from(_: Failed) -> InputFault {
        InputFault::Input
    }
}
