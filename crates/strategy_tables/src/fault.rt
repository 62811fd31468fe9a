//! Why a table was not made or not written.

ghost use Rattle.std.specs.Prelude.{◌≡◌};
ghost use Rattle.strategy_tables.specs.declared.fault.TableFault.TheVariants as table_fault;

use std::alloc::AllocError;

/// Why a table was not made or not written.
#[derive(Clone, Copy, Debug, PartialEq, Eq)]
pub enum TableFault {
    /// It passes a limit: 1,024 nodes, 1,024 assignments that are listed, or in a text 16,777,216 bytes.
    Limit,
    /// No memory was given.
    Memory,
}

impl From<AllocError> for TableFault {
    ghost from_gives = { λ _ fault. fault ≡ table_fault.Memory };

    fn from(_: AllocError) -> Self {
        TableFault::Memory
    }
}
