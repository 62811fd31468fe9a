ghost use Rattle.std.specs.Prelude.{◌≡◌};
ghost use Rattle.node_table.specs.declared.fault.NodeFault.TheVariants.{Memory};

use std::alloc::AllocError;

/// Why a node was not added.
#[derive(Clone, Copy, Debug, PartialEq, Eq)]
pub enum NodeFault {
    /// The table holds its budget of nodes.
    Full,
    /// No memory was given.
    Memory,
}

impl From<AllocError> for NodeFault {
    ghost from_gives = { λ _ fault. fault ≡ Memory };

    fn from(_: AllocError) -> Self {
        NodeFault::Memory
    }
}
