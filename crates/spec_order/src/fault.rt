//! Why no order was sought.

use bdd_ops::StoreFault;
use regions::Halt;
use std::alloc::AllocError;

/// Why no order was sought, or the search for one ended.
#[derive(Clone, Copy, Debug, PartialEq, Eq)]
pub enum OrderFault {
    /// There are more than 32 declared variables.
    Limit,
    /// The nodes ran out.
    Budget,
    /// No memory was given.
    Memory,
}

impl From<AllocError> for OrderFault {
    ghost use Rattle.std.specs.Prelude.{◌≡◌};
    ghost use Rattle.spec_order.specs.declared.fault.OrderFault.TheVariants as faults;

    ghost from_gives = { λ _ fault. fault ≡ faults.Memory };

    fn from(_: AllocError) -> Self {
        OrderFault::Memory
    }
}

impl From<StoreFault> for OrderFault {
    ghost use Rattle.std.specs.Prelude.{◌≡◌};
    ghost use Rattle.spec_order.specs.Scenes.{of_store};

    ghost from_gives = { λ fault order. order ≡ of_store fault };

    fn from(fault: StoreFault) -> Self {
        match fault {
            StoreFault::Full => OrderFault::Budget,
            StoreFault::Memory => OrderFault::Memory,
        }
    }
}

impl From<Halt> for OrderFault {
    ghost use Rattle.std.specs.Prelude.{◌≡◌};
    ghost use Rattle.spec_order.specs.Scenes.{of_halt};

    ghost from_gives = { λ halt order. order ≡ of_halt halt };

    fn from(halt: Halt) -> Self {
        match halt {
            Halt::Budget => OrderFault::Budget,
            Halt::Memory => OrderFault::Memory,
        }
    }
}
