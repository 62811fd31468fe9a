//! Who wins, as it is answered.

use crate::space::Space;
use controller::Controller;
use counterstrategy::Counterstrategy;

/// Who wins, with the numbers.
#[derive(Clone, Copy, Debug, PartialEq, Eq)]
pub enum Numbers {
    /// The system, with K rounds.
    Realizable { k: u64 },
    /// The environment, with N shifts and M denials in a row.
    Unrealizable { n: u64, m: u64 },
}

/// Who wins, with the numbers and a strategy that has made no move.
pub enum Verdict {
    /// The system, with K rounds. The play must be closed.
    Realizable {
        k: u64,
        play: Controller<Space>,
    },
    /// The environment, with N shifts and M denials in a row. The play must be closed.
    Unrealizable {
        n: u64,
        m: u64,
        play: Counterstrategy<Space>,
    },
}

/// Who wins, with the numbers, and where the environment does with its strategy, which has given no input.
pub enum Opposition {
    /// The system, with K rounds.
    Realizable {
        k: u64,
    },
    /// The environment, with N shifts and M denials in a row. The play must be closed.
    Unrealizable {
        n: u64,
        m: u64,
        play: Counterstrategy<Space>,
    },
}
