ghost use Rattle.std.specs.Prelude.{◌≡◌, IfSome};
ghost use Rattle.std.specs.Bool.{OnTrue};
ghost use Rattle.bdd_cache.specs.Cells.{operation_in, third_in, answer_in};

use crate::answer::Answer;

/// The operation whose third node a cell has room for.
const CHOICE: u32 = 1;
/// From here on the rest of a cell has the number of an operation.
pub const OPERATIONS: u32 = 1 << 31;

/// An answer in 16 bytes. `rest` below 2^31 is the third node of operation 1; from 2^31 on it has the number of the
/// operation, whose third node is 0.
#[derive(Clone, Copy, PartialEq, Eq)]
pub struct Cell {
    pub a: u32,
    pub b: u32,
    pub rest: u32,
    pub r: u32,
}

/// What a cell holds that no answer is in: operations have numbers from 1 on.
pub const EMPTY: Cell = Cell {
    a: 0,
    b: 0,
    rest: OPERATIONS,
    r: 0,
};

/// What the rest of a cell has of an answer of this operation with this third node, where it fits.
pub fn rest_of(op: u32, c: u32) -> Option<u32>
    ensures { IfSome result (λ rest. (operation_in rest ≡ op) × (third_in rest ≡ c)) }
{
    if op == CHOICE && c < OPERATIONS {
        Some(c)
    } else if c == 0 && op < OPERATIONS {
        Some(OPERATIONS + op)
    } else {
        None
    }
}

impl Cell {
    /// Whether it has the answer of these nodes, by what the rest tells.
    pub fn is_of(self, a: u32, b: u32, rest: u32) -> bool
        ensures { OnTrue result (self ≡ record { a = a; b = b; rest = rest; r = self.r }) }
    {
        self.a == a && self.b == b && self.rest == rest
    }

    /// The answer in a cell.
    pub fn answer(self) -> Answer
        ensures { result ≡ answer_in self }
    {
        let Cell { a, b, rest, r } = self;
        if rest < OPERATIONS {
            Answer {
                op: CHOICE,
                a,
                b,
                c: rest,
                r,
            }
        } else {
            Answer {
                op: rest - OPERATIONS,
                a,
                b,
                c: 0,
                r,
            }
        }
    }
}
