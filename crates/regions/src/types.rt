//! What the calls on regions are asked by, and how they give up.

/// Why a call gave up.
#[derive(Clone, Copy, Debug, PartialEq, Eq)]
pub enum Halt {
    /// What is kept, the arguments and the unfinished results fill the budget.
    Budget,
    /// No memory was given.
    Memory,
}

/// A refusal that hands back the object it was given.
pub struct MakeRefusal<G> {
    pub halt: Halt,
    pub g: G,
}

/// A recurring goal of the game, by its number from 0 among the assumptions or the guarantees.
#[derive(Clone, Copy, PartialEq, Eq)]
pub enum Recur {
    Assumption(usize),
    Guarantee(usize),
}

/// At the first move, or at a later one.
#[derive(Clone, Copy, PartialEq, Eq)]
pub enum When {
    First,
    Later,
}
