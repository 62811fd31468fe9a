//! What forcing the next state into a set rests on.

use crate::moves::Members;
use bdd_bits::Root;

/// The diagrams of no state and of all states, and of later moves.
pub struct StepRoots {
    pub nothing: Root,
    pub proper: Root,
    pub later: Members,
}
