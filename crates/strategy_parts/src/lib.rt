//! What the strategies of both sides are made of: where a play is, the states of the goals and the assumptions, and moves.
//!
//! Contract: `Position`, which goes from state to state in memory that is taken once; `recurring_regions` and `moves_into`,
//! which make many regions or moves or, where one is refused, spend those before it and tell of it; `spend_regions` and
//! `spend_moves`. Path: regions → **parts** → strategies.
#![tactic(auto)]

mod making;
mod position;
mod spending;

pub use making::{Wanted, moves_into, recurring_regions};
pub use position::Position;
pub use spending::{spend_moves, spend_regions};
