//! What is asked of a game while it is played.
//!
//! `first_hidden` and `next_hidden` write the values of the game's hidden tables, an `InputJudge` names the assumption with
//! the least number that an input breaks, and an `OutputJudge` the guarantee or monitor's line with the least number that an
//! output breaks. None takes memory. A line that reads no present output has one value whatever output follows the input, so
//! one output is looked at for all. Of the position that the input makes only those entries are read that a line asks for.
//! `holds_at_state` tells whether a goal holds at a state.
//!
//! Contract: the values are those of the game's next state, and the lines named are those that `first_broken` and
//! `first_broken_output` tell. Path: game → **moves** → strategy.
#![tactic(auto)]

mod answering;
mod holding;
mod judging;
mod made;
mod reading;
mod sight;

pub use answering::OutputJudge;
pub use holding::holds_at_state;
pub use judging::InputJudge;
pub use reading::{first_hidden, next_hidden};
pub use sight::cell_in;
