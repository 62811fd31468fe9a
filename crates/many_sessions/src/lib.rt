//! Many sessions on one input: one controller serves up to 1,024 plays.
//!
//! A line begins with the number of its session; each session is a play of its own, and is told what it would be told alone. The
//! controller goes to the play's spot for each line, so that a session costs no more than the values of a state.
//!
//! Contract: `many_lines` meets `ManyTalk`: the lines that it read have sessions' numbers, each is answered by one line, and
//! the replies to one session's texts are those of the strategy for these texts alone. `laws` has what follows for two inputs.
//! Path: verdict → **lines**.
#![tactic(auto)]

mod answering;
mod choosing;
pub mod laws;
mod many;
mod numbered;
mod seat;
mod talking;
mod telling;
mod turning;

pub use many::Many;
pub use talking::{ManyEnd, many_lines};
