//! The states of a game, numbered in the order of their values, and the moves between them by number.
//!
//! Every state is read once: the value of each variable, the entries of the hidden tables, and the hidden values that
//! follow. From then on lines are judged, and moves found, by the numbers of states.
//!
//! Contract: `number` gives a `Numbered` of the game, whose fields and calls tell what is seen of each state, which
//! moves are legal and where they lead. Path: game → **numbered states** → regions as rows.
#![tactic(auto)]

mod choices;
mod finding;
mod make;
mod moves;
mod numbered;
mod options;
mod places;
mod states;

pub use choices::place;
pub use make::{number, state_count};
pub use moves::{all_inputs, all_outputs, count_all_inputs, count_all_outputs};
pub use numbered::Numbered;
pub use options::PAST;
