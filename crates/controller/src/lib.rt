//! The system's strategy of a game with recurring lines, one position after the other.
//!
//! The play stays in the winning states and turns to the recurring guarantees one after the other: the output leads to
//! the least rank for the goal aimed at, and while neither goal nor rank changes the play waits for one violated
//! assumption (Bloem et al. 2012, solving GR(1) games; that this assumption is kept is this project's own).
//!
//! Contract: `Controller`, for each play that it stands for: `start` and `step` write the output that is chosen, `legal`
//! names the first assumption that an input breaks, and `close` spends all that is held. `spot` tells where a play is, by its
//! last state and what is remembered there, `go` goes to where any such play ends, and `again` to the start. Only
//! `Controller::make` takes memory: it makes the moves into each layer and each part, so that a position tries moves and reads
//! regions, and makes none. Replies are remembered, and a state that comes again with its input tries nothing.
//! Path: layers → **controller** → lines.
#![tactic(auto)]

mod aims;
mod choosing;
mod controller;
mod equipping;
mod making;
mod remembered;
mod replies;
mod settling;
mod spending;
mod spot;
mod turning;

pub use controller::Controller;
pub use spot::Spot;
