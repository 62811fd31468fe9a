//! Whether a table meets its rules: the check of a strategy that somebody hands in, whoever made it.
//!
//! Each row is compared with the game's own moves, each node with those that may come next, and the greatest ranks are added up.
//! No solver, no layer and no set of states stands among the crates below.
//!
//! Contract: `check` names the first rule that fails, with its node; where it answers `Sound` the table's claim is true of the
//! specification. Path: text → table → **check** → verdict.
#![tactic(auto)]

mod checker;
mod checking;
mod environment;
mod held;
mod judges;
mod moves;
mod room;
mod rows;
mod same;
mod sums;
mod system;
mod turn;

pub use checking::{CheckEnd, check};
