//! Sets of states of a game, and the moves that lead into them, however they are kept.
//!
//! The solvers and both strategies are written over the trait `Regions` and cite nothing else. Its calls are set
//! algebra, the states that a player can force the next state into (Bloem et al. 2012, solving GR(1) games), and
//! the moves that do it.
//!
//! Contract: `Regions`, with its member `kept`; the laws are in `laws`. Path: game → **regions** → layers.
#![tactic(auto)]

pub mod laws;
mod regions;
mod types;
mod worked;

pub use regions::Regions;
pub use types::{Halt, MakeRefusal, Recur, When};
pub use worked::greatest;
