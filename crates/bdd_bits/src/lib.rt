//! Diagrams over bits, whatever level each bit stands at.
//!
//! The size of a diagram depends on the order of its levels, and what is kept as diagrams doesn't: so callers
//! name bits, and an order says at which level of the store each bit stands. Where each bit stands at the level of its
//! number, these are the operations on levels.
//!
//! Contract (`GivesRoot`): an operation's root means its operation over bits; a refusal leaves what is kept, and what may
//! be made on the way is told of that one order. Path: operations → **bits** → formulas, regions.
#![tactic(auto)]

mod calls;
mod diagrams;
mod moves;
mod order;
mod paths;
mod placing;
mod together;

pub use bdd_ops::{Root, StoreFault};
pub use diagrams::Diagrams;
pub use order::Order;
pub use together::Conjunction;
/// Memory ran out.
pub use std::alloc::AllocError as OutOfMemory;
