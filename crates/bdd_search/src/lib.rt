//! Values of states among bits: some are fixed before a search, and others are read from the bits that it found.
//!
//! A search gives the first bits, level by level and false before true, that agree with what is fixed. Levels follow the
//! order of a state and codes rise with the values, so the first bits are those of the first values
//! (`laws::first_bits_have_first_values`).
//!
//! Contract: `fix` fixes exactly the bits of the values, and `read` gives the values whose bits they are. Nothing here
//! takes memory.
//! Path: codes → **values among bits** → regions as diagrams.
#![tactic(auto)]

mod fitting;
mod fixing;
pub mod laws;
mod numbers;
mod reading;

pub use fitting::fit;
pub use fixing::{fix, loosen};
pub use reading::read;
