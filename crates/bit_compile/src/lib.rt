//! The bits of a game's states: the codes of their values, the levels that these stand at, and their diagrams.
//!
//! Each hidden table and each variable has the least number of bits that gives a code to each of its values. Codes rise
//! with the values, the most significant bit first, and a code past the last value stands for nothing. The levels follow
//! the order of a state: for each hidden table and then each variable, its present bits and then its next bits.
//!
//! A formula's function of these bits is made value by value: each value that a part may have, with where it has it.
//!
//! Contract: `Codes::write` gives the bits of a state, `Codes::has_code` the diagram of one value, `compile` that of a formula
//! over a state and the next one, `update` that of the next value of a hidden table, and `proper::proper` that of the bits
//! that are a state's. A compiled formula is its value by a clause of `compile`, which rests on the law
//! `laws::compiled_is_the_formula`. Where a budget ends these calls, what fills it is named (`HasCause`).
//! Path: game, operations → **codes** → regions as diagrams.
#![tactic(auto)]

mod arithmetic;
mod blocks;
mod bounds;
pub mod cases;
mod codes;
mod compiling;
mod domains;
mod folds;
mod formulas;
pub mod laws;
mod letters;
mod named;
mod numbers;
mod operation;
mod pairs;
pub mod proper;
mod reading;
mod scenes;
mod slots;
mod spans;
pub mod steps;
mod updates;

pub use codes::Codes;
pub use domains::{code, size};
pub use formulas::compile;
pub use numbers::power;
pub use updates::update;
/// Memory ran out.
pub use std::alloc::AllocError as OutOfMemory;
