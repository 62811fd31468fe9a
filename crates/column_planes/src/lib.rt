//! Planes: where an expression holds at many positions, a bit for each of them, 64 to a word.
//!
//! The operations on planes work by lanes of `std::simd`, eight words or 64 codes at a time, and give what their plain
//! definitions say at every length.
//!
//! The values of the variables at 4,096 positions are given as columns of codes, and the cells of the hidden tables as columns
//! of numbers. The plane of a truth value, and of a comparison of a variable with a value, is made of a column by `equal_codes`.
//! Other comparisons are worked out by the values of both sides, 64 positions at a time, and entries of tables by their cells.
//! What is made of these by Boolean operations is worked out on planes.
//!
//! Contract: where `plane` says true, it wrote the plane of the expression. Nothing here takes memory.
//! Path: specification → game → **planes** → findings.
#![tactic(auto)]

mod codes;
mod coding;
mod columns;
mod compared;
mod entries;
mod numbers;
mod planes;
mod truths;
mod zeros;

pub use codes::equal_codes;
pub use coding::code_in;
pub use columns::Columns;
pub use planes::{and_planes, not_plane, or_planes};
pub use truths::{plane, write_all};
pub use zeros::{first_zero, words_for};
