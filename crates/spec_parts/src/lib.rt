//! Specifications with other guarantees: a part of them, or one that can never be met.
//!
//! Contract: `without` and `forced`, whose answers are well typed where the specification is, and need no more hidden tables.
//!
//! Path: text → tokens → trees → **specification** → game → regions → layers → strategy → verdict → lines.
#![tactic(auto)]

mod restricting;

pub use restricting::{forced, without};
pub use std::alloc::AllocError as OutOfMemory;
