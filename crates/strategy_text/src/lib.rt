//! Tables of strategies as texts: compact JSON, with the keys of each object rising.
//!
//! A whole number is written as such, a truth value too, an enum name as its text, and a hidden value as a number. What is read is
//! held to the declarations of the specification: each object has its keys and no other, each list its length, each value its domain.
//!
//! Contract: `text` is exact, and what it writes of a table of the specification's game reads as that table; `read` is exact.
//! Path: strategy → table → **text**.
#![tactic(auto)]

mod fault;
mod kind;
pub mod laws;
mod names;
mod nodes;
mod parts;
mod reader;
mod reading;
mod values;
mod writing;

pub use fault::ReadRefusal;
pub use reading::read;
pub use strategy_tables::TableFault;
pub use writing::text;
