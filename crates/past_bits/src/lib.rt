//! Past operators as hidden tables of one truth value each (Havelund and Roşu 2002, monitoring of past operators).
//!
//! Equal trees share one table. Those within others come first, and otherwise they stand by first meeting in text order:
//! their tables are the first of the game, so the entry of the table numbered h is `Table(h, 0)`. The value of a table is
//! what its operator was at the position before, and for `PREV` what its operand was.
//!
//! Contract: `bits` gives each operator with its table, and `Operators::with_entries` a formula in which each operator is
//! its table's entry; by `entries_are_operators` both have the operators' values on every run.
//! Path: specification → **tables** → game.
#![tactic(auto)]

mod collecting;
mod digest;
mod entries;
mod laws;
mod operators;
mod same;
mod tables;

pub use laws::{entries_are_operators, tables_are_made};
pub use operators::Operators;
pub use tables::bits;

/// Memory ran out.
pub use std::alloc::AllocError as OutOfMemory;
