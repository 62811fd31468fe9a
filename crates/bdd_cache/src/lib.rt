//! A table of answers to operations on diagrams, which may forget.
//!
//! An answer is the number of a node, under the number of an operation and those of three nodes. The table has a
//! bounded number of cells, and a later answer may take an earlier one's cell: so a look-up is one step, and a miss
//! means nothing (Brace, Rudell and Bryant 1990, the memory function of a diagram package). Beside the cells stands the last
//! answer that fits into none.
//!
//! Contract: an answer that `Answers::get` finds was put under that key and nothing has removed it;
//! `Answers::keep_only` leaves exactly the answers whose nodes are all live. Path: nodes → **answers** → operations.
#![tactic(auto)]

mod answer;
mod answers;
mod cell;

pub use answer::Answer;
pub use answers::Answers;
/// Memory ran out.
pub use std::alloc::AllocError as OutOfMemory;
