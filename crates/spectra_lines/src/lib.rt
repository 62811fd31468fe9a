//! What the lines and patterns of a text say, and every fault of them.
//!
//! Contract: `read_lines` finds the first fault of all lines and patterns, in what is written and with everything put in, by their
//! sizes and by the number of hidden tables; and it gives the statements, triggers and patterns that they mean.
//! Path: text → tokens → trees → resolved trees → judge → elaborated trees → **statements** → specification → game → regions →
//! layers → strategy → verdict → lines.
#![tactic(auto)]

pub mod facts;
mod judging;
pub mod laws;
mod lines;
mod meaning;
pub mod order;
mod putting;
mod reading;
pub mod said;
mod sizes;
mod trees;
