//! The table of a strategy: its nodes are where plays end that agree in their state and their spot, numbered as they are first met.
//!
//! Contract: `system_table` gives a table that meets its rules in the specification's game. Path: strategy → **table** → text.
#![tactic(auto)]

mod digest;
mod moving;
mod nodes;
mod seats;
mod system;
mod walk;

pub use system::system_table;
