//! The table of a counterstrategy: its nodes are where plays end that agree in their state and their spot, numbered as they are
//! first met; each has the input that is given next, and a row over all outputs.
//!
//! Contract: `environment_table` gives a table that meets its rules in the specification's game. Path: counterstrategy → **table**
//! → text.
#![tactic(auto)]

mod digest;
mod environment;
mod moving;
mod nodes;
mod seats;
mod walk;

pub use environment::environment_table;
pub use strategy_tables::TableFault;
