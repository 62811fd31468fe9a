//! The hidden table of a pattern (Maoz and Ringert 2021, patterns).
//!
//! A pattern has parameters, which are truth values, and variables of its own, which its lines determine along every run:
//! one assignment alone may begin, and one alone may follow each at each letter of the parameters. The table's values are
//! the assignments of the own variables, numbered in declared order, the last variable changing fastest; its atoms are the
//! parameters as `Var(0)`, `Var(1)` and so on, bit k of a letter is parameter k, and each goal has a truth table.
//!
//! Contract: `rows` gives the table, or refuses exactly the patterns that are too wide or not determined; by
//! `tables_are_patterns` it has the pattern's own values and goals on every run. Path: specification → **tables** → game.
#![tactic(auto)]

mod block;
mod choices;
mod fault;
mod filling;
mod found;
mod laws;
mod numbering;
mod sight;
mod wide;
mod words;

pub use fault::RowFault;
pub use filling::rows;
pub use laws::{tables_are_filled, tables_are_patterns, typed_patterns_have_tables};
