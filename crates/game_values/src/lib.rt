//! The value of a game's expressions at a state and the next, and which lines hold at a move.
//!
//! What is seen of a state and the next one is told by its `Seen`: the value of each variable, and the entries of the hidden
//! tables, which were read before or are found in their tables where they are asked for. Where every state is read once,
//! it is seen by its `Moment`. Well-made games keep every number within 10^12 either way, so no sum overflows.
//!
//! Contract: `eval::value` is the value of the definition in the reading of any `Seen`. Path: game → **values** → numbered
//! states.
#![tactic(auto)]

pub mod cells;
pub mod eval;
pub mod late;
pub mod lines;
pub mod moments;
pub mod read;
pub mod seen;
pub mod values;
