//! The hidden table of a trigger.
//!
//! A side of a trigger is a regular expression over positions of a run. With its repeats written out, each bracket is a
//! position of the side, and a state is the set of positions that may just have been read (Glushkov 1961; McNaughton and
//! Yamada 1960, positions of regular expressions). A set with a last position ends the phase: it is the start of the other
//! side. The table's values are the cause's states and then the effect's, each side breadth first by rising letters.
//!
//! Contract: `build` gives the table that `table_of` tells, and is `Wide` exactly past the limits of `IsNarrow`; by
//! `laws::goal_is_not_pending` its entry on every run tells that no effect is pending.
//! Path: specification → **tables** → game.
#![tactic(auto)]

mod atoms;
mod counting;
mod fault;
pub mod laws;
mod laying;
mod masks;
mod rows;
mod same;
mod side;
mod skipping;
mod states;
mod table;
mod unwrapping;
mod walk;

pub use fault::DfaFault;
pub use table::build;
