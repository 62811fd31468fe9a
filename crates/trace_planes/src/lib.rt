//! The audit of a run: which line is broken first, and at which position.
//!
//! An audit is handed the positions of a run one after the other, and judges them as a game's moves are: an assumption by the
//! input, a guarantee or monitor's line by the output, each at the states that the positions before lead to.
//!
//! A check writes the positions that wait as columns of codes, one for each variable, and has the safety lines worked out on
//! planes. `first_zero` tells at which move a line is broken first. The plain audit goes past the moves before it, and names the
//! line that is broken. Where a line reads a hidden table, the tables' cells are written too, by a walk ahead of the judge. Where
//! planes tell nothing, the plain audit judges each position.
//!
//! Contract: `Audit::check` gives the first finding on the run of all positions that were pushed; `findings_agree`: in a game
//! that agrees with a specification it is the specification's. Only `Audit::make` takes memory.
//! Path: specification → game → **findings** → lines.
#![tactic(auto)]

mod audit;
mod clear;
mod columns;
mod finding;
mod judge;
mod laws;
mod passing;
mod plain;
mod run_state;
mod walk;
mod workspace;

pub use audit::Audit;
pub use column_planes::{and_planes, equal_codes, first_zero, not_plane, or_planes};
pub use finding::Finding;
pub use laws::findings_agree;
