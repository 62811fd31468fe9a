//! Regions as rows of bits, one for each state, of a game of few states.
//!
//! The states are numbered in the order of their values, and the moves from each are tabulated once. It is the plain
//! program for the trait: another representation can be compared with it.
//!
//! Contract: `RegionRows::make`, and the trait `Regions`. Path: game → **regions as rows** → layers.
#![tactic(auto)]

mod finding;
mod impls;
mod moves;
mod row;
mod rows;
mod slots;

pub use rows::{RegionRows, RowsRefusal};
pub use slots::{RowMove, RowRegion};
