//! The bodies that are put in for definitions, and the faults of types and of definitions.
//!
//! Contract: `bodies_of` gives what is put in for each definition that has a meaning; `report_declared` finds the first fault
//! of a text's types and definitions, those of bounds with everything put in among them.
//! Path: text → tokens → trees → resolved trees → judge → types → notes → **bodies** → elaborated trees → specification →
//! game → regions → layers → strategy → verdict → lines.
#![tactic(auto)]

pub mod basis;
pub mod bounds;
mod definitions;
pub mod laws;
mod places;
pub mod putting;
pub mod reporting;
mod types;
mod unmeant;
