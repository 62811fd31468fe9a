//! The numbers of bounds, the types that ranges, enums and names of types stand for, and which types go round.
//!
//! Contract: `constants_of` gives for each define the number that a bound has from it, where it has one; `type_kind` what a
//! type stands for; `report_range` finds a range that has no number, or too many; `report_type_cycles` each type that is
//! used in its own body.
//! Path: text → tokens → trees → resolved trees → judge → **types** → elaborated trees → specification → game → regions →
//! layers → strategy → verdict → lines.
#![tactic(auto)]

pub mod constants;
pub mod cycles;
pub mod types;
