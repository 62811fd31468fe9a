//! What an item of a text declares and says, with each name resolved: variables, types, definitions, patterns and lines.
//!
//! Contract: `variables::variable`, `variables::alias`, `definitions::add_defines`, `definitions::predicate`,
//! `patterns::pattern`, `lines::line` and `lines::add_monitor_lines` give what an item of their kind says, in which each name
//! is what it stands for, and the first of its faults of names.
//!
//! Path: text → tokens → trees → **resolved trees** → specification → game → regions → layers → strategy → verdict → lines.
#![tactic(auto)]

pub mod definitions;
pub mod lengths;
pub mod lines;
pub mod patterns;
mod spaces;
mod types;
pub mod variables;
