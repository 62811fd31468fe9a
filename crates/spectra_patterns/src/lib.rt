//! Patterns and triggers: their faults, what they mean in a specification (Maoz and Ringert 2021, patterns and triggers), and how
//! many hidden tables lines have.
//!
//! A pattern sees nothing but its parameters, its own variables and enum names, so its lines are judged as they are
//! written. A trigger's brackets are judged by what is known where it stands.
//!
//! Contract: `pattern`, `report_atoms` and `report_repeats` find each fault of the lists `pattern_faults`, `atom_faults` and
//! `repeat_faults`; `trigger` gives what a trigger means, or None where a repeat is wrong or it is too wide. By the laws, a pattern and a trigger
//! without a fault are well typed. `report_hidden` finds the first line with which there are too many hidden tables.
//! Path: text → tokens → trees → resolved trees → judge → **specification** → game → regions → layers → strategy → verdict →
//! lines.
#![tactic(auto)]

mod counting;
pub mod domains;
mod gathering;
pub mod hidden;
pub mod laws;
pub mod patterns;
mod stop;
pub mod triggers;
