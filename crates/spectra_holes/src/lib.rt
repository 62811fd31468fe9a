//! What is left of an expression as it is written, where it is put in: holes for faulty arguments.
//!
//! Contract: `holed` makes the expression in which each argument of a predicate is a hole where a fault stands in it, where it
//! misfits its parameter, or where the parameter's type has no meaning.
//! Path: text → tokens → trees → resolved trees → judge → **holes** → elaborated trees → specification → game → regions →
//! layers → strategy → verdict → lines.
#![tactic(auto)]

pub mod holing;
pub mod laws;
