//! Expressions in which everything is put in: bodies for uses of definitions, and arguments for parameters.
//!
//! Contract: `put_in` makes the expression that the definition of that name gives for these bodies, with the places of its
//! parts and with each quantifier written out whose bounds have numbers, exactly where it has at most so many nodes and levels.
//!
//! Path: text → tokens → trees → resolved trees → judge → **elaborated trees** → specification → game → regions → layers →
//! strategy → verdict → lines.
#![tactic(auto)]

pub mod definitions;
pub mod following;
pub mod frames;
pub mod given;
pub mod giving;
pub mod handing;
pub mod last;
pub mod laws;
pub mod parts;
pub mod putting;
pub mod rows;
