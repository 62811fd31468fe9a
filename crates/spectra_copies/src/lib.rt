//! Quantifiers written out: a copy of the body for each number of the range, with the places of the text; and the parts from
//! which trees are made, within room for their nodes.
//!
//! Contract: `write_out` gives an expression in which each quantifier whose bounds have numbers is written out, exactly where it
//! has at most so many nodes; `write_text` does so with a text's expressions, as long as there is room; `number_in` gives the
//! number of an expression that reads no variable.
//!
//! Path: text → tokens → trees → **resolved trees** → judge → specification → game → regions → layers → strategy → verdict →
//! lines.
#![tactic(auto)]

pub mod counted;
pub mod nodes;
pub mod numbers;
pub mod parts;
pub mod quantifiers;
pub mod ranges;
pub mod refusal;
pub mod rows;
pub mod texts;
pub mod writing;
