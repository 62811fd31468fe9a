//! Expressions of the grammar.
//!
//! The grammar is a relation between tokens and trees with one line for each production. Each production is one function
//! here, which reads a tree at the front of the tokens. What it reads is of the grammar, and what is of the grammar it
//! reads, in one way; the laws of that stand with the grammar, for the crates above.
//!
//! Contract: `whole` reads an expression, or stops at a token. That this token is the first that goes on none is a law of
//! whole texts (`spectra_parser`). Path: tokens → **trees** → specification.
#![tactic(auto)]

pub mod fault;
pub mod formulas;
pub mod operands;
pub mod operators;
pub mod quantifiers;
pub mod sums;
pub mod terms;
