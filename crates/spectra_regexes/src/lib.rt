//! Regular expressions of the grammar, which triggers are made of.
//!
//! The grammar is a relation between tokens and trees with one line for each production, and each production is one
//! function here. An atom is an expression.
//!
//! Contract: `regex` reads a regular expression, or stops at a token. That this token is the first that goes on none is a law
//! of whole texts (`spectra_parser`). Path: tokens → **trees** → specification.
#![tactic(auto)]

pub mod regex;
mod repeats;
