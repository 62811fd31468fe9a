//! The trees of the grammar, the tokens that they are made from, and the numbers of faults.
//!
//! A tree keeps the place of each name and of each operator. A token has a class: what it is for the grammar.
//!
//! Contract: `class_of` is the table of words and signs. Path: tokens → **trees** → specification.
#![tactic(auto)]

pub mod chain;
pub mod class;
pub mod faults;
pub mod laws;
pub mod lexeme;
mod spellings;
pub mod tree;
