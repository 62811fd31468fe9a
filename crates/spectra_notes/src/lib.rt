//! What is known of the names in a text: the kinds of variables, parameters and defines, and which definitions have a meaning.
//!
//! Contract: `notes_of` finds it for a text, each definition once, from those that it uses; `known_in_line`, `known_in_body`
//! and `known_in_pattern` hand it to the judge.
//! Path: text → tokens → trees → resolved trees → judge → types → **notes** → elaborated trees → specification → game →
//! regions → layers → strategy → verdict → lines.
#![tactic(auto)]

pub mod kinds;
pub mod notes;
pub mod patterns;
