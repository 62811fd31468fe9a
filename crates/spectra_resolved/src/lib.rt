//! Trees in which each name is what it stands for, and the texts that they make up.
//!
//! Contract: `resolving::tree` gives the resolved tree of an expression, and its first misused name; `regexes::regex` does so
//! for a regular expression; `look::Look::named` gives what a name stands for where it stands; `table::Table::declare` gives
//! what a name was first declared as, and the fault of a second declaration.
//!
//! Path: text → tokens → trees → **resolved trees** → specification → game → regions → layers → strategy → verdict → lines.
#![tactic(auto)]

pub mod enum_names;
pub mod findings;
pub mod look;
pub mod naming;
pub mod numbers;
pub mod regexes;
pub mod resolving;
pub mod spot;
pub mod stand;
pub mod table;
pub mod text;
pub mod tree;
