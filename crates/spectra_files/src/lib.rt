//! From the names of files to their trees.
//!
//! A file is read by its name, as far as a text may go, and its text is lexed and parsed. The files that it imports lie where
//! it does; they are read in the order in which it names them, up to the first that has no tree. What a file has instead of a
//! tree is told: it isn't there, the shelf failed, or its text is refused by a numbered fault at a line and a column.
//!
//! Contract: `reading::read_tree` and `reading::read_trees`, over any shelf; `importing::import_names`.
//! Path: words → **texts → tokens → trees** → specification.
#![tactic(auto)]

pub mod importing;
pub mod placing;
pub mod reading;
