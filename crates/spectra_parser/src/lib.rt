//! The tree of a text's tokens, by the grammar.
//!
//! The grammar is a relation between tokens and trees with one line for each production, and no text has two trees. Each
//! production is one function here.
//!
//! Contract: `parse` answers the tree exactly where there is one, so that every text of the grammar gets its tree. Path: tokens → **trees** → specification.
#![tactic(auto)]

mod braces;
mod declaration;
mod item;
mod laws;
mod limits;
mod lines;
mod parsing;
mod quotes;
mod types;

pub use laws::{no_text_has_two_trees, one_fault_explains_a_text};
pub use parsing::{imports, parse};
pub use spectra_exprs::fault::SyntaxFault;
pub use spectra_trees::tree;
pub use spectra_trees::tree::{Name, Place, Tree};
