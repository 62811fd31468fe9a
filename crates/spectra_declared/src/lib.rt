//! All that several files declare and say: their items, what their names stand for, and the whole text with each name resolved.
//!
//! Contract: `declared::declared` gives what every name of several files stands for, and the first fault of the declarations;
//! `text::resolved_text` gives the whole text, in which each name is what it stands for, and the first of all faults of names.
//!
//! Path: text → tokens → trees → **resolved trees** → specification → game → regions → layers → strategy → verdict → lines.
#![tactic(auto)]

pub mod declared;
pub mod declaring;
pub mod items;
mod limits;
mod mentions;
pub mod text;
