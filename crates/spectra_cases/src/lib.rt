//! The formula of an expression in which everything is put in: it stands without its places, and for each index there is a case
//! of each element.
//!
//! An index of which one number alone may be meant is that element. Of an array of truth values the cases stand where the
//! element does, and else around the least comparison with it: in each the index is a number, at the next position where a
//! `next` stands between, and the comparison has the element of that number.
//!
//! Contract: `formula` gives the formula that the definition `formula_of` makes; `size_of` its nodes and levels, without making
//! it. By the laws an expression without a fault has a typed formula, and nothing that is banned is in it.
//!
//! Path: text → tokens → trees → resolved trees → judge → elaborated trees → **specification** → game → regions → layers →
//! strategy → verdict → lines.
#![tactic(auto)]

mod choosing;
pub mod exprs;
pub mod laws;
pub mod making;
mod readings;
pub mod sizes;
