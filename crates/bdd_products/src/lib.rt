//! Lines of moves joined to a target one after the other, with each level taken out as early as it can be.
//!
//! To join a target with all lines and take levels out at the end is to hold their whole conjunction. A product joins
//! the target with one line after the other, and takes a level out as soon as no later line reads it: partitioned
//! relational products (Burch, Clarke and Long 1991). The function is the same. A product keeps the conjunction of the
//! first several lines, as long as that is small, and each other line alone; in a store whose bits don't stand as they are
//! declared it keeps all lines in groups.
//!
//! Contract: where inputs avoid a set (`early::avoided`), and the states from which players force one, are what the
//! plain way gives. Where the budget ends a call, only sets of the plain way fill it (`cause`), so that where a product finds
//! the store full the plain way is tried; but where lines are grouped that is answered, and nothing is told of it.
//! Path: sets as diagrams → **products** → regions as diagrams.
#![tactic(auto)]

pub mod early;
mod front;
mod grouping;
mod product;
mod reading;
mod sorting;
mod spreading;

pub use product::{Product, taken_out};
