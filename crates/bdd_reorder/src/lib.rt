//! Diagrams copied into another store with their levels rearranged, and how many parts diagrams have.
//!
//! A diagram is copied part by part, depth first: a part's copy is the choice, by the bit of its level's new place, between
//! the copies of its two parts (Bryant 1986, operations). The parts that wait for such a copy stand in a list, so no function
//! calls itself. The copies of one diagram's parts are found by the parts' numbers, and are given back before the next diagram
//! is copied.
//!
//! Contract (`MakesCopies`): each copy means its diagram with the levels rearranged; a refusal gives back all that was made, and
//! `Full` has its cause in what was kept at first, in the copies, and in one operation on these (`IsCrowdedByCopy`).
//! `count` is exact (`HaveParts`). Path: operations → **orders of the levels** → specification's order.
#![tactic(auto)]

mod copying;
mod counting;
mod found;
mod frames;
mod memo;
mod parts;
mod steps;

pub use copying::{copy, release_all};
pub use counting::count;
