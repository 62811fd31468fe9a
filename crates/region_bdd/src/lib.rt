//! Regions as diagrams: sets of states of a game of any size, in a store with a budget of nodes.
//!
//! Each region and each move that is held has its diagrams in a slot; the object keeps besides the diagrams of the game's
//! own formulas. Where a call of the store is refused for want of nodes, the call of the object answers `Budget` and
//! the object tells from then on which call it was and all that was held.
//!
//! Contract: `RegionBdd::make` gives an object that holds nothing, and `RegionBdd` meets the trait `Regions` whole. An object
//! shows its budget where each bit stands at the level of its number, and 0 under the near order. Where it shows one and a
//! call answered `Budget`, all that was held fills the budget exactly, with named sets and with what one operation made so far
//! (`a_jam_fills_the_budget`); so the budget is then below the need of the game. Asked for the declared order, `make` answers
//! `Budget` only where named sets of the game's own formulas fill it; of the near order nothing is told.
//! Path: game → sets as diagrams → **regions as diagrams** → layers.
#![tactic(auto)]

mod asking;
mod ending;
mod finding;
mod first_moves;
mod forcing;
mod giving_back;
mod impls;
mod keeping;
pub mod laws;
mod leading;
mod making;
mod moves;
mod object;
mod ordering;
mod own;
mod search;
mod sets;
mod slots;
mod spending;
mod starting;

pub use object::RegionBdd;
pub use slots::{BddMove, BddRegion};
