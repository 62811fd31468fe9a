//! An order in which a game's tables and variables stand near those that they share lines with.
//!
//! How large diagrams get depends on the order of their levels. Slots that lines tie to one another are to stand near each
//! other. A tree of nearest ones grows (Prim 1957, maximum spanning trees): it begins with the slot that shares lines with most
//! others, and always that slot is hung on one which stands already that shares most with it. How much two share is what the
//! lines that both stand in weigh, of what all lines of the one that has more weigh; a line weighs the less the more slots it
//! has, and small parts of it, as of one number of a quantifier or one case of an index, count as lines beside. The order is a
//! walk through the tree, in which what hangs on a slot stays together.
//!
//! Contract: none says which order it is, since nothing that is told of a game rests on it; who uses it looks whether each
//! slot stands once. Path: game → **order of slots** → order of bits → regions as diagrams.
#![tactic(auto)]

mod cases;
mod growing;
mod lines;
mod marking;
mod share;
mod walk;

pub use growing::near_slots;
/// Memory ran out.
pub use std::alloc::AllocError as OutOfMemory;
