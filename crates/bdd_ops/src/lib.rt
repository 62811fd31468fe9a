//! Operations on reduced diagrams: choices, quantifiers over levels, and looking at a diagram.
//!
//! Each operation is one step over edges: what is known at once, what is remembered, the parts at the least level, and
//! the node that joins their answers (Bryant 1986, operations). An answer is remembered under the operation's number;
//! an operation over a list of levels has a number for each list, so answers about other lists are other answers. A question
//! whose parts are asked first waits in a list of frames in memory (`frames`), so that its depth takes none of the machine's
//! stack.
//!
//! Results that a question still needs while others are asked stand on the store's stack, so that a full store can free all else and
//! go on. The steps work on `Work`; between the calls of `Diagrams` nothing is on the stack.
//!
//! Contract (`GivesRoot`): an operation's root means its operation, and a refusal leaves what is kept; `Full` comes only
//! where the store then holds exactly its budget, and each node is a constant or stands in a kept root or an unfinished
//! result.
//! Path: store → **operations** → formulas, regions.
#![tactic(auto)]

mod bits;
mod calls;
mod choice;
mod common_paths;
mod diagrams;
mod frames;
mod joins;
pub mod laws;
mod leaving;
mod level_list;
mod lists;
mod look;
mod paths;
mod quantify;
mod relate;
mod remembered;
mod rows;
mod shift;
mod split;
mod together;
mod work;

pub use bdd_store::{Root, StoreFault};
pub use diagrams::Diagrams;
pub use split::Split;
pub use together::Conjunction;
/// Memory ran out.
pub use std::alloc::AllocError as OutOfMemory;
