//! Nodes of reduced diagrams, each level and pair of parts once.
//!
//! A node has a level and two parts of later levels, which are nodes of the same table; nodes 0 and 1 are the
//! constants (Bryant 1986, and Brace, Rudell and Bryant 1990 for the unique table). Nodes that aren't marked are freed
//! by a sweep over the table.
//!
//! Contract: `Nodes::find_or_add` answers the one node of a level and two parts, and `Full` exactly where there is
//! none and the table holds its budget; `Nodes::sweep` frees exactly the unmarked nodes. Path: **nodes** → answers →
//! store → operations.
#![tactic(auto)]

mod columns;
mod fault;
mod index;
mod node;
mod nodes;
mod rebuild;
mod walk;

pub use fault::NodeFault;
pub use node::Node;
pub use nodes::Nodes;
/// Memory ran out.
pub use std::alloc::AllocError as OutOfMemory;
