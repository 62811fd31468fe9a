//! Shared reduced diagrams with roots: what is kept stays, and what no root reaches can be reclaimed.
//!
//! A store holds the nodes of reduced diagrams, one for each function (Bryant 1986), counts the roots that are kept,
//! and remembers answers to operations. The operations work on edges, which are nodes that the next sweep may free, put
//! those that they still need on the store's stack, and give out roots.
//!
//! Contract: two live nodes are equal exactly where their functions are (`IsStore`); `Store::node` frees nothing that a
//! kept root, the stack or its arguments reach (`KeepsHeld`), and answers `Full` exactly where a new node is wanted, the
//! store holds its budget, and all of it is reached so; `Store::reclaim` leaves exactly the constants and what kept roots
//! reach. Path: nodes, answers → **store** → operations.
#![tactic(auto)]

mod edge;
mod fault;
mod marking;
mod root;
mod store;

pub use edge::Edge;
pub use fault::StoreFault;
pub use root::Root;
pub use store::Store;
/// Memory ran out.
pub use std::alloc::AllocError as OutOfMemory;
