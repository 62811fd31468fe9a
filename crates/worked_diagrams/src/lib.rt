//! Nodes, their store and operations on diagrams, worked out by hand: small tables of nodes, of answers and of diagrams, and
//! tables of operations.
//!
//! It has tests alone: they show of `node_table`, `bdd_cache`, `bdd_store` and `bdd_ops` what no clause says, that the calls
//! succeed, how much is still found after a table grew, and that the definitions say what is meant.
//! Path: **nodes** → **answers** → **store** → **operations** → codes.
#![tactic(auto)]

#[cfg(test)]
mod answers;
#[cfg(test)]
mod nodes;
#[cfg(test)]
mod operations;
#[cfg(test)]
mod stores;
