//! A strategy as a table of nodes.

use spec_model::value::Value;

/// A state of a play, with what is remembered there. Goals and assumptions count from 1, nodes from 0.
#[derive(Drop)]
pub struct Node {
    /// The value of each hidden table, as a whole number.
    pub hidden: Vec<Value>,
    pub input: Vec<Value>,
    pub output: Vec<Value>,
    /// The assumption waited for.
    pub asm: u32,
    /// The goal aimed at, or denied.
    pub goal: u32,
    pub rank: u64,
    /// The layer in an environment's table, and 0 in a system's.
    pub layer: u64,
    /// The environment's next input; empty in a system's table.
    pub reply: Vec<Value>,
    /// The nodes that may come next, one for each legal input in a system's table, and for each legal output in an environment's.
    pub next: Vec<u32>,
}

/// A strategy with the numbers that it claims, and the nodes that plays begin with.
#[derive(Drop)]
pub enum Table {
    /// The system's: each stretch with k rounds meets each recurring guarantee.
    System {
        k: u64,
        first: Vec<u32>,
        nodes: Vec<Node>,
    },
    /// The environment's: each system is beaten within n shifts and m denials in a row. `reply` is the first input.
    Environment {
        n: u64,
        m: u64,
        reply: Vec<Value>,
        first: Vec<u32>,
        nodes: Vec<Node>,
    },
}
