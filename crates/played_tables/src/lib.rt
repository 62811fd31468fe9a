//! The tables of strategies that play by layers.
//!
//! A node is where plays end that agree in their state and in what is remembered there; its row has the nodes to which the moves
//! from there lead, one for each legal move of the other side, in the order of assignments.
//!
//! Contract: `laws::played_tables_are_sound`, of the system's strategy, and `laws::answered_tables_are_sound`, of the
//! environment's: such tables meet the rules that any table is checked by. Path: strategy → **its table** → text.
#![tactic(auto)]

pub mod laws;
