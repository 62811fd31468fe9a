//! Types without faults mean truth values, ranges and enums.
//!
//! Contract: by the law, each of them means one of these, where none goes round and the bounds of each range have numbers.
//! Path: text → tokens → trees → **resolved trees** → judge → specification → game → regions → layers → strategy → verdict →
//! lines.
#![tactic(auto)]

pub mod laws;
