//! A better order of a specification's variables, and how many nodes its lines' diagrams have under each.
//!
//! The lines' functions are made once, in the order of a state. The declared order, and each order that a climb from it tries,
//! is counted by a copy in a second store, which is given back before the next one is made.
//!
//! Contract: `order_of` tells how many different parts the functions' diagrams have under the declared order, both constants
//! counted, and where moving one variable at a time leads from there: no single move betters what it tells (`IsReport`). Its
//! `Budget` comes only below the specification's need, where what is held under one order fills it (`CrowdedOrder`).
//! Path: functions of lines, orders of slots → **orders of variables** → lines.
#![tactic(auto)]

mod fault;
pub mod laws;
mod ordering;
mod report;
mod reporting;
mod searching;
mod slots;

pub use fault::OrderFault;
pub use ordering::order_of;
pub use report::{Better, OrderReport};
