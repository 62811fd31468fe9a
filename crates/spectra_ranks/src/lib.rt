//! Definitions none of which is used in its own body have an order.
//!
//! Contract: by the law, there is an order in which each of them stands behind those that it uses.
//! Path: text → tokens → trees → **resolved trees** → judge → specification → game → regions → layers → strategy → verdict →
//! lines.
#![tactic(auto)]

pub mod laws;
