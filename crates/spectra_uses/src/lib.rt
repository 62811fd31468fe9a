//! The definitions that expressions use: which use themselves, and an order in which each stands behind those that it uses.
//!
//! Contract: `order_of` says of each definition whether it is used in its own body, directly or through others, and its order is
//! one for all that aren't.
//!
//! Path: text → tokens → trees → **resolved trees** → judge → elaborated trees → specification → game → regions → layers →
//! strategy → verdict → lines.
#![tactic(auto)]

pub mod cycles;
mod marks;
pub mod order;
pub mod placing;
mod users;
pub mod uses;
mod walking;
