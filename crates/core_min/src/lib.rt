//! A core: a set that loses and wins without any one of its members.
//!
//! A judge says which sets of numbers win. The numbers are tried in rising order: where the present set still loses
//! without one, that number is dropped (Könighofer et al. 2009, unrealizable cores). A part of the present set that is
//! known to lose is kept beside it, and a number that it hasn't is dropped unasked. Where many numbers are still to be
//! tried, the part is made smaller by guesses: so where few of many numbers lose there are mostly fewer questions than
//! numbers. Few numbers take one question each, and no contract says how many there are.
//!
//! Contract: `core` gives exactly what trying in order leaves, and that is a core. Path: verdict → **core** → lines.
#![tactic(auto)]

mod fault;
mod guessing;
mod judge;
mod losing;
mod trying;

pub use fault::CoreFault;
pub use judge::Judge;
pub use trying::core;
