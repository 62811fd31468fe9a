//! Small games: the environment's layers over both kinds of regions, beside those that a plain program finds.
//!
//! It has tests alone: they show that the definitions of regions and layers say what is meant. Path: game → **regions** →
//! **layers** → strategy → verdict.
#![tactic(auto)]

#[cfg(test)]
mod environment_layers;
