//! What no row of `worked_rows` shows: the hidden tables of past operators and triggers beside plain programs, along all short
//! runs; planes of many lengths, and of expressions of each kind; the texts of arbiters; and the adapters over the system's files and streams.
//!
//! It has tests alone: they show of `past_bits`, `trigger_dfa`, `column_planes`, `spec_gen` and `sp_outside` what no clause says,
//! that the calls succeed, and that the definitions say what is meant. Path: specification → **tables** → game; game → **planes** →
//! findings.
#![tactic(auto)]

#[cfg(test)]
mod adapters;
#[cfg(test)]
mod arbiters;
#[cfg(test)]
mod expressions;
#[cfg(test)]
mod past_operators;
#[cfg(test)]
mod planes;
#[cfg(test)]
mod regexes;
#[cfg(test)]
mod triggers;
