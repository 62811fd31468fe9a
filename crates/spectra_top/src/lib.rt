//! All that the program `spectra` does: from words, files and streams to lines and a status.
//!
//! `synth FILE` reads a specification, with the files that it imports, and says whether it is realizable. `run FILE` says the
//! same and, where the system wins, answers each line of the input by one line, so that the exchanged lines are one play of
//! legal moves that keeps what recurs within the printed K rounds. Where the environment wins, `counter FILE` answers each line
//! by a note and the next input, so that the exchanged lines beat the system within the printed N and M, and `core FILE` names
//! the guarantees of an unrealizable core. `separate FILE` says whether the environment, by its assumptions alone, beats a
//! system that can never meet its guarantee. `audit FILE` reads a log of positions, and says which line of the specification
//! is broken first, and where. `export FILE` writes the strategy of the side that wins as a table, and `verify FILE` reads
//! such a table, and says whether it wins. `order FILE` says how large the diagrams of the lines are, and a better order of the
//! variables where moving one at a time finds one. `gen N` does as `synth` for an arbiter of N clients. The verdict is decided
//! over sets of the states of the specification's game, by at most as many nodes at a time as `--nodes` says.
//!
//! Contract: `top::spectra`. Path: words and bytes → tokens → trees → specification → verdict → **lines and status**.
#![tactic(auto)]

mod deciding;
mod generating;
pub mod laws;
mod ordering;
mod serving;
pub mod top;
