//! The game that a specification is played as: its hidden tables, its lines by whom they bind and when they are judged, and
//! its goals.
//!
//! Past operators, pattern lines and triggers are hidden tables: those of the operators first, each different operator
//! once, and then one for each line, in text order. Lines, goals and the tables' atoms have entries in place of past
//! operators. After every run the game has the same legal moves as the specification, by the state that the hidden values
//! give, and the same goals recur (Bloem et al. 2012, games of initial, safety and recurring lines). What is asked while a
//! game is played stands in `game_play`, whose calls are named here too.
//!
//! Contract: `expand` gives a well-made game that agrees with a well-typed specification.
//! Path: specification → **game** → regions.
#![tactic(auto)]

mod expanding;
mod labelling;
mod laws;
mod player;
mod sorting;
mod source;
mod tables;

pub use expanding::expand;
pub use game_play::{InputJudge, OutputJudge, first_hidden, next_hidden};
pub use laws::{games_agree, lines_rise};
