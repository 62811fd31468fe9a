//! Sets of states as diagrams: which function of bits tells which set, and what the operations make of them.
//!
//! A diagram stands for a set at the present or at the next bits where it is true of the bits of its states and of no
//! other bits. So two diagrams stand for one set exactly where they are one function.
//!
//! Contract: `members` makes the lines of a game's first and later moves (`FitMoves`), `updates` and `goals` those of its
//! hidden tables and goals, `levels` tells which bits are next ones, and `moves` tells where inputs avoid a set. Where the
//! budget ends a call, `cause` names what fills it: sets of the game's formulas, and of those of the target.
//! Path: codes, operations → **sets as diagrams** → regions as diagrams.
#![tactic(auto)]

pub mod forcing;
pub mod goals;
pub mod laws;
pub mod levels;
pub mod lines;
pub mod lists;
pub mod members;
pub mod moves;
pub mod spent;
pub mod steps;
pub mod updates;
