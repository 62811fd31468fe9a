//! The spot of a play.

/// What is remembered after a position: the goal aimed at and the number of an assumption, each counted from 1 in text order, and
/// the state's rank for the goal.
#[derive(Clone, Copy, PartialEq, Eq)]
pub struct Spot {
    pub goal: u32,
    pub rank: u64,
    pub index: u32,
}
