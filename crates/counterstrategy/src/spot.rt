//! The spot of a play.

/// What is remembered of a position: the layer, counted from 1; the goal, and the assumption aimed at when the position came, each
/// counted from 1 in text order; and after a denial the number of the iterate into which the next input leads, after a shift 0.
#[derive(Clone, Copy, PartialEq, Eq)]
pub struct EnvSpot {
    pub layer: u64,
    pub goal: u32,
    pub asm: u32,
    pub rank: u64,
}
