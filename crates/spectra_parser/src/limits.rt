//! The limit of nesting.

/// The levels that an expression or a trigger may open.
pub const LEVELS: u32 = 128;
