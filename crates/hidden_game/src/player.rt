//! Whom a line binds, and when it is judged.

/// Whom a line binds.
#[derive(Clone, Copy, PartialEq, Eq)]
pub enum Player {
    /// The environment, by assumptions.
    Environment,
    /// The system, by guarantees and monitors' lines.
    System,
}

/// When a line is judged.
#[derive(Clone, Copy, PartialEq, Eq)]
pub enum Time {
    /// At the first position.
    First,
    /// At each position.
    Always,
}
