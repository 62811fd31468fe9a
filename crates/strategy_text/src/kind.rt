//! The two kinds of tables.

/// Whose strategy a table is.
#[derive(Clone, Copy, PartialEq, Eq)]
pub enum Kind {
    /// The system's.
    Controller,
    /// The environment's.
    Counterstrategy,
}
