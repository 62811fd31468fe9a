//! What an audit finds.

use spec_model::game::Label;

/// A line that is broken, and the position, counted from 1, at whose move it is.
#[derive(Clone, Copy, PartialEq, Eq)]
pub struct Finding {
    pub label: Label,
    pub position: u64,
}
