//! What is known of a definition that gives back a parameter as it is.

/// The place of the parameter, and how deep bodies may have to stand in one another in its use: one for its own, and one more
/// for each that stands in that.
#[derive(Clone, Copy)]
pub struct Given {
    pub place: usize,
    pub deep: usize,
}
