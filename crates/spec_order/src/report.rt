//! What is told of a specification's orders.

/// An order of the variables with fewer nodes than the declared one.
#[derive(Drop)]
pub struct Better {
    /// How many different parts the functions' diagrams have under it, both constants counted.
    pub nodes: u32,
    /// The variables' numbers, each once, as they stand in it.
    pub order: Vec<u32>,
}

/// The nodes under the declared order, and a better one, if climbing leads to one.
#[derive(Drop)]
pub struct OrderReport {
    /// How many different parts the functions' diagrams have under the declared order, both constants counted.
    pub nodes: u32,
    pub better: Option<Better>,
}
