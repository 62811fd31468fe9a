/// A node of the store, by its number.
#[derive(Clone, Copy, Debug, PartialEq, Eq)]
pub struct Edge(pub u32);
