/// A node: the level whose bit it looks at, and the nodes that are followed where that bit is false and where it is
/// true. A constant has the number of levels as its level.
#[derive(Clone, Copy, PartialEq, Eq)]
pub struct Node {
    pub level: u32,
    pub low: u32,
    pub high: u32,
}
