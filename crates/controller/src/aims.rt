//! The moves into a layer and into each of its parts.

use regions::Regions;

/// The moves into a layer, and into each of its parts. They must be spent.
pub struct Aim<G: Regions> {
    pub layer: G::Move,
    pub parts: Vec<G::Move>,
}
