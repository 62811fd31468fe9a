//! Expressions in which everything is put in, with their nodes counted.

ghost use Rattle.std.specs.Prelude.{◌≡◌};
ghost use Rattle.spectra_resolved.specs.Views.{resolved_data};
ghost use Rattle.spectra_copies.specs.Nodes.{tree_nodes};

use spectra_resolved::tree::Resolved;

/// An expression in which everything is put in, and how many nodes it has.
#[derive(Drop)]
pub struct Counted {
    pub tree: Box<Resolved>,
    pub nodes: usize,
    pub ghost counted: { nodes ≡ tree_nodes (resolved_data tree.value) },
}
