//! The items of several files.

ghost use Rattle.std.specs.Prelude.{◌≡◌, ◌++◌, map, IfOk, OnOk};
ghost use Rattle.spectra_trees.specs.Views.{item_data, tree_data};
ghost use Rattle.spectra_declared.specs.Items.{items_from};
ghost use Rattle.spectra_declared.specs.ItemViews.{filed_data};

use spectra_trees::tree::{Item, Tree};
use std::alloc::{AllocError, Global};

/// An item, and the number of its file.
#[derive(Clone, Copy)]
pub struct Filed<'t> {
    pub file: usize,
    pub item: &'t Item,
}

// Puts the items of a file behind others.
fn add_items<'t>(all: &mut Vec<Filed<'t>>, file: usize, items: &'t [Item]) -> Result<(), AllocError>
    ensures { OnOk result (map filed_data all.new.items ≡ map filed_data all.old.items ++ map (λ i. (file, i)) (map item_data items.now)) }
{
    for item in items {
        all.push(Filed { file, item })?;
    }
    Ok(())
}

/// The items of several files, file by file.
pub fn items_of<'t>(alloc: Global, trees: &'t [Tree]) -> Result<Vec<Filed<'t>>, AllocError>
    ensures { IfOk result (λ all. map filed_data all.items ≡ items_from 0 (map tree_data trees.now)) }
{
    let mut all = Vec::new(alloc);
    for (file, tree) in trees.iter().enumerate() {
        add_items(&mut all, file, &tree.items)?;
    }
    Ok(all)
}
