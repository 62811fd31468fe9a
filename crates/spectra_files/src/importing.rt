//! The names of the files that a file imports.

ghost use Rattle.std.specs.Prelude.{◌≡◌, map, string_bytes, IfOk};
ghost use Rattle.spectra_trees.specs.Views.{tree_data};
ghost use Rattle.spectra_files.specs.Reading.{import_name as import_name_lem, import_names as import_names_lem};

use sp_outside::OutOfMemory;
use spectra_parser::{Tree, imports};
use std::alloc::Global;

// The name of the file that a file imports by this text: it lies where the file does.
fn import_name(alloc: Global, file: &str, text: &str) -> Result<String, OutOfMemory>
    ensures { IfOk result (λ name. string_bytes name ≡ import_name_lem file.now text.now) }
{
    match file.rsplit_once('/') {
        Some((folder, _)) => format!(in alloc; "{folder}/{text}"),
        None => String::from_str(alloc, text),
    }
}

#[tactic(auto, using(std::proofs::lemmas::List::map_push))]
/// The names of the files that the file of a tree imports, in the order in which it names them.
pub fn import_names(alloc: Global, file: &str, tree: &Tree) -> Result<Vec<String>, OutOfMemory>
    ensures { IfOk result (λ names. map string_bytes names.items ≡ import_names_lem file.now (tree_data tree.now)) }
{
    let mut names = Vec::new(alloc);
    for import in imports(tree) {
        names.push(import_name(alloc, file, &import.text)?)?;
    }
    Ok(names)
}
