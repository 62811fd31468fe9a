//! What is done for a command and a file.

ghost use Rattle.std.specs.Prelude.{◌≡◌, ◌≤◌, All, map, length, get_or, string_bytes};
ghost use Rattle.sp_outside.specs.Causes.{Rose};
ghost use Rattle.sp_outside.specs.Files.{told_file};
ghost use Rattle.spectra_trees.specs.Views.{tree_data};
ghost use Rattle.spectra_parser.specs.Shapes.{IsShaped};
ghost use Rattle.spectra_talks.specs.Streams.{moments};
ghost use Rattle.spectra_talks.specs.Offered.{OverOutput};
ghost use Rattle.spectra_top.specs.Top.{ServesTrees, ServesTree, ServesText, ServesFile};
ghost use Rattle.spectra_top.specs.Saying.{SaysStop};

use crate::deciding::serve_specification;
use command_words::Request;
use sp_outside::{Shelf, Sink, Source};
use spectra_files::importing::import_names;
use spectra_files::placing::TextFault;
use spectra_files::reading::{NoTree, read_tree, read_trees, tree_of};
use spectra_parser::Tree;
use spectra_talks::saying::{say_fault, say_no_file, say_shelf_fault};
use spectra_talks::status::Status;
use spectra_types::{TypeFault, resolve};
use std::alloc::Global;

// Says why the file of this name has no tree.
fn say_stop<O: Sink>(alloc: Global, name: &str, why: NoTree, output: &mut O) -> Status
    ensures { OverOutput O.written O.faults output.old output.new (λ before after. SaysStop name.now why before after result) }
{
    match why {
        NoTree::Missing => say_no_file(alloc, name, output),
        NoTree::Shelf => say_shelf_fault(alloc, name, output),
        NoTree::Refused {
            number,
            line,
            column,
        } => say_fault(alloc, name, line, column, number, output),
        NoTree::Memory => Status::Memory,
    }
}

// The name of an imported file by its number, or else that of the main one.
fn name_of<'n>(names: &'n [String], main: &'n str, number: u32) -> &'n str
    ensures { result.now ≡ get_or (map string_bytes names.now) number main.now }
{
    match names.get(number as usize) {
        Some(name) => name,
        None => main,
    }
}

// Does what is asked for with the trees of the files of these names, behind which stands the main one's.
fn serve_trees<I: Source, O: Sink>(
    alloc: Global,
    request: Request<'_>,
    names: &[String],
    trees: &[Tree],
    input: &mut I,
    output: &mut O,
) -> Status
    requires budget { 2 ≤ request.nodes }
    requires few { length names.now ≤ 1_048_576 }
    requires shaped { All IsShaped (map tree_data trees.now) }
    ensures { let at = moments I.left O.written I.reads I.faults O.faults in
        ServesTrees request.entry.command request.entry.nodes request.entry.file.now (at input.old output.old) (at input.new output.new)
        (map string_bytes names.now) (map tree_data trees.now) result }
{
    match resolve(alloc, trees) {
        Ok(spec) => serve_specification(alloc, request, &spec, input, output),
        Err(
            TypeFault::Refused {
                number,
                tree,
                line,
                column,
            },
        ) => {
            let file = name_of(names, request.file, tree);
            say_fault(alloc, file, line, column, number, output)
        }
        Err(TypeFault::Memory) => Status::Memory,
    }
}

// Does what is asked for with the tree of the main file.
fn serve_tree<F: Shelf, I: Source, O: Sink>(
    alloc: Global,
    request: Request<'_>,
    main: Tree,
    shelf: &mut F,
    input: &mut I,
    output: &mut O,
) -> Status
    requires budget { 2 ≤ request.nodes }
    requires shaped { IsShaped (tree_data main) }
    ensures serves { let at = moments I.left O.written I.reads I.faults O.faults in
        ServesTree request.entry.command request.entry.nodes (told_file (F.holds shelf.old)) (Rose (F.faults shelf.old) (F.faults shelf.new)) request.entry.file.now
        (at input.old output.old) (at input.new output.new) (tree_data main) result }
    ensures later { F.faults shelf.old ≤ F.faults shelf.new }
    ensures keeps { F.holds shelf.new ≡ F.holds shelf.old }
{
    let Ok(names) = import_names(alloc, request.file, &main) else {
        return Status::Memory;
    };
    match read_trees(alloc, shelf, &names) {
        Ok(imported) => {
            let mut trees = imported;
            if trees.push(main).is_err() {
                return Status::Memory;
            }
            serve_trees(alloc, request, &names, &trees, input, output)
        }
        Err(stop) => say_stop(alloc, &names[stop.number], stop.why, output),
    }
}

/// Does what is asked for with the text of the main file.
pub fn serve_text<F: Shelf, I: Source, O: Sink>(
    alloc: Global,
    request: Request<'_>,
    text: &[u8],
    shelf: &mut F,
    input: &mut I,
    output: &mut O,
) -> Status
    requires budget { 2 ≤ request.nodes }
    ensures serves { let at = moments I.left O.written I.reads I.faults O.faults in
        ServesText request.entry.command request.entry.nodes (told_file (F.holds shelf.old)) (Rose (F.faults shelf.old) (F.faults shelf.new)) request.entry.file.now
        (at input.old output.old) (at input.new output.new) text.now result }
    ensures keeps { F.holds shelf.new ≡ F.holds shelf.old }
{
    match tree_of(alloc, text) {
        Ok(main) => serve_tree(alloc, request, main, shelf, input, output),
        Err(
            TextFault::Refused {
                number,
                line,
                column,
            },
        ) => say_fault(alloc, request.file, line, column, number, output),
        Err(TextFault::Memory) => Status::Memory,
    }
}

/// Does what a command wants with its file and with the files that it imports.
pub fn serve_file<F: Shelf, I: Source, O: Sink>(
    alloc: Global,
    request: Request<'_>,
    shelf: &mut F,
    input: &mut I,
    output: &mut O,
) -> Status
    requires budget { 2 ≤ request.nodes }
    ensures serves { let at = moments I.left O.written I.reads I.faults O.faults in
        ServesFile request.entry.command request.entry.nodes (told_file (F.holds shelf.old)) (Rose (F.faults shelf.old) (F.faults shelf.new)) request.entry.file.now
        (at input.old output.old) (at input.new output.new) result }
    ensures keeps { F.holds shelf.new ≡ F.holds shelf.old }
{
    match read_tree(alloc, shelf, request.file) {
        Ok(main) => serve_tree(alloc, request, main, shelf, input, output),
        Err(why) => say_stop(alloc, request.file, why, output),
    }
}
