//! From the names of files to their trees.

ghost use Rattle.std.specs.Prelude.{◌≡◌, ◌≤◌, All, map, string_bytes, IfOk, IfErr};
ghost use Rattle.sp_outside.specs.Causes.{Rose};
ghost use Rattle.sp_outside.specs.Files.{told_file};
ghost use Rattle.spectra_trees.specs.Views.{tree_data};
ghost use Rattle.spectra_parser.specs.Shapes.{IsShaped};
ghost use Rattle.spectra_files.specs.Reading.{ReadsAs, FileReadsAs, FilesReadAs};
ghost use Rattle.spectra_files.specs.Refusals.{RefusesText, file_fault, HasNoTree, StopsAt};

use crate::placing::{TextFault, of_lexing, of_parsing};
use sp_outside::{FileFault, Shelf, read_file};
use spectra_lexer::{MAX_BYTES, lex};
use spectra_parser::{Tree, parse};
use std::alloc::Global;

/// Why a file has no tree.
#[derive(Clone, Copy, PartialEq, Eq)]
pub enum NoTree {
    /// There is no such file.
    Missing,
    /// The shelf failed.
    Shelf,
    /// Its text is refused by the fault with this number, at this line and column.
    Refused { number: u8, line: u32, column: u32 },
    /// No memory was given.
    Memory,
}

/// The first of several files that has no tree, by its number from 0, and why.
#[derive(Clone, Copy, PartialEq, Eq)]
pub struct Stop {
    pub number: usize,
    pub why: NoTree,
}

/// The tree of a text.
pub fn tree_of(alloc: Global, text: &[u8]) -> Result<Tree, TextFault>
    ensures reads { IfOk result (λ tree. ReadsAs text.now (tree_data tree)) }
    ensures shaped { IfOk result (λ tree. IsShaped (tree_data tree)) }
    ensures fault { IfErr result (RefusesText text.now) }
{
    match lex(alloc, text) {
        Ok(tokens) => match parse(alloc, text, &tokens) {
            Ok(tree) => Ok(tree),
            Err(fault) => Err(of_parsing(&tokens, fault)),
        },
        Err(fault) => Err(of_lexing(fault)),
    }
}

// Why a file whose text has no tree has none.
fn of_text(fault: TextFault) -> NoTree
    ensures { result ≡ file_fault fault }
{
    match fault {
        TextFault::Refused {
            number,
            line,
            column,
        } => NoTree::Refused {
            number,
            line,
            column,
        },
        TextFault::Memory => NoTree::Memory,
    }
}

/// The tree of the file of this name. No outcome changes a file.
pub fn read_tree<F: Shelf>(alloc: Global, shelf: &mut F, name: &str) -> Result<Tree, NoTree>
    ensures reads { IfOk result (λ tree. FileReadsAs (told_file (F.holds shelf.old) name.now) (tree_data tree)) }
    ensures shaped { IfOk result (λ tree. IsShaped (tree_data tree)) }
    ensures fault { IfErr result (HasNoTree (told_file (F.holds shelf.old) name.now) (Rose (F.faults shelf.old) (F.faults shelf.new))) }
    ensures later { F.faults shelf.old ≤ F.faults shelf.new }
    ensures keeps { F.holds shelf.new ≡ F.holds shelf.old }
{
    match read_file(alloc, shelf, name, MAX_BYTES + 1) {
        Ok(text) => match tree_of(alloc, &text) {
            Ok(tree) => Ok(tree),
            Err(fault) => Err(of_text(fault)),
        },
        Err(FileFault::Missing) => Err(NoTree::Missing),
        Err(FileFault::Shelf) => Err(NoTree::Shelf),
        Err(FileFault::Memory) => Err(NoTree::Memory),
    }
}

/// The trees of the files of these names, each of which is read before the next. No outcome changes a file.
pub fn read_trees<F: Shelf>(
    alloc: Global,
    shelf: &mut F,
    names: &[String],
) -> Result<Vec<Tree>, Stop>
    ensures read { IfOk result (λ trees. FilesReadAs (told_file (F.holds shelf.old)) (map string_bytes names.now) (map tree_data trees.items)) }
    ensures shaped { IfOk result (λ trees. All IsShaped (map tree_data trees.items)) }
    ensures stops { IfErr result (StopsAt (told_file (F.holds shelf.old)) (Rose (F.faults shelf.old) (F.faults shelf.new)) (map string_bytes names.now)) }
    ensures later { F.faults shelf.old ≤ F.faults shelf.new }
    ensures keeps { F.holds shelf.new ≡ F.holds shelf.old }
{
    let mut trees = Vec::new(alloc);
    for name in names {
        let number = trees.len();
        match read_tree(alloc, shelf, name) {
            Ok(tree) => {
                if trees.push(tree).is_err() {
                    let why = NoTree::Memory;
                    return Err(Stop { number, why });
                }
            }
            Err(why) => return Err(Stop { number, why }),
        }
    }
    Ok(trees)
}
