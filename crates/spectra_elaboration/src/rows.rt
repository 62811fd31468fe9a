//! Operators in rows, whose first operand may come to others: all of them, behind what has none.

ghost use Rattle.std.specs.Prelude.{◌≡◌, ℕ, ◌<◌, List, ◌++◌, length, map, reverse, drop, OnOk, MatchResult, IsErrOf, ◌&&◌, if◌then◌else◌};
ghost use Rattle.spectra_resolved.specs.Chained.{chained};
ghost use Rattle.spectra_resolved.specs.Views.{resolved_data, link_data};
ghost use Rattle.spectra_copies.specs.Nodes.{tree_nodes};
ghost use Rattle.spectra_copies.specs.Levels.{is_row_word as is_row_word_lem};
ghost use Rattle.spectra_copies.specs.Links.{ends_at, link_levels};
ghost use Rattle.spectra_elaboration.specs.Putting.{Bodies};
ghost use Rattle.spectra_elaboration.specs.declared.frames.Frame.{Frame};
ghost use Rattle.spectra_elaboration.specs.DefinitionViews.{definitions_data};
ghost use Rattle.spectra_elaboration.specs.Frames.{AreFrames, filled_at, link_at};
ghost use Rattle.spectra_elaboration.specs.Following.{step_data, IsStep, front_data};
ghost use Rattle.spectra_elaboration.specs.Rows.{piece_link, pieces_at, AreWithin, behind, Gathers, EndsApart, Ends, Unwinds, rows_data};

use crate::following::{Front, Step, follow};
use crate::frames::{By, Frame};
use spectra_copies::refusal::Refusal;
use spectra_copies::rows::is_row_word;
use spectra_resolved::tree::{Link, Resolved};
use spectra_trees::tree::BinaryWord;
use std::alloc::AllocError;

/// An operator with its second operand, which stand in a frame, by its number.
#[derive(Clone, Copy)]
pub struct Piece<'s> {
    pub frame: usize,
    pub link: &'s Link,
}

/// Operators in text order, and what stands before them.
#[derive(Drop)]
pub struct Rows<'s> {
    pub front: Front<'s>,
    pub pieces: Vec<Piece<'s>>,
}

// Adds operators that stand in a frame, the last one first.
fn add_pieces<'s>(
    pieces: &mut Vec<Piece<'s>>,
    frame: usize,
    links: &'s [Link],
) -> Result<(), AllocError>
    ensures added { OnOk result ((b : Bodies) (fs : List Frame) → reverse (pieces_at b fs pieces.new.items) ≡ map (link_at b fs frame) (map link_data links.now) ++ reverse (pieces_at b fs pieces.old.items)) }
    ensures within { OnOk result ((count : ℕ) → frame < count → AreWithin count pieces.old.items → AreWithin count pieces.new.items) }
    ensures some { OnOk result (0 < length links.now → 0 < length pieces.new.items) }
{
    let mut left = links.len();
    while left > 0 {
        left -= 1;
        pieces.push(Piece {
            frame,
            link: &links[left],
        })?;
    }
    Ok(())
}

// What an expression comes to that stands before operators. Where it has operators itself, these are added, and their first
// operand is left; `Large` where there are more then than there is room for.
fn one_row<'s>(
    by: &By<'s>,
    frames: &mut Vec<Frame<'s>>,
    room: usize,
    pieces: &mut Vec<Piece<'s>>,
    frame: usize,
    t: &'s Resolved,
) -> Result<Step<'s>, Refusal>
    requires framed { AreFrames frames.old.items }
    requires within { frame < length frames.old.items }
    requires pieces { AreWithin (length frames.old.items) pieces.old.items }
    ensures gathered { MatchResult result (λ step. Gathers (definitions_data by.now.definitions.now) frames.old.items frames.new.items pieces.old.items pieces.new.items
        (filled_at (definitions_data by.now.definitions.now) frames.old.items frame (resolved_data t.now)) (step_data (definitions_data by.now.definitions.now) frames.new.items step))
        (λ halt. halt ≡ Refusal.Large → room < tree_nodes (behind (definitions_data by.now.definitions.now) frames.old.items pieces.old.items (filled_at (definitions_data by.now.definitions.now) frames.old.items frame (resolved_data t.now)))) }
    ensures legal { MatchResult result (λ step. IsStep frames.new.items step × EndsApart step) (λ halt. halt ≡ Refusal.Deep → ⊥) }
{
    match follow(by, frames, frame, t)? {
        Front::Row(next, head, links) => {
            add_pieces(pieces, next, links)?;
            if pieces.len() >= room {
                return Err(Refusal::Large);
            }
            Ok(Step::On(next, head))
        }
        Front::Leaf(first, at, leaf) => Ok(Step::Ends(Front::Leaf(first, at, leaf))),
        Front::Node(inside, first, at, shape) => {
            Ok(Step::Ends(Front::Node(inside, first, at, shape)))
        }
    }
}

// What an expression before operators comes to at last. All operators on the way are added.
fn unwind<'s>(
    by: &By<'s>,
    frames: &mut Vec<Frame<'s>>,
    room: usize,
    pieces: &mut Vec<Piece<'s>>,
    frame: usize,
    t: &'s Resolved,
) -> Result<Front<'s>, Refusal>
    requires framed { AreFrames frames.old.items }
    requires within { frame < length frames.old.items }
    requires pieces { AreWithin (length frames.old.items) pieces.old.items }
    ensures gathered { MatchResult result (λ front. Gathers (definitions_data by.now.definitions.now) frames.old.items frames.new.items pieces.old.items pieces.new.items
        (filled_at (definitions_data by.now.definitions.now) frames.old.items frame (resolved_data t.now)) (front_data (definitions_data by.now.definitions.now) frames.new.items front))
        (λ halt. halt ≡ Refusal.Large → room < tree_nodes (behind (definitions_data by.now.definitions.now) frames.old.items pieces.old.items (filled_at (definitions_data by.now.definitions.now) frames.old.items frame (resolved_data t.now)))) }
    ensures legal { MatchResult result (λ front. Ends frames.new.items front) (λ halt. halt ≡ Refusal.Deep → ⊥) }
{
    let mut inside = frame;
    let mut here = t;
    for _ in 0..u64::MAX {
        match one_row(by, frames, room, pieces, inside, here)? {
            Step::On(next, tree) => {
                inside = next;
                here = tree;
            }
            Step::Ends(front) => return Ok(front),
        }
    }
    Err(Refusal::Memory)
}

/// All operators that an expression with operators behind it comes to, and what stands before them. `Large` where there are more
/// than there is room for.
pub fn rows_of<'s>(
    by: &By<'s>,
    frames: &mut Vec<Frame<'s>>,
    room: usize,
    frame: usize,
    head: &'s Resolved,
    links: &'s [Link],
) -> Result<Rows<'s>, Refusal>
    requires framed { AreFrames frames.old.items }
    requires within { frame < length frames.old.items }
    requires some { 0 < length links.now }
    ensures unwound { MatchResult result (λ rows. Unwinds (definitions_data by.now.definitions.now) frames.old.items frames.new.items
        (filled_at (definitions_data by.now.definitions.now) frames.old.items frame (chained (resolved_data head.now) (map link_data links.now))) rows)
        (λ halt. halt ≡ Refusal.Large → room < tree_nodes (filled_at (definitions_data by.now.definitions.now) frames.old.items frame (chained (resolved_data head.now) (map link_data links.now)))) }
    ensures not_deep { IsErrOf result Refusal.Deep → ⊥ }
{
    let mut pieces = Vec::new(by.alloc);
    add_pieces(&mut pieces, frame, links)?;
    let front = unwind(by, frames, room, &mut pieces, frame, head)?;
    pieces.reverse();
    Ok(Rows { front, pieces })
}

// Whether an operator stands in a row with the one before it.
fn goes_on(word: BinaryWord, next: BinaryWord) -> bool
    ensures { result ≡ (is_row_word_lem word && is_row_word_lem next) }
{
    is_row_word(word) && is_row_word(next)
}

// Whether an operator, by its place among several, is the last one of its row, where it is of one.
fn ends_row(pieces: &[Piece<'_>], place: usize) -> bool
    ensures { result ≡ ends_at (map piece_link (drop place pieces.now)) }
{
    if place >= pieces.len() {
        return false;
    }
    if place + 1 == pieces.len() {
        return true;
    }
    !goes_on(pieces[place].link.word, pieces[place + 1].link.word)
}

/// How many levels an operator is, by its place among several: the last one of its row is one.
pub fn own_levels(pieces: &[Piece<'_>], place: usize) -> usize
    ensures { result ≡ (if ends_at (map piece_link (drop place pieces.now)) then 1 else 0) }
{
    if ends_row(pieces, place) { 1 } else { 0 }
}

/// How many levels operators are around what stands before them.
pub fn row_levels(pieces: &[Piece<'_>]) -> usize
    ensures { result ≡ link_levels (map piece_link pieces.now) }
{
    let mut levels = 0;
    for place in 0..pieces.len() {
        levels += own_levels(pieces, place);
    }
    levels
}
