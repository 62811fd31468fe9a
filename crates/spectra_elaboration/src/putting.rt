//! Putting in bodies for uses and arguments for parameters, within room for nodes and for levels.

ghost use Rattle.std.specs.Prelude.{◌≡◌, ◌+◌, ◌<◌, ◌≤◌, [], length, map, option_map, IfOk, OnOk, true};
ghost use Rattle.spectra_resolved.specs.Resolved.{tree, Form};
ghost use Rattle.spectra_resolved.specs.Chained.{chained, trees};
ghost use Rattle.spectra_resolved.specs.Views.{resolved_data, link_data, form_data};
ghost use Rattle.spectra_elaboration.specs.Putting.{with_bodies, put_in as put_in_lem};
ghost use Rattle.spectra_copies.specs.Levels.{within_limits, within_room};
ghost use Rattle.spectra_copies.specs.Links.{link_levels};
ghost use Rattle.spectra_copies.specs.Copies.{written};
ghost use Rattle.spectra_copies.specs.PartViews.{quantifier_data};
ghost use Rattle.spectra_copies.specs.Operands.{has_several};
ghost use Rattle.spectra_copies.specs.Making.{Makes, MakesEach, MakesLinks, IsFlat, AreFlat, AreFlatLinks};
ghost use Rattle.spectra_elaboration.specs.DefinitionViews.{definitions_data};
ghost use Rattle.spectra_elaboration.specs.Frames.{AreFrames, filled_at, form_at, each_at};
ghost use Rattle.spectra_elaboration.specs.Following.{front_data, IsFront, is_operator};
ghost use Rattle.spectra_elaboration.specs.Rows.{piece_link, pieces_at, AreWithin, AreRows, rows_data};

use crate::definitions::Definitions;
use crate::following::{Front, follow};
use crate::frames::{By, Frame, line_frame};
use crate::parts::quantifier_in;
use crate::rows::{Piece, Rows, own_levels, row_levels, rows_of};
use spectra_copies::counted::Counted;
use spectra_copies::nodes::{
    Operands, add_link, add_tree, chain_of, each_above, leaf_at, left_of, one_above,
    quantifier_above, stop_chain, stop_operands, stop_quantifier,
};
use spectra_copies::parts::{Quantifier, one_of, several_of};
use spectra_copies::quantifiers::has_quantifier;
use spectra_copies::refusal::Refusal;
use spectra_copies::writing::write_out;
use spectra_resolved::spot::{Mark, Spot};
use spectra_resolved::tree::{Link, Resolved, Shape};
use std::alloc::{AllocError, Global};

// An expression in a frame, where there is room for its nodes and its levels.
#[cycle(putting)]
fn fill<'s>(
    by: &By<'s>,
    frames: &mut Vec<Frame<'s>>,
    frame: usize,
    room: usize,
    levels: usize,
    t: &'s Resolved,
) -> Result<Counted, Refusal>
    requires framed { AreFrames frames.old.items }
    requires within { frame < length frames.old.items }
    ensures made { Makes room (filled_at (definitions_data by.now.definitions.now) frames.old.items frame (resolved_data t.now)) result }
    ensures flat { IsFlat levels (filled_at (definitions_data by.now.definitions.now) frames.old.items frame (resolved_data t.now)) result }
    ensures frames { OnOk result (frames.new.items ≡ frames.old.items) }
{
    let count = frames.len();
    let front = follow(by, frames, frame, t)?;
    let made = fill_front(by, frames, room, levels, front)?;
    frames.truncate(count);
    Ok(made)
}

// What an expression comes to.
#[cycle(putting)]
fn fill_front<'s>(
    by: &By<'s>,
    frames: &mut Vec<Frame<'s>>,
    room: usize,
    levels: usize,
    front: Front<'s>,
) -> Result<Counted, Refusal>
    requires framed { AreFrames frames.old.items }
    requires legal { IsFront frames.old.items front }
    ensures made { Makes room (front_data (definitions_data by.now.definitions.now) frames.old.items front.entry) result }
    ensures flat { IsFlat levels (front_data (definitions_data by.now.definitions.now) frames.old.items front.entry) result }
    ensures frames { OnOk result (frames.new.items ≡ frames.old.items) }
{
    if levels == 0 {
        return Err(Refusal::Deep);
    }
    match front {
        Front::Leaf(first, at, leaf) => leaf_at(by.alloc, room, first, at, leaf),
        Front::Row(frame, head, links) => {
            fill_chain(by, frames, frame, room, levels, head, links)
        }
        Front::Node(frame, first, at, shape) => {
            fill_shape(by, frames, frame, room, levels - 1, first, at, shape)
        }
    }
}

// An expression with operators behind it.
#[cycle(putting)]
fn fill_chain<'s>(
    by: &By<'s>,
    frames: &mut Vec<Frame<'s>>,
    frame: usize,
    room: usize,
    levels: usize,
    head: &'s Resolved,
    links: &'s [Link],
) -> Result<Counted, Refusal>
    requires framed { AreFrames frames.old.items }
    requires within { frame < length frames.old.items }
    requires some { 0 < length links.now }
    ensures made { Makes room (filled_at (definitions_data by.now.definitions.now) frames.old.items frame (chained (resolved_data head.now) (map link_data links.now))) result }
    ensures flat { IsFlat levels (filled_at (definitions_data by.now.definitions.now) frames.old.items frame (chained (resolved_data head.now) (map link_data links.now))) result }
    ensures frames { OnOk result (frames.new.items ≡ frames.old.items) }
{
    let count = frames.len();
    let rows = rows_of(by, frames, room, frame, head, links)?;
    let made = fill_rows(by, frames, room, levels, &rows)?;
    frames.truncate(count);
    Ok(made)
}

// Operators behind what stands before them, each row of which is a level around that.
#[cycle(putting)]
fn fill_rows<'s>(
    by: &By<'s>,
    frames: &mut Vec<Frame<'s>>,
    room: usize,
    levels: usize,
    rows: &Rows<'s>,
) -> Result<Counted, Refusal>
    requires framed { AreFrames frames.old.items }
    requires rows { AreRows frames.old.items rows.now }
    ensures made { Makes room (rows_data (definitions_data by.now.definitions.now) frames.old.items rows.now) result }
    ensures flat { IsFlat levels (rows_data (definitions_data by.now.definitions.now) frames.old.items rows.now) result }
    ensures frames { OnOk result (frames.new.items ≡ frames.old.items) }
{
    let above = row_levels(&rows.pieces);
    if levels <= above {
        return Err(Refusal::Deep);
    }
    let first = levels - above;
    let own = fill_front(by, frames, room, first, rows.front)?;
    let left = room - own.nodes;
    let mut all = Vec::new(by.alloc);
    match fill_links(by, frames, left, first, &rows.pieces, &mut all) {
        Ok(nodes) => chain_of(by.alloc, room, own, all, nodes),
        Err(halt) => stop_chain(own, all, halt),
    }
}

// Operators with their second operands, the first of which has at most so many levels, and each behind the end of a row one
// more: they are added to others. It gives how many nodes they have together.
#[cycle(putting)]
#[inline(never)]
fn fill_links<'s>(
    by: &By<'s>,
    frames: &mut Vec<Frame<'s>>,
    room: usize,
    first: usize,
    pieces: &[Piece<'s>],
    all: &mut Vec<Link>,
) -> Result<usize, Refusal>
    requires framed { AreFrames frames.old.items }
    requires within { AreWithin (length frames.old.items) pieces.now }
    requires small { first + link_levels (map piece_link pieces.now) ≤ 18446744073709551615 }
    ensures made { MakesLinks room (pieces_at (definitions_data by.now.definitions.now) frames.old.items pieces.now) all.old.items all.new.items result }
    ensures flat { AreFlatLinks first (pieces_at (definitions_data by.now.definitions.now) frames.old.items pieces.now) result }
    ensures frames { OnOk result (frames.new.items ≡ frames.old.items) }
{
    let mut left = room;
    let mut levels = first;
    for place in 0..pieces.len() {
        let piece = pieces[place];
        let second = fill(by, frames, piece.frame, left, levels, &piece.link.second)?;
        let rest = add_link(all, left, &frames[piece.frame].brought, piece.link, second)?;
        left = rest;
        levels += own_levels(pieces, place);
    }
    Ok(room - left)
}

// An operator that stands at a place, over operands of at most so many levels.
#[cycle(putting)]
fn fill_shape<'s>(
    by: &By<'s>,
    frames: &mut Vec<Frame<'s>>,
    frame: usize,
    room: usize,
    levels: usize,
    first: Spot,
    at: Mark,
    shape: &'s Shape,
) -> Result<Counted, Refusal>
    requires framed { AreFrames frames.old.items }
    requires within { frame < length frames.old.items }
    requires operator { is_operator (form_data shape.now) ≡ true }
    ensures made { Makes room (form_at (definitions_data by.now.definitions.now) frames.old.items frame first at (form_data shape.now)) result }
    ensures flat { IsFlat (levels + 1) (form_at (definitions_data by.now.definitions.now) frames.old.items frame first at (form_data shape.now)) result }
    ensures frames { OnOk result (frames.new.items ≡ frames.old.items) }
{
    match one_of(shape) {
        Some(t) => {
            let operand = fill(by, frames, frame, room, levels, t)?;
            let brought = &frames[frame].brought;
            one_above(by.alloc, room, first, at, brought, shape, operand)
        }
        None => match quantifier_in(shape) {
            Some(quantifier) => {
                fill_quantified(by, frames, frame, room, levels, first, at, &quantifier)
            }
            None => fill_several(by, frames, frame, room, levels, first, at, shape),
        },
    }
}

// A quantifier.
#[cycle(putting)]
#[inline(never)]
fn fill_quantified<'s>(
    by: &By<'s>,
    frames: &mut Vec<Frame<'s>>,
    frame: usize,
    room: usize,
    levels: usize,
    first: Spot,
    at: Mark,
    quantifier: &Quantifier<'s>,
) -> Result<Counted, Refusal>
    requires framed { AreFrames frames.old.items }
    requires within { frame < length frames.old.items }
    ensures made { Makes room (form_at (definitions_data by.now.definitions.now) frames.old.items frame first at (quantifier_data quantifier.now)) result }
    ensures flat { IsFlat (levels + 1) (form_at (definitions_data by.now.definitions.now) frames.old.items frame first at (quantifier_data quantifier.now)) result }
    ensures frames { OnOk result (frames.new.items ≡ frames.old.items) }
{
    let inside = left_of(room, 0)?;
    let low = fill(by, frames, frame, inside, levels, quantifier.low)?;
    let behind_low = inside - low.nodes;
    let high = fill(by, frames, frame, behind_low, levels, quantifier.high)?;
    let left = behind_low - high.nodes;
    let mut all = Vec::new(by.alloc);
    match fill_operands(by, frames, frame, left, levels, quantifier.copies, &mut all) {
        Ok(nodes) => {
            let copies = Operands { all, nodes };
            let extent = quantifier.extent;
            quantifier_above(
                by.alloc, room, first, at, quantifier, extent, low, high, copies,
            )
        }
        Err(halt) => stop_quantifier(low, high, all, halt),
    }
}

// An operator with operands in a list.
#[cycle(putting)]
fn fill_several<'s>(
    by: &By<'s>,
    frames: &mut Vec<Frame<'s>>,
    frame: usize,
    room: usize,
    levels: usize,
    first: Spot,
    at: Mark,
    shape: &'s Shape,
) -> Result<Counted, Refusal>
    requires framed { AreFrames frames.old.items }
    requires within { frame < length frames.old.items }
    requires several { has_several (form_data shape.now) ≡ true }
    ensures made { Makes room (form_at (definitions_data by.now.definitions.now) frames.old.items frame first at (form_data shape.now)) result }
    ensures flat { IsFlat (levels + 1) (form_at (definitions_data by.now.definitions.now) frames.old.items frame first at (form_data shape.now)) result }
    ensures frames { OnOk result (frames.new.items ≡ frames.old.items) }
{
    let ts = several_of(shape);
    let mut all = Vec::with_capacity(by.alloc, ts.len())?;
    match fill_operands(by, frames, frame, room, levels, ts, &mut all) {
        Ok(nodes) => {
            let brought = &frames[frame].brought;
            each_above(by.alloc, room, first, at, brought, shape, all, nodes)
        }
        Err(halt) => stop_operands(all, halt),
    }
}

// The operands of a node: they are added to others. It gives how many nodes they have together.
#[cycle(putting)]
#[inline(never)]
fn fill_operands<'s>(
    by: &By<'s>,
    frames: &mut Vec<Frame<'s>>,
    frame: usize,
    room: usize,
    levels: usize,
    ts: &'s [Resolved],
    all: &mut Vec<Resolved>,
) -> Result<usize, Refusal>
    requires framed { AreFrames frames.old.items }
    requires within { frame < length frames.old.items }
    ensures made { MakesEach room (each_at (definitions_data by.now.definitions.now) frames.old.items frame (trees (map resolved_data ts.now))) all.old.items all.new.items result }
    ensures flat { AreFlat levels (each_at (definitions_data by.now.definitions.now) frames.old.items frame (trees (map resolved_data ts.now))) result }
    ensures frames { OnOk result (frames.new.items ≡ frames.old.items) }
{
    let mut left = room;
    for t in ts {
        let operand = fill(by, frames, frame, left, levels, t)?;
        left -= operand.nodes;
        add_tree(all, operand)?;
    }
    Ok(room - left)
}

// An expression of a line with bodies for names, where it has at most so many nodes and levels.
fn fill_line<'s>(
    alloc: Global,
    definitions: &'s Definitions,
    room: usize,
    levels: usize,
    t: &'s Resolved,
) -> Result<Option<Resolved>, AllocError>
    ensures { IfOk result (λ made. option_map resolved_data made ≡ within_limits room levels (with_bodies (definitions_data definitions.now) (resolved_data t.now))) }
{
    let by = By { alloc, definitions };
    let mut frames = line_frame(&by)?;
    match fill(&by, &mut frames, 0, room, levels, t) {
        Ok(made) => Ok(Some(Box::into_inner(made.tree))),
        Err(Refusal::Large) => Ok(None),
        Err(Refusal::Deep) => Ok(None),
        Err(Refusal::Memory) => Err(AllocError),
    }
}

// An expression with each quantifier written out, where it has at most so many nodes then.
fn write_line(alloc: Global, room: usize, t: Resolved) -> Result<Option<Resolved>, AllocError>
    ensures { IfOk result (λ made. option_map resolved_data made ≡ within_room room (written [] [] (resolved_data t))) }
{
    match write_out(alloc, &[], room, &t)? {
        Some(made) => Ok(Some(Box::into_inner(made.tree))),
        None => Ok(None),
    }
}

/// An expression of a line in which everything is put in, where it has at most so many nodes and levels: bodies for uses,
/// arguments for parameters, holes for what is faulty, and copies for quantifiers whose bounds have numbers. All parts of a body
/// stand at the name in the line that brings it. It looks no deeper, and at no argument that isn't read. The error is that
/// memory is short.
pub fn put_in<'s>(
    alloc: Global,
    definitions: &'s Definitions,
    room: usize,
    levels: usize,
    t: &'s Resolved,
) -> Result<Option<Resolved>, AllocError>
    ensures { IfOk result (λ made. option_map resolved_data made ≡ within_limits room levels (put_in_lem (definitions_data definitions.now) (resolved_data t.now))) }
{
    match fill_line(alloc, definitions, room, levels, t)? {
        Some(made) => {
            if has_quantifier(&made) {
                write_line(alloc, room, made)
            } else {
                Ok(Some(made))
            }
        }
        None => Ok(None),
    }
}
