//! The first operator, or the part without parts, that an expression comes to when bodies and arguments are put in.

ghost use Rattle.std.specs.Prelude.{◌≡◌, ◌<◌, List, length, map, IfOk, IfSome};
ghost use Rattle.spectra_resolved.specs.declared.spot.Spot.{Spot};
ghost use Rattle.spectra_resolved.specs.declared.tree.Hole.{Hole};
ghost use Rattle.spectra_resolved.specs.declared.tree.Hole.TheVariants as holes;
ghost use Rattle.spectra_resolved.specs.declared.tree.Leaf.TheVariants as leaves;
ghost use Rattle.spectra_resolved.specs.Resolved.{ResolvedTree, Form};
ghost use Rattle.spectra_resolved.specs.Chained.{chained};
ghost use Rattle.spectra_resolved.specs.Views.{resolved_data, link_data, form_data};
ghost use Rattle.spectra_elaboration.specs.declared.frames.Frame.{Frame};
ghost use Rattle.spectra_elaboration.specs.Putting.{Bodies};
ghost use Rattle.spectra_elaboration.specs.DefinitionViews.{definitions_data};
ghost use Rattle.spectra_elaboration.specs.Frames.{AreFrames, filled_at, form_at, leaf_in_frame, used_at};
ghost use Rattle.spectra_elaboration.specs.Following.{step_data, IsStep, front_data, IsFront, Goes, put_use};

use crate::definitions::Definitions;
use crate::frames::{By, Frame};
use crate::giving::given_at;
use crate::handing::last_at;
use crate::parts::{body_of, misuse_hole};
use spectra_copies::parts::{marked, placed};
use spectra_resolved::spot::{Mark, Spot};
use spectra_resolved::tree::{Hole, Leaf, Link, Resolved, Shape};
use std::alloc::AllocError;

/// What an expression comes to: a part without parts, or operators in a row, or an operator. The last two stand in a frame, by
/// its number; the places are those in the line.
#[derive(Clone, Copy)]
pub enum Front<'s> {
    Leaf(Spot, Mark, Leaf),
    Row(usize, &'s Resolved, &'s [Link]),
    Node(usize, Spot, Mark, &'s Shape),
}

/// A step on the way there: it goes on with an expression in a frame, or ends.
#[derive(Clone, Copy)]
pub enum Step<'s> {
    On(usize, &'s Resolved),
    Ends(Front<'s>),
}

/// The use of a definition: how deep bodies may stand in its place, what does where none may, and its number.
#[derive(Clone, Copy)]
pub struct Use {
    pub deep: usize,
    pub hole: Hole,
    pub number: usize,
}

// The use of a definition with so many arguments, or that of the last one of its chain.
fn last_use(definitions: &Definitions, first: Use, count: usize) -> Use
    ensures { (at : Spot) (ts : List ResolvedTree) → length ts ≡ count → put_use (definitions_data definitions.now) first at ts ≡ put_use (definitions_data definitions.now) result at ts }
{
    match last_at(&definitions.lasts, first.number) {
        Some(last) => {
            if last.count != count || first.deep < last.deep {
                return first;
            }
            Use {
                deep: first.deep - last.deep,
                hole: last.hole,
                number: last.number,
            }
        }
        None => first,
    }
}

// The use of a definition with these arguments: its body, in a new frame.
fn enter_last<'s>(
    by: &By<'s>,
    frames: &mut Vec<Frame<'s>>,
    frame: usize,
    last: Use,
    at: Spot,
    arguments: &'s [Resolved],
) -> Result<Step<'s>, AllocError>
    requires framed { AreFrames frames.old.items }
    requires within { frame < length frames.old.items }
    ensures goes { IfOk result (λ step. Goes frames.old.items frames.new.items
        (put_use (definitions_data by.now.definitions.now) last at (map (filled_at (definitions_data by.now.definitions.now) frames.old.items frame) (map resolved_data arguments.now))) (step_data (definitions_data by.now.definitions.now) frames.new.items step)) }
    ensures legal { IfOk result (λ step. IsStep frames.new.items step) }
{
    let mark = Mark {
        spot: at,
        brought: true,
    };
    let nothing = Step::Ends(Front::Leaf(at, mark, Leaf::Hole(last.hole)));
    let deep = last.deep;
    if deep == 0 {
        return Ok(nothing);
    }
    match body_of(&by.definitions.bodies, last.number) {
        Some(body) => {
            let inside = frames.len();
            frames.push(Frame {
                deep: deep - 1,
                brought: Some(at),
                arguments,
                outer: frame,
            })?;
            Ok(Step::On(inside, body))
        }
        None => Ok(nothing),
    }
}

// The use of a definition with these arguments: the body at the end of its chain, in a new frame.
fn enter<'s>(
    by: &By<'s>,
    frames: &mut Vec<Frame<'s>>,
    frame: usize,
    hole: Hole,
    number: usize,
    at: Spot,
    arguments: &'s [Resolved],
) -> Result<Step<'s>, AllocError>
    requires framed { AreFrames frames.old.items }
    requires within { frame < length frames.old.items }
    ensures goes { IfOk result (λ step. Goes frames.old.items frames.new.items
        (used_at (definitions_data by.now.definitions.now) frames.old.items frame hole number at (map resolved_data arguments.now)) (step_data (definitions_data by.now.definitions.now) frames.new.items step)) }
    ensures legal { IfOk result (λ step. IsStep frames.new.items step) }
{
    let deep = frames[frame].deep;
    let first = Use { deep, hole, number };
    let last = last_use(by.definitions, first, arguments.len());
    enter_last(by, frames, frame, last, at, arguments)
}

// The argument that the use of a definition comes to, where that gives it back as it is.
fn given_back<'s>(
    by: &By<'s>,
    frames: &[Frame<'s>],
    frame: usize,
    number: usize,
    ts: &'s [Resolved],
) -> Option<&'s Resolved>
    requires { frame < length frames.now }
    ensures { IfSome result (λ t. (hole : Hole) (at : Spot) → used_at (definitions_data by.now.definitions.now) frames.now frame hole number at (map resolved_data ts.now)
        ≡ filled_at (definitions_data by.now.definitions.now) frames.now frame (resolved_data t.now)) }
{
    match given_at(&by.definitions.given, number) {
        Some(given) => {
            if frames[frame].deep < given.deep {
                return None;
            }
            ts.get(given.place)
        }
        None => None,
    }
}

// The use of a definition with arguments: one of these, in the same frame, or its body, in a new one.
fn use_step<'s>(
    by: &By<'s>,
    frames: &mut Vec<Frame<'s>>,
    frame: usize,
    number: usize,
    at: Spot,
    ts: &'s [Resolved],
) -> Result<Step<'s>, AllocError>
    requires framed { AreFrames frames.old.items }
    requires within { frame < length frames.old.items }
    ensures goes { IfOk result (λ step. Goes frames.old.items frames.new.items
        (used_at (definitions_data by.now.definitions.now) frames.old.items frame holes.Truth number at (map resolved_data ts.now)) (step_data (definitions_data by.now.definitions.now) frames.new.items step)) }
    ensures legal { IfOk result (λ step. IsStep frames.new.items step) }
{
    match given_back(by, frames, frame, number, ts) {
        Some(t) => Ok(Step::On(frame, t)),
        None => enter(by, frames, frame, Hole::Truth, number, at, ts),
    }
}

// A parameter: its argument, in the frame where that stands, or itself where there is none.
fn parameter<'s>(
    frames: &[Frame<'s>],
    frame: usize,
    first: Spot,
    at: Mark,
    place: usize,
) -> Step<'s>
    requires framed { AreFrames frames.now }
    requires within { frame < length frames.now }
    ensures goes { (b : Bodies) → leaf_in_frame b frames.now frame first at (leaves.Parameter place) ≡ step_data b frames.now result }
    ensures legal { IsStep frames.now result }
{
    let here = &frames[frame];
    match here.arguments.get(place) {
        Some(argument) => Step::On(here.outer, argument),
        None => Step::Ends(Front::Leaf(first, at, Leaf::Parameter(place))),
    }
}

// A part without parts.
fn leaf_step<'s>(
    by: &By<'s>,
    frames: &mut Vec<Frame<'s>>,
    frame: usize,
    first: Spot,
    at: Mark,
    leaf: Leaf,
) -> Result<Step<'s>, AllocError>
    requires framed { AreFrames frames.old.items }
    requires within { frame < length frames.old.items }
    ensures goes { IfOk result (λ step. Goes frames.old.items frames.new.items
        (leaf_in_frame (definitions_data by.now.definitions.now) frames.old.items frame first at leaf) (step_data (definitions_data by.now.definitions.now) frames.new.items step)) }
    ensures legal { IfOk result (λ step. IsStep frames.new.items step) }
{
    match leaf {
        Leaf::Define(number) => enter(by, frames, frame, Hole::Anything, number, at.spot, &[]),
        Leaf::Parameter(place) => Ok(parameter(frames, frame, first, at, place)),
        Leaf::Truth(_)
        | Leaf::Number(_)
        | Leaf::EnumName(_)
        | Leaf::Variable(_)
        | Leaf::Own(_)
        | Leaf::Bound(_)
        | Leaf::Hole(_) => Ok(Step::Ends(Front::Leaf(first, at, leaf))),
    }
}

// What stands at a place.
fn node_step<'s>(
    by: &By<'s>,
    frames: &mut Vec<Frame<'s>>,
    frame: usize,
    first: Spot,
    at: Mark,
    shape: &'s Shape,
) -> Result<Step<'s>, AllocError>
    requires framed { AreFrames frames.old.items }
    requires within { frame < length frames.old.items }
    ensures goes { IfOk result (λ step. Goes frames.old.items frames.new.items
        (form_at (definitions_data by.now.definitions.now) frames.old.items frame first at (form_data shape.now)) (step_data (definitions_data by.now.definitions.now) frames.new.items step)) }
    ensures legal { IfOk result (λ step. IsStep frames.new.items step) }
{
    match shape {
        Shape::Leaf(leaf) => leaf_step(by, frames, frame, first, at, *leaf),
        Shape::Predicate(number, ts) => use_step(by, frames, frame, *number, at.spot, ts),
        Shape::Misuse(misuse, _) => Ok(Step::Ends(Front::Leaf(
            first,
            at,
            Leaf::Hole(misuse_hole(*misuse)),
        ))),
        Shape::Next(_) => Ok(Step::Ends(Front::Node(frame, first, at, shape))),
        Shape::Prefix(_, _) => Ok(Step::Ends(Front::Node(frame, first, at, shape))),
        Shape::Mod(_, _, _) => Ok(Step::Ends(Front::Node(frame, first, at, shape))),
        Shape::And(_, _) => Ok(Step::Ends(Front::Node(frame, first, at, shape))),
        Shape::Or(_, _) => Ok(Step::Ends(Front::Node(frame, first, at, shape))),
        Shape::Index(_, _, _) => Ok(Step::Ends(Front::Node(frame, first, at, shape))),
        Shape::Quantified(_, _, _, _, _, _) => {
            Ok(Step::Ends(Front::Node(frame, first, at, shape)))
        }
    }
}

// Operators in a row, of which there may be none.
fn row_step<'s>(frame: usize, head: &'s Resolved, links: &'s [Link]) -> Step<'s>
    ensures goes { (b : Bodies) (fs : List Frame) → filled_at b fs frame (chained (resolved_data head.now) (map link_data links.now)) ≡ step_data b fs result }
    ensures legal { (fs : List Frame) → frame < length fs → IsStep fs result }
{
    if links.is_empty() {
        return Step::On(frame, head);
    }
    Step::Ends(Front::Row(frame, head, links))
}

// One step.
fn one_step<'s>(
    by: &By<'s>,
    frames: &mut Vec<Frame<'s>>,
    frame: usize,
    t: &'s Resolved,
) -> Result<Step<'s>, AllocError>
    requires framed { AreFrames frames.old.items }
    requires within { frame < length frames.old.items }
    ensures goes { IfOk result (λ step. Goes frames.old.items frames.new.items
        (filled_at (definitions_data by.now.definitions.now) frames.old.items frame (resolved_data t.now)) (step_data (definitions_data by.now.definitions.now) frames.new.items step)) }
    ensures legal { IfOk result (λ step. IsStep frames.new.items step) }
{
    match t {
        Resolved::Chain(head, links) => Ok(row_step(frame, head, links)),
        Resolved::Node(first, at, shape) => {
            let brought = frames[frame].brought;
            let begins = placed(brought, *first);
            let stands = marked(brought, *at);
            node_step(by, frames, frame, begins, stands, shape)
        }
    }
}

/// What an expression in a frame comes to, in that frame or a new one behind those that are there: bodies stand for uses, and
/// arguments for parameters. The error is that memory is short, or that 2^64 names were passed, for which no one can wait.
#[inline(never)]
pub fn follow<'s>(
    by: &By<'s>,
    frames: &mut Vec<Frame<'s>>,
    frame: usize,
    t: &'s Resolved,
) -> Result<Front<'s>, AllocError>
    requires framed { AreFrames frames.old.items }
    requires within { frame < length frames.old.items }
    ensures goes { IfOk result (λ front. Goes frames.old.items frames.new.items
        (filled_at (definitions_data by.now.definitions.now) frames.old.items frame (resolved_data t.now)) (front_data (definitions_data by.now.definitions.now) frames.new.items front)) }
    ensures legal { IfOk result (λ front. IsFront frames.new.items front) }
{
    let mut inside = frame;
    let mut here = t;
    for _ in 0..u64::MAX {
        match one_step(by, frames, inside, here)? {
            Step::On(next, tree) => {
                inside = next;
                here = tree;
            }
            Step::Ends(front) => return Ok(front),
        }
    }
    Err(AllocError)
}
