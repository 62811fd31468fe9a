//! What waits while the parts of a question are answered. An operation keeps it in a list in memory, so that the depth
//! of a diagram takes nothing of the machine's stack.

ghost use Rattle.std.specs.Prelude.{◌≡◌, ◌++◌, ◌∷◌, [], OnOk, MatchOption, length};
ghost use Rattle.bdd_ops.specs.declared.frames.Waits.TheVariants.{Low, High};
ghost use Rattle.bdd_ops.specs.Frames.{IsTop, DropsTop, AwaitsHighFrom};

use crate::work::Work;
use bdd_store::{Edge, StoreFault};
use std::mem;

/// Three edges: `b` is asked for where `a` is true, and else `c`.
#[derive(Clone, Copy)]
pub struct Choice {
    pub a: Edge,
    pub b: Edge,
    pub c: Edge,
}

/// Two edges: what is asked of both together.
#[derive(Clone, Copy)]
pub struct Pair {
    pub a: Edge,
    pub b: Edge,
}

/// What a question waits for.
#[derive(Clone, Copy)]
pub enum Waits<Q> {
    /// The answer of its low part. This is its high part, which is asked then.
    Low(Q),
    /// The answer of its high part. This is that of its low part.
    High(Edge),
}

/// A question that waits, and the level at which its parts are.
#[derive(Clone, Copy)]
pub struct Frame<Q> {
    pub asked: Q,
    pub level: u32,
    pub waits: Waits<Q>,
}

/// What comes next: a question, or an answer for the frame on top.
#[derive(Clone, Copy)]
pub enum Turn<Q> {
    Ask(Q),
    Given(Edge),
}

/// A question that waits for its low part.
pub fn waiting<Q: Copy>(asked: Q, level: u32, high: Q) -> Frame<Q>
    ensures { result ≡ record { asked = asked; level = level; waits = Low high } }
{
    Frame {
        asked,
        level,
        waits: Waits::Low(high),
    }
}

/// The same question, once its low part has this answer.
pub fn waiting_high<Q: Copy>(frame: Frame<Q>, low: Edge) -> Frame<Q>
    ensures { result ≡ record { asked = frame.asked; level = frame.level; waits = High low } }
{
    Frame {
        asked: frame.asked,
        level: frame.level,
        waits: Waits::High(low),
    }
}

/// One frame more.
pub fn push<Q: Copy>(frames: &mut Vec<Frame<Q>>, frame: Frame<Q>) -> Result<(), StoreFault>
    ensures pushed { OnOk result (frames.new.items ≡ frames.old.items ++ frame ∷ []) }
    ensures memory { result ≡ Err StoreFault.Full → ⊥ }
{
    if frames.len() < frames.capacity() {
        frames.push_reserved(frame);
        return Ok(());
    }
    match frames.push(frame) {
        Ok(()) => Ok(()),
        Err(_) => Err(StoreFault::Memory),
    }
}

/// The frame on top.
pub fn top<Q: Copy>(frames: &Vec<Frame<Q>>) -> Option<Frame<Q>>
    ensures { MatchOption result (length frames.now.items ≡ 0) (λ frame. IsTop frames.now.items frame) }
{
    match frames.last() {
        None => None,
        Some(&frame) => Some(frame),
    }
}

/// One frame less.
pub fn drop_top<Q: Copy>(frames: &mut Vec<Frame<Q>>)
    ensures { DropsTop frames.old.items frames.new.items }
{
    let _ = frames.pop();
}

/// The frame on top waits for its high part from now on, since its low part has this answer.
pub fn await_high<Q: Copy>(frames: &mut Vec<Frame<Q>>, frame: Frame<Q>, low: Edge)
    requires { IsTop frames.old.items frame }
    ensures { AwaitsHighFrom frame low frames.old.items frames.new.items }
{
    let last = frames.len() - 1;
    frames[last] = waiting_high(frame, low);
}

impl Work {
    /// The memory for frames of choices, with no frame in it.
    pub(crate) fn take_choices(&mut self) -> Vec<Frame<Choice>>
        ensures same { self.new ≡ self.old }
        ensures none { result.items ≡ [] }
    {
        let none = Vec::new(self.alloc);
        let mut frames = mem::replace(&mut self.choices, none);
        frames.clear();
        frames
    }

    /// Keeps that memory for the next choice.
    pub(crate) fn put_choices(&mut self, frames: Vec<Frame<Choice>>)
        ensures { self.new ≡ self.old }
    {
        self.choices = frames;
    }

    /// The memory for frames of one edge, with no frame in it.
    pub(crate) fn take_edges(&mut self) -> Vec<Frame<Edge>>
        ensures same { self.new ≡ self.old }
        ensures none { result.items ≡ [] }
    {
        let none = Vec::new(self.alloc);
        let mut frames = mem::replace(&mut self.edges, none);
        frames.clear();
        frames
    }

    /// Keeps that memory for the next operation on one edge.
    pub(crate) fn put_edges(&mut self, frames: Vec<Frame<Edge>>)
        ensures { self.new ≡ self.old }
    {
        self.edges = frames;
    }

    /// The memory for frames of two edges, with no frame in it.
    pub(crate) fn take_pairs(&mut self) -> Vec<Frame<Pair>>
        ensures same { self.new ≡ self.old }
        ensures none { result.items ≡ [] }
    {
        let none = Vec::new(self.alloc);
        let mut frames = mem::replace(&mut self.pairs, none);
        frames.clear();
        frames
    }

    /// Keeps that memory for the next operation on two edges.
    pub(crate) fn put_pairs(&mut self, frames: Vec<Frame<Pair>>)
        ensures { self.new ≡ self.old }
    {
        self.pairs = frames;
    }

    /// The memory for frames of `and` and `or`, with no frame in it.
    pub(crate) fn take_joins(&mut self) -> Vec<Frame<Pair>>
        ensures same { self.new ≡ self.old }
        ensures none { result.items ≡ [] }
    {
        let none = Vec::new(self.alloc);
        let mut frames = mem::replace(&mut self.joins, none);
        frames.clear();
        frames
    }

    /// Keeps that memory for the next of them.
    pub(crate) fn put_joins(&mut self, frames: Vec<Frame<Pair>>)
        ensures { self.new ≡ self.old }
    {
        self.joins = frames;
    }
}
