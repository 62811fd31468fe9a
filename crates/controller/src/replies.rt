//! Replies that are remembered, so that a play that comes to a state again asks nothing of the regions.

ghost use Rattle.std.specs.Prelude.{◌≡◌, ◌<◌, true, false, length, IfOk, IfSome, List};
ghost use Rattle.std.specs.Bool.{OnTrue};
ghost use Rattle.spec_model.specs.declared.value.Value.{Value};
ghost use Rattle.gr1_law.specs.Choice.{Memory};
ghost use Rattle.controller.specs.Replies.{HasReply, HasRoom, IsRoomy, AddsReply, noted_data};

use spec_model::value::Value;
use std::alloc::{AllocError, Global};

/// How many replies there is room for.
const REPLIES: usize = 128;

/// The goal, the rank and the index that are remembered.
#[derive(Clone, Copy, PartialEq, Eq)]
pub struct Noted {
    pub goal: usize,
    pub rank: usize,
    pub index: usize,
}

/// What was chosen once.
#[derive(Drop)]
pub struct Reply {
    pub filled: bool,
    /// What was remembered before, and after.
    pub before: Noted,
    pub after: Noted,
    pub state: Vec<Value>,
    pub input: Vec<Value>,
    pub output: Vec<Value>,
}

/// The replies, each in the place that its state, its input and what was remembered lead to; a later one takes the place of
/// an earlier one.
#[derive(Drop)]
pub struct Replies {
    pub replies: Vec<Reply>,
    /// Room for the state before a move.
    pub last: Vec<Value>,
}

/// A number for a value.
fn number_of(value: Value) -> u64 {
    match value {
        Value::Bool(b) => u64::from(b),
        Value::Int(z) => z.unsigned_abs(),
        Value::Name(n) => u64::from(n),
    }
}

/// A number for some values, mixed into another.
fn mixed(start: u64, values: &[Value]) -> u64 {
    let mut mixed = start;
    for value in values {
        mixed = mixed.wrapping_mul(31).wrapping_add(number_of(*value));
    }
    mixed
}

/// The place of a reply.
fn place_of(before: Noted, state: &[Value], input: &[Value]) -> usize
    ensures { result < REPLIES }
{
    let start = (before.goal as u64)
        .wrapping_mul(31)
        .wrapping_add(before.rank as u64)
        .wrapping_mul(31)
        .wrapping_add(before.index as u64);
    (mixed(mixed(start, state), input) % REPLIES as u64) as usize
}

/// A place without a reply, with room for a state, an input and an output.
fn empty_reply(
    alloc: Global,
    states: usize,
    inputs: usize,
    outputs: usize,
) -> Result<Reply, AllocError>
    ensures empty { IfOk result (λ r. r.filled ≡ false) }
    ensures room { IfOk result (IsRoomy states inputs outputs) }
{
    let none = Noted {
        goal: 0,
        rank: 0,
        index: 0,
    };
    Ok(Reply {
        filled: false,
        before: none,
        after: none,
        state: vec![in alloc; Value::Bool(false); states]?,
        input: vec![in alloc; Value::Bool(false); inputs]?,
        output: vec![in alloc; Value::Bool(false); outputs]?,
    })
}

/// Whether these are the same values.
fn are_same(first: &[Value], second: &[Value]) -> bool
    ensures { OnTrue result (first.now ≡ second.now) }
{
    if first.len() != second.len() {
        return false;
    }
    for i in 0..first.len() {
        if first[i] != second[i] {
            return false;
        }
    }
    true
}

impl Reply {
    /// Whether it was chosen after this state and this input, where this was remembered.
    fn is_of(&self, before: Noted, state: &[Value], input: &[Value]) -> bool
        ensures filled { OnTrue result (self.now.filled ≡ true) }
        ensures before { OnTrue result (self.now.before ≡ before) }
        ensures state { OnTrue result (self.now.state.items ≡ state.now) }
        ensures input { OnTrue result (self.now.input.items ≡ input.now) }
    {
        self.filled
            && self.before == before
            && are_same(&self.input, input)
            && are_same(&self.state, state)
    }

    /// Writes another reply in its place.
    fn fill(
        &mut self,
        before: Noted,
        after: Noted,
        state: &[Value],
        input: &[Value],
        output: &[Value],
    )
        requires room { IsRoomy (length state.now) (length input.now) (length output.now) self.old }
        ensures filled { self.new ≡ record self.old { filled = true; before = before; after = after; state = self.new.state; input = self.new.input; output = self.new.output } }
        ensures state { self.new.state.items ≡ state.now }
        ensures input { self.new.input.items ≡ input.now }
        ensures output { self.new.output.items ≡ output.now }
    {
        self.filled = true;
        self.before = before;
        self.after = after;
        self.state.copy_from_slice(state);
        self.input.copy_from_slice(input);
        self.output.copy_from_slice(output);
    }
}

impl Replies {
    /// No reply, and room for some in a game whose states, inputs and outputs have so many values.
    pub fn make(
        alloc: Global,
        states: usize,
        inputs: usize,
        outputs: usize,
    ) -> Result<Replies, AllocError>
        ensures none { IfOk result (λ r. (before after : Memory) (state input output : List Value) → ¬ HasReply r before after state input output) }
        ensures room { IfOk result (HasRoom states inputs outputs) }
    {
        let mut replies = Vec::new(alloc);
        while replies.len() < REPLIES {
            replies.push(empty_reply(alloc, states, inputs, outputs)?)?;
        }
        Ok(Replies {
            replies,
            last: vec![in alloc; Value::Bool(false); states]?,
        })
    }

    /// What is remembered after the reply to an input, which is written, if one was kept.
    pub fn recall(
        &self,
        before: Noted,
        state: &[Value],
        input: &[Value],
        output: &mut [Value],
    ) -> Option<Noted>
        requires room { HasRoom (length state.now) (length input.now) (length output.old) self.now }
        ensures kept { IfSome result (λ after. HasReply self.now (noted_data before) (noted_data after) state.now input.now output.new) }
        ensures same { length output.new ≡ length output.old }
    {
        let reply = &self.replies[place_of(before, state, input)];
        if !reply.is_of(before, state, input) {
            return None;
        }
        output.copy_from_slice(&reply.output);
        Some(reply.after)
    }

    /// Notes the state before a move.
    pub fn note(&mut self, state: &[Value])
        requires { length self.old.last.items ≡ length state.now }
        ensures same { self.new ≡ record self.old { last = self.new.last } }
        ensures noted { self.new.last.items ≡ state.now }
    {
        self.last.copy_from_slice(state);
    }

    /// Keeps a reply that was chosen after the state that was noted, in the place of at most one other.
    pub fn keep(&mut self, before: Noted, after: Noted, input: &[Value], output: &[Value])
        requires room { HasRoom (length self.old.last.items) (length input.now) (length output.now) self.old }
        ensures added { AddsReply self.old self.new (noted_data before) (noted_data after) self.old.last.items input.now output.now }
        ensures room { HasRoom (length self.old.last.items) (length input.now) (length output.now) self.new }
    {
        let place = place_of(before, &self.last, input);
        let Replies { replies, last } = self;
        replies[place].fill(before, after, last, input, output);
    }
}
