//! The answers that are remembered, each under the number of its operation.

ghost use Rattle.std.specs.Prelude.{◌≡◌, ◌<◌, length, IfSome, true, false};
ghost use Rattle.spec_model.specs.Diagrams.{shifted};
ghost use Rattle.bdd_store.specs.State.{IsEdge};
ghost use Rattle.bdd_ops.specs.Functions.{joined, joined_over, join_of};
ghost use Rattle.bdd_ops.specs.Contents.{function_at, list_at, over_op};
ghost use Rattle.bdd_ops.specs.Steps.{IsChoice, SameNodes, HasFunction};
ghost use Rattle.bdd_ops.specs.Questions.{joined_of};

use crate::work::Work;
use bdd_store::Edge;

/// The number of the operation `ite` in answers.
const CHOICE: u32 = 1;

/// The number of the operation "some" or "all" over a list, in answers.
fn quantifier(all: bool, list: usize) -> u32
    requires { list < 256 }
    ensures { result ≡ over_op all list }
{
    let first = if all { 9 } else { 8 };
    first + 4 * list as u32
}

impl Work {
    /// The answer to a choice, if one was remembered.
    pub(crate) fn recall_choice(&self, a: Edge, b: Edge, c: Edge) -> Option<Edge>
        requires a_live { IsEdge self.now.state a.0 }
        requires b_live { IsEdge self.now.state b.0 }
        requires c_live { IsEdge self.now.state c.0 }
        ensures { IfSome result (λ e. IsChoice self.now (function_at self.now a.0) (function_at self.now b.0) (function_at self.now c.0) e.0) }
    {
        self.store.recall(CHOICE, a, b, c)
    }

    /// Remembers the answer to a choice.
    pub(crate) fn remember_choice(&mut self, a: Edge, b: Edge, c: Edge, r: Edge)
        requires a_live { IsEdge self.old.state a.0 }
        requires b_live { IsEdge self.old.state b.0 }
        requires c_live { IsEdge self.old.state c.0 }
        requires choice { IsChoice self.old (function_at self.old a.0) (function_at self.old b.0) (function_at self.old c.0) r.0 }
        ensures same { SameNodes self.old self.new }
        ensures stack { self.new.state.stack ≡ self.old.state.stack }
    {
        self.store.remember(CHOICE, a, b, c, r);
    }

    /// The answer to `and` where `all` holds, and else to `or`, if one was remembered: both are choices.
    pub(crate) fn recall_joined(&self, all: bool, a: Edge, b: Edge) -> Option<Edge>
        requires a_live { IsEdge self.now.state a.0 }
        requires b_live { IsEdge self.now.state b.0 }
        ensures { IfSome result (λ e. HasFunction self.now (joined_of all self.now a.0 b.0) e.0) }
    {
        let decides = self.constant_edge(!all);
        if all {
            self.recall_choice(a, b, decides)
        } else {
            self.recall_choice(a, decides, b)
        }
    }

    /// Remembers the answer to `and` or `or`.
    pub(crate) fn remember_joined(&mut self, all: bool, a: Edge, b: Edge, r: Edge)
        requires a_live { IsEdge self.old.state a.0 }
        requires b_live { IsEdge self.old.state b.0 }
        requires joined { HasFunction self.old (joined_of all self.old a.0 b.0) r.0 }
        ensures same { SameNodes self.old self.new }
        ensures stack { self.new.state.stack ≡ self.old.state.stack }
    {
        let decides = self.constant_edge(!all);
        if all {
            self.remember_choice(a, b, decides, r);
        } else {
            self.remember_choice(a, decides, b, r);
        }
    }

    /// The answer to "some" or "all" over a list, if one was remembered.
    pub(crate) fn recall_quantified(&self, all: bool, list: usize, a: Edge) -> Option<Edge>
        requires list { list < length self.now.lists }
        requires live { IsEdge self.now.state a.0 }
        ensures { IfSome result (λ e. HasFunction self.now (joined_over (join_of all) (list_at self.now list) (function_at self.now a.0)) e.0) }
    {
        let none = self.store.fixed(false);
        self.store.recall(quantifier(all, list), a, none, none)
    }

    /// Remembers the answer to "some" or "all" over a list.
    pub(crate) fn remember_quantified(&mut self, all: bool, list: usize, a: Edge, r: Edge)
        requires list { list < length self.old.lists }
        requires live { IsEdge self.old.state a.0 }
        requires quantified { HasFunction self.old (joined_over (join_of all) (list_at self.old list) (function_at self.old a.0)) r.0 }
        ensures same { SameNodes self.old self.new }
        ensures stack { self.new.state.stack ≡ self.old.state.stack }
    {
        let none = self.store.fixed(false);
        self.store.remember(quantifier(all, list), a, none, none, r);
    }

    /// The answer to "some make both true" over a list, if one was remembered.
    pub(crate) fn recall_related(&self, list: usize, a: Edge, b: Edge) -> Option<Edge>
        requires list { list < length self.now.lists }
        requires a_live { IsEdge self.now.state a.0 }
        requires b_live { IsEdge self.now.state b.0 }
        ensures { IfSome result (λ e. HasFunction self.now (joined_over (join_of false) (list_at self.now list) (joined (join_of true) (function_at self.now a.0) (function_at self.now b.0))) e.0) }
    {
        let none = self.store.fixed(false);
        self.store.recall(10 + 4 * list as u32, a, b, none)
    }

    /// Remembers the answer to "some make both true" over a list.
    pub(crate) fn remember_related(&mut self, list: usize, a: Edge, b: Edge, r: Edge)
        requires list { list < length self.old.lists }
        requires a_live { IsEdge self.old.state a.0 }
        requires b_live { IsEdge self.old.state b.0 }
        requires related { HasFunction self.old (joined_over (join_of false) (list_at self.old list) (joined (join_of true) (function_at self.old a.0) (function_at self.old b.0))) r.0 }
        ensures same { SameNodes self.old self.new }
        ensures stack { self.new.state.stack ≡ self.old.state.stack }
    {
        let none = self.store.fixed(false);
        self.store.remember(10 + 4 * list as u32, a, b, none, r);
    }

    /// The answer to a shift by a list, if one was remembered.
    pub(crate) fn recall_moved(&self, list: usize, a: Edge) -> Option<Edge>
        requires list { list < length self.now.lists }
        requires live { IsEdge self.now.state a.0 }
        ensures { IfSome result (λ e. HasFunction self.now (shifted (list_at self.now list) (function_at self.now a.0)) e.0) }
    {
        let none = self.store.fixed(false);
        self.store.recall(11 + 4 * list as u32, a, none, none)
    }

    /// Remembers the answer to a shift by a list.
    pub(crate) fn remember_moved(&mut self, list: usize, a: Edge, r: Edge)
        requires list { list < length self.old.lists }
        requires live { IsEdge self.old.state a.0 }
        requires moved { HasFunction self.old (shifted (list_at self.old list) (function_at self.old a.0)) r.0 }
        ensures same { SameNodes self.old self.new }
        ensures stack { self.new.state.stack ≡ self.old.state.stack }
    {
        let none = self.store.fixed(false);
        self.store.remember(11 + 4 * list as u32, a, none, none, r);
    }
}
