//! "Some" and "all" over a list of levels.

ghost use Rattle.std.specs.Prelude.{◌≡◌, ◌<◌, ◌++◌, ◌∷◌, [], Bool, true, not, length, IfOk, OnErr, IsTrue, MatchBool, MatchOption};
ghost use Rattle.bdd_store.specs.State.{IsEdge, IsHeld, diagram_of};
ghost use Rattle.spec_model.specs.Diagrams.{constant};
ghost use Rattle.bdd_ops.specs.Functions.{joined, joined_over, join_of, is_among};
ghost use Rattle.bdd_ops.specs.Reading.{IgnoresTo};
ghost use Rattle.bdd_ops.specs.Contents.{function_at, list_at};
ghost use Rattle.bdd_ops.specs.Steps.{HasFunction, IsUnfinished, IsQuantifiedPart, JoinsOrSplits, joined_or_split, IsJoinOfParts, IsSpent, Works, level_at};
ghost use Rattle.bdd_ops.specs.Frames.{IsTop, MovesStack, IsOver};
ghost use Rattle.bdd_ops.specs.Questions.{Asks, AreHalves, IsAnswered, GivesTop, quantifying, over_at, MayMake};

use crate::frames::{Frame, Turn, Waits, await_high, drop_top, push, top, waiting};
use crate::work::Work;
use bdd_store::{Edge, StoreFault};

impl Work {
    /// Whether an edge is a constant, or its level is past the list.
    fn is_free(&self, list: usize, a: Edge) -> bool
        requires list { list < length self.now.lists }
        requires live { IsEdge self.now.state a.0 }
        ensures { MatchBool result ((all : Bool) → joined_over (join_of all) (list_at self.now list) (function_at self.now a.0) ≡ function_at self.now a.0) (level_at self.now a.0 < self.now.state.table.levels) }
    {
        match self.constant_at(a) {
            Some(_) => true,
            None => self.is_past(list, self.level(a)),
        }
    }

    /// Whether the low part decides what is quantified at its level.
    pub(crate) fn is_settled(&self, all: bool, list: usize, level: u32, low: Edge) -> bool
        requires list { list < length self.now.lists }
        requires live { IsEdge self.now.state low.0 }
        ensures among { IsTrue result → is_among level (list_at self.now list) ≡ true }
        ensures constant { IsTrue result → diagram_of self.now.state low.0 ≡ constant (not all) }
    {
        self.covers(list, level) && self.is_constant(low, !all)
    }

    /// Both put on the stack, and joined.
    fn push_and_join(&mut self, all: bool, low: Edge, high: Edge) -> Result<Edge, StoreFault>
        requires low_live { IsEdge self.old.state low.0 }
        requires high_live { IsEdge self.old.state high.0 }
        ensures joined { IfOk result (λ e. HasFunction self.new (joined (join_of all) (function_at self.old low.0) (function_at self.old high.0)) e.0) }
        ensures works { Works self.old self.new (self.old.state.stack ++ low.0 ∷ high.0 ∷ []) }
        ensures over { IsOver self.old.state.stack self.new.state.stack }
        ensures full { result ≡ Err StoreFault.Full → IsSpent self.new (self.old.state.stack ++ low.0 ∷ high.0 ∷ []) (IsJoinOfParts (join_of all) (diagram_of self.old.state low.0) (diagram_of self.old.state high.0)) }
    {
        self.push(low)?;
        self.push(high)?;
        self.joined(all, low, high)
    }

    /// Two answers joined. Nothing else holds them meanwhile.
    fn joined_answers(&mut self, all: bool, low: Edge, high: Edge) -> Result<Edge, StoreFault>
        requires low_live { IsEdge self.old.state low.0 }
        requires high_live { IsEdge self.old.state high.0 }
        ensures joined { IfOk result (λ e. HasFunction self.new (joined (join_of all) (function_at self.old low.0) (function_at self.old high.0)) e.0) }
        ensures works { Works self.old self.new (self.old.state.stack ++ low.0 ∷ high.0 ∷ []) }
        ensures stack { self.new.state.stack ≡ self.old.state.stack }
        ensures full { result ≡ Err StoreFault.Full → IsSpent self.new (self.old.state.stack ++ low.0 ∷ high.0 ∷ []) (IsJoinOfParts (join_of all) (diagram_of self.old.state low.0) (diagram_of self.old.state high.0)) }
    {
        let depth = self.depth();
        let given = self.push_and_join(all, low, high);
        self.cut(depth);
        given
    }

    /// What the two parts at a level give: joined where the level is in the list, and else the node of both.
    pub(crate) fn join_over(
        &mut self,
        all: bool,
        list: usize,
        level: u32,
        low: Edge,
        high: Edge,
    ) -> Result<Edge, StoreFault>
        requires list { list < length self.old.lists }
        requires below { level < self.old.state.table.levels }
        requires low_live { IsEdge self.old.state low.0 }
        requires high_live { IsEdge self.old.state high.0 }
        requires low_ignores { IgnoresTo level (function_at self.old low.0) }
        requires high_ignores { IgnoresTo level (function_at self.old high.0) }
        ensures given { IfOk result (λ e. HasFunction self.new (joined_or_split (join_of all) (list_at self.old list) level (function_at self.old low.0) (function_at self.old high.0)) e.0) }
        ensures works { Works self.old self.new (self.old.state.stack ++ low.0 ∷ high.0 ∷ []) }
        ensures stack { self.new.state.stack ≡ self.old.state.stack }
        ensures full { result ≡ Err StoreFault.Full → IsSpent self.new (self.old.state.stack ++ low.0 ∷ high.0 ∷ []) (JoinsOrSplits (join_of all) (list_at self.old list) level (diagram_of self.old.state low.0) (diagram_of self.old.state high.0)) }
    {
        if self.covers(list, level) {
            self.joined_answers(all, low, high)
        } else {
            self.join(level, low, high)
        }
    }

    /// The answer, where it is known without the parts'.
    pub(crate) fn known_quantified(&self, all: bool, list: usize, asked: Edge) -> Option<Edge>
        requires list { list < length self.now.lists }
        requires live { IsEdge self.now.state asked.0 }
        ensures { MatchOption result (level_at self.now asked.0 < self.now.state.table.levels) (λ e. HasFunction self.now (over_at all self.now list asked.0) e.0) }
    {
        if self.is_free(list, asked) {
            return Some(asked);
        }
        self.recall_quantified(all, list, asked)
    }

    /// The answer where it is known, and else the low part, for which a frame more waits.
    fn ask_quantified(
        &self,
        all: bool,
        list: usize,
        frames: &mut Vec<Frame<Edge>>,
        asked: Edge,
    ) -> Result<Turn<Edge>, StoreFault>
        requires list { list < length self.now.lists }
        requires live { IsEdge self.now.state asked.0 }
        ensures asks { IfOk result (λ turn. Asks (quantifying all list self.now) asked frames.old.items frames.new.items turn) }
        ensures memory { result ≡ Err StoreFault.Full → ⊥ }
    {
        if let Some(edge) = self.known_quantified(all, list, asked) {
            return Ok(Turn::Given(edge));
        }
        let level = self.level(asked);
        let (low, high) = self.parts_at(asked, level);
        push(frames, waiting(asked, level, high))?;
        Ok(Turn::Ask(low))
    }

    /// The answer whose two parts have these.
    fn join_quantified(
        &mut self,
        all: bool,
        list: usize,
        asked: Edge,
        level: u32,
        low: Edge,
        high: Edge,
    ) -> Result<Edge, StoreFault>
        requires list { list < length self.old.lists }
        requires halves { AreHalves (quantifying all list self.old) level asked low.0 high.0 }
        requires held { IsHeld self.old.state asked.0 }
        ensures given { IfOk result (λ e. HasFunction self.new (over_at all self.new list asked.0) e.0) }
        ensures works { Works self.old self.new self.old.state.stack }
        ensures stack { self.new.state.stack ≡ self.old.state.stack }
        ensures full { result ≡ Err StoreFault.Full → IsSpent self.new self.old.state.stack (MayMake all self.old list asked.0) }
    {
        let edge = self.join_over(all, list, level, low, high)?;
        self.remember_quantified(all, list, asked, edge);
        Ok(edge)
    }

    /// What comes next when the part that a frame waits for has this answer. Where the low part's decides, the high
    /// part isn't asked.
    fn give_quantified(
        &mut self,
        all: bool,
        list: usize,
        frames: &mut Vec<Frame<Edge>>,
        frame: Frame<Edge>,
        edge: Edge,
    ) -> Result<Turn<Edge>, StoreFault>
        requires list { list < length self.old.lists }
        requires answered { IsAnswered (quantifying all list self.old) frame edge.0 }
        requires held { IsHeld self.old.state frame.asked.0 }
        requires top { IsTop frames.old.items frame }
        ensures gives { IfOk result (λ turn. GivesTop (quantifying all list self.new) frame frames.old.items frames.new.items turn) }
        ensures works { Works self.old self.new self.old.state.stack }
        ensures moves { IfOk result (λ turn. MovesStack frames.old.items frames.new.items self.old.state.stack self.new.state.stack) }
        ensures refused { OnErr result (self.new.state.stack ≡ self.old.state.stack) }
        ensures full { result ≡ Err StoreFault.Full → IsSpent self.new self.old.state.stack (MayMake all self.old list frame.asked.0) }
    {
        match frame.waits {
            Waits::Low(high) => {
                if self.is_settled(all, list, frame.level, edge) {
                    drop_top(frames);
                    self.remember_quantified(all, list, frame.asked, edge);
                    return Ok(Turn::Given(edge));
                }
                self.push(edge)?;
                await_high(frames, frame, edge);
                Ok(Turn::Ask(high))
            }
            Waits::High(low) => {
                let whole = self.join_quantified(all, list, frame.asked, frame.level, low, edge)?;
                drop_top(frames);
                self.pop();
                Ok(Turn::Given(whole))
            }
        }
    }

    /// "All" or "some", with frames for all that waits in between.
    fn quantified_in(
        &mut self,
        all: bool,
        list: usize,
        frames: &mut Vec<Frame<Edge>>,
        whole: Edge,
    ) -> Result<Edge, StoreFault>
        requires list { list < length self.old.lists }
        requires held { IsHeld self.old.state whole.0 }
        requires none_waits { frames.old.items ≡ [] }
        ensures given { IfOk result (λ e. HasFunction self.new (over_at all self.old list whole.0) e.0) }
        ensures works { Works self.old self.new self.old.state.stack }
        ensures over { IsOver self.old.state.stack self.new.state.stack }
        ensures full { result ≡ Err StoreFault.Full → IsSpent self.new self.old.state.stack (MayMake all self.old list whole.0) }
    {
        let mut turn = Turn::Ask(whole);
        loop {
            match turn {
                Turn::Ask(asked) => turn = self.ask_quantified(all, list, frames, asked)?,
                Turn::Given(edge) => {
                    let Some(frame) = top(frames) else {
                        return Ok(edge);
                    };
                    turn = self.give_quantified(all, list, frames, frame, edge)?;
                }
            }
        }
    }

    /// The same, with the memory that is kept for frames.
    fn framed_quantified(&mut self, all: bool, list: usize, whole: Edge) -> Result<Edge, StoreFault>
        requires list { list < length self.old.lists }
        requires held { IsHeld self.old.state whole.0 }
        ensures given { IfOk result (λ e. HasFunction self.new (over_at all self.old list whole.0) e.0) }
        ensures works { Works self.old self.new self.old.state.stack }
        ensures over { IsOver self.old.state.stack self.new.state.stack }
        ensures full { result ≡ Err StoreFault.Full → IsSpent self.new self.old.state.stack (MayMake all self.old list whole.0) }
    {
        let mut frames = self.take_edges();
        let given = self.quantified_in(all, list, &mut frames, whole);
        self.put_edges(frames);
        given
    }

    /// "All" or "some", where it isn't known.
    pub(crate) fn quantified_anew(
        &mut self,
        all: bool,
        list: usize,
        a: Edge,
    ) -> Result<Edge, StoreFault>
        requires list { list < length self.old.lists }
        requires held { IsHeld self.old.state a.0 }
        ensures given { IfOk result (λ e. HasFunction self.new (over_at all self.old list a.0) e.0) }
        ensures works { Works self.old self.new self.old.state.stack }
        ensures stack { self.new.state.stack ≡ self.old.state.stack }
        ensures full { result ≡ Err StoreFault.Full → IsSpent self.new self.old.state.stack (MayMake all self.old list a.0) }
    {
        let depth = self.depth();
        let given = self.framed_quantified(all, list, a);
        self.cut(depth);
        given
    }

    /// "All" or "some" over a list.
    pub(crate) fn quantified(&mut self, all: bool, list: usize, a: Edge) -> Result<Edge, StoreFault>
        requires list { list < length self.old.lists }
        requires held { IsHeld self.old.state a.0 }
        ensures given { IfOk result (λ e. HasFunction self.new (joined_over (join_of all) (list_at self.old list) (function_at self.old a.0)) e.0) }
        ensures works { Works self.old self.new self.old.state.stack }
        ensures stack { self.new.state.stack ≡ self.old.state.stack }
        ensures full { result ≡ Err StoreFault.Full → IsSpent self.new self.old.state.stack (IsUnfinished (join_of all) (IsQuantifiedPart (join_of all) (list_at self.old list) (diagram_of self.old.state a.0))) }
    {
        match self.known_quantified(all, list, a) {
            Some(edge) => Ok(edge),
            None => self.quantified_anew(all, list, a),
        }
    }
}
