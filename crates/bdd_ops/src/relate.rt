//! "Some make both true" over a list of levels.

ghost use Rattle.std.specs.Prelude.{◌≡◌, ◌<◌, [], true, false, length, IfOk, OnErr, MatchOption};
ghost use Rattle.bdd_store.specs.State.{IsEdge, IsHeld, diagram_of};
ghost use Rattle.bdd_ops.specs.Functions.{joined, joined_over, join_of};
ghost use Rattle.bdd_ops.specs.Contents.{function_at, list_at};
ghost use Rattle.bdd_ops.specs.Steps.{HasFunction, IsUnfinished, IsRelatedPart, IsConjunctionAt, IsSpent, Works, level_at};
ghost use Rattle.bdd_ops.specs.Frames.{IsTop, MovesStack, IsOver};
ghost use Rattle.bdd_ops.specs.Questions.{Asks, AreHalves, IsAnswered, GivesTop, AreBothLive, AreBothHeld, relating, related_at, MayRelate};

use crate::frames::{Frame, Pair, Turn, Waits, await_high, drop_top, push, top, waiting};
use crate::work::Work;
use bdd_store::{Edge, StoreFault};

impl Work {
    /// The conjunction, where it is one of the two.
    fn conjunction_at_once(&self, a: Edge, b: Edge) -> Option<Edge>
        requires a_live { IsEdge self.now.state a.0 }
        requires b_live { IsEdge self.now.state b.0 }
        ensures { MatchOption result (level_at self.now a.0 < self.now.state.table.levels) (λ e. IsConjunctionAt self.now a.0 b.0 e.0) }
    {
        match self.constant_at(a) {
            Some(true) => Some(b),
            Some(false) => Some(a),
            None => {
                if a == b {
                    Some(a)
                } else if self.is_constant(b, true) {
                    Some(a)
                } else if self.is_constant(b, false) {
                    Some(b)
                } else {
                    None
                }
            }
        }
    }

    /// The answer, where it is known without the parts'.
    fn known_related(&mut self, list: usize, asked: Pair) -> Result<Option<Edge>, StoreFault>
        requires list { list < length self.old.lists }
        requires held { AreBothHeld self.old self.old.state.stack asked }
        ensures given { IfOk result (λ known. MatchOption known (level_at self.new asked.a.0 < self.new.state.table.levels) (λ e. HasFunction self.new (related_at self.new list asked.a.0 asked.b.0) e.0)) }
        ensures works { Works self.old self.new self.old.state.stack }
        ensures stack { self.new.state.stack ≡ self.old.state.stack }
        ensures full { result ≡ Err StoreFault.Full → IsSpent self.new self.old.state.stack (MayRelate self.old list asked.a.0 asked.b.0) }
    {
        if let Some(edge) = self.conjunction_at_once(asked.a, asked.b) {
            if let Some(known) = self.known_quantified(false, list, edge) {
                return Ok(Some(known));
            }
            let given = self.quantified_anew(false, list, edge)?;
            return Ok(Some(given));
        }
        Ok(self.recall_related(list, asked.a, asked.b))
    }

    /// The answer where it is known, and else the low part, for which a frame more waits.
    fn ask_related(
        &mut self,
        list: usize,
        frames: &mut Vec<Frame<Pair>>,
        asked: Pair,
    ) -> Result<Turn<Pair>, StoreFault>
        requires list { list < length self.old.lists }
        requires held { AreBothHeld self.old self.old.state.stack asked }
        ensures asks { IfOk result (λ turn. Asks (relating list self.new) asked frames.old.items frames.new.items turn) }
        ensures works { Works self.old self.new self.old.state.stack }
        ensures stack { self.new.state.stack ≡ self.old.state.stack }
        ensures full { result ≡ Err StoreFault.Full → IsSpent self.new self.old.state.stack (MayRelate self.old list asked.a.0 asked.b.0) }
    {
        if let Some(edge) = self.known_related(list, asked)? {
            return Ok(Turn::Given(edge));
        }
        let level = self.earlier(self.level(asked.a), asked.b);
        let (a_low, a_high) = self.parts_at(asked.a, level);
        let (b_low, b_high) = self.parts_at(asked.b, level);
        let low = Pair { a: a_low, b: b_low };
        let high = Pair {
            a: a_high,
            b: b_high,
        };
        push(frames, waiting(asked, level, high))?;
        Ok(Turn::Ask(low))
    }

    /// The answer whose two parts have these.
    fn join_related(
        &mut self,
        list: usize,
        asked: Pair,
        level: u32,
        low: Edge,
        high: Edge,
    ) -> Result<Edge, StoreFault>
        requires list { list < length self.old.lists }
        requires halves { AreHalves (relating list self.old) level asked low.0 high.0 }
        requires held { AreBothHeld self.old self.old.state.stack asked }
        ensures given { IfOk result (λ e. HasFunction self.new (related_at self.new list asked.a.0 asked.b.0) e.0) }
        ensures works { Works self.old self.new self.old.state.stack }
        ensures stack { self.new.state.stack ≡ self.old.state.stack }
        ensures full { result ≡ Err StoreFault.Full → IsSpent self.new self.old.state.stack (MayRelate self.old list asked.a.0 asked.b.0) }
    {
        let edge = self.join_over(false, list, level, low, high)?;
        self.remember_related(list, asked.a, asked.b, edge);
        Ok(edge)
    }

    /// What comes next when the part that a frame waits for has this answer. Where the low part of a level of the
    /// list is true already, the high part isn't asked.
    fn give_related(
        &mut self,
        list: usize,
        frames: &mut Vec<Frame<Pair>>,
        frame: Frame<Pair>,
        edge: Edge,
    ) -> Result<Turn<Pair>, StoreFault>
        requires list { list < length self.old.lists }
        requires answered { IsAnswered (relating list self.old) frame edge.0 }
        requires held { AreBothHeld self.old self.old.state.stack frame.asked }
        requires top { IsTop frames.old.items frame }
        ensures gives { IfOk result (λ turn. GivesTop (relating list self.new) frame frames.old.items frames.new.items turn) }
        ensures works { Works self.old self.new self.old.state.stack }
        ensures moves { IfOk result (λ turn. MovesStack frames.old.items frames.new.items self.old.state.stack self.new.state.stack) }
        ensures refused { OnErr result (self.new.state.stack ≡ self.old.state.stack) }
        ensures full { result ≡ Err StoreFault.Full → IsSpent self.new self.old.state.stack (MayRelate self.old list frame.asked.a.0 frame.asked.b.0) }
    {
        match frame.waits {
            Waits::Low(high) => {
                if self.is_settled(false, list, frame.level, edge) {
                    drop_top(frames);
                    self.remember_related(list, frame.asked.a, frame.asked.b, edge);
                    return Ok(Turn::Given(edge));
                }
                self.push(edge)?;
                await_high(frames, frame, edge);
                Ok(Turn::Ask(high))
            }
            Waits::High(low) => {
                let whole = self.join_related(list, frame.asked, frame.level, low, edge)?;
                drop_top(frames);
                self.pop();
                Ok(Turn::Given(whole))
            }
        }
    }

    /// "Some make both true", with frames for all that waits in between.
    fn related_in(
        &mut self,
        list: usize,
        frames: &mut Vec<Frame<Pair>>,
        whole: Pair,
    ) -> Result<Edge, StoreFault>
        requires list { list < length self.old.lists }
        requires held { AreBothHeld self.old self.old.state.stack whole }
        requires none_waits { frames.old.items ≡ [] }
        ensures given { IfOk result (λ e. HasFunction self.new (related_at self.old list whole.a.0 whole.b.0) e.0) }
        ensures works { Works self.old self.new self.old.state.stack }
        ensures over { IsOver self.old.state.stack self.new.state.stack }
        ensures full { result ≡ Err StoreFault.Full → IsSpent self.new self.old.state.stack (MayRelate self.old list whole.a.0 whole.b.0) }
    {
        let mut turn = Turn::Ask(whole);
        loop {
            match turn {
                Turn::Ask(asked) => turn = self.ask_related(list, frames, asked)?,
                Turn::Given(edge) => {
                    let Some(frame) = top(frames) else {
                        return Ok(edge);
                    };
                    turn = self.give_related(list, frames, frame, edge)?;
                }
            }
        }
    }

    /// The same, with the memory that is kept for frames.
    fn framed_related(&mut self, list: usize, whole: Pair) -> Result<Edge, StoreFault>
        requires list { list < length self.old.lists }
        requires held { AreBothHeld self.old self.old.state.stack whole }
        ensures given { IfOk result (λ e. HasFunction self.new (related_at self.old list whole.a.0 whole.b.0) e.0) }
        ensures works { Works self.old self.new self.old.state.stack }
        ensures over { IsOver self.old.state.stack self.new.state.stack }
        ensures full { result ≡ Err StoreFault.Full → IsSpent self.new self.old.state.stack (MayRelate self.old list whole.a.0 whole.b.0) }
    {
        let mut frames = self.take_pairs();
        let given = self.related_in(list, &mut frames, whole);
        self.put_pairs(frames);
        given
    }

    /// The function that is true where some values at the list's levels make both edges true.
    pub(crate) fn related(&mut self, list: usize, a: Edge, b: Edge) -> Result<Edge, StoreFault>
        requires list { list < length self.old.lists }
        requires a_held { IsHeld self.old.state a.0 }
        requires b_held { IsHeld self.old.state b.0 }
        ensures given { IfOk result (λ e. HasFunction self.new (joined_over (join_of false) (list_at self.old list) (joined (join_of true) (function_at self.old a.0) (function_at self.old b.0))) e.0) }
        ensures works { Works self.old self.new self.old.state.stack }
        ensures stack { self.new.state.stack ≡ self.old.state.stack }
        ensures full { result ≡ Err StoreFault.Full → IsSpent self.new self.old.state.stack (IsUnfinished (join_of false) (IsRelatedPart (list_at self.old list) (diagram_of self.old.state a.0) (diagram_of self.old.state b.0))) }
    {
        let depth = self.depth();
        let given = self.framed_related(list, Pair { a, b });
        self.cut(depth);
        given
    }
}
