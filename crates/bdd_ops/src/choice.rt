//! The choice between two edges by a third.

ghost use Rattle.std.specs.Prelude.{◌≡◌, ◌<◌, [], IfOk, OnErr, MatchOption};
ghost use Rattle.bdd_store.specs.State.{IsEdge, IsHeld, diagram_of};
ghost use Rattle.bdd_ops.specs.Contents.{function_at};
ghost use Rattle.bdd_ops.specs.Steps.{IsChoice, IsChoiceOfParts, IsSpent, Works, level_at};
ghost use Rattle.bdd_ops.specs.Frames.{IsTop, MovesStack, IsOver};
ghost use Rattle.bdd_ops.specs.Questions.{Asks, AreHalves, IsAnswered, GivesTop, AreLive, AreHeld, Chooses, MayChoose, choosing};

use crate::frames::{Choice, Frame, Turn, Waits, await_high, drop_top, push, top, waiting};
use crate::work::Work;
use bdd_store::{Edge, StoreFault};

impl Work {
    /// The choice, where it is one of the three.
    fn choice_at_once(&self, a: Edge, b: Edge, c: Edge) -> Option<Edge>
        requires a_live { IsEdge self.now.state a.0 }
        requires b_live { IsEdge self.now.state b.0 }
        requires c_live { IsEdge self.now.state c.0 }
        ensures { MatchOption result (level_at self.now a.0 < self.now.state.table.levels) (λ e. IsChoice self.now (function_at self.now a.0) (function_at self.now b.0) (function_at self.now c.0) e.0) }
    {
        match self.constant_at(a) {
            Some(true) => Some(b),
            Some(false) => Some(c),
            None => {
                if b == c {
                    Some(b)
                } else if self.is_constant(b, true) && self.is_constant(c, false) {
                    Some(a)
                } else {
                    None
                }
            }
        }
    }

    /// The choice, where it is known without its parts.
    fn known_choice(&self, asked: Choice) -> Option<Edge>
        requires { AreLive self.now asked }
        ensures { MatchOption result (level_at self.now asked.a.0 < self.now.state.table.levels) (λ e. Chooses self.now asked e.0) }
    {
        match self.choice_at_once(asked.a, asked.b, asked.c) {
            Some(edge) => Some(edge),
            None => self.recall_choice(asked.a, asked.b, asked.c),
        }
    }

    /// The answer where it is known, and else the low part, for which a frame more waits.
    fn ask_choice(
        &self,
        frames: &mut Vec<Frame<Choice>>,
        asked: Choice,
    ) -> Result<Turn<Choice>, StoreFault>
        requires { AreLive self.now asked }
        ensures asks { IfOk result (λ turn. Asks (choosing self.now) asked frames.old.items frames.new.items turn) }
        ensures memory { result ≡ Err StoreFault.Full → ⊥ }
    {
        if let Some(edge) = self.known_choice(asked) {
            return Ok(Turn::Given(edge));
        }
        let level = self.earlier(self.earlier(self.level(asked.a), asked.b), asked.c);
        let (a_low, a_high) = self.parts_at(asked.a, level);
        let (b_low, b_high) = self.parts_at(asked.b, level);
        let (c_low, c_high) = self.parts_at(asked.c, level);
        let low = Choice {
            a: a_low,
            b: b_low,
            c: c_low,
        };
        let high = Choice {
            a: a_high,
            b: b_high,
            c: c_high,
        };
        push(frames, waiting(asked, level, high))?;
        Ok(Turn::Ask(low))
    }

    /// The choice whose two parts have these answers.
    fn join_choice(
        &mut self,
        asked: Choice,
        level: u32,
        low: Edge,
        high: Edge,
    ) -> Result<Edge, StoreFault>
        requires halves { AreHalves (choosing self.old) level asked low.0 high.0 }
        requires held { AreHeld self.old self.old.state.stack asked }
        ensures choice { IfOk result (λ e. Chooses self.new asked e.0) }
        ensures works { Works self.old self.new self.old.state.stack }
        ensures stack { self.new.state.stack ≡ self.old.state.stack }
        ensures full { result ≡ Err StoreFault.Full → IsSpent self.new self.old.state.stack (MayChoose self.old asked) }
    {
        let edge = self.join(level, low, high)?;
        self.remember_choice(asked.a, asked.b, asked.c, edge);
        Ok(edge)
    }

    /// What comes next when the part that a frame waits for has this answer.
    fn give_choice(
        &mut self,
        frames: &mut Vec<Frame<Choice>>,
        frame: Frame<Choice>,
        edge: Edge,
    ) -> Result<Turn<Choice>, StoreFault>
        requires answered { IsAnswered (choosing self.old) frame edge.0 }
        requires held { AreHeld self.old self.old.state.stack frame.asked }
        requires top { IsTop frames.old.items frame }
        ensures gives { IfOk result (λ turn. GivesTop (choosing self.new) frame frames.old.items frames.new.items turn) }
        ensures works { Works self.old self.new self.old.state.stack }
        ensures moves { IfOk result (λ turn. MovesStack frames.old.items frames.new.items self.old.state.stack self.new.state.stack) }
        ensures refused { OnErr result (self.new.state.stack ≡ self.old.state.stack) }
        ensures full { result ≡ Err StoreFault.Full → IsSpent self.new self.old.state.stack (MayChoose self.old frame.asked) }
    {
        match frame.waits {
            Waits::Low(high) => {
                self.push(edge)?;
                await_high(frames, frame, edge);
                Ok(Turn::Ask(high))
            }
            Waits::High(low) => {
                let whole = self.join_choice(frame.asked, frame.level, low, edge)?;
                drop_top(frames);
                self.pop();
                Ok(Turn::Given(whole))
            }
        }
    }

    /// The answer to a question, with frames for all that waits in between.
    fn choice_in(
        &mut self,
        frames: &mut Vec<Frame<Choice>>,
        whole: Choice,
    ) -> Result<Edge, StoreFault>
        requires held { AreHeld self.old self.old.state.stack whole }
        requires none_waits { frames.old.items ≡ [] }
        ensures choice { IfOk result (λ e. IsChoice self.new (function_at self.old whole.a.0) (function_at self.old whole.b.0) (function_at self.old whole.c.0) e.0) }
        ensures works { Works self.old self.new self.old.state.stack }
        ensures over { IsOver self.old.state.stack self.new.state.stack }
        ensures full { result ≡ Err StoreFault.Full → IsSpent self.new self.old.state.stack (MayChoose self.old whole) }
    {
        let mut turn = Turn::Ask(whole);
        loop {
            match turn {
                Turn::Ask(asked) => turn = self.ask_choice(frames, asked)?,
                Turn::Given(edge) => {
                    let Some(frame) = top(frames) else {
                        return Ok(edge);
                    };
                    turn = self.give_choice(frames, frame, edge)?;
                }
            }
        }
    }

    /// The same, with the memory that is kept for frames.
    fn framed_choice(&mut self, whole: Choice) -> Result<Edge, StoreFault>
        requires { AreHeld self.old self.old.state.stack whole }
        ensures choice { IfOk result (λ e. IsChoice self.new (function_at self.old whole.a.0) (function_at self.old whole.b.0) (function_at self.old whole.c.0) e.0) }
        ensures works { Works self.old self.new self.old.state.stack }
        ensures over { IsOver self.old.state.stack self.new.state.stack }
        ensures full { result ≡ Err StoreFault.Full → IsSpent self.new self.old.state.stack (MayChoose self.old whole) }
    {
        let mut frames = self.take_choices();
        let given = self.choice_in(&mut frames, whole);
        self.put_choices(frames);
        given
    }

    /// `b` where `a` is true, and else `c`.
    pub(crate) fn choice(&mut self, a: Edge, b: Edge, c: Edge) -> Result<Edge, StoreFault>
        requires a_held { IsHeld self.old.state a.0 }
        requires b_held { IsHeld self.old.state b.0 }
        requires c_held { IsHeld self.old.state c.0 }
        ensures choice { IfOk result (λ e. IsChoice self.new (function_at self.old a.0) (function_at self.old b.0) (function_at self.old c.0) e.0) }
        ensures works { Works self.old self.new self.old.state.stack }
        ensures stack { self.new.state.stack ≡ self.old.state.stack }
        ensures full { result ≡ Err StoreFault.Full → IsSpent self.new self.old.state.stack (IsChoiceOfParts (diagram_of self.old.state a.0) (diagram_of self.old.state b.0) (diagram_of self.old.state c.0)) }
    {
        let asked = Choice { a, b, c };
        if let Some(edge) = self.known_choice(asked) {
            return Ok(edge);
        }
        let depth = self.depth();
        let given = self.framed_choice(asked);
        self.cut(depth);
        given
    }
}
