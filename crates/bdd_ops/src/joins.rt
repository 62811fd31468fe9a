//! Two edges joined by `and` or `or`.

ghost use Rattle.std.specs.Prelude.{◌≡◌, ◌<◌, [], IfOk, OnErr, MatchOption};
ghost use Rattle.bdd_store.specs.State.{IsEdge, IsHeld, diagram_of};
ghost use Rattle.bdd_ops.specs.Functions.{joined, join_of};
ghost use Rattle.bdd_ops.specs.Contents.{function_at};
ghost use Rattle.bdd_ops.specs.Steps.{HasFunction, IsJoinOfParts, IsSpent, Works, level_at};
ghost use Rattle.bdd_ops.specs.Frames.{IsTop, MovesStack, IsOver};
ghost use Rattle.bdd_ops.specs.Questions.{Asks, AreHalves, IsAnswered, GivesTop, AreBothLive, AreBothHeld, joining, joined_of, MayJoin};

use crate::frames::{Frame, Pair, Turn, Waits, await_high, drop_top, push, top, waiting};
use crate::work::Work;
use bdd_store::{Edge, StoreFault};

impl Work {
    /// `and` where `all` holds, and else `or`, where it is one of the two.
    fn joined_at_once(&self, all: bool, a: Edge, b: Edge) -> Option<Edge>
        requires a_live { IsEdge self.now.state a.0 }
        requires b_live { IsEdge self.now.state b.0 }
        ensures { MatchOption result (level_at self.now a.0 < self.now.state.table.levels) (λ e. HasFunction self.now (joined_of all self.now a.0 b.0) e.0) }
    {
        match self.constant_at(a) {
            Some(value) => Some(if value == all { b } else { a }),
            None => {
                if a == b || self.is_constant(b, all) {
                    Some(a)
                } else if self.is_constant(b, !all) {
                    Some(b)
                } else {
                    None
                }
            }
        }
    }

    /// The answer, where it is known without the parts'.
    fn known_joined(&self, all: bool, asked: Pair) -> Option<Edge>
        requires { AreBothLive self.now asked }
        ensures { MatchOption result (level_at self.now asked.a.0 < self.now.state.table.levels) (λ e. HasFunction self.now (joined_of all self.now asked.a.0 asked.b.0) e.0) }
    {
        match self.joined_at_once(all, asked.a, asked.b) {
            Some(edge) => Some(edge),
            None => self.recall_joined(all, asked.a, asked.b),
        }
    }

    /// The answer where it is known, and else the low part, for which a frame more waits.
    fn ask_joined(
        &self,
        all: bool,
        frames: &mut Vec<Frame<Pair>>,
        asked: Pair,
    ) -> Result<Turn<Pair>, StoreFault>
        requires { AreBothLive self.now asked }
        ensures asks { IfOk result (λ turn. Asks (joining all self.now) asked frames.old.items frames.new.items turn) }
        ensures memory { result ≡ Err StoreFault.Full → ⊥ }
    {
        if let Some(edge) = self.known_joined(all, asked) {
            return Ok(Turn::Given(edge));
        }
        let level = self.earlier(self.level(asked.a), asked.b);
        let (a_low, a_high) = self.parts_at(asked.a, level);
        let (b_low, b_high) = self.parts_at(asked.b, level);
        let low = Pair { a: a_low, b: b_low };
        let high = Pair {
            a: a_high,
            b: b_high,
        };
        push(frames, waiting(asked, level, high))?;
        Ok(Turn::Ask(low))
    }

    /// The answer whose two parts have these.
    fn join_joined(
        &mut self,
        all: bool,
        asked: Pair,
        level: u32,
        low: Edge,
        high: Edge,
    ) -> Result<Edge, StoreFault>
        requires halves { AreHalves (joining all self.old) level asked low.0 high.0 }
        requires held { AreBothHeld self.old self.old.state.stack asked }
        ensures given { IfOk result (λ e. HasFunction self.new (joined_of all self.new asked.a.0 asked.b.0) e.0) }
        ensures works { Works self.old self.new self.old.state.stack }
        ensures stack { self.new.state.stack ≡ self.old.state.stack }
        ensures full { result ≡ Err StoreFault.Full → IsSpent self.new self.old.state.stack (MayJoin all self.old asked.a.0 asked.b.0) }
    {
        let edge = self.join(level, low, high)?;
        self.remember_joined(all, asked.a, asked.b, edge);
        Ok(edge)
    }

    /// What comes next when the part that a frame waits for has this answer.
    fn give_joined(
        &mut self,
        all: bool,
        frames: &mut Vec<Frame<Pair>>,
        frame: Frame<Pair>,
        edge: Edge,
    ) -> Result<Turn<Pair>, StoreFault>
        requires answered { IsAnswered (joining all self.old) frame edge.0 }
        requires held { AreBothHeld self.old self.old.state.stack frame.asked }
        requires top { IsTop frames.old.items frame }
        ensures gives { IfOk result (λ turn. GivesTop (joining all self.new) frame frames.old.items frames.new.items turn) }
        ensures works { Works self.old self.new self.old.state.stack }
        ensures moves { IfOk result (λ turn. MovesStack frames.old.items frames.new.items self.old.state.stack self.new.state.stack) }
        ensures refused { OnErr result (self.new.state.stack ≡ self.old.state.stack) }
        ensures full { result ≡ Err StoreFault.Full → IsSpent self.new self.old.state.stack (MayJoin all self.old frame.asked.a.0 frame.asked.b.0) }
    {
        match frame.waits {
            Waits::Low(high) => {
                self.push(edge)?;
                await_high(frames, frame, edge);
                Ok(Turn::Ask(high))
            }
            Waits::High(low) => {
                let whole = self.join_joined(all, frame.asked, frame.level, low, edge)?;
                drop_top(frames);
                self.pop();
                Ok(Turn::Given(whole))
            }
        }
    }

    /// `and` or `or`, with frames for all that waits in between.
    fn joined_in(
        &mut self,
        all: bool,
        frames: &mut Vec<Frame<Pair>>,
        whole: Pair,
    ) -> Result<Edge, StoreFault>
        requires held { AreBothHeld self.old self.old.state.stack whole }
        requires none_waits { frames.old.items ≡ [] }
        ensures given { IfOk result (λ e. HasFunction self.new (joined_of all self.old whole.a.0 whole.b.0) e.0) }
        ensures works { Works self.old self.new self.old.state.stack }
        ensures over { IsOver self.old.state.stack self.new.state.stack }
        ensures full { result ≡ Err StoreFault.Full → IsSpent self.new self.old.state.stack (MayJoin all self.old whole.a.0 whole.b.0) }
    {
        let mut turn = Turn::Ask(whole);
        loop {
            match turn {
                Turn::Ask(asked) => turn = self.ask_joined(all, frames, asked)?,
                Turn::Given(edge) => {
                    let Some(frame) = top(frames) else {
                        return Ok(edge);
                    };
                    turn = self.give_joined(all, frames, frame, edge)?;
                }
            }
        }
    }

    /// The same, with the memory that is kept for frames.
    fn framed_join(&mut self, all: bool, whole: Pair) -> Result<Edge, StoreFault>
        requires { AreBothHeld self.old self.old.state.stack whole }
        ensures given { IfOk result (λ e. HasFunction self.new (joined_of all self.old whole.a.0 whole.b.0) e.0) }
        ensures works { Works self.old self.new self.old.state.stack }
        ensures over { IsOver self.old.state.stack self.new.state.stack }
        ensures full { result ≡ Err StoreFault.Full → IsSpent self.new self.old.state.stack (MayJoin all self.old whole.a.0 whole.b.0) }
    {
        let mut frames = self.take_joins();
        let given = self.joined_in(all, &mut frames, whole);
        self.put_joins(frames);
        given
    }

    /// `and` of two edges where `all` holds, and else `or`.
    pub(crate) fn joined(&mut self, all: bool, a: Edge, b: Edge) -> Result<Edge, StoreFault>
        requires a_held { IsHeld self.old.state a.0 }
        requires b_held { IsHeld self.old.state b.0 }
        ensures joined { IfOk result (λ e. HasFunction self.new (joined (join_of all) (function_at self.old a.0) (function_at self.old b.0)) e.0) }
        ensures works { Works self.old self.new self.old.state.stack }
        ensures stack { self.new.state.stack ≡ self.old.state.stack }
        ensures full { result ≡ Err StoreFault.Full → IsSpent self.new self.old.state.stack (IsJoinOfParts (join_of all) (diagram_of self.old.state a.0) (diagram_of self.old.state b.0)) }
    {
        let asked = Pair { a, b };
        if let Some(edge) = self.known_joined(all, asked) {
            return Ok(edge);
        }
        let depth = self.depth();
        let given = self.framed_join(all, asked);
        self.cut(depth);
        given
    }
}
