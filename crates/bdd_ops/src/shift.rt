//! Diagrams with their levels moved.

ghost use Rattle.std.specs.Prelude.{◌≡◌, ◌<◌, [], length, IfOk, OnErr, MatchOption};
ghost use Rattle.bdd_store.specs.State.{IsHeld, diagram_of};
ghost use Rattle.spec_model.specs.Diagrams.{shifted};
ghost use Rattle.bdd_ops.specs.Contents.{function_at, list_at};
ghost use Rattle.bdd_ops.specs.Steps.{HasFunction, IsShiftedPart, IsShift, IsSpent, Works, level_at};
ghost use Rattle.bdd_ops.specs.Frames.{IsTop, MovesStack, IsOver};
ghost use Rattle.bdd_ops.specs.Questions.{Asks, AreHalves, IsAnswered, GivesTop, IsMovable, Moves, MayMove, moving};

use crate::frames::{Frame, Turn, Waits, await_high, drop_top, push, top, waiting};
use crate::work::Work;
use bdd_store::{Edge, StoreFault};

impl Work {
    /// The moved edge, where it is known without its parts.
    fn known_moved(&self, list: usize, asked: Edge) -> Option<Edge>
        requires { IsMovable self.now list asked }
        ensures { MatchOption result (level_at self.now asked.0 < self.now.state.table.levels) (λ e. Moves self.now list asked e.0) }
    {
        match self.constant_at(asked) {
            Some(_) => Some(asked),
            None => self.recall_moved(list, asked),
        }
    }

    /// The answer where it is known, and else the low part, for which a frame more waits.
    fn ask_moved(
        &self,
        list: usize,
        frames: &mut Vec<Frame<Edge>>,
        asked: Edge,
    ) -> Result<Turn<Edge>, StoreFault>
        requires { IsMovable self.now list asked }
        ensures asks { IfOk result (λ turn. Asks (moving list self.now) asked frames.old.items frames.new.items turn) }
        ensures memory { result ≡ Err StoreFault.Full → ⊥ }
    {
        if let Some(edge) = self.known_moved(list, asked) {
            return Ok(Turn::Given(edge));
        }
        let level = self.level(asked);
        let (low, high) = self.parts_at(asked, level);
        push(frames, waiting(asked, level, high))?;
        Ok(Turn::Ask(low))
    }

    /// The moved edge whose two parts have these answers.
    fn join_moved(
        &mut self,
        list: usize,
        asked: Edge,
        level: u32,
        low: Edge,
        high: Edge,
    ) -> Result<Edge, StoreFault>
        requires halves { AreHalves (moving list self.old) level asked low.0 high.0 }
        requires held { IsHeld self.old.state asked.0 }
        ensures given { IfOk result (λ e. Moves self.new list asked e.0) }
        ensures works { Works self.old self.new self.old.state.stack }
        ensures stack { self.new.state.stack ≡ self.old.state.stack }
        ensures full { result ≡ Err StoreFault.Full → IsSpent self.new self.old.state.stack (MayMove self.old list asked.0) }
    {
        let to = self.target(list, level);
        let edge = self.join(to, low, high)?;
        self.remember_moved(list, asked, edge);
        Ok(edge)
    }

    /// What comes next when the part that a frame waits for has this answer.
    fn give_moved(
        &mut self,
        list: usize,
        frames: &mut Vec<Frame<Edge>>,
        frame: Frame<Edge>,
        edge: Edge,
    ) -> Result<Turn<Edge>, StoreFault>
        requires answered { IsAnswered (moving list self.old) frame edge.0 }
        requires held { IsHeld self.old.state frame.asked.0 }
        requires top { IsTop frames.old.items frame }
        ensures gives { IfOk result (λ turn. GivesTop (moving list self.new) frame frames.old.items frames.new.items turn) }
        ensures works { Works self.old self.new self.old.state.stack }
        ensures moves { IfOk result (λ turn. MovesStack frames.old.items frames.new.items self.old.state.stack self.new.state.stack) }
        ensures refused { OnErr result (self.new.state.stack ≡ self.old.state.stack) }
        ensures full { result ≡ Err StoreFault.Full → IsSpent self.new self.old.state.stack (MayMove self.old list frame.asked.0) }
    {
        match frame.waits {
            Waits::Low(high) => {
                self.push(edge)?;
                await_high(frames, frame, edge);
                Ok(Turn::Ask(high))
            }
            Waits::High(low) => {
                let whole = self.join_moved(list, frame.asked, frame.level, low, edge)?;
                drop_top(frames);
                self.pop();
                Ok(Turn::Given(whole))
            }
        }
    }

    /// The moved edge, with frames for all that waits in between.
    fn moved_in(
        &mut self,
        list: usize,
        frames: &mut Vec<Frame<Edge>>,
        whole: Edge,
    ) -> Result<Edge, StoreFault>
        requires movable { IsMovable self.old list whole }
        requires held { IsHeld self.old.state whole.0 }
        requires none_waits { frames.old.items ≡ [] }
        ensures given { IfOk result (λ e. HasFunction self.new (shifted (list_at self.old list) (function_at self.old whole.0)) e.0) }
        ensures works { Works self.old self.new self.old.state.stack }
        ensures over { IsOver self.old.state.stack self.new.state.stack }
        ensures full { result ≡ Err StoreFault.Full → IsSpent self.new self.old.state.stack (MayMove self.old list whole.0) }
    {
        let mut turn = Turn::Ask(whole);
        loop {
            match turn {
                Turn::Ask(asked) => turn = self.ask_moved(list, frames, asked)?,
                Turn::Given(edge) => {
                    let Some(frame) = top(frames) else {
                        return Ok(edge);
                    };
                    turn = self.give_moved(list, frames, frame, edge)?;
                }
            }
        }
    }

    /// The same, with the memory that is kept for frames.
    fn framed_move(&mut self, list: usize, whole: Edge) -> Result<Edge, StoreFault>
        requires movable { IsMovable self.old list whole }
        requires held { IsHeld self.old.state whole.0 }
        ensures given { IfOk result (λ e. HasFunction self.new (shifted (list_at self.old list) (function_at self.old whole.0)) e.0) }
        ensures works { Works self.old self.new self.old.state.stack }
        ensures over { IsOver self.old.state.stack self.new.state.stack }
        ensures full { result ≡ Err StoreFault.Full → IsSpent self.new self.old.state.stack (MayMove self.old list whole.0) }
    {
        let mut frames = self.take_edges();
        let given = self.moved_in(list, &mut frames, whole);
        self.put_edges(frames);
        given
    }

    /// The diagram whose levels are those that the list gives for the edge's.
    pub(crate) fn moved(&mut self, list: usize, a: Edge) -> Result<Edge, StoreFault>
        requires list { list < length self.old.lists }
        requires held { IsHeld self.old.state a.0 }
        requires shift { IsShift self.old.state.table.levels (list_at self.old list) (diagram_of self.old.state a.0) }
        ensures given { IfOk result (λ e. HasFunction self.new (shifted (list_at self.old list) (function_at self.old a.0)) e.0) }
        ensures works { Works self.old self.new self.old.state.stack }
        ensures stack { self.new.state.stack ≡ self.old.state.stack }
        ensures full { result ≡ Err StoreFault.Full → IsSpent self.new self.old.state.stack (IsShiftedPart (list_at self.old list) (diagram_of self.old.state a.0)) }
    {
        if let Some(edge) = self.known_moved(list, a) {
            return Ok(edge);
        }
        let depth = self.depth();
        let given = self.framed_move(list, a);
        self.cut(depth);
        given
    }
}
