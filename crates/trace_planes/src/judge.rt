//! Judges the positions of a run one after the other. Only `Judge::make` takes memory.

ghost use Rattle.std.specs.Prelude.{◌≡◌, None, Some, IfOk, IsTrue};
ghost use Rattle.spec_model.specs.GameViews.{game_data};
ghost use Rattle.spec_model.specs.Rules.{Position};
ghost use Rattle.spec_model.specs.Steps.{Before, is_input, is_output, reached};
ghost use Rattle.spec_model.specs.FirstBroken.{first_broken, first_broken_output};
ghost use Rattle.spec_model.specs.WellMade.{WellMade};
ghost use Rattle.trace_planes.specs.Audits.{JudgesAfter, IsPosition};
ghost use Rattle.trace_planes.specs.GameFindings.{broken_after};

use crate::run_state::RunState;
use game_play::{InputJudge, OutputJudge};
use spec_model::game::{Game, Label};
use spec_model::value::Value;
use spec_model::variables::count_inputs;
use std::alloc::{AllocError, Global};

/// A game, its judges, and where the run is.
#[derive(Drop)]
pub struct Judge {
    pub game: Game,
    pub inputs: InputJudge,
    pub outputs: OutputJudge,
    pub place: RunState,
}

/// The input and the output of a position.
pub fn moves<'a>(game: &Game, values: &'a [Value]) -> (&'a [Value], &'a [Value])
    requires { (p : Position) × IsPosition (game_data game.now) p values.now }
    ensures { (p : Position) → IsPosition (game_data game.now) p values.now → (result.0.now ≡ p.input) × (result.1.now ≡ p.output) }
{
    values.split_at(count_inputs(&game.vars))
}

impl Judge {
    /// A judge before the first position. `AllocError`: no memory was given.
    pub fn make(alloc: Global, game: Game) -> Result<Judge, AllocError>
        requires { WellMade (game_data game) }
        ensures { IfOk result (λ j. JudgesAfter j (game_data game) None) }
    {
        let inputs = InputJudge::make(alloc, &game)?;
        let outputs = OutputJudge::make(alloc, &game)?;
        let place = RunState::make(alloc, &game)?;
        Ok(Judge {
            game,
            inputs,
            outputs,
            place,
        })
    }

    /// The first assumption that an input breaks.
    fn broken_assumption(&self, input: &[Value]) -> Option<Label>
        requires judges { (b : Before) × JudgesAfter self.now (game_data self.now.game) b }
        requires input { IsTrue (is_input (game_data self.now.game) input.now) }
        ensures { (b : Before) → JudgesAfter self.now (game_data self.now.game) b → result ≡ first_broken (game_data self.now.game) b input.now }
    {
        let place = &self.place;
        if place.started {
            self.inputs
                .first_broken_after(&self.game, &place.state, &place.cells, &place.next, input)
        } else {
            self.inputs
                .first_broken_at_start(&self.game, &place.next, input)
        }
    }

    /// The first guarantee or monitor's line that an output breaks after an input.
    fn broken_guarantee(&self, input: &[Value], output: &[Value]) -> Option<Label>
        requires judges { (b : Before) × JudgesAfter self.now (game_data self.now.game) b }
        requires input { IsTrue (is_input (game_data self.now.game) input.now) }
        requires output { IsTrue (is_output (game_data self.now.game) output.now) }
        ensures { (b : Before) → JudgesAfter self.now (game_data self.now.game) b → result ≡ first_broken_output (game_data self.now.game) b input.now output.now }
    {
        let place = &self.place;
        if place.started {
            self.outputs.first_broken_after(
                &self.game,
                &place.state,
                &place.cells,
                &place.next,
                input,
                output,
            )
        } else {
            self.outputs
                .first_broken_at_start(&self.game, &place.next, input, output)
        }
    }

    /// The first line that the next position breaks: an assumption, or else a guarantee or monitor's line.
    fn first_broken(&self, input: &[Value], output: &[Value]) -> Option<Label>
        requires judges { (b : Before) × JudgesAfter self.now (game_data self.now.game) b }
        requires input { IsTrue (is_input (game_data self.now.game) input.now) }
        requires output { IsTrue (is_output (game_data self.now.game) output.now) }
        ensures { (b : Before) → JudgesAfter self.now (game_data self.now.game) b → result ≡ broken_after (game_data self.now.game) b (record { input = input.now; output = output.now }) }
    {
        match self.broken_assumption(input) {
            Some(label) => Some(label),
            None => self.broken_guarantee(input, output),
        }
    }

    /// The first line that the next position breaks, given as its values; then it has come.
    pub fn next(&mut self, values: &[Value]) -> Option<Label>
        requires judges { (b : Before) × JudgesAfter self.old (game_data self.old.game) b }
        requires position { (p : Position) × IsPosition (game_data self.old.game) p values.now }
        ensures broken { (b : Before) (p : Position) → JudgesAfter self.old (game_data self.old.game) b → IsPosition (game_data self.old.game) p values.now →
            result ≡ broken_after (game_data self.old.game) b p }
        ensures after { (b : Before) (p : Position) → JudgesAfter self.old (game_data self.old.game) b → IsPosition (game_data self.old.game) p values.now →
            JudgesAfter self.new (game_data self.old.game) (Some (reached (game_data self.old.game) b p.input p.output)) }
        ensures game { self.new.game ≡ self.old.game }
    {
        let (input, output) = moves(&self.game, values);
        let broken = self.first_broken(input, output);
        self.place.go_on(&self.game, input, output);
        broken
    }
    /// The next position has come, given as its values; nothing is judged.
    pub fn pass(&mut self, values: &[Value])
        requires judges { (b : Before) × JudgesAfter self.old (game_data self.old.game) b }
        requires position { (p : Position) × IsPosition (game_data self.old.game) p values.now }
        ensures after { (b : Before) (p : Position) → JudgesAfter self.old (game_data self.old.game) b → IsPosition (game_data self.old.game) p values.now →
            JudgesAfter self.new (game_data self.old.game) (Some (reached (game_data self.old.game) b p.input p.output)) }
        ensures game { self.new.game ≡ self.old.game }
    {
        let (input, output) = moves(&self.game, values);
        self.place.go_on(&self.game, input, output);
    }
}
