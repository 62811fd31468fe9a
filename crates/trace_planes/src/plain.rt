//! The plain audit, which judges each position as it comes. The audit by planes asks it for the positions that planes can't
//! tell to be clear.

ghost use Rattle.std.specs.Prelude.{◌≡◌, ◌<◌, ◌++◌, suc, [], ◌∷◌, length, None, option_map, IfOk};
ghost use Rattle.spec_model.specs.GameViews.{game_data};
ghost use Rattle.spec_model.specs.Rules.{Position, Run};
ghost use Rattle.spec_model.specs.Games.{GameData};
ghost use Rattle.spec_model.specs.WellMade.{WellMade};
ghost use Rattle.trace_planes.specs.Audits.{HasJudged, IsJudged, IsPosition, OfEachJudged};
ghost use Rattle.trace_planes.specs.GameFindings.{broken_in_game};

use crate::finding::Finding;
use crate::judge::Judge;
use spec_model::game::{Game, Label};
use spec_model::value::Value;
use std::alloc::{AllocError, Global};

/// Judges the positions of a run as they come.
#[derive(Drop)]
pub struct Plain {
    pub judge: Judge,
    /// How many positions were pushed.
    pub pushed: u64,
    /// The first finding so far.
    pub found: Option<Finding>,
}

/// What is found at the next position, where so many were pushed before.
fn found_there(broken: Option<Label>, before: u64) -> Option<Finding>
    requires { before < 18446744073709551615 }
    ensures { result ≡ option_map (λ l. record { label = l; position = suc before }) broken }
{
    match broken {
        Some(label) => Some(Finding {
            label,
            position: before + 1,
        }),
        None => None,
    }
}

impl Plain {
    /// An audit into which nothing was pushed. `AllocError`: no memory was given.
    pub fn make(alloc: Global, game: Game) -> Result<Plain, AllocError>
        requires made { WellMade (game_data game) }
        ensures begins { IfOk result (λ a. HasJudged a (game_data game) []) }
    {
        Ok(Plain {
            judge: Judge::make(alloc, game)?,
            pushed: 0,
            found: None,
        })
    }

    /// Judges the next position, unless something was found before.
    fn judge_next(&mut self, state: &[Value])
        requires stands { (g : GameData) × (h : Run) × HasJudged self.old g h × (length h < 18446744073709551615) }
        requires position { (p : Position) × IsPosition (game_data self.old.judge.game) p state.now }
        ensures judged { OfEachJudged self.old (λ g h. (p : Position) → IsPosition g p state.now → IsJudged self.new.judge self.new.found g (h ++ p ∷ [])) }
        ensures counts { self.new.pushed ≡ self.old.pushed }
    {
        if self.found.is_none() {
            let broken = self.judge.next(state);
            self.found = found_there(broken, self.pushed);
        }
    }

    /// Judges the next position.
    pub fn push(&mut self, state: &[Value])
        requires stands { (g : GameData) × (h : Run) × HasJudged self.old g h × (length h < 18446744073709551615) }
        requires position { (p : Position) × IsPosition (game_data self.old.judge.game) p state.now }
        ensures pushed { OfEachJudged self.old (λ g h. (p : Position) → IsPosition g p state.now → HasJudged self.new g (h ++ p ∷ [])) }
    {
        self.judge_next(state);
        self.pushed += 1;
    }

    /// Goes past the next position, which breaks no line, unless something was found before.
    fn pass_next(&mut self, state: &[Value])
        requires stands { (g : GameData) × (h : Run) × HasJudged self.old g h }
        requires position { (p : Position) × IsPosition (game_data self.old.judge.game) p state.now }
        ensures judged { OfEachJudged self.old (λ g h. (p : Position) → IsPosition g p state.now → broken_in_game g h p ≡ None → IsJudged self.new.judge self.new.found g (h ++ p ∷ [])) }
        ensures counts { self.new.pushed ≡ self.old.pushed }
    {
        if self.found.is_none() {
            self.judge.pass(state);
        }
    }

    /// Goes past the next position, which breaks no line.
    pub fn pass(&mut self, state: &[Value])
        requires stands { (g : GameData) × (h : Run) × HasJudged self.old g h × (length h < 18446744073709551615) }
        requires position { (p : Position) × IsPosition (game_data self.old.judge.game) p state.now }
        ensures pushed { OfEachJudged self.old (λ g h. (p : Position) → IsPosition g p state.now → broken_in_game g h p ≡ None → HasJudged self.new g (h ++ p ∷ [])) }
    {
        self.pass_next(state);
        self.pushed += 1;
    }
}
