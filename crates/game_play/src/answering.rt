//! Which guarantee or monitor's line an output breaks first. Only `OutputJudge::make` takes memory.

ghost use Rattle.std.specs.Prelude.{◌≡◌, [], Some, None, is_none, IfOk, IsTrue};
ghost use Rattle.spec_model.specs.GameViews.{game_data};
ghost use Rattle.spec_model.specs.Games.{State, first_hidden};
ghost use Rattle.spec_model.specs.Steps.{is_state, is_input, is_output, legal_output};
ghost use Rattle.spec_model.specs.WellMade.{WellMade};
ghost use Rattle.spec_model.specs.FirstBroken.{lesser, least as least_lem, first_broken_output};
ghost use Rattle.game_play.specs.Judged.{judged_in, numbers_false, AreSafeIn, IsOutputJudgeOf};
ghost use Rattle.game_play.specs.Sights.{as_values, IsReadAt};

use crate::judging::{Move, label_of, last_position, least_false, lesser_of, made_position};
use crate::made::Made;
use game_values::late::nexts;
use spec_model::game::{Game, Label};
use spec_model::value::Value;
use std::alloc::{AllocError, Global};

/// Judges the outputs of a game.
#[derive(Drop)]
pub struct OutputJudge {
    /// Which guarantees and monitors' lines read a next value.
    pub nexts: Vec<bool>,
}

/// The least number of an initial guarantee that is false at the position.
fn false_initial(game: &Game, m: &Move) -> Option<u32>
    requires { AreSafeIn m.now game.now.initial_gar.items }
    ensures { result ≡ least_lem (numbers_false (judged_in m.now) [] (game_data game.now).initial_gar) }
{
    least_false(&game.initial_gar, &[], m)
}

/// The least number of a line of each position that is false where it is judged.
fn false_safety(game: &Game, late: &[bool], m: &Move) -> Option<u32>
    requires { AreSafeIn m.now game.now.safe_gar.items }
    ensures { result ≡ least_lem (numbers_false (judged_in m.now) late.now (game_data game.now).safe_gar) }
{
    least_false(&game.safe_gar, late, m)
}

/// The least number of a guarantee or monitor's line that is false at the first position.
fn false_at_start(game: &Game, late: &[bool], made: Made) -> Option<u32>
    requires initial { AreSafeIn (record { made = made; before = None }) game.now.initial_gar.items }
    requires safety { AreSafeIn (record { made = made; before = None }) game.now.safe_gar.items }
    ensures { let test = judged_in (record { made = made.entry; before = None }) in
        result ≡ lesser (least_lem (numbers_false test [] (game_data game.now).initial_gar)) (least_lem (numbers_false test late.now (game_data game.now).safe_gar)) }
{
    let m = Move { made, before: None };
    lesser_of(false_initial(game, &m), false_safety(game, late, &m))
}

impl OutputJudge {
    /// A judge of the outputs of a game. `AllocError`: no memory was given.
    pub fn make(alloc: Global, game: &Game) -> Result<OutputJudge, AllocError>
        ensures { IfOk result (IsOutputJudgeOf (game_data game.now)) }
    {
        Ok(OutputJudge {
            nexts: nexts(alloc, &game.safe_gar)?,
        })
    }

    /// The guarantee or monitor's line with the least number that a first output breaks; the first hidden values are given.
    pub fn first_broken_at_start(
        &self,
        game: &Game,
        numbers: &[Value],
        input: &[Value],
        output: &[Value],
    ) -> Option<Label>
        requires made { WellMade (game_data game.now) }
        requires judge { IsOutputJudgeOf (game_data game.now) self.now }
        requires numbers { numbers.now ≡ as_values (first_hidden (game_data game.now)) }
        requires input { IsTrue (is_input (game_data game.now) input.now) }
        requires output { IsTrue (is_output (game_data game.now) output.now) }
        ensures first { result ≡ first_broken_output (game_data game.now) None input.now output.now }
        ensures none { is_none result ≡ legal_output (game_data game.now) None input.now output.now }
    {
        let made = made_position(game, numbers, input, output);
        label_of(false_at_start(game, &self.nexts, made))
    }

    /// The guarantee or monitor's line with the least number that an output breaks after a state and an input. The cells of the
    /// tables at the state are given, and the hidden values after it.
    pub fn first_broken_after(
        &self,
        game: &Game,
        state: &[Value],
        cells: &[Value],
        numbers: &[Value],
        input: &[Value],
        output: &[Value],
    ) -> Option<Label>
        requires made { WellMade (game_data game.now) }
        requires judge { IsOutputJudgeOf (game_data game.now) self.now }
        requires state { (s : State) × IsTrue (is_state (game_data game.now) s) × IsReadAt (game_data game.now) s state.now cells.now numbers.now }
        requires input { IsTrue (is_input (game_data game.now) input.now) }
        requires output { IsTrue (is_output (game_data game.now) output.now) }
        ensures first { (s : State) → IsTrue (is_state (game_data game.now) s) → IsReadAt (game_data game.now) s state.now cells.now numbers.now →
            result ≡ first_broken_output (game_data game.now) (Some s) input.now output.now }
        ensures none { (s : State) → IsTrue (is_state (game_data game.now) s) → IsReadAt (game_data game.now) s state.now cells.now numbers.now →
            is_none result ≡ legal_output (game_data game.now) (Some s) input.now output.now }
    {
        let made = made_position(game, numbers, input, output);
        let last = last_position(game, state, cells, input, output);
        let m = Move {
            made,
            before: Some(last),
        };
        label_of(false_safety(game, &self.nexts, &m))
    }
}
