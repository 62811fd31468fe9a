//! Which assumption an input breaks first. Only `InputJudge::make` takes memory.

ghost use Rattle.std.specs.Prelude.{◌≡◌, [], not, map, true, false, get_or, option_map, Some, None, is_none, IfOk, IsTrue};
ghost use Rattle.std.specs.List.{list_any, list_all};
ghost use Rattle.spec_model.specs.Values.{is_assignment, same_value, values_of};
ghost use Rattle.spec_model.specs.Views.{formula, domain_data, variable_data};
ghost use Rattle.spec_model.specs.GameViews.{game_data};
ghost use Rattle.spec_model.specs.Moves.{is_env, domains_of};
ghost use Rattle.spec_model.specs.Games.{State, listed, first_hidden, step_reading};
ghost use Rattle.spec_model.specs.Steps.{is_state, is_input, legal_input};
ghost use Rattle.spec_model.specs.WellMade.{WellMade, is_domain};
ghost use Rattle.spec_model.specs.FirstBroken.{lesser, least as least_lem, line_label, first_broken};
ghost use Rattle.game_play.specs.Judged.{made_reading, judged_in, numbers_false, IsSafeIn, AreSafeIn, IsJudgeOf};
ghost use Rattle.game_play.specs.Sights.{as_values, entries_at, seen_reading, reading_in, IsSplit, IsReadAt};

use crate::made::Made;
use crate::reading::parts;
use crate::sight::Sight;
use game_values::eval::holds;
use game_values::late::waits;
use game_values::seen::At;
use spec_model::expr::Expr;
use spec_model::game::{Game, Label};
use spec_model::value::{Domain, Owner, Value, Var};
use std::alloc::{AllocError, Global};

/// What is seen of a move: the position that it makes, as far as inputs tell, and the state before with the next input.
#[derive(Clone, Copy)]
pub struct Move<'a> {
    pub made: Made<'a>,
    pub before: Option<Sight<'a>>,
}

/// Judges the inputs of a game.
#[derive(Drop)]
pub struct InputJudge {
    /// Which safety assumptions wait for the output.
    pub waits: Vec<bool>,
    /// An output, for positions that have none yet.
    pub output: Vec<Value>,
}

/// The first value of a domain.
fn first_value(domain: &Domain) -> Value
    requires { is_domain (domain_data domain.now) ≡ true }
    ensures { list_any (same_value result) (values_of (domain_data domain.now)) ≡ true }
{
    match domain {
        Domain::Boolean => Value::Bool(false),
        Domain::Range { lo, hi: _ } => Value::Int(*lo),
        Domain::Names(names) => Value::Name(names[0]),
    }
}

/// The first value of each output.
fn first_output(alloc: Global, vars: &[Var]) -> Result<Vec<Value>, AllocError>
    requires { list_all (λ v. is_domain v.domain) (map variable_data vars.now) ≡ true }
    ensures { IfOk result (λ y. is_assignment (domains_of (λ o. not (is_env o)) (map variable_data vars.now)) y.items ≡ true) }
{
    let mut output = Vec::new(alloc);
    for v in vars {
        if v.owner == Owner::Sys {
            output.push(first_value(&v.domain))?;
        }
    }
    Ok(output)
}

/// The lesser of two numbers, as far as there are any.
pub fn lesser_of(a: Option<u32>, b: Option<u32>) -> Option<u32>
    ensures { result ≡ lesser a b }
{
    match (a, b) {
        (Some(m), Some(n)) => Some(m.min(n)),
        (Some(m), None) => Some(m),
        (None, _) => b,
    }
}

fn flag(flags: &[bool], k: usize) -> bool
    ensures { result ≡ get_or flags.now k false }
{
    k < flags.len() && flags[k]
}

/// Whether a line is true where it is judged; a late one at the state before, and at the first move not at all.
fn is_kept(e: &Expr, late: bool, m: &Move) -> bool
    requires { IsSafeIn m.now (formula e.now) }
    ensures { result ≡ judged_in m.now late (formula e.now) }
{
    if !late {
        return holds(e, &m.made, At::Now);
    }
    match &m.before {
        None => true,
        Some(seen) => holds(e, seen, At::Now),
    }
}

/// The least number of a line that is false. Which of them are late is given beside them; where nothing is given, none is.
pub fn least_false(lines: &[(u32, Expr)], late: &[bool], m: &Move) -> Option<u32>
    requires { AreSafeIn m.now lines.now }
    ensures { result ≡ least_lem (numbers_false (judged_in m.now) late.now (map (λ l. (l.0, formula l.1)) lines.now)) }
{
    let mut found = None;
    for k in 0..lines.len() {
        let line = &lines[k];
        if !is_kept(&line.1, flag(late, k), m) {
            found = lesser_of(found, Some(line.0));
        }
    }
    found
}

/// The least number of an initial assumption that is false at the position.
fn false_initial(game: &Game, m: &Move) -> Option<u32>
    requires { AreSafeIn m.now game.now.initial_asm.items }
    ensures { result ≡ least_lem (numbers_false (judged_in m.now) [] (game_data game.now).initial_asm) }
{
    least_false(&game.initial_asm, &[], m)
}

/// The least number of a safety assumption that is false where it is judged.
fn false_safety(game: &Game, late: &[bool], m: &Move) -> Option<u32>
    requires { AreSafeIn m.now game.now.safe_asm.items }
    ensures { result ≡ least_lem (numbers_false (judged_in m.now) late.now (game_data game.now).safe_asm) }
{
    least_false(&game.safe_asm, late, m)
}

/// The least number of an assumption that is false at the first position.
fn false_at_start(game: &Game, late: &[bool], made: Made) -> Option<u32>
    requires initial { AreSafeIn (record { made = made; before = None }) game.now.initial_asm.items }
    requires safety { AreSafeIn (record { made = made; before = None }) game.now.safe_asm.items }
    ensures { let test = judged_in (record { made = made.entry; before = None }) in
        result ≡ lesser (least_lem (numbers_false test [] (game_data game.now).initial_asm)) (least_lem (numbers_false test late.now (game_data game.now).safe_asm)) }
{
    let m = Move { made, before: None };
    lesser_of(false_initial(game, &m), false_safety(game, late, &m))
}

/// What is seen of the position that an input and an output make, where it has these hidden values.
pub fn made_position<'a>(
    game: &'a Game,
    numbers: &'a [Value],
    input: &'a [Value],
    output: &'a [Value],
) -> Made<'a>
    requires made { WellMade (game_data game.now) }
    requires state { (s : State) × IsTrue (is_state (game_data game.now) s) × IsSplit s numbers.now input.now output.now }
    ensures { (s : State) → IsTrue (is_state (game_data game.now) s) → IsSplit s numbers.now input.now output.now → made_reading result ≡ step_reading (game_data game.now) s s }
{
    Made {
        vars: &game.vars,
        hidden: &game.hidden,
        numbers,
        input,
        output,
    }
}

/// What is seen of a state and the next input, where the cells of the tables at the state are these.
pub fn last_position<'a>(
    game: &'a Game,
    state: &'a [Value],
    cells: &'a [Value],
    next_input: &'a [Value],
    next_output: &'a [Value],
) -> Sight<'a>
    requires { (s : State) × IsTrue (is_state (game_data game.now) s) × (listed s ≡ state.now) }
    ensures { (s : State) → IsTrue (is_state (game_data game.now) s) → listed s ≡ state.now →
        reading_in result ≡ seen_reading (game_data game.now).variables s.position (record { input = next_input.now; output = next_output.now }) (entries_at (game_data game.now).hidden cells.now) }
{
    let (_, input, output) = parts(game, state);
    Sight {
        vars: &game.vars,
        hidden: &game.hidden,
        input,
        output,
        next_input,
        next_output,
        cells,
    }
}

/// The label of a line with one part.
pub fn label_of(line: Option<u32>) -> Option<Label>
    ensures { result ≡ option_map line_label line }
{
    match line {
        Some(line) => Some(Label { line, part: 0 }),
        None => None,
    }
}

impl InputJudge {
    /// A judge of the inputs of a game. `AllocError`: no memory was given.
    pub fn make(alloc: Global, game: &Game) -> Result<InputJudge, AllocError>
        requires { WellMade (game_data game.now) }
        ensures { IfOk result (IsJudgeOf (game_data game.now)) }
    {
        Ok(InputJudge {
            waits: waits(alloc, &game.safe_asm, &game.vars, &game.hidden)?,
            output: first_output(alloc, &game.vars)?,
        })
    }

    /// The assumption with the least number that a first input breaks; the first hidden values are given.
    pub fn first_broken_at_start(
        &self,
        game: &Game,
        numbers: &[Value],
        input: &[Value],
    ) -> Option<Label>
        requires made { WellMade (game_data game.now) }
        requires judge { IsJudgeOf (game_data game.now) self.now }
        requires numbers { numbers.now ≡ as_values (first_hidden (game_data game.now)) }
        requires input { IsTrue (is_input (game_data game.now) input.now) }
        ensures first { result ≡ first_broken (game_data game.now) None input.now }
        ensures none { is_none result ≡ legal_input (game_data game.now) None input.now }
    {
        let output: &[Value] = &self.output;
        let made = made_position(game, numbers, input, output);
        label_of(false_at_start(game, &self.waits, made))
    }

    /// The assumption with the least number that an input breaks after a state. The cells of the tables at the state are given,
    /// and the hidden values after it.
    pub fn first_broken_after(
        &self,
        game: &Game,
        state: &[Value],
        cells: &[Value],
        numbers: &[Value],
        input: &[Value],
    ) -> Option<Label>
        requires made { WellMade (game_data game.now) }
        requires judge { IsJudgeOf (game_data game.now) self.now }
        requires state { (s : State) × IsTrue (is_state (game_data game.now) s) × IsReadAt (game_data game.now) s state.now cells.now numbers.now }
        requires input { IsTrue (is_input (game_data game.now) input.now) }
        ensures first { (s : State) → IsTrue (is_state (game_data game.now) s) → IsReadAt (game_data game.now) s state.now cells.now numbers.now →
            result ≡ first_broken (game_data game.now) (Some s) input.now }
        ensures none { (s : State) → IsTrue (is_state (game_data game.now) s) → IsReadAt (game_data game.now) s state.now cells.now numbers.now →
            is_none result ≡ legal_input (game_data game.now) (Some s) input.now }
    {
        let output: &[Value] = &self.output;
        let made = made_position(game, numbers, input, output);
        let last = last_position(game, state, cells, input, output);
        let m = Move {
            made,
            before: Some(last),
        };
        label_of(false_safety(game, &self.waits, &m))
    }
}
