//! The hidden values of a game along a play. No call takes memory.

ghost use Rattle.std.specs.Prelude.{◌≡◌, ◌<◌, ◌^◌, length, map, pos, IsTrue, true, []};
ghost use Rattle.std.specs.List.{list_all};
ghost use Rattle.spec_model.specs.Values.{is_assignment};
ghost use Rattle.spec_model.specs.GameViews.{game_data, hidden_data};
ghost use Rattle.spec_model.specs.Views.{variable_data};
ghost use Rattle.spec_model.specs.Moves.{is_env, domains_of};
ghost use Rattle.std.specs.Prelude.{not};
ghost use Rattle.spec_model.specs.Games.{State, listed, nothing_read, read_tables, first_hidden as first_hidden_lem, next_hidden as next_hidden_lem};
ghost use Rattle.spec_model.specs.Steps.{is_state, are_hidden_values};
ghost use Rattle.spec_model.specs.WellMade.{WellMade, is_domain, are_tables};
ghost use Rattle.game_play.specs.Sights.{cell_in as cell_in_lem, read_so_far, nexts_at, AreCells, IsSplit, as_values};

use crate::made::number_of;
use crate::sight::{Sight, cell_in};
use game_values::cells::number_in;
use game_values::eval::cell;
use spec_model::game::{Game, Hidden};
use spec_model::value::{Value, Var};
use spec_model::variables::count_inputs;

/// A number as a value.
fn as_value(n: usize) -> Value
    requires { n < 2 ^ 63 }
    ensures { result ≡ Value.Int (pos n) }
{
    Value::Int(n as i64)
}

/// Writes the first value of each table.
fn write_firsts(hidden: &[Hidden], out: &mut [Value])
    requires { length out.old ≡ length hidden.now }
    ensures { out.new ≡ map (λ v. Value.Int (pos v)) (map (λ h. h.first) (map hidden_data hidden.now)) }
{
    for k in 0..hidden.len() {
        out[k] = as_value(hidden[k].first as usize);
    }
}

/// Writes the hidden values of the first position.
pub fn first_hidden(game: &Game, out: &mut [Value])
    requires { length out.old ≡ length (game_data game.now).hidden }
    ensures { out.new ≡ map (λ v. Value.Int (pos v)) (first_hidden_lem (game_data game.now)) }
{
    write_firsts(&game.hidden, out);
}

/// Writes the cell of each table, in order, each at its value and at the letter of the present and of the tables before it.
pub fn read_cells(
    vars: &[Var],
    hidden: &[Hidden],
    numbers: &[Value],
    input: &[Value],
    output: &[Value],
    out: &mut [Value],
)
    requires domains { list_all (λ v. is_domain v.domain) (map variable_data vars.now) ≡ true }
    requires tables { are_tables (record { domains = map (λ v. v.domain) (map variable_data vars.now); tables = [] }) (map hidden_data hidden.now) ≡ true }
    requires numbers { are_hidden_values (map hidden_data hidden.now) (map cell_in_lem numbers.now) ≡ true }
    requires input { is_assignment (domains_of is_env (map variable_data vars.now)) input.now ≡ true }
    requires output { is_assignment (domains_of (λ o. not (is_env o)) (map variable_data vars.now)) output.now ≡ true }
    requires room { length out.old ≡ length hidden.now }
    ensures { read_so_far (map hidden_data hidden.now) out.new ≡ read_tables (map variable_data vars.now) (record { input = input.now; output = output.now }) nothing_read (map hidden_data hidden.now) (map cell_in_lem numbers.now) }
{
    for k in 0..hidden.len() {
        let h = &hidden[k];
        let seen = Sight {
            vars,
            hidden,
            input,
            output,
            next_input: input,
            next_output: output,
            cells: &out[..k],
        };
        let at = cell(h, number_of(h, numbers[k]), &seen);
        out[k] = as_value(at);
    }
}

/// Writes the value that each table has next, at its cell.
fn move_on(hidden: &[Hidden], cells: &[Value], out: &mut [Value])
    requires cells { length cells.now ≡ length hidden.now }
    requires room { length out.old ≡ length hidden.now }
    ensures { out.new ≡ map (λ v. Value.Int (pos v)) (nexts_at (map hidden_data hidden.now) cells.now) }
{
    for k in 0..hidden.len() {
        let next = number_in(&hidden[k].next, cell_in(cells[k]));
        out[k] = as_value(next as usize);
    }
}

/// The hidden values, the input and the output of a state.
pub fn parts<'a>(game: &Game, state: &'a [Value]) -> (&'a [Value], &'a [Value], &'a [Value])
    requires { (s : State) × IsTrue (is_state (game_data game.now) s) × (listed s ≡ state.now) }
    ensures { (s : State) → IsTrue (is_state (game_data game.now) s) → listed s ≡ state.now → IsSplit s result.0.now result.1.now result.2.now }
{
    let (numbers, moves) = state.split_at(game.hidden.len());
    let (input, output) = moves.split_at(count_inputs(&game.vars));
    (numbers, input, output)
}

/// Writes the cell of each table at a state that has these hidden values and moves.
pub fn read_state(
    game: &Game,
    numbers: &[Value],
    input: &[Value],
    output: &[Value],
    cells: &mut [Value],
)
    requires made { WellMade (game_data game.now) }
    requires room { length cells.old ≡ length (game_data game.now).hidden }
    requires state { (s : State) × IsTrue (is_state (game_data game.now) s) × IsSplit s numbers.now input.now output.now }
    ensures { (s : State) → IsTrue (is_state (game_data game.now) s) → IsSplit s numbers.now input.now output.now → AreCells (game_data game.now) s cells.new }
{
    read_cells(&game.vars, &game.hidden, numbers, input, output, cells);
}

/// Writes the cells of the tables at a state, and the hidden values of the position after it.
pub fn next_hidden(game: &Game, state: &[Value], cells: &mut [Value], out: &mut [Value])
    requires made { WellMade (game_data game.now) }
    requires cells { length cells.old ≡ length (game_data game.now).hidden }
    requires room { length out.old ≡ length (game_data game.now).hidden }
    requires state { (s : State) × IsTrue (is_state (game_data game.now) s) × (listed s ≡ state.now) }
    ensures cells { (s : State) → IsTrue (is_state (game_data game.now) s) → listed s ≡ state.now → AreCells (game_data game.now) s cells.new }
    ensures next { (s : State) → IsTrue (is_state (game_data game.now) s) → listed s ≡ state.now → out.new ≡ as_values (next_hidden_lem (game_data game.now) s) }
{
    let (numbers, input, output) = parts(game, state);
    read_state(game, numbers, input, output, cells);
    move_on(&game.hidden, cells, out);
}
