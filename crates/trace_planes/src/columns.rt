//! The codes of positions, in a column for each variable.

ghost use Rattle.std.specs.Prelude.{◌≡◌, true, ◌<◌, ◌≤◌, ◌*◌, ◌+◌, not, map, take, length, count_by, if◌then◌else◌};
ghost use Rattle.spec_model.specs.Views.{variable_data};
ghost use Rattle.spec_model.specs.GameViews.{game_data};
ghost use Rattle.spec_model.specs.Rules.{Run};
ghost use Rattle.spec_model.specs.Moves.{is_env, value_among};
ghost use Rattle.trace_planes.specs.Rows.{AreRows, HasCodes, HasColumns, KeepsOthers};

use crate::judge::moves;
use column_planes::code_in;
use game_values::values::value_or;
use spec_model::game::Game;
use spec_model::value::{Owner, Value, Var};

/// The value of a variable; so many inputs and outputs stand before it.
fn value_of(
    vars: &[Var],
    k: usize,
    input: &[Value],
    output: &[Value],
    ins: usize,
    outs: usize,
) -> Value
    requires within { k < length vars.now }
    requires inputs { ins ≡ count_by (λ v. is_env v.owner) (map variable_data (take k vars.now)) }
    requires outputs { outs ≡ count_by (λ v. not (is_env v.owner)) (map variable_data (take k vars.now)) }
    ensures { result ≡ value_among (map variable_data vars.now) (record { input = input.now; output = output.now }) k }
{
    let v = &vars[k];
    match v.owner {
        Owner::Env => value_or(input, ins),
        Owner::Sys => value_or(output, outs),
    }
}

/// 1 for an input, and 0 for an output.
fn inputs_in(v: &Var) -> usize
    ensures value { result ≡ (if is_env v.now.owner then 1 else 0) }
    ensures within { result ≤ 1 }
{
    match v.owner {
        Owner::Env => 1,
        Owner::Sys => 0,
    }
}

/// Writes the codes of a position. False where a value has none.
fn write_codes(vars: &[Var], input: &[Value], output: &[Value], i: usize, codes: &mut [u16]) -> bool
    requires sized { length codes.old ≡ 4096 * length vars.now }
    requires within { i < 4096 }
    ensures codes { result ≡ true → HasCodes codes.new i (map variable_data vars.now) (record { input = input.now; output = output.now }) }
    ensures others { KeepsOthers i codes.old codes.new }
    ensures lengths { length codes.new ≡ length codes.old }
{
    let mut ins = 0;
    for k in 0..vars.len() {
        let v = &vars[k];
        let Some(code) = code_in(&v.domain, value_of(vars, k, input, output, ins, k - ins)) else {
            return false;
        };
        codes[4_096 * k + i] = code;
        ins += inputs_in(v);
    }
    true
}

/// Writes the codes of some positions; their values are given one behind the other. False where a value has none.
pub fn write_columns(
    game: &Game,
    rows: &[Value],
    width: usize,
    count: usize,
    codes: &mut [u16],
) -> bool
    requires sized { length codes.old ≡ 4096 * length (game_data game.now).variables }
    requires few { count ≤ 4096 }
    requires rows { (ps : Run) × AreRows (game_data game.now) width ps rows.now × (length ps ≡ count) }
    ensures columns { result ≡ true → (ps : Run) → AreRows (game_data game.now) width ps rows.now → length ps ≡ count → HasColumns codes.new (game_data game.now) count ps }
    ensures lengths { length codes.new ≡ length codes.old }
{
    let mut rest = rows;
    for i in 0..count {
        let (row, others) = rest.split_at(width);
        let (input, output) = moves(game, row);
        if !write_codes(&game.vars, input, output, i, codes) {
            return false;
        }
        rest = others;
    }
    true
}
