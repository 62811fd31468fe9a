//! Goes through positions ahead of the judge, and writes the cells that the hidden tables have there.

ghost use Rattle.std.specs.Prelude.{◌≡◌, ℕ, ◌<◌, ◌≤◌, ◌*◌, ◌+◌, false, length, get_or};
ghost use Rattle.spec_model.specs.GameViews.{game_data};
ghost use Rattle.spec_model.specs.GameRules.{last_state};
ghost use Rattle.spec_model.specs.Rules.{Run};
ghost use Rattle.game_play.specs.Sights.{cell_in};
ghost use Rattle.trace_planes.specs.Audits.{IsSized, JudgesAfter};
ghost use Rattle.trace_planes.specs.Rows.{AreRows, HasCells, KeepsOthers};

use crate::judge::{Judge, moves};
use crate::run_state::RunState;
use game_values::values::value_or;
use spec_model::value::Value;

/// The cell that a value stands for.
fn cell_of(value: Value) -> usize
    ensures { result ≡ cell_in value }
{
    match value {
        Value::Int(z) => { if z < 0 { 0 } else { z as usize } }
        _ => 0,
    }
}

/// Writes the cells of the hidden tables at a position.
fn write_cells(here: &[Value], i: usize, cells: &mut [usize])
    requires sized { length cells.old ≡ 4096 * length here.now }
    requires within { i < 4096 }
    ensures cells { (k : ℕ) → k < length here.now → get_or cells.new (4096 * k + i) 0 ≡ cell_in (get_or here.now k (Value.Bool false)) }
    ensures others { KeepsOthers i cells.old cells.new }
    ensures lengths { length cells.new ≡ length cells.old }
{
    for k in 0..here.len() {
        cells[4_096 * k + i] = cell_of(value_or(here, k));
    }
}

/// Writes the cells of the hidden tables at some positions; their values are given one behind the other.
pub fn write_all_cells(
    judge: &Judge,
    ahead: &mut RunState,
    rows: &[Value],
    width: usize,
    count: usize,
    cells: &mut [usize],
)
    requires sized { (length cells.old ≡ 4096 * length (game_data judge.now.game).hidden) × IsSized (game_data judge.now.game) ahead.old }
    requires few { count ≤ 4096 }
    requires rows { let g = game_data judge.now.game in (h ps : Run) × JudgesAfter judge.now g (last_state g h) × AreRows g width ps rows.now × (length ps ≡ count) }
    ensures cells { let g = game_data judge.now.game in (h ps : Run) → JudgesAfter judge.now g (last_state g h) → AreRows g width ps rows.now → length ps ≡ count → HasCells cells.new g h count ps }
    ensures sized { (length cells.new ≡ length cells.old) × IsSized (game_data judge.now.game) ahead.new }
{
    ahead.take(&judge.place);
    let mut rest = rows;
    for i in 0..count {
        let (row, others) = rest.split_at(width);
        let (input, output) = moves(&judge.game, row);
        ahead.go_on(&judge.game, input, output);
        write_cells(&ahead.cells, i, cells);
        rest = others;
    }
}
