//! Goes past the positions that planes tell to be clear, and has the others judged.

ghost use Rattle.std.specs.Prelude.{◌≡◌, ◌+◌, ◌<◌, ◌≤◌, ◌++◌, true, [], ◌∷◌, length, None};
ghost use Rattle.spec_model.specs.GameViews.{game_data};
ghost use Rattle.spec_model.specs.GameRules.{last_state};
ghost use Rattle.spec_model.specs.Rules.{Position, Run};
ghost use Rattle.spec_model.specs.Games.{GameData};
ghost use Rattle.trace_planes.specs.Audits.{HasJudged, IsPosition, IsWorkspaceOf, JudgesAfter, OfEachJudged};
ghost use Rattle.trace_planes.specs.GameFindings.{broken_in_game};
ghost use Rattle.trace_planes.specs.Rows.{AreWhole, AreRows, AreClear, HasColumns, HasCells};

use crate::clear::clear_moves;
use crate::columns::write_columns;
use crate::judge::Judge;
use crate::plain::Plain;
use crate::walk::write_all_cells;
use crate::workspace::Workspace;
use column_planes::{Columns, words_for};
use spec_model::value::Value;

/// How many positions after the first break no line, as far as columns tell.
fn clear_by_columns(
    judge: &Judge,
    count: usize,
    codes: &[u16],
    cells: &[usize],
    room: &mut [u64],
    out: &mut [u64],
) -> usize
    requires some { (0 < count) × (count ≤ 4096) }
    requires judges { (h : Run) × JudgesAfter judge.now (game_data judge.now.game) (last_state (game_data judge.now.game) h) }
    requires words { length out.old ≡ 64 }
    ensures clear { let g = game_data judge.now.game in (h ps : Run) → JudgesAfter judge.now g (last_state g h) → AreWhole g ps → length ps ≡ count → HasColumns codes.now g count ps → HasCells cells.now g h count ps → AreClear g h ps result }
    ensures lengths { length out.new ≡ length out.old }
{
    let bits = count - 1;
    let c = Columns {
        vars: &judge.game.vars,
        hidden: &judge.game.hidden,
        codes,
        cells,
        bits,
    };
    let (front, _) = out.split_at_mut(words_for(bits));
    clear_moves(
        &judge.game,
        &judge.inputs.waits,
        &judge.outputs.nexts,
        c,
        room,
        front,
    )
}

/// How many positions after the first break no line, as far as planes tell. The cells of hidden tables are written only where
/// planes tell nothing without them.
pub fn clear_rows(
    judge: &Judge,
    rows: &[Value],
    width: usize,
    count: usize,
    work: &mut Workspace,
) -> usize
    requires few { count ≤ 4096 }
    requires sized { IsWorkspaceOf (game_data judge.now.game) work.old }
    requires rows { let g = game_data judge.now.game in (h ps : Run) × JudgesAfter judge.now g (last_state g h) × AreRows g width ps rows.now × (length ps ≡ count) }
    ensures clear { let g = game_data judge.now.game in (h ps : Run) → JudgesAfter judge.now g (last_state g h) → AreRows g width ps rows.now → length ps ≡ count → AreClear g h ps result }
    ensures sized { IsWorkspaceOf (game_data judge.now.game) work.new }
{
    if count == 0 {
        return 0;
    }
    if !write_columns(&judge.game, rows, width, count, &mut work.columns) {
        return 0;
    }
    let clear = clear_by_columns(
        judge,
        count,
        &work.columns,
        &[],
        &mut work.scratch,
        &mut work.clear,
    );
    if 0 < clear || judge.game.hidden.is_empty() {
        return clear;
    }
    write_all_cells(judge, &mut work.ahead, rows, width, count, &mut work.cells);
    clear_by_columns(
        judge,
        count,
        &work.columns,
        &work.cells,
        &mut work.scratch,
        &mut work.clear,
    )
}

/// Whether a position is one of the clear ones after the first.
fn is_clear(i: usize, clear: usize) -> bool
    ensures { result ≡ true → (0 < i) × (i ≤ clear) }
{
    0 < i && i <= clear
}

/// Goes past a position that is clear, and has another judged.
fn judge_row(plain: &mut Plain, row: &[Value], i: usize, clear: usize)
    requires stands { (g : GameData) × (h : Run) × HasJudged plain.old g h × (length h < 18446744073709551615) }
    requires position { (p : Position) × IsPosition (game_data plain.old.judge.game) p row.now }
    ensures { OfEachJudged plain.old (λ g h. (p : Position) → IsPosition g p row.now → (0 < i → i ≤ clear → broken_in_game g h p ≡ None) → HasJudged plain.new g (h ++ p ∷ [])) }
{
    if is_clear(i, clear) {
        plain.pass(row);
    } else {
        plain.push(row);
    }
}

/// Judges positions one after the other; so many after the first are clear. Their values are given one behind the other.
pub fn judge_rows(plain: &mut Plain, rows: &[Value], width: usize, count: usize, clear: usize)
    requires stands { (g : GameData) × (h : Run) × (ps : Run) × HasJudged plain.old g h × AreRows g width ps rows.now × (length ps ≡ count) × AreClear g h ps clear × (length h + count < 18446744073709551616) }
    ensures { (g : GameData) (h ps : Run) → HasJudged plain.old g h → AreRows g width ps rows.now → length ps ≡ count → AreClear g h ps clear → HasJudged plain.new g (h ++ ps) }
{
    let mut rest = rows;
    for i in 0..count {
        let (row, others) = rest.split_at(width);
        judge_row(plain, row, i, clear);
        rest = others;
    }
}
