//! How many moves break no line, worked out on planes.

ghost use Rattle.std.specs.Prelude.{◌≡◌, ℕ, ◌<◌, ◌≤◌, ◌&&◌, true, Some, length, map};
ghost use Rattle.spec_model.specs.Views.{formula};
ghost use Rattle.spec_model.specs.GameViews.{game_data};
ghost use Rattle.spec_model.specs.Steps.{line_holds};
ghost use Rattle.spec_model.specs.Games.{State, GameData};
ghost use Rattle.column_planes.specs.Columns.{AreWords, column_data};
ghost use Rattle.trace_planes.specs.Moves.{IsMove, IsPlaneOfMoves, NarrowsTo, are_kept};

use column_planes::{Columns, and_planes, first_zero, plane, write_all};
use game_values::seen::At;
use spec_model::expr::Expr;
use spec_model::game::Game;

/// Writes at which moves a line holds; a late one is judged at the position before.
fn line_plane(e: &Expr, late: bool, c: Columns, room: &mut [u64], out: &mut [u64]) -> bool
    requires words { AreWords c.bits (length out.old) }
    ensures plane { result ≡ true → IsPlaneOfMoves (column_data c.entry) c.entry.bits (λ g r s. line_holds g late (Some r) s (formula e.now)) out.new }
    ensures lengths { length out.new ≡ length out.old }
    ensures room { length room.new ≡ length room.old }
{
    if late {
        plane(e, At::Now, c, room, out)
    } else {
        plane(e, At::Next, c, room, out)
    }
}

/// Narrows a plane to the moves at which some lines hold. False where one of them isn't read by planes.
fn narrow(
    lines: &[(u32, Expr)],
    late: &[bool],
    c: Columns,
    room: &mut [u64],
    out: &mut [u64],
) -> bool
    requires words { AreWords c.bits (length out.old) }
    requires flagged { length late.now ≡ length lines.now }
    ensures plane { result ≡ true → NarrowsTo (column_data c.entry) c.entry.bits (λ g r s. are_kept g r s late.now (map (λ l. (l.0, formula l.1)) lines.now)) out.old out.new }
    ensures lengths { length out.new ≡ length out.old }
    ensures room { length room.new ≡ length room.old }
{
    if room.len() < out.len() || room.len() - out.len() < out.len() {
        return false;
    }
    let (one, rest) = room.split_at_mut(out.len());
    let (both, rest) = rest.split_at_mut(out.len());
    for k in 0..lines.len() {
        let line = &lines[k];
        if !line_plane(&line.1, late[k], c, rest, one) {
            return false;
        }
        and_planes(out, one, both);
        out.copy_from_slice(both);
    }
    true
}

/// Writes at which moves all safety lines hold. False where one of them isn't read by planes.
fn all_lines(
    game: &Game,
    waits: &[bool],
    nexts: &[bool],
    c: Columns,
    room: &mut [u64],
    out: &mut [u64],
) -> bool
    requires words { AreWords c.bits (length out.old) }
    requires flagged { (length waits.now ≡ length game.now.safe_asm.items) × (length nexts.now ≡ length game.now.safe_gar.items) }
    ensures plane { result ≡ true → IsPlaneOfMoves (column_data c.entry) c.entry.bits (λ g r s. are_kept g r s waits.now (game_data game.now).safe_asm && are_kept g r s nexts.now (game_data game.now).safe_gar) out.new }
    ensures lengths { length out.new ≡ length out.old }
    ensures room { length room.new ≡ length room.old }
{
    write_all(true, out);
    narrow(&game.safe_asm, waits, c, room, out) && narrow(&game.safe_gar, nexts, c, room, out)
}

/// How many moves break no safety line, as far as planes tell: all before the first that breaks one, and 0 where some line
/// isn't read by planes.
pub fn clear_moves(
    game: &Game,
    waits: &[bool],
    nexts: &[bool],
    c: Columns,
    room: &mut [u64],
    out: &mut [u64],
) -> usize
    requires words { AreWords c.bits (length out.old) }
    requires flagged { (length waits.now ≡ length game.now.safe_asm.items) × (length nexts.now ≡ length game.now.safe_gar.items) }
    ensures within { result ≤ c.entry.bits }
    ensures clear { (j : ℕ) → j < result → (g : GameData) (r s : State) → IsMove (column_data c.entry) j g r s →
        (are_kept g r s waits.now (game_data game.now).safe_asm && are_kept g r s nexts.now (game_data game.now).safe_gar) ≡ true }
    ensures lengths { length out.new ≡ length out.old }
{
    if !all_lines(game, waits, nexts, c, room, out) {
        return 0;
    }
    match first_zero(out, c.bits) {
        Some(j) => j,
        None => c.bits,
    }
}
