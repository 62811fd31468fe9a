//! Which lines hold at the move to a numbered state.

ghost use Rattle.std.specs.Prelude.{◌≡◌, ◌&&◌, ◌||◌, is_some, map, length, false};
ghost use Rattle.std.specs.List.{list_all};
ghost use Rattle.spec_model.specs.Views.{formula};
ghost use Rattle.spec_model.specs.Meaning.{holds_at};
ghost use Rattle.game_values.specs.Moments.{moment_data, reading_of};
ghost use Rattle.game_values.specs.Safety.{IsSafe};
ghost use Rattle.game_values.specs.Lines.{IsThere, IsLineSafe, AreLinesSafe, line_at, lines_at};

use crate::eval::holds;
use crate::moments::{Moment, Moments};
use crate::read::Readout;
use crate::seen::At;
use spec_model::expr::Expr;

/// Whether an expression holds at a moment and the next one.
pub fn holds_between(e: &Expr, here: &Moment, next: &Moment) -> bool
    requires { IsSafe (reading_of (moment_data here.now) (moment_data next.now)) (formula e.now) 0 }
    ensures { result ≡ holds_at (reading_of (moment_data here.now) (moment_data next.now)) (formula e.now) 0 }
{
    holds(e, &Moments { here, next }, At::Now)
}

/// Whether a line holds at the move from a state, if there is one, to another. One that is late is judged at the
/// state before, and at the first move not at all.
fn line_holds(e: &Expr, late: bool, seen: &[Readout], before: Option<usize>, at: usize) -> bool
    requires there { IsThere (length seen.now) before at }
    requires safe { IsLineSafe (map (λ r. moment_data r.moment) seen.now) before at (formula e.now) }
    ensures { result ≡ line_at (map (λ r. moment_data r.moment) seen.now) before at late (formula e.now) }
{
    if !late {
        return holds_between(e, &seen[at].moment, &seen[at].moment);
    }
    match before {
        None => true,
        Some(from) => holds_between(e, &seen[from].moment, &seen[at].moment),
    }
}

/// Whether each of some lines holds; which of them are late is given beside them.
pub fn lines_hold(
    lines: &[(u32, Expr)],
    late: &[bool],
    seen: &[Readout],
    before: Option<usize>,
    at: usize,
) -> bool
    requires flagged { length late.now ≡ length lines.now }
    requires there { IsThere (length seen.now) before at }
    requires safe { AreLinesSafe (map (λ r. moment_data r.moment) seen.now) before at (map (λ l. formula l.1) lines.now) }
    ensures { result ≡ lines_at (map (λ r. moment_data r.moment) seen.now) before at late.now (map (λ l. formula l.1) lines.now) }
{
    for k in 0..lines.len() {
        let line = &lines[k];
        if !line_holds(&line.1, late[k], seen, before, at) {
            return false;
        }
    }
    true
}

/// Whether each of some lines that are never late holds.
pub fn all_hold_at(
    lines: &[(u32, Expr)],
    seen: &[Readout],
    before: Option<usize>,
    at: usize,
) -> bool
    requires there { IsThere (length seen.now) before at }
    requires safe { AreLinesSafe (map (λ r. moment_data r.moment) seen.now) before at (map (λ l. formula l.1) lines.now) }
    ensures { result ≡ list_all (line_at (map (λ r. moment_data r.moment) seen.now) before at false) (map (λ l. formula l.1) lines.now) }
{
    for line in lines {
        if !line_holds(&line.1, false, seen, before, at) {
            return false;
        }
    }
    true
}

/// Whether the first lines hold, where this is the first move, and the others.
pub fn all_hold(
    first: &[(u32, Expr)],
    others: &[(u32, Expr)],
    late: &[bool],
    seen: &[Readout],
    before: Option<usize>,
    at: usize,
) -> bool
    requires flagged { length late.now ≡ length others.now }
    requires there { IsThere (length seen.now) before at }
    requires first { AreLinesSafe (map (λ r. moment_data r.moment) seen.now) before at (map (λ l. formula l.1) first.now) }
    requires others { AreLinesSafe (map (λ r. moment_data r.moment) seen.now) before at (map (λ l. formula l.1) others.now) }
    ensures { result ≡ ((is_some before || list_all (line_at (map (λ r. moment_data r.moment) seen.now) before at false) (map (λ l. formula l.1) first.now))
        && lines_at (map (λ r. moment_data r.moment) seen.now) before at late.now (map (λ l. formula l.1) others.now)) }
{
    (before.is_some() || all_hold_at(first, seen, before, at))
        && lines_hold(others, late, seen, before, at)
}
