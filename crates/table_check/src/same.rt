//! Lists of values that are the same.

ghost use Rattle.std.specs.Prelude.{◌≡◌, map};
ghost use Rattle.game_play.specs.Sights.{cell_in as cell_in_lem};
ghost use Rattle.strategy_tables.specs.Tables.{same_values, same_numbers};

use game_play::cell_in;
use game_values::values::is_same;
use spec_model::value::Value;

/// Whether two lists have the same values.
pub fn are_same(a: &[Value], b: &[Value]) -> bool
    ensures { result ≡ same_values a.now b.now }
{
    if a.len() != b.len() {
        return false;
    }
    for i in 0..a.len() {
        if !is_same(a[i], b[i]) {
            return false;
        }
    }
    true
}

/// Whether two lists of hidden values have the same numbers.
pub fn are_same_numbers(a: &[Value], b: &[Value]) -> bool
    ensures { result ≡ same_numbers (map cell_in_lem a.now) (map cell_in_lem b.now) }
{
    if a.len() != b.len() {
        return false;
    }
    for i in 0..a.len() {
        if cell_in(a[i]) != cell_in(b[i]) {
            return false;
        }
    }
    true
}
