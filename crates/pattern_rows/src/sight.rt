//! What lines read of a pattern's variables.

ghost use Rattle.std.specs.Prelude.{◌≡◌, ◌++◌, map, get_or, false};
ghost use Rattle.std.specs.List.{list_all};
ghost use Rattle.spec_model.specs.Views.{formula};
ghost use Rattle.spec_model.specs.Meaning.{holds_at};
ghost use Rattle.game_values.specs.Safety.{AreSafe, formulas_in};
ghost use Rattle.pattern_rows.specs.Sights.{reading_in};

use game_values::eval::holds;
use game_values::seen::{At, Found, Seen};
use game_values::values::value_or;
use spec_model::expr::Expr;
use spec_model::value::Value;

/// The values of the parameters, and those of the own variables at a position and at the next one.
#[derive(Clone, Copy)]
pub struct Sight<'a> {
    pub letter: &'a [Value],
    pub own: &'a [Value],
    pub next: &'a [Value],
}

/// The value at a place of two lists, one behind the other.
fn value_behind(front: &[Value], back: &[Value], k: usize) -> Value
    ensures { result ≡ get_or (front.now ++ back.now) k (Value.Bool false) }
{
    if k < front.len() {
        front[k]
    } else {
        value_or(back, k - front.len())
    }
}

impl<'a> Seen for Sight<'a> {
    ghost reading = { reading_in };

    ghost unread = { λ s. 0 };

    fn variable(&self, at: At, k: usize) -> Value {
        match at {
            At::Now => value_behind(self.letter, self.own, k),
            At::Next => value_behind(self.letter, self.next, k),
        }
    }

    fn entry(&self, _at: At, _table: usize, _part: usize) -> Found<'_, Self> {
        Found::Known(false)
    }
}

/// Whether each line holds.
pub fn each_holds(lines: &[Expr], s: &Sight<'_>) -> bool
    requires { AreSafe (reading_in s.now) (formulas_in lines.now) 0 }
    ensures { result ≡ list_all (λ e. holds_at (reading_in s.now) e 0) (map formula lines.now) }
{
    for line in lines {
        if !holds(line, s, At::Now) {
            return false;
        }
    }
    true
}
