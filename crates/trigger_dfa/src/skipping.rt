//! Whether an expression matches nothing at all.

ghost use Rattle.std.specs.Prelude.{◌≡◌, map};
ghost use Rattle.spec_model.specs.Syntax.{regulars};
ghost use Rattle.spec_model.specs.Views.{regular};
ghost use Rattle.spec_model.specs.TriggerStates.{written, written_in_turn, written_besides, is_skipped};

use spec_model::expr::Regex;

/// Whether the expression matches nothing at all. Repeats around one another are a loop.
#[cycle(skipping)]
pub fn can_be_skipped(r: &Regex) -> bool
    ensures { result ≡ is_skipped (written (regular r.now)) }
{
    let mut part = r;
    'repeats: loop {
        match part {
            Regex::Atom(_) => return false,
            Regex::Cat(rs) => return can_all_be_skipped(rs),
            Regex::Alt(rs) => return can_one_be_skipped(rs),
            Regex::Repeat(inner, low, _) => {
                if *low == 0 {
                    return true;
                }
                part = inner;
            }
        }
    }
}

#[cycle(skipping)]
fn can_all_be_skipped(rs: &[Regex]) -> bool
    ensures { result ≡ is_skipped (written_in_turn (regulars (map regular rs.now))) }
{
    for r in rs {
        if !can_be_skipped(r) {
            return false;
        }
    }
    true
}

// Where there is no alternative, there is nothing to match.
#[cycle(skipping)]
fn can_one_be_skipped(rs: &[Regex]) -> bool
    ensures { result ≡ is_skipped (written_besides (regulars (map regular rs.now))) }
{
    for r in rs {
        if can_be_skipped(r) {
            return true;
        }
    }
    rs.is_empty()
}
