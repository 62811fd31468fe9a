//! Repeats that write what they repeat once. However many stand around one another, they do no more to it than one does.

ghost use Rattle.std.specs.Prelude.{◌≡◌, ◌≤◌};
ghost use Rattle.spec_model.specs.Views.{regular};
ghost use Rattle.spec_model.specs.TriggerStates.{written};
ghost use Rattle.trigger_dfa.specs.Sides.{size_of};
ghost use Rattle.trigger_dfa.specs.Wraps.{Wraps};

use crate::counting::copies_of;
use spec_model::expr::Regex;

/// An expression without such repeats around it, and what these do: whether one is a star, and whether one lets it be left
/// out.
#[derive(Clone, Copy)]
pub struct Wrapped<'a> {
    pub piece: &'a Regex,
    pub starred: bool,
    pub optional: bool,
}

/// Takes such repeats off an expression.
pub fn unwrapped(r: &Regex) -> Wrapped<'_>
    ensures wraps { Wraps result.starred result.optional (written (regular result.piece.now)) (written (regular r.now)) }
    ensures smaller { size_of (regular result.piece.now) ≤ size_of (regular r.now) }
{
    let mut piece = r;
    let mut starred = false;
    let mut optional = false;
    'repeats: while let Regex::Repeat(inner, low, high) = piece {
        if copies_of(*low, *high) != 1 {
            break;
        }
        starred |= high.is_none();
        optional |= *low == 0;
        piece = inner;
    }
    Wrapped {
        piece,
        starred,
        optional,
    }
}
