//! Columns of what is read at many positions.

ghost use Rattle.std.specs.Prelude.{◌≡◌, ◌≤◌};
ghost use Rattle.game_values.specs.Times.{time_of};

use game_values::seen::At;
use spec_model::game::Hidden;
use spec_model::value::Var;

/// The codes of the variables, 4,096 positions for each, the cells of the hidden tables likewise, and how many moves are looked
/// at. Where no cells are given, no entry is read.
#[derive(Clone, Copy)]
pub struct Columns<'a> {
    pub vars: &'a [Var],
    pub hidden: &'a [Hidden],
    pub codes: &'a [u16],
    pub cells: &'a [usize],
    pub bits: usize,
}

/// The place of the first position that is looked at.
pub fn first_place(at: At) -> usize
    ensures value { result ≡ time_of at }
    ensures within { result ≤ 1 }
{
    match at {
        At::Now => 0,
        At::Next => 1,
    }
}
