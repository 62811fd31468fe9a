//! What expressions read: the value of each variable, and the entries of each hidden table.

ghost use Rattle.std.specs.Prelude.{◌≡◌, ℕ};
ghost use Rattle.spec_model.specs.Meaning.{Reading};
ghost use Rattle.game_values.specs.Times.{time_of};
ghost use Rattle.game_values.specs.Found.{IsFound};

use spec_model::game::Hidden;
use spec_model::value::Value;

/// Which of two moments is read.
#[derive(Clone, Copy, PartialEq, Eq)]
pub enum At {
    Now,
    Next,
}

/// An entry of a hidden table, or where it is found.
#[derive(Clone, Copy)]
pub enum Found<'a, S> {
    /// It is this one.
    Known(bool),
    /// It is the table's at this value, and at the letter that its atoms have where only the tables before it are read.
    In(&'a Hidden, u16, S),
}

/// What is seen of a moment and the next one.
pub trait Seen: Copy {
    ghost reading: { Self → Reading };

    /// How many nodes the atoms have of all tables that entries may still be found in.
    ghost unread: { Self → ℕ };

    fn variable(&self, at: At, k: usize) -> Value
        ensures { result ≡ (reading self.now).variable k (time_of at) };

    fn entry(&self, at: At, table: usize, part: usize) -> Found<'_, Self>
        ensures { IsFound reading unread self.now table part (time_of at) result };
}
