//! Moments that were read before.

ghost use Rattle.std.specs.Prelude.{◌≡◌, [], map, get_or, false};
ghost use Rattle.game_values.specs.Moments.{reading_in};

use crate::seen::{At, Found, Seen};
use crate::values::value_or;
use spec_model::value::Value;

/// What a state gives to expressions: the value of each variable, and the entries of each hidden table.
#[derive(Drop)]
pub struct Moment {
    pub values: Vec<Value>,
    pub entries: Vec<Vec<bool>>,
}

/// A moment and the next one.
#[derive(Clone, Copy)]
pub struct Moments<'a> {
    pub here: &'a Moment,
    pub next: &'a Moment,
}

fn entry_or(entries: &[Vec<bool>], table: usize, part: usize) -> bool
    ensures { result ≡ get_or (get_or (map (λ es. es.items) entries.now) table []) part false }
{
    if table < entries.len() && part < entries[table].len() {
        entries[table][part]
    } else {
        false
    }
}

impl<'a> Seen for Moments<'a> {
    ghost reading = { reading_in };

    ghost unread = { λ m. 0 };

    fn variable(&self, at: At, k: usize) -> Value {
        match at {
            At::Now => value_or(&self.here.values, k),
            At::Next => value_or(&self.next.values, k),
        }
    }

    fn entry(&self, at: At, table: usize, part: usize) -> Found<'_, Self> {
        match at {
            At::Now => Found::Known(entry_or(&self.here.entries, table, part)),
            At::Next => Found::Known(entry_or(&self.next.entries, table, part)),
        }
    }
}
