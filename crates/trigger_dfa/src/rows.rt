//! The table's next values.

ghost use Rattle.std.specs.Prelude.{◌≡◌, ◌≤◌, ◌+◌, ◌^◌, ◌++◌, length, vec_len, OnOk};
ghost use Rattle.trigger_dfa.specs.Rows.{number_in, row_of, rows_of, place_in};

use crate::masks::join;
use crate::walk::Walk;
use std::alloc::AllocError;

// The place of a word, or the number of words.
fn place_of(words: &[u64], word: u64) -> usize
    ensures place { result ≡ place_in words.now word }
    ensures within { result ≤ length words.now }
{
    for (k, other) in words.iter().enumerate() {
        if *other == word {
            return k;
        }
    }
    words.len()
}

impl Walk {
    // The value after a set was read: the start of the other side, where it has a last position.
    fn number(&self, sets: &[u64], word: u64, start: u16, other: u16) -> u16
        requires { start + length sets.now + 2 ≤ 2 ^ 16 }
        ensures { result ≡ number_in self.now.lasts sets.now start other word }
    {
        if word & self.lasts != 0 {
            return other;
        }
        start + 1 + place_of(sets, word) as u16
    }

    // The next values where these positions may be read.
    fn row(
        &self,
        next: &mut Vec<u16>,
        after: u64,
        sets: &[u64],
        start: u16,
        other: u16,
    ) -> Result<(), AllocError>
        requires { start + length sets.now + 2 ≤ 2 ^ 16 }
        ensures { OnOk result (next.new.items ≡ next.old.items ++ row_of self.now sets.now start other after) }
    {
        for mask in &self.masks {
            next.push(self.number(sets, after & *mask, start, other))?;
        }
        Ok(())
    }

    /// Adds the next values of a side's values: its start, and the sets.
    pub fn rows(
        &self,
        next: &mut Vec<u16>,
        sets: &[u64],
        start: u16,
        other: u16,
    ) -> Result<(), AllocError>
        requires room { start + length sets.now + 2 ≤ 2 ^ 16 }
        requires few { vec_len self.now.follow ≤ 64 }
        ensures { OnOk result (next.new.items ≡ next.old.items ++ rows_of self.now sets.now start other) }
    {
        self.row(next, self.firsts, sets, start, other)?;
        for set in sets {
            self.row(next, join(&self.follow, *set), sets, start, other)?;
        }
        Ok(())
    }
}
