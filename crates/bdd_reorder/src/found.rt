//! The parts that were counted, each once, by their numbers.

ghost use Rattle.std.specs.Prelude.{◌≡◌, ◌+◌, ◌^◌, ◌<◌, ◌++◌, ◌∷◌, ◌↔◌, [], ℕ, false, IfOk, OnOk, IsTrue, length, slice_index_or, vec_len};
ghost use Rattle.std.specs.List.{Contains};

use bdd_ops::OutOfMemory;
use std::alloc::{AllocError, Global};
use std::marker::Model;

/// Makes room for the flag of a place.
fn reach(seen: &mut Vec<bool>, place: usize) -> Result<(), OutOfMemory>
    requires { place < 2 ^ 32 }
    ensures reached { OnOk result (place < vec_len seen.new) }
    ensures same { (n : ℕ) → slice_index_or seen.new.items n false ≡ slice_index_or seen.old.items n false }
{
    if seen.len() <= place {
        seen.resize(place + 1, false)?;
    }
    Ok(())
}

/// Numbers, each once.
#[derive(Drop)]
pub struct Found {
    numbers: Vec<u32>,
    /// Whether a number is among them.
    seen: Vec<bool>,
}

impl Model for Found {
    ghost use Rattle.std.specs.Prelude.{ℕ, List};
    ghost use Rattle.bdd_reorder.specs.Searching.{AreMarked};

    ghost Value = { List ℕ };

    ghost view = { λ f. f.numbers.items };

    ghost invariant = { λ f. AreMarked f.seen.items f.numbers.items };
}

impl Found {
    /// No numbers.
    pub fn new(alloc: Global) -> Found
        ensures { result ≡ [] }
    {
        Found {
            numbers: Vec::new(alloc),
            seen: Vec::new(alloc),
        }
    }

    /// Whether a number is among them.
    pub fn has(&self, number: u32) -> bool
        ensures { IsTrue result ↔ Contains self.now number }
    {
        let place = number as usize;
        place < self.seen.len() && self.seen[place]
    }

    /// One number more.
    pub fn add(&mut self, number: u32) -> Result<(), OutOfMemory>
        ensures { OnOk result (self.new ≡ self.old ++ number ∷ []) }
    {
        let place = number as usize;
        self.numbers.reserve(1)?;
        reach(&mut self.seen, place)?;
        self.numbers.push_reserved(number);
        self.seen[place] = true;
        Ok(())
    }

    /// How many there are, and two more. Want of a number for that is told as want of memory.
    pub fn and_two(&self) -> Result<u32, OutOfMemory>
        ensures { IfOk result (λ count. count ≡ length self.now + 2) }
    {
        let parts = self.numbers.len().checked_add(2).ok_or(AllocError)?;
        match u32::try_from(parts) {
            Ok(count) => Ok(count),
            Err(_) => Err(AllocError),
        }
    }
}
