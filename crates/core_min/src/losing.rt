//! A set that is known to lose, and parts of it that are asked about.

ghost use Rattle.std.specs.Prelude.{◌≡◌, ◌≢◌, ◌≤◌, length, vec_capacity, filter, get_or, false, ◌-◌, ◌^◌, IfOk, ℕ};
ghost use Rattle.std.specs.List.{Contains};
ghost use Rattle.core_min.specs.Known.{is_picked};

use std::alloc::{AllocError, Global};

/// A set that loses, and the part of it that was last asked about.
#[derive(Drop)]
pub struct Losing {
    pub lost: Vec<usize>,
    pub part: Vec<usize>,
    /// Parts are guessed.
    pub guesses: bool,
}

/// The numbers below `kept`, those from `from` to before `to`, and those from `on`.
#[derive(Clone, Copy, Debug)]
pub struct Guess {
    pub kept: usize,
    pub from: usize,
    pub to: usize,
    pub on: usize,
}

impl Guess {
    fn has(&self, number: usize) -> bool
        ensures { result ≡ is_picked self.now number }
    {
        number < self.kept || (self.from <= number && number < self.to) || self.on <= number
    }
}

impl Losing {
    /// Room for any set of numbers below `n`.
    pub fn make(alloc: Global, n: usize) -> Result<Losing, AllocError>
        ensures room { IfOk result (λ losing. n ≤ vec_capacity losing.lost) }
        ensures part_room { IfOk result (λ losing. n ≤ vec_capacity losing.part) }
    {
        let lost = Vec::with_capacity(alloc, n)?;
        let part = Vec::with_capacity(alloc, n)?;
        Ok(Losing {
            lost,
            part,
            guesses: true,
        })
    }

    /// Whether the set has the number.
    pub fn has(&self, number: usize) -> bool
        ensures { result ≡ false → (k : ℕ) → Contains self.now.lost.items k → k ≢ number }
    {
        self.lost.contains(&number)
    }

    /// Takes another set in its place.
    pub fn take(&mut self, set: &[usize])
        requires room { length set.now ≤ vec_capacity self.old.lost }
        ensures set { self.new.lost.items ≡ set.now }
        ensures room { vec_capacity self.old.lost ≤ vec_capacity self.new.lost }
        ensures part { self.new.part ≡ self.old.part }
    {
        self.lost.clear();
        self.lost.extend_from_slice(set).unwrap();
    }

    /// The guess that has the numbers at these places: before `kept`, from `from` to before `to`, and from `on`.
    pub fn guess(&self, kept: usize, from: usize, to: usize, on: usize) -> Guess {
        let set = self.lost.as_slice();
        Guess {
            kept: number_at(set, kept),
            from: number_at(set, from),
            to: number_at(set, to),
            on: number_at(set, on),
        }
    }
}

// The number at a place, or the greatest behind the last.
fn number_at(set: &[usize], place: usize) -> usize
    ensures { result ≡ get_or set.now place (2 ^ 64 - 1) }
{
    match set.get(place) {
        Some(&number) => number,
        None => usize::MAX,
    }
}

/// Writes the numbers of a set that a guess has. There is room for them.
pub fn pick(set: &[usize], guess: &Guess, picked: &mut Vec<usize>)
    requires room { length set.now ≤ vec_capacity picked.old }
    ensures picked { picked.new.items ≡ filter (is_picked guess.now) set.now }
    ensures room { vec_capacity picked.old ≤ vec_capacity picked.new }
{
    picked.clear();
    for &number in set {
        if guess.has(number) {
            picked.push(number).unwrap();
        }
    }
}
