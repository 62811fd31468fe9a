//! The states and the spots in which plays end, each once, in the order in which they are met.

ghost use Rattle.std.specs.Prelude.{◌≡◌, ◌<◌, ◌≤◌, ◌++◌, ℕ, [], ◌∷◌, None, Some, length, slice_get, IfOk, IfErr, OnOk, OnErr};
ghost use Rattle.strategy_tables.specs.Tables.{same_values};
ghost use Rattle.strategy_check.specs.Seats.{seat_data, seats_of, seat_of, is_seat as is_seat_lem, IsAbsent, IsPlace, IsNumbered};

use crate::digest::digest;
use controller::Spot;
use game_values::values::is_same;
use indexmap::IndexMap;
use spec_model::value::Value;
use std::alloc::{AllocError, Global};
use strategy_tables::TableFault;

/// How many there are at most.
const MOST: usize = 1024;

/// A state and a spot in which plays end.
#[derive(Drop)]
pub struct Seat {
    pub state: Vec<Value>,
    pub spot: Spot,
}

/// Those that were met.
#[derive(Drop)]
pub struct Seats {
    pub met: Vec<Seat>,
    /// A place by the digest of the seat that stands there. A digest is a guess: what stands there is compared.
    places: IndexMap<u64, usize>,
}

/// Whether two lists have the same values.
fn are_same(a: &[Value], b: &[Value]) -> bool
    ensures { result ≡ same_values a.now b.now }
{
    if a.len() != b.len() {
        return false;
    }
    for i in 0..a.len() {
        if !is_same(a[i], b[i]) {
            return false;
        }
    }
    true
}

/// Whether a seat has this state and this spot.
fn is_seat(v: &Seat, state: &[Value], spot: Spot) -> bool
    ensures { result ≡ is_seat_lem (seat_data v.now) state.now spot }
{
    are_same(&v.state, state)
        && v.spot.goal == spot.goal
        && v.spot.rank == spot.rank
        && v.spot.index == spot.index
}

/// A seat with a copy of the state.
fn copied(alloc: Global, state: &[Value], spot: Spot) -> Result<Seat, AllocError>
    ensures { IfOk result (λ v. seat_data v ≡ record { values = state.now; spot = spot }) }
{
    Ok(Seat {
        state: state.to_vec(alloc)?,
        spot,
    })
}

impl Seats {
    pub fn new(alloc: Global) -> Seats
        ensures { seats_of result ≡ [] }
    {
        Seats {
            met: Vec::new(alloc),
            places: IndexMap::new(alloc),
        }
    }

    /// The seat with a number, where one is given.
    pub fn seat(&self, number: Option<usize>) -> Option<&Seat>
        requires { (n : ℕ) → number ≡ Some n → n < length (seats_of self.now) }
        ensures none { number ≡ None → seat_of result ≡ None }
        ensures some { (n : ℕ) → number ≡ Some n → seat_of result ≡ slice_get (seats_of self.now) n }
    {
        match number {
            None => None,
            Some(n) => Some(&self.met[n]),
        }
    }

    /// The first place of a seat; one that isn't there has the place past all.
    fn searched(&self, state: &[Value], spot: Spot) -> usize
        ensures { IsPlace (seats_of self.now) (record { values = state.now; spot = spot }) result }
    {
        for n in 0..self.met.len() {
            if is_seat(&self.met[n], state, spot) {
                return n;
            }
        }
        self.met.len()
    }

    /// The place of a seat; one that isn't there has the place past all. Mostly only such a one is compared with each.
    fn place(&self, state: &[Value], spot: Spot) -> usize
        ensures { IsPlace (seats_of self.now) (record { values = state.now; spot = spot }) result }
    {
        if let Some(guess) = self.places.get(&digest(state, spot)) {
            if *guess < self.met.len() && is_seat(&self.met[*guess], state, spot) {
                return *guess;
            }
        }
        self.searched(state, spot)
    }

    /// The number of a seat, which is added where it wasn't met. `Limit`: 1,024 others were met.
    pub fn number(&mut self, alloc: Global, state: &[Value], spot: Spot) -> Result<u32, TableFault>
        requires few { length (seats_of self.old) ≤ 1024 }
        ensures numbered { IfOk result (IsNumbered (seats_of self.old) (seats_of self.new) (record { values = state.now; spot = spot })) }
        ensures few { length (seats_of self.new) ≤ 1024 }
        ensures limit { IfErr result (λ f. f ≡ TableFault.Limit → (length (seats_of self.old) ≡ 1024) × IsAbsent (seats_of self.old) (record { values = state.now; spot = spot })) }
        ensures unchanged { IfErr result (λ f. seats_of self.new ≡ seats_of self.old) }
    {
        let place = self.place(state, spot);
        if place < self.met.len() {
            return Ok(place as u32);
        }
        if self.met.len() >= MOST {
            return Err(TableFault::Limit);
        }
        let seat = copied(alloc, state, spot)?;
        self.add(digest(state, spot), seat)?;
        Ok(place as u32)
    }

    /// Adds a seat.
    fn add(&mut self, digest: u64, seat: Seat) -> Result<(), AllocError>
        ensures added { OnOk result (seats_of self.new ≡ seats_of self.old ++ seat_data seat ∷ []) }
        ensures unchanged { OnErr result (seats_of self.new ≡ seats_of self.old) }
    {
        let place = self.met.len();
        self.places.insert(digest, place)?;
        self.met.push(seat)?;
        Ok(())
    }
}
