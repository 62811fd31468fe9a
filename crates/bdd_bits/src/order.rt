//! At which level each bit stands, and which bit stands at each level.

ghost use Rattle.std.specs.Prelude.{◌≡◌, ◌<◌, ◌+◌, ◌^◌, ℕ, length, IfOk, IfSome, IsTrue, MatchOption};
ghost use Rattle.std.specs.List.{range_with_len};
ghost use Rattle.bdd_bits.specs.Keeping.{Keeps, KeepsBefore};
ghost use Rattle.bdd_bits.specs.Orders.{BitOrder, IsOrder, IsDeclared, LeadsBack, at, level_of, bit_of};

use crate::OutOfMemory;
use std::alloc::Global;
use std::marker::Model;

/// An order of bits.
#[derive(Drop)]
pub struct Order {
    places: Vec<u32>,
    names: Vec<u32>,
}

impl Model for Order {
    ghost Value = { BitOrder };

    ghost view = { λ o. record { places = o.places.items; names = o.names.items } };

    ghost invariant = { λ o. IsOrder (length o.names.items) (record { places = o.places.items; names = o.names.items }) × (length o.names.items < 2 ^ 32) };
}

/// What the list has at a place, and past its end the place itself.
pub(crate) fn at(list: &[u32], place: u32) -> u32
    ensures { result ≡ at list.now place }
{
    match list.get(place as usize) {
        Some(&other) => other,
        None => place,
    }
}

/// Writes for each bit the last level at which it stands.
fn write_places(names: &[u32], places: &mut [u32])
    requires few { length names.now < 2 ^ 32 }
    ensures { length places.new ≡ length places.old }
{
    for level in 0..names.len() {
        if let Some(place) = places.get_mut(names[level] as usize) {
            *place = level as u32;
        }
    }
}

/// Whether each number leads to one of the list, from which the other list leads back.
fn leads_back(to: &[u32], back: &[u32]) -> bool
    requires as_long { length back.now ≡ length to.now }
    ensures { IsTrue result → LeadsBack to.now back.now }
{
    for k in 0..to.len() {
        let other = to[k] as usize;
        if other >= back.len() || back[other] as usize != k {
            return false;
        }
    }
    true
}

/// The numbers below `n`, in order.
fn below(alloc: Global, n: u32) -> Result<Vec<u32>, OutOfMemory>
    ensures { IfOk result (λ numbers. numbers.items ≡ range_with_len 0 n) }
{
    let mut numbers = Vec::with_capacity(alloc, n as usize)?;
    for number in 0..n {
        numbers.push(number)?;
    }
    Ok(numbers)
}

impl Order {
    /// The order in which these bits stand from the first level on. None: one of them stands twice, or isn't below their
    /// number.
    pub fn of(alloc: Global, names: Vec<u32>) -> Result<Option<Order>, OutOfMemory>
        requires few { length names.items < 2 ^ 32 }
        ensures { IfOk result (λ given. MatchOption given (Unit {0}) (λ o. o.names ≡ names.items)) }
    {
        let mut places = vec![in alloc; 0; names.len()]?;
        write_places(&names, &mut places);
        if leads_back(&names, &places) && leads_back(&places, &names) {
            return Ok(Some(Order { places, names }));
        }
        Ok(None)
    }

    /// Each bit at the level of its number.
    pub fn declared(alloc: Global, levels: u32) -> Result<Order, OutOfMemory>
        ensures levels { IfOk result (λ o. length o.names ≡ levels) }
        ensures declared { IfOk result (λ o. IsDeclared o) }
        ensures places { IfOk result (λ o. (bit : ℕ) → level_of o bit ≡ bit) }
    {
        Ok(Order {
            places: below(alloc, levels)?,
            names: below(alloc, levels)?,
        })
    }

    /// How many bits there are.
    pub fn len(&self) -> u32
        ensures { result ≡ length self.now.names }
    {
        self.names.len() as u32
    }

    /// The level of a bit.
    pub fn level(&self, bit: u32) -> u32
        ensures level { result ≡ level_of self.now bit }
        ensures below { bit < length self.now.names → result < length self.now.names }
    {
        at(&self.places, bit)
    }

    /// The bit that stands at a level.
    pub fn bit(&self, level: u32) -> u32
        ensures bit { result ≡ bit_of self.now level }
        ensures below { level < length self.now.names → result < length self.now.names }
    {
        at(&self.names, level)
    }

    /// Whether the bits that a list moves stand as those do that it moves them to.
    pub fn keeps(&self, to: &[u32]) -> bool
        ensures { IsTrue result → Keeps self.now to.now }
    {
        keeps(self, to)
    }
}

/// Where the bit of this level is moved no less far than those before it, or not at all, how far the next one must be.
fn next_least(order: &Order, to: &[u32], level: u32, least: u64) -> Option<u64>
    requires { KeepsBefore order.now to.now level least }
    ensures { IfSome result (λ next. KeepsBefore order.now to.now (level + 1) next) }
{
    let _ = &order.names;
    let bit = order.bit(level);
    let moved = at(to, bit);
    if moved == bit {
        return Some(least);
    }
    let next = u64::from(order.level(moved));
    if next < least {
        return None;
    }
    Some(next + 1)
}

/// Whether the bits that a list moves stand as those do that it moves them to.
fn keeps(order: &Order, to: &[u32]) -> bool
    ensures { IsTrue result → Keeps order.now to.now }
{
    let _ = &order.names;
    let mut least = 0;
    for level in 0..order.len() {
        match next_least(order, to, level, least) {
            Some(next) => least = next,
            None => return false,
        }
    }
    true
}
