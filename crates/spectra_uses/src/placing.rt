//! A walk that places each definition behind those that it uses.

ghost use Rattle.std.specs.Prelude.{◌≡◌, ◌<◌, [], length, map, false, Some, slice_get, MatchOption, IfOk, OnOk};
ghost use Rattle.spectra_uses.specs.Orders.{IsUse, IsOrderOf};
ghost use Rattle.spectra_uses.specs.Searching.{next_of, IsKnown, AreKnown};
ghost use Rattle.spectra_uses.specs.Placing.{placing_data, left, IsNext, IsLast, IsPlacing, PlacesOn};

use crate::marks::{is_new, no_marks, uses_at};
use std::alloc::{AllocError, Global};

/// A walk over definitions. Each stands on the path until all that it uses is placed or stands there too.
#[derive(Drop)]
pub struct Placer<'a> {
    uses: &'a [Vec<usize>],
    path: Vec<usize>,
    order: Vec<usize>,
    marks: Vec<bool>,
    followed: Vec<usize>,
}

impl<'a> Placer<'a> {
    // Nothing is placed yet.
    fn new(alloc: Global, uses: &'a [Vec<usize>]) -> Result<Placer<'a>, AllocError>
        ensures placing { IfOk result (λ p. IsPlacing (placing_data p)) }
        ensures uses { IfOk result (λ p. (placing_data p).uses ≡ map (λ us. us.items) uses.now) }
        ensures empty { IfOk result (λ p. (placing_data p).path ≡ []) }
    {
        let mut followed = Vec::new(alloc);
        followed.resize(uses.len(), 0)?;
        Ok(Placer {
            uses,
            path: Vec::new(alloc),
            order: Vec::new(alloc),
            marks: no_marks(alloc, uses.len())?,
            followed,
        })
    }

    // Puts a definition on the path.
    fn open(&mut self, number: usize) -> Result<(), AllocError>
        requires placing { IsPlacing (placing_data self.old) }
        requires new { slice_get (placing_data self.old).marks number ≡ Some false }
        requires next { IsNext (placing_data self.old).uses (placing_data self.old).path number }
        ensures on { OnOk result (PlacesOn (placing_data self.old) (placing_data self.new)) }
        ensures known { OnOk result (IsKnown (placing_data self.new).marks number) }
        ensures less { OnOk result (left (placing_data self.new) < left (placing_data self.old)) }
    {
        self.marks[number] = true;
        self.path.push(number)?;
        Ok(())
    }

    // The first use of a definition that has no mark.
    fn next_new(&mut self, user: usize) -> Option<usize>
        requires placing { IsPlacing (placing_data self.old) }
        requires within { user < length (placing_data self.old).uses }
        ensures placing { IsPlacing (placing_data self.new) }
        ensures keeps { placing_data self.new ≡ record (placing_data self.old) { followed = (placing_data self.new).followed } }
        ensures first { MatchOption result (AreKnown (placing_data self.new).marks (next_of (placing_data self.new).uses user))
            (λ v. (slice_get (placing_data self.new).marks v ≡ Some false) × IsUse (placing_data self.new).uses user v) }
    {
        let list = uses_at(self.uses, user);
        let first = self.followed[user];
        for place in first..list.len() {
            if is_new(&self.marks, list[place]) {
                self.followed[user] = place;
                return Some(list[place]);
            }
        }
        None
    }

    // Takes the last definition from the path, and places it.
    fn place(&mut self, number: usize) -> Result<(), AllocError>
        requires placing { IsPlacing (placing_data self.old) }
        requires last { IsLast (placing_data self.old).path number }
        requires known { AreKnown (placing_data self.old).marks (next_of (placing_data self.old).uses number) }
        ensures on { OnOk result (PlacesOn (placing_data self.old) (placing_data self.new)) }
        ensures less { OnOk result (left (placing_data self.new) < left (placing_data self.old)) }
    {
        self.path.pop();
        self.order.push(number)?;
        Ok(())
    }

    // Places all that stands on the path.
    fn close(&mut self) -> Result<(), AllocError>
        requires placing { IsPlacing (placing_data self.old) }
        ensures on { OnOk result (PlacesOn (placing_data self.old) (placing_data self.new)) }
        ensures empty { OnOk result ((placing_data self.new).path ≡ []) }
    {
        while let Some(number) = self.path.last().copied() {
            match self.next_new(number) {
                Some(used) => self.open(used)?,
                None => self.place(number)?,
            }
        }
        Ok(())
    }

    // Places a definition behind all that it uses.
    fn add(&mut self, number: usize) -> Result<(), AllocError>
        requires placing { IsPlacing (placing_data self.old) }
        requires empty { (placing_data self.old).path ≡ [] }
        ensures on { OnOk result (PlacesOn (placing_data self.old) (placing_data self.new)) }
        ensures empty { OnOk result ((placing_data self.new).path ≡ []) }
        ensures known { OnOk result (IsKnown (placing_data self.new).marks number) }
    {
        if is_new(&self.marks, number) {
            self.open(number)?;
        }
        self.close()
    }
}

/// The definitions in an order in which each stands behind those that it uses, but for those that are used in their own
/// bodies.
pub fn order_of(alloc: Global, uses: &[Vec<usize>]) -> Result<Vec<usize>, AllocError>
    ensures { IfOk result (λ order. IsOrderOf (map (λ us. us.items) uses.now) (length uses.now) order.items) }
{
    let mut placer = Placer::new(alloc, uses)?;
    for number in 0..uses.len() {
        placer.add(number)?;
    }
    Ok(placer.order)
}
