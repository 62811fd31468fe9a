//! Which definitions are used in their own bodies.

ghost use Rattle.std.specs.Prelude.{◌≡◌, ◌<◌, ℕ, length, map, IfOk, OnOk};
ghost use Rattle.spectra_uses.specs.Cycles.{AreOnCycle};
ghost use Rattle.spectra_uses.specs.Searching.{IsOpen, IsKnown};
ghost use Rattle.spectra_uses.specs.Settling.{rings_data, IsSettling, SettlesOn};

use crate::marks::{all_marks, is_new, no_marks, set_mark, set_marks};
use crate::users::users_of;
use crate::walking::walk;
use std::alloc::{AllocError, Global};

/// Which definitions are used in their own bodies, as far as that is settled.
#[derive(Drop)]
pub struct Rings<'a> {
    alloc: Global,
    uses: &'a [Vec<usize>],
    users: Vec<Vec<usize>>,
    settled: Vec<bool>,
    apart: Vec<bool>,
    table: Vec<bool>,
}

impl<'a> Rings<'a> {
    // Nothing is settled yet.
    fn new(alloc: Global, uses: &'a [Vec<usize>]) -> Result<Rings<'a>, AllocError>
        ensures settling { IfOk result (λ r. IsSettling (rings_data r)) }
        ensures uses { IfOk result (λ r. (rings_data r).uses ≡ map (λ us. us.items) uses.now) }
    {
        Ok(Rings {
            alloc,
            uses,
            users: users_of(alloc, uses)?,
            settled: no_marks(alloc, uses.len())?,
            apart: all_marks(alloc, uses.len())?,
            table: no_marks(alloc, uses.len())?,
        })
    }

    // Settles a definition with all that use it and that it uses, directly or through others. Only those that use it can be
    // such: the second walk stays among those that the first one came to.
    fn settle_new(&mut self, number: usize) -> Result<(), AllocError>
        requires settling { IsSettling (rings_data self.old) }
        requires new { IsOpen (rings_data self.old).settled number }
        ensures on { OnOk result (SettlesOn (rings_data self.old) (rings_data self.new)) }
        ensures known { OnOk result (IsKnown (rings_data self.new).settled number) }
    {
        let behind = walk(self.alloc, &self.users, number, &mut self.settled)?;
        set_marks(&mut self.apart, &behind, false);
        let around = walk(self.alloc, self.uses, number, &mut self.apart)?;
        set_marks(&mut self.apart, &behind, true);
        set_marks(&mut self.settled, &behind, false);
        set_marks(&mut self.settled, &around, true);
        set_mark(&mut self.settled, number, true);
        set_marks(&mut self.table, &around, true);
        Ok(())
    }

    // Settles a definition, where it isn't settled.
    fn settle(&mut self, number: usize) -> Result<(), AllocError>
        requires settling { IsSettling (rings_data self.old) }
        ensures on { OnOk result (SettlesOn (rings_data self.old) (rings_data self.new)) }
        ensures known { OnOk result (IsKnown (rings_data self.new).settled number) }
    {
        if is_new(&self.settled, number) {
            self.settle_new(number)?;
        }
        Ok(())
    }

    // Settles several, the last one first.
    fn settle_each(&mut self, list: &[usize]) -> Result<(), AllocError>
        requires settling { IsSettling (rings_data self.old) }
        ensures { OnOk result (SettlesOn (rings_data self.old) (rings_data self.new)) }
    {
        for count in 0..list.len() {
            self.settle(list[list.len() - 1 - count])?;
        }
        Ok(())
    }

    // Settles all.
    fn settle_all(&mut self) -> Result<(), AllocError>
        requires settling { IsSettling (rings_data self.old) }
        ensures on { OnOk result (SettlesOn (rings_data self.old) (rings_data self.new)) }
        ensures known { OnOk result ((k : ℕ) → k < length (rings_data self.old).uses → IsKnown (rings_data self.new).settled k) }
    {
        for number in 0..self.uses.len() {
            self.settle(number)?;
        }
        Ok(())
    }
}

/// For each definition whether it is used in its own body, directly or through others. `order` only saves time: in one of
/// `order_of` no use is followed more than a few times, whatever goes round. The error is that memory is short.
pub fn cycles(alloc: Global, uses: &[Vec<usize>], order: &[usize]) -> Result<Vec<bool>, AllocError>
    ensures { IfOk result (λ table. AreOnCycle (map (λ us. us.items) uses.now) (length uses.now) table.items) }
{
    let mut rings = Rings::new(alloc, uses)?;
    rings.settle_each(order)?;
    rings.settle_all()?;
    Ok(rings.table)
}
