//! What is held, each in a slot of its own; a slot that is freed is used again.

ghost use Rattle.std.specs.Prelude.{◌≡◌, ◌<◌, length, IfOk, OnErr, slice_get, Some};
ghost use Rattle.region_rows.specs.Slots.{HasRow, TakesSlot, FreesSlot};

use crate::row::Row;
use regions::When;
use std::alloc::AllocError;

/// A region, by the slot of its row. It must be spent.
pub struct RowRegion {
    pub slot: usize,
}

/// Moves, by the slot of their row. They must be spent.
pub struct RowMove {
    pub slot: usize,
}

/// A free slot names the one that was free before it.
#[derive(Drop)]
pub enum Slot {
    Free(usize),
    Region(Row),
    Outputs(When, Row),
    Inputs(When, Row),
}

#[derive(Drop)]
pub struct Slots {
    pub slots: Vec<Slot>,
    /// The slot that was freed last, or one past the slots.
    pub free: usize,
}

impl Slots {
    /// Puts a content into a free slot, or into a new one.
    pub fn keep(&mut self, content: Slot) -> Result<usize, AllocError>
        ensures kept { IfOk result (λ slot. TakesSlot self.old.slots.items self.new.slots.items slot content) }
        ensures err { OnErr result (self.new.slots.items ≡ self.old.slots.items) }
    {
        let slot = self.free;
        if slot < self.slots.len() {
            if let Slot::Free(next) = &self.slots[slot] {
                self.free = *next;
                self.slots[slot] = content;
                return Ok(slot);
            }
        }
        let last = self.slots.len();
        self.slots.push(content)?;
        Ok(last)
    }

    /// Frees a slot.
    pub fn free(&mut self, slot: usize)
        requires { slot < length self.old.slots.items }
        ensures { FreesSlot self.old.slots.items self.new.slots.items slot }
    {
        self.slots[slot] = Slot::Free(self.free);
        self.free = slot;
    }

    /// The row of a region.
    pub fn row(&self, region: &RowRegion) -> &Row
        requires { HasRow self.now.slots.items region.now.slot }
        ensures { slice_get self.now.slots.items region.now.slot ≡ Some (Slot.Region result.now) }
    {
        match &self.slots[region.slot] {
            Slot::Region(row) => row,
            _ => unreachable!(),
        }
    }

    /// Keeps a row as a region.
    pub fn keep_region(&mut self, row: Row) -> Result<RowRegion, AllocError>
        ensures kept { IfOk result (λ r. TakesSlot self.old.slots.items self.new.slots.items r.slot (Slot.Region row)) }
        ensures err { OnErr result (self.new.slots.items ≡ self.old.slots.items) }
    {
        let slot = self.keep(Slot::Region(row))?;
        Ok(RowRegion { slot })
    }

    /// Keeps a row as the moves into it.
    pub fn keep_outputs(&mut self, when: When, row: Row) -> Result<RowMove, AllocError>
        ensures kept { IfOk result (λ r. TakesSlot self.old.slots.items self.new.slots.items r.slot (Slot.Outputs when row)) }
        ensures err { OnErr result (self.new.slots.items ≡ self.old.slots.items) }
    {
        let slot = self.keep(Slot::Outputs(when, row))?;
        Ok(RowMove { slot })
    }

    pub fn keep_inputs(&mut self, when: When, row: Row) -> Result<RowMove, AllocError>
        ensures kept { IfOk result (λ r. TakesSlot self.old.slots.items self.new.slots.items r.slot (Slot.Inputs when row)) }
        ensures err { OnErr result (self.new.slots.items ≡ self.old.slots.items) }
    {
        let slot = self.keep(Slot::Inputs(when, row))?;
        Ok(RowMove { slot })
    }
}
