//! What is held, each in a slot of its own; a slot that is freed is used again.

ghost use Rattle.std.specs.Prelude.{◌≡◌, ◌<◌, [], OnOk, vec_len, vec_capacity};
ghost use Rattle.region_bdd.specs.Slots.{TakesSlot, FreesSlot, MarksSpent, HasContent, HasRegionRoot};

use bdd_bits::Root;
use regions::When;
use std::alloc::{AllocError, Global};
use std::mem;

/// A region, by the slot of its diagram. It must be spent.
pub struct BddRegion {
    pub slot: usize,
}

/// Moves, by the slot of their diagrams. They must be spent.
pub struct BddMove {
    pub slot: usize,
}

/// The diagrams of a region or of moves.
pub enum Content {
    /// The region's, at the present bits.
    Region(Root),
    /// The target's of moves that give outputs, at the next bits.
    Outputs(When, Root),
    /// The target's of moves that give inputs, at the present bits, and the one that is true where every legal output
    /// leads into the target.
    Inputs(When, Root, Root),
}

/// A free slot names the one that was free before it. A slot is spent, and keeps its diagrams, where it is given back
/// after the budget ran out.
pub enum Slot {
    Free(usize),
    Taken(Content),
    Spent(Content),
}

pub struct Slots {
    pub slots: Vec<Slot>,
    /// The slot that was freed last, or one past the slots.
    pub free: usize,
}

impl Slots {
    /// No slot.
    pub fn none(alloc: Global) -> Slots
        ensures { result.slots.items ≡ [] }
    {
        Slots {
            slots: Vec::new(alloc),
            free: 0,
        }
    }

    /// Makes room for one content more.
    pub fn room(&mut self) -> Result<(), AllocError>
        ensures room { OnOk result (vec_len self.new.slots < vec_capacity self.new.slots) }
        ensures keeps { self.new.slots.items ≡ self.old.slots.items }
    {
        self.slots.reserve(1)
    }

    /// Puts a content into a free slot, or into a new one.
    pub fn keep(&mut self, content: Content) -> usize
        requires { vec_len self.old.slots < vec_capacity self.old.slots }
        ensures { TakesSlot self.old.slots.items self.new.slots.items result (Slot.Taken content) }
    {
        let slot = self.free;
        if slot < self.slots.len() {
            if let Slot::Free(next) = &self.slots[slot] {
                self.free = *next;
                let old = mem::replace(&mut self.slots[slot], Slot::Taken(content));
                let Slot::Free(_) = old else { unreachable!() };
                return slot;
            }
        }
        let last = self.slots.len();
        self.slots.push_reserved(Slot::Taken(content));
        last
    }

    /// Frees a slot, and gives what it held.
    pub fn free(&mut self, slot: usize) -> Content
        requires { (content : Content) × HasContent self.old.slots.items slot content }
        ensures content { HasContent self.old.slots.items slot result }
        ensures frees { FreesSlot self.old.slots.items self.new.slots.items slot }
    {
        let next = self.free;
        let old = mem::replace(&mut self.slots[slot], Slot::Free(next));
        let Slot::Taken(content) = old else {
            unreachable!()
        };
        self.free = slot;
        content
    }

    /// Frees a region's slot, and gives its diagram.
    pub fn free_region(&mut self, slot: usize) -> Root
        requires { HasRegionRoot self.old.slots.items slot }
        ensures root { HasContent self.old.slots.items slot (Content.Region result) }
        ensures frees { FreesSlot self.old.slots.items self.new.slots.items slot }
    {
        let content = self.free(slot);
        let Content::Region(root) = content else {
            unreachable!()
        };
        root
    }

    /// Marks a slot as spent; it keeps what it held.
    pub fn spend(&mut self, slot: usize)
        requires { (content : Content) × HasContent self.old.slots.items slot content }
        ensures { MarksSpent self.old.slots.items self.new.slots.items slot }
    {
        let content = self.free(slot);
        let old = mem::replace(&mut self.slots[slot], Slot::Spent(content));
        let Slot::Free(next) = old else {
            unreachable!()
        };
        self.free = next;
    }

    /// The diagram of a region.
    pub fn region(&self, region: &BddRegion) -> &Root
        requires { HasRegionRoot self.now.slots.items region.now.slot }
        ensures { HasContent self.now.slots.items region.now.slot (Content.Region result.now) }
    {
        match &self.slots[region.slot] {
            Slot::Taken(Content::Region(root)) => root,
            _ => unreachable!(),
        }
    }
    /// What a slot holds.
    pub fn content(&self, slot: usize) -> &Content
        requires { (content : Content) × HasContent self.now.slots.items slot content }
        ensures { HasContent self.now.slots.items slot result.now }
    {
        match &self.slots[slot] {
            Slot::Taken(content) => content,
            _ => unreachable!(),
        }
    }
}
