//! Bits that make several roots true together: some that a search finds, and then the first, bit by bit.
//!
//! A search over levels finds the first bits level by level, and levels may stand in any order. So a bit that it finds true
//! is tried as false, with all earlier ones as they are settled; where a search finds none so, it is true in all that are
//! left.

ghost use Rattle.std.specs.Prelude.{◌≡◌, [], ◌<◌, ℕ, false, length, IfOk, IsTrue};
ghost use Rattle.std.specs.List.{All};
ghost use Rattle.bdd_store.specs.State.{IsRoot};
ghost use Rattle.spec_model.specs.DiagramReads.{bits_of};
ghost use Rattle.bdd_ops.specs.Paths.{HasNone, IsFirst};
ghost use Rattle.bdd_bits.specs.Paths.{all_of};
ghost use Rattle.bdd_bits.specs.Settling.{IsSome, IsSettledAt, HasRoom};

use crate::OutOfMemory;
use crate::diagrams::Diagrams;
use crate::placing::{write_bits, write_fixed};
use bdd_ops::Conjunction as OverLevels;
use std::alloc::Global;

/// Roots that are asked for together, and what a search for bits works in.
#[derive(Drop)]
pub(crate) struct Room {
    pub(crate) over_levels: OverLevels,
    /// What is fixed at each level.
    placed: Vec<Option<bool>>,
    /// The bit of each level.
    pub(crate) by_level: Vec<bool>,
    /// For each bit what it is settled to, while the first bits are found.
    settled: Vec<Option<bool>>,
    /// Further bits that a search finds.
    other: Vec<bool>,
}

impl Room {
    /// Room for up to `most` roots over `levels` levels.
    pub(crate) fn make(alloc: Global, levels: u32, most: u32) -> Result<Room, OutOfMemory>
        ensures asked { IfOk result (λ x. x.over_levels ≡ record { levels = levels; most = most; roots = [] }) }
        ensures room { IfOk result (λ x. HasRoom levels x) }
    {
        Ok(Room {
            over_levels: OverLevels::make(alloc, levels, most)?,
            placed: vec![in alloc; None; levels as usize]?,
            by_level: vec![in alloc; false; levels as usize]?,
            settled: vec![in alloc; None; levels as usize]?,
            other: vec![in alloc; false; levels as usize]?,
        })
    }
}

impl Diagrams {
    /// Finds some bits that agree with what is fixed and make all roots true that `rows` asks for, and answers whether there
    /// are any. It takes no memory.
    fn some_path(
        &self,
        rows: &mut OverLevels,
        placed: &mut [Option<bool>],
        by_level: &mut [bool],
        fixed: &[Option<bool>],
        out: &mut [bool],
    ) -> bool
        requires kept { All (λ n. IsRoot self.now.state n) rows.old.roots }
        requires levels { rows.old.levels ≡ self.now.state.table.levels }
        requires room { (length placed.old ≡ self.now.state.table.levels) × (length by_level.old ≡ self.now.state.table.levels) }
        requires each { (length fixed.now ≡ self.now.state.table.levels) × (length out.old ≡ self.now.state.table.levels) }
        ensures some { IsTrue result → IsSome fixed.now (all_of self.now rows.old.roots) (bits_of out.new) }
        ensures none { result ≡ false → HasNone fixed.now (all_of self.now rows.old.roots) 0 }
        ensures asked { rows.new ≡ rows.old }
    {
        write_fixed(&self.order, fixed, placed);
        if !self.over_levels.first_common_path(rows, placed, by_level) {
            return false;
        }
        write_bits(&self.order, by_level, out);
        true
    }

    /// Settles a bit more of those that agree with what is settled: it is false where some have it so.
    fn settle(&self, room: &mut Room, bit: usize, out: &mut [bool])
        requires kept { All (λ n. IsRoot self.now.state n) room.old.over_levels.roots }
        requires room { HasRoom self.now.state.table.levels room.old × (length out.old ≡ self.now.state.table.levels) }
        requires below { bit < self.now.state.table.levels }
        requires some { IsSome room.old.settled.items (all_of self.now room.old.over_levels.roots) (bits_of out.old) }
        ensures settled { IsSettledAt (all_of self.now room.old.over_levels.roots) bit room.old.settled.items room.new.settled.items (bits_of out.new) }
        ensures asked { room.new.over_levels ≡ room.old.over_levels }
        ensures room { HasRoom self.now.state.table.levels room.new }
    {
        if let Some(_) = room.settled[bit] {
            return;
        }
        room.settled[bit] = Some(false);
        if !out[bit] {
            return;
        }
        let lower = self.some_path(
            &mut room.over_levels,
            &mut room.placed,
            &mut room.by_level,
            &room.settled,
            &mut room.other,
        );
        if lower {
            out.copy_from_slice(&room.other);
        } else {
            room.settled[bit] = Some(true);
        }
    }

    /// Finds the first bits, bit by bit and false before true, that agree with what is fixed and make all roots true that are
    /// asked for, and answers whether there are any.
    pub(crate) fn first_path(
        &self,
        room: &mut Room,
        fixed: &[Option<bool>],
        out: &mut [bool],
    ) -> bool
        requires kept { All (λ n. IsRoot self.now.state n) room.old.over_levels.roots }
        requires room { HasRoom self.now.state.table.levels room.old }
        requires each { (length fixed.now ≡ self.now.state.table.levels) × (length out.old ≡ self.now.state.table.levels) }
        ensures first { IsTrue result → IsFirst fixed.now (all_of self.now room.old.over_levels.roots) 0 self.now.state.table.levels (bits_of out.new) }
        ensures none { result ≡ false → HasNone fixed.now (all_of self.now room.old.over_levels.roots) 0 }
        ensures asked { (room.new.over_levels ≡ room.old.over_levels) × HasRoom self.now.state.table.levels room.new }
    {
        let found = self.some_path(
            &mut room.over_levels,
            &mut room.placed,
            &mut room.by_level,
            fixed,
            out,
        );
        if !found {
            return false;
        }
        room.settled.copy_from_slice(fixed);
        for bit in 0..fixed.len() {
            self.settle(room, bit, out);
        }
        true
    }
}
