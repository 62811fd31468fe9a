//! A tree of nearest slots, as it grows.

use crate::OutOfMemory;
use crate::lines::Lines;
use crate::share::{NOTHING, Share};
use crate::walk::Walk;
use spec_model::game::Game;
use std::alloc::Global;

/// What is known while the tree grows.
#[derive(Drop)]
struct Growing {
    lines: Lines,
    /// How near each slot is to the nearest one of those that stand, and which one that is: past them all where there is none.
    near: Vec<Share>,
    nearest: Vec<usize>,
    stands: Vec<bool>,
    /// What each slot shares with the one that was placed last, by weight.
    shared: Vec<u64>,
    /// How many slots stand in a line with each, itself included.
    others: Vec<u32>,
}

impl Growing {
    fn make(alloc: Global, game: &Game, count: usize) -> Result<Growing, OutOfMemory> {
        let lines = Lines::of(alloc, game, count)?;
        let others = lines.others(alloc)?;
        Ok(Growing {
            lines,
            others,
            near: vec![in alloc; NOTHING; count]?,
            nearest: vec![in alloc; count; count]?,
            stands: vec![in alloc; false; count]?,
            shared: vec![in alloc; 0; count]?,
        })
    }

    /// Whether a slot shares lines with more others than another one, or with as many, and is read by more lines.
    fn is_more_tied(&self, slot: usize, other: usize) -> bool {
        match (self.others.get(slot), self.others.get(other)) {
            (Some(one), Some(two)) => {
                one > two || one == two && self.lines.count(slot) > self.lines.count(other)
            }
            _ => false,
        }
    }

    /// Whether a slot is taken before another: the nearer one, and of two that are near nothing the one that is tied to more.
    fn is_before(&self, slot: usize, other: usize) -> bool {
        match (self.near.get(slot), self.near.get(other)) {
            (Some(one), Some(two)) => {
                let tied = one.part == 0 && two.part == 0 && self.is_more_tied(slot, other);
                one.is_more(two) || tied
            }
            _ => false,
        }
    }

    /// The one of two slots that is taken first.
    fn first_of(&self, best: Option<usize>, slot: usize) -> usize {
        match best {
            None => slot,
            Some(other) => {
                if self.is_before(slot, other) {
                    slot
                } else {
                    other
                }
            }
        }
    }

    /// The slot that comes next, if one is left.
    fn next(&self) -> Option<usize> {
        let mut best = None;
        for slot in 0..self.stands.len() {
            if !self.stands[slot] {
                best = Some(self.first_of(best, slot));
            }
        }
        best
    }

    /// Weighs what each slot shares with this one.
    fn share(&mut self, slot: usize) {
        let Some(lines) = self.lines.lines.get(slot) else {
            return;
        };
        for &line in lines {
            if let Some(read) = self.lines.slots.get(line) {
                weigh_each(&mut self.shared, &read.slots, read.weight);
            }
        }
    }

    /// What a slot shares with the one that was placed last, which is forgotten.
    fn forget(&mut self, slot: usize) -> u64 {
        match self.shared.get_mut(slot) {
            Some(both) => {
                let known = *both;
                *both = 0;
                known
            }
            None => 0,
        }
    }

    /// Takes what is shared with a slot into what is known.
    fn approach(&mut self, slot: usize) {
        let own = self.lines.weight(slot);
        for other in 0..self.near.len() {
            let both = self.forget(other);
            if both > 0 {
                let share = Share::of(both, own, self.lines.weight(other));
                self.bring_near(other, share, slot);
            }
        }
    }

    /// A slot shares so much with this one, which stands.
    fn bring_near(&mut self, other: usize, share: Share, slot: usize) {
        if let (Some(near), Some(nearest)) = (
            self.near.get_mut(other),
            self.nearest.get_mut(other),
        ) {
            if share.is_more(near) {
                *near = share;
                *nearest = slot;
            }
        }
    }

    /// Places a slot, and gives the one that it hangs on.
    fn place(&mut self, slot: usize) -> usize {
        if let Some(stands) = self.stands.get_mut(slot) {
            *stands = true;
        }
        let on = match self.nearest.get(slot) {
            Some(&on) => on,
            None => slot,
        };
        self.share(slot);
        self.approach(slot);
        on
    }
}

/// Adds a weight for each of these slots.
fn weigh_each(shared: &mut [u64], slots: &[usize], weight: u64) {
    for &slot in slots {
        if let Some(both) = shared.get_mut(slot) {
            *both = both.saturating_add(weight);
        }
    }
}

/// The slots of a game's states, so many of them, in an order in which each stands near those that it shares lines with.
/// Where a tie is left, the slot that stands first in a state comes first.
pub fn near_slots(alloc: Global, game: &Game, count: usize) -> Result<Vec<usize>, OutOfMemory> {
    let mut growing = Growing::make(alloc, game, count)?;
    let mut walk = Walk::make(alloc, count)?;
    for _ in 0..count {
        if let Some(slot) = growing.next() {
            let on = growing.place(slot);
            walk.hang(slot, on);
        }
    }
    walk.slots(alloc)
}
