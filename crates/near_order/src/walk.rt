//! The slots of a tree, each behind the one that it hangs on and all that hung there before.

use crate::OutOfMemory;
use std::alloc::Global;

/// A tree of slots, and a walk through it. The root is past all of them.
#[derive(Drop)]
pub struct Walk {
    /// What follows each on the walk: the root's number where nothing does.
    next: Vec<usize>,
    /// What was hung on each last: itself where nothing was.
    last: Vec<usize>,
}

impl Walk {
    /// No slot hangs yet of so many.
    pub fn make(alloc: Global, count: usize) -> Result<Walk, OutOfMemory> {
        let mut last = Vec::with_capacity(alloc, count)?;
        for slot in 0..count {
            last.push(slot)?;
        }
        last.push(count)?;
        let mut next = vec![in alloc; count; count]?;
        next.push(count)?;
        Ok(Walk { next, last })
    }

    /// The last of those that hang on this one, or on one of them.
    fn end(&self, slot: usize) -> usize {
        let mut at = slot;
        for _ in 0..self.last.len() {
            match self.last.get(at) {
                Some(&last) => {
                    if last == at {
                        return at;
                    }
                    at = last;
                }
                None => return at,
            }
        }
        at
    }

    /// Hangs a slot on another one, or on the root.
    pub fn hang(&mut self, slot: usize, on: usize) {
        let end = self.end(on);
        let behind = match self.next.get(end) {
            Some(&behind) => behind,
            None => return,
        };
        if let Some(next) = self.next.get_mut(slot) {
            *next = behind;
        }
        if let Some(next) = self.next.get_mut(end) {
            *next = slot;
        }
        if let Some(last) = self.last.get_mut(on) {
            *last = slot;
        }
    }

    /// The slots in the order of the walk.
    pub fn slots(&self, alloc: Global) -> Result<Vec<usize>, OutOfMemory> {
        let count = self.last.len().wrapping_sub(1);
        let mut slots = Vec::with_capacity(alloc, count)?;
        let mut at = count;
        for _ in 0..count {
            if let Some(&next) = self.next.get(at) {
                slots.push(next)?;
                at = next;
            }
        }
        Ok(slots)
    }
}
