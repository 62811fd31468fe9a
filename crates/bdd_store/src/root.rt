//! Kept roots, counted at the places of their nodes.

ghost use Rattle.std.specs.Prelude.{◌≡◌, ◌<◌, ◌≤◌, ◌^◌, sum, slice_index, OnOk, OnErr, vec_len};
ghost use Rattle.bdd_store.specs.Kept.{AddsOne, SameCounts};

use crate::OutOfMemory;
use std::alloc::AllocError;
use std::marker::Model;

/// A diagram that is kept until its root is released: what it reaches isn't freed. It has to be given back.
pub struct Root {
    pub(crate) node: u32,
}

impl Model for Root {
    ghost use Rattle.std.specs.Prelude.{ℕ};

    ghost Value = { ℕ };

    ghost view = { λ r. r.node };
}

/// Makes room for the count of a place, which is 0 where there was none.
fn reach(kept: &mut Vec<u32>, place: usize) -> Result<(), OutOfMemory>
    requires within { place < 2 ^ 32 }
    requires small { vec_len kept.old ≤ 2 ^ 32 }
    ensures reached { OnOk result (place < vec_len kept.new) }
    ensures keeps { SameCounts kept.old.items kept.new.items }
    ensures counted { sum kept.new.items ≡ sum kept.old.items }
    ensures small { vec_len kept.new ≤ 2 ^ 32 }
{
    if kept.len() <= place {
        kept.resize(place + 1, 0)?;
    }
    Ok(())
}

/// Counts one more root at a place. Want of memory, or of a number for the count, changes no count.
pub fn add_root(kept: &mut Vec<u32>, roots: &mut usize, n: u32) -> Result<(), OutOfMemory>
    requires small { vec_len kept.old ≤ 2 ^ 32 }
    requires counted { roots.old ≡ sum kept.old.items }
    ensures added { OnOk result (AddsOne kept.old.items kept.new.items n) }
    ensures unchanged { OnErr result (SameCounts kept.old.items kept.new.items) }
    ensures small { vec_len kept.new ≤ 2 ^ 32 }
    ensures counted { roots.new ≡ sum kept.new.items }
{
    let place = n as usize;
    reach(kept, place)?;
    let at_place = kept[place].checked_add(1).ok_or(AllocError)?;
    *roots = roots.checked_add(1).ok_or(AllocError)?;
    kept[place] = at_place;
    Ok(())
}

/// Counts one root less at a place.
pub fn take_root(kept: &mut Vec<u32>, roots: &mut usize, n: u32)
    requires kept { 0 < slice_index kept.old.items n }
    requires counted { roots.old ≡ sum kept.old.items }
    ensures taken { AddsOne kept.new.items kept.old.items n }
    ensures size { vec_len kept.new ≡ vec_len kept.old }
    ensures counted { roots.new ≡ sum kept.new.items }
{
    kept[n as usize] -= 1;
    *roots -= 1;
}
