//! The list by which bits were moved last, with its levels: most moves are by one list again and again.

ghost use Rattle.std.specs.Prelude.{◌≡◌, ◌++◌, ◌∷◌, [], true, false, OnOk, IsTrue};
ghost use Rattle.bdd_bits.specs.Orders.{moved_levels};
ghost use Rattle.bdd_bits.specs.Moves.{AreMoves};

use crate::OutOfMemory;
use crate::order::{Order, at};
use std::alloc::Global;

/// A list of bits, and for each level the level of the bit that the list gives for its bit, if that is known.
#[derive(Drop)]
pub(crate) struct Moves {
    pub(crate) to: Vec<u32>,
    pub(crate) levels: Vec<u32>,
    pub(crate) known: bool,
}

/// Adds a level, without a look for memory where there is room.
pub(crate) fn put(levels: &mut Vec<u32>, level: u32) -> Result<(), OutOfMemory>
    ensures { OnOk result (levels.new.items ≡ levels.old.items ++ level ∷ []) }
{
    if levels.len() < levels.capacity() {
        levels.push_reserved(level);
    } else {
        levels.push(level)?;
    }
    Ok(())
}

/// Writes for each level the level of the bit that the list gives for its bit.
fn write_moved(order: &Order, to: &[u32], levels: &mut Vec<u32>) -> Result<(), OutOfMemory>
    ensures { OnOk result (levels.new.items ≡ moved_levels order.now to.now) }
{
    levels.clear();
    for level in 0..order.len() {
        let moved = at(to, order.bit(level));
        put(levels, order.level(moved))?;
    }
    Ok(())
}

impl Moves {
    /// No list yet.
    pub(crate) fn none(alloc: Global) -> Moves
        ensures { result.known ≡ false }
    {
        Moves {
            to: Vec::new(alloc),
            levels: Vec::new(alloc),
            known: false,
        }
    }

    /// Whether the levels are those of this list.
    fn is_of(&self, to: &[u32]) -> bool
        ensures { IsTrue result → (self.now.known ≡ true) × (self.now.to.items ≡ to.now) }
    {
        self.known && self.to.as_slice() == to
    }

    /// Writes the levels of another list.
    fn write(&mut self, order: &Order, to: &[u32]) -> Result<(), OutOfMemory>
        ensures levels { OnOk result (self.new.levels.items ≡ moved_levels order.now to.now) }
        ensures moves { AreMoves order.now self.new }
    {
        self.known = false;
        self.to.clear();
        self.to.extend_from_slice(to)?;
        write_moved(order, to, &mut self.levels)?;
        self.known = true;
        Ok(())
    }

    /// The levels of a list, written where they aren't those of the last one.
    pub(crate) fn learn(&mut self, order: &Order, to: &[u32]) -> Result<(), OutOfMemory>
        requires { AreMoves order.now self.old }
        ensures levels { OnOk result (self.new.levels.items ≡ moved_levels order.now to.now) }
        ensures moves { AreMoves order.now self.new }
    {
        if self.is_of(to) {
            return Ok(());
        }
        self.write(order, to)
    }
}
