//! Room for the bits of a state and of the next one, and for a search among such bits.

ghost use Rattle.std.specs.Prelude.{◌≡◌, [], IfOk, length};

use bdd_bits::{Conjunction, OutOfMemory};
use std::alloc::Global;

/// What the calls that take no memory write in.
#[derive(Drop)]
pub struct Search {
    /// One bit for each level.
    pub bits: Vec<bool>,
    /// For each level the bit that is fixed, if one is.
    pub fixed: Vec<Option<bool>>,
    /// The diagrams that a search asks for together.
    pub all: Conjunction,
}

impl Search {
    /// Room for `levels` levels, and for up to `most` diagrams together. It takes all the memory that searches need.
    pub fn make(alloc: Global, levels: u32, most: u32) -> Result<Search, OutOfMemory>
        ensures bits { IfOk result (λ s. length s.bits.items ≡ levels) }
        ensures fixed { IfOk result (λ s. length s.fixed.items ≡ levels) }
        ensures all { IfOk result (λ s. s.all ≡ record { levels = levels; most = most; roots = [] }) }
    {
        Ok(Search {
            bits: vec![in alloc; false; levels as usize]?,
            fixed: vec![in alloc; None; levels as usize]?,
            all: Conjunction::make(alloc, levels, most)?,
        })
    }
}
