ghost use Rattle.std.specs.Prelude.{◌≡◌, ◌↔◌, ◌<◌, ◌≤◌, ◌^◌, ℕ, true, false, IfOk, IsTrue, slice_index_or};
ghost use Rattle.bdd_ops.specs.Functions.{is_among};

use std::alloc::{AllocError, Global};

/// A list of levels, whether each level is in it, and a number that all of them are below.
#[derive(Drop)]
pub struct LevelList {
    pub levels: Vec<u32>,
    pub among: Vec<bool>,
    pub end: usize,
    ghost agree: { (level : ℕ) → slice_index_or among.items level false ≡ is_among level levels.items },
    ghost ends: { (level : ℕ) → is_among level levels.items ≡ true → level < end },
}

impl LevelList {
    /// Whether it is the list of these levels.
    pub fn is(&self, levels: &[u32]) -> bool
        ensures { IsTrue result ↔ self.now.levels.items ≡ levels.now }
    {
        self.levels.as_slice() == levels
    }
}

/// The greater of two numbers.
fn greater(a: usize, b: usize) -> usize
    ensures left { a ≤ result }
    ensures right { b ≤ result }
    ensures one { (limit : ℕ) → a ≤ limit → b ≤ limit → result ≤ limit }
{
    if a < b { b } else { a }
}

/// A number that all levels are below.
fn end_of(levels: &[u32]) -> usize
    ensures within { result ≤ 2 ^ 32 }
    ensures above { (level : ℕ) → is_among level levels.now ≡ true → level < result }
{
    let mut end = 0;
    for &level in levels {
        end = greater(end, level as usize + 1);
    }
    end
}

/// A flag for each level below `end`: whether it is in the list.
fn flags_of(alloc: Global, levels: &[u32], end: usize) -> Result<Vec<bool>, AllocError>
    requires { (level : ℕ) → is_among level levels.now ≡ true → level < end }
    ensures { IfOk result (λ flags. (level : ℕ) → slice_index_or flags.items level false ≡ is_among level levels.now) }
{
    let mut flags = vec![in alloc; false; end]?;
    for &level in levels {
        flags[level as usize] = true;
    }
    Ok(flags)
}

/// The list of these levels.
pub fn list_of(alloc: Global, levels: &[u32]) -> Result<LevelList, AllocError>
    ensures { IfOk result (λ list. list.levels.items ≡ levels.now) }
{
    let end = end_of(levels);
    Ok(LevelList {
        levels: Vec::from_slice(alloc, levels)?,
        among: flags_of(alloc, levels, end)?,
        end,
    })
}
