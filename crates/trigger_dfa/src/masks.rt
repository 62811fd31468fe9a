//! Letters and sets as words.

ghost use Rattle.std.specs.Prelude.{◌≡◌, ◌≤◌, ◌∷◌, [], flat_map, bit_or, length, IfOk};
ghost use Rattle.trigger_dfa.specs.Words.{masks_of, joined_word};

use crate::side::{has, when};
use std::alloc::{AllocError, Global};

// Each word, and after it the word with the positions of one atom more.
fn doubled(alloc: Global, masks: &[u64], word: u64) -> Result<Vec<u64>, AllocError>
    ensures { IfOk result (λ v. v.items ≡ flat_map (λ m. m ∷ bit_or m word ∷ []) masks.now) }
{
    let mut both = Vec::new(alloc);
    for mask in masks {
        both.push(*mask)?;
        both.push(*mask | word)?;
    }
    Ok(both)
}

/// For each letter, the positions whose formula it makes true, where each word has the positions of one atom.
pub fn masks(alloc: Global, meant: &[u64]) -> Result<Vec<u64>, AllocError>
    ensures { IfOk result (λ v. v.items ≡ masks_of meant.now) }
{
    let mut masks = Vec::new(alloc);
    masks.push(0)?;
    for k in 0..meant.len() {
        masks = doubled(alloc, &masks, meant[meant.len() - 1 - k])?;
    }
    Ok(masks)
}

/// The positions that are in one of the words whose places a set has.
pub fn join(words: &[u64], set: u64) -> u64
    requires { length words.now ≤ 64 }
    ensures { result ≡ joined_word 0 words.now set }
{
    let mut all = 0;
    for (k, word) in words.iter().enumerate() {
        all |= when(has(set, k), *word);
    }
    all
}
