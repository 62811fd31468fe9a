//! Words of parameters: bit l of a word is the parameter's value at letter l.

ghost use Rattle.std.specs.Prelude.{◌≡◌, ◌≢◌, ℕ, ◌<◌, ◌≤◌, ◌*◌, length, map, take, drop, get_or, false, true, IfOk};
ghost use Rattle.std.specs.List.{list_all};
ghost use Rattle.spec_model.specs.Values.{truth_of};
ghost use Rattle.pattern_rows.specs.Wides.{bit};
ghost use Rattle.pattern_rows.specs.Blocks.{letter_in, is_letter, AreWordsOf, AreBlocksOf};

use game_values::values::{truth, value_or};
use spec_model::value::Value;
use std::alloc::{AllocError, Global};

/// Whether a bit of a word is 1.
pub fn has_bit(word: u64, l: usize) -> bool
    requires { l < 64 }
    ensures { result ≡ bit word l }
{
    (word >> l) & 1 == 1
}

/// A word in which one more bit is told.
fn with_bit(word: u64, l: usize, value: bool) -> u64
    requires small { l < 64 }
    requires free { bit word l ≡ false }
    ensures there { bit result l ≡ value }
    ensures others { (j : ℕ) → j ≢ l → bit result j ≡ bit word j }
{
    if value { word | (1u64 << l) } else { word }
}

/// The word of a parameter.
fn parameter_word(letters: &[Vec<Value>], k: usize) -> u64
    requires few { length letters.now ≤ 64 }
    ensures { (l : ℕ) → l < length letters.now → bit result l ≡ truth_of (get_or (letter_in (map (λ c. c.items) letters.now) l) k (Value.Bool false)) }
{
    let mut word = 0;
    for l in 0..letters.len() {
        word = with_bit(word, l, truth(value_or(&letters[l], k)));
    }
    word
}

/// The words of all parameters.
fn parameter_words(
    alloc: Global,
    letters: &[Vec<Value>],
    params: u32,
) -> Result<Vec<u64>, AllocError>
    requires few { length letters.now ≤ 64 }
    requires letters { list_all (is_letter params) (map (λ c. c.items) letters.now) ≡ true }
    ensures { IfOk result (λ words. AreWordsOf (map (λ c. c.items) letters.now) words.items) }
{
    let mut words = Vec::new(alloc);
    for k in 0..params {
        words.push(parameter_word(letters, k as usize))?;
    }
    Ok(words)
}

/// The letters that a block has, at most 64 of them.
pub fn block_of(letters: &[Vec<Value>], c: usize) -> &[Vec<Value>]
    requires { 64 * c ≤ length letters.now }
    ensures { map (λ c. c.items) result.now ≡ take 64 (drop (64 * c) (map (λ c. c.items) letters.now)) }
{
    let end = letters.len().min(64 * c + 64);
    &letters[64 * c..end]
}

/// The words of all parameters in each block of 64 letters.
pub fn block_words(
    alloc: Global,
    letters: &[Vec<Value>],
    params: u32,
) -> Result<Vec<Vec<u64>>, AllocError>
    requires { list_all (is_letter params) (map (λ c. c.items) letters.now) ≡ true }
    ensures { IfOk result (λ blocks. AreBlocksOf (map (λ c. c.items) letters.now) (map (λ c. c.items) blocks.items)) }
{
    let mut blocks = Vec::new(alloc);
    let count = letters.len() / 64 + usize::from(letters.len() % 64 != 0);
    for c in 0..count {
        blocks.push(parameter_words(alloc, block_of(letters, c), params)?)?;
    }
    Ok(blocks)
}
