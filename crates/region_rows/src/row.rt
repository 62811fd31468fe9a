//! A set of numbered states: a bit for each number, in words.

ghost use Rattle.std.specs.Prelude.{◌≡◌, ◌↔◌, ◌<◌, ◌≤◌, ◌*◌, ◌/◌, ℕ, not, ◌&&◌, ◌||◌, false, get_or, map, IfOk, IsTrue, bit_or, ◌%◌, ◌^◌, if◌then◌else◌};
ghost use Rattle.spec_model.specs.Steps.{below};
ghost use Rattle.region_rows.specs.Rows.{word_of, ones_of, bit_of, set_in, Shows};

use std::alloc::{AllocError, Global};

/// Bit `k % 64` of word `k / 64` says whether number `k` is in the set; past the words no number is.
#[derive(Drop)]
pub struct Row {
    words: Vec<u64>,
}

impl Row {
    /// Whether a number is in the set.
    pub fn has(&self, k: usize) -> bool
        ensures { result ≡ bit_of self.now k }
    {
        (self.word(k / 64) >> (k % 64)) & 1 == 1
    }

    fn word(&self, j: usize) -> u64
        ensures { result ≡ word_of self.now j }
    {
        if j < self.words.len() {
            self.words[j]
        } else {
            0
        }
    }
}

/// The ones of the numbers below `count` that are in word `j`.
fn mask(count: usize, j: usize) -> u64
    requires { j ≤ count / 64 }
    ensures { result ≡ ones_of count j }
{
    if j < count / 64 {
        u64::MAX
    } else {
        !(u64::MAX << (count % 64))
    }
}

fn repeated(value: bool) -> u64
    ensures { result ≡ (if value then 0xffff_ffff_ffff_ffff else 0) }
{
    if value { u64::MAX } else { 0 }
}

/// All numbers below `count`, or none.
pub fn filled(alloc: Global, value: bool, count: usize) -> Result<Row, AllocError>
    ensures { IfOk result (λ row. Shows row (map (λ k. value) (below count))) }
{
    let mut words = Vec::new(alloc);
    for j in 0..count / 64 + 1 {
        words.push(repeated(value) & mask(count, j))?;
    }
    Ok(Row { words })
}

pub fn copied(alloc: Global, a: &Row, count: usize) -> Result<Row, AllocError>
    ensures { IfOk result (λ row. Shows row (map (λ k. bit_of a.now k) (below count))) }
{
    let mut words = Vec::new(alloc);
    for j in 0..count / 64 + 1 {
        words.push(a.word(j) & mask(count, j))?;
    }
    Ok(Row { words })
}

pub fn both(alloc: Global, a: &Row, b: &Row, count: usize) -> Result<Row, AllocError>
    ensures { IfOk result (λ row. Shows row (map (λ k. bit_of a.now k && bit_of b.now k) (below count))) }
{
    let mut words = Vec::new(alloc);
    for j in 0..count / 64 + 1 {
        words.push((a.word(j) & b.word(j)) & mask(count, j))?;
    }
    Ok(Row { words })
}

pub fn either(alloc: Global, a: &Row, b: &Row, count: usize) -> Result<Row, AllocError>
    ensures { IfOk result (λ row. Shows row (map (λ k. bit_of a.now k || bit_of b.now k) (below count))) }
{
    let mut words = Vec::new(alloc);
    for j in 0..count / 64 + 1 {
        words.push((a.word(j) | b.word(j)) & mask(count, j))?;
    }
    Ok(Row { words })
}

pub fn rest(alloc: Global, a: &Row, count: usize) -> Result<Row, AllocError>
    ensures { IfOk result (λ row. Shows row (map (λ k. not (bit_of a.now k)) (below count))) }
{
    let mut words = Vec::new(alloc);
    for j in 0..count / 64 + 1 {
        words.push((a.word(j) ^ u64::MAX) & mask(count, j))?;
    }
    Ok(Row { words })
}

/// Whether two rows have the same numbers below `count`.
pub fn equal(a: &Row, b: &Row, count: usize) -> bool
    ensures { IsTrue result ↔ ((k : ℕ) → k < count → bit_of a.now k ≡ bit_of b.now k) }
{
    for j in 0..count / 64 + 1 {
        let ones = mask(count, j);
        if a.word(j) & ones != b.word(j) & ones {
            return false;
        }
    }
    true
}

/// The numbers of the places where a list is true.
pub fn packed(alloc: Global, bits: &[bool]) -> Result<Row, AllocError>
    ensures { IfOk result (λ row. Shows row bits.now) }
{
    let mut words = Vec::new(alloc);
    for j in 0..bits.len() / 64 + 1 {
        words.push(low_word(&bits[j * 64..]))?;
    }
    Ok(Row { words })
}

/// The first 64 places of a list as a word.
fn low_word(bits: &[bool]) -> u64
    ensures { (i : ℕ) → i < 64 → set_in result i ≡ get_or bits.now i false }
{
    let mut word = 0u64;
    for i in 0..64usize {
        word = with_bit(word, i, truth_at(bits, i));
    }
    word
}

fn truth_at(bits: &[bool], i: usize) -> bool
    ensures { result ≡ get_or bits.now i false }
{
    i < bits.len() && bits[i]
}

fn with_bit(word: u64, i: usize, value: bool) -> u64
    requires { i < 64 }
    ensures { result ≡ (if value then bit_or word (1 * 2 ^ i % 2 ^ 64) else word) }
{
    if value { word | (1u64 << i) } else { word }
}
