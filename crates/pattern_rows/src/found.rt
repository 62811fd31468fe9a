//! The next value at each of up to 64 letters.

ghost use Rattle.std.specs.Prelude.{◌≡◌, ℕ, ◌<◌, ◌≤◌, ◌==◌, ◌++◌, length, map, get_or, is_some, unwrap_or, Some, None, true, false, OnOk, IsErrOf};
ghost use Rattle.std.specs.List.{list_all};
ghost use Rattle.spec_model.specs.Values.{is_assignment};
ghost use Rattle.spec_model.specs.Views.{pattern_data};
ghost use Rattle.pattern_rows.specs.Patterns.{IsPattern};
ghost use Rattle.pattern_rows.specs.Rows.{may_follow};
ghost use Rattle.pattern_rows.specs.ToldRows.{is_told, scan, next_after, are_told_after};
ghost use Rattle.pattern_rows.specs.Wides.{bit};
ghost use Rattle.pattern_rows.specs.Blocks.{letter_in, AreWordsOf, IsMarked};

use crate::block::{Block, all_hold};
use crate::fault::RowFault;
use crate::numbering::next_own;
use crate::wide::word_of;
use crate::words::has_bit;
use game_values::seen::At;
use spec_model::spec::Pattern;
use spec_model::value::Value;

fn clear(found: &mut [Option<u16>])
    ensures lengths { length found.new ≡ length found.old }
    ensures clear { (l : ℕ) → l < length found.old → get_or found.new l None ≡ None }
{
    for l in 0..found.len() {
        found[l] = None;
    }
}

/// Writes the number of a next value at the letters of a word. False where another is there already; then what is written says
/// nothing.
fn mark(word: u64, k: u16, found: &mut [Option<u16>]) -> bool
    requires few { length found.old ≤ 64 }
    ensures marked { result ≡ true → (l : ℕ) → l < length found.old → IsMarked (bit word l) k (get_or found.old l None) (get_or found.new l None) }
    ensures twice { result ≡ false → (l : ℕ) × (l < length found.old) × (bit word l ≡ true) × (is_some (get_or found.old l None) ≡ true) }
    ensures lengths { length found.new ≡ length found.old }
{
    if word == 0 {
        return true;
    }
    for l in 0..found.len() {
        if has_bit(word, l) {
            if found[l].is_some() {
                return false;
            }
            found[l] = Some(k);
        }
    }
    true
}

/// Finds the next value at each letter. False where two are allowed at one; None where the lines aren't worked out for many
/// letters at once.
fn find(
    pattern: &Pattern,
    owns: &[Vec<Value>],
    letters: &[Vec<Value>],
    words: &[u64],
    own: &[Value],
    found: &mut [Option<u16>],
) -> Option<bool>
    requires few { length owns.now ≤ 64 }
    requires words { AreWordsOf (map (λ c. c.items) letters.now) words.now }
    requires room { length found.old ≡ length letters.now }
    ensures found { result ≡ Some true → (l : ℕ) → l < length letters.now → get_or found.new l None ≡ scan (may_follow (pattern_data pattern.now) (letter_in (map (λ c. c.items) letters.now) l) own.now) None 0 (map (λ c. c.items) owns.now) }
    ensures open { result ≡ Some false → (l : ℕ) × (l < length letters.now) × (is_told (may_follow (pattern_data pattern.now) (letter_in (map (λ c. c.items) letters.now) l) own.now) (map (λ c. c.items) owns.now) ≡ false) }
    ensures lengths { length found.new ≡ length found.old }
{
    clear(found);
    for k in 0..owns.len() {
        let next = &owns[k];
        let block = Block {
            letters,
            words,
            own,
            next,
        };
        let allowed = all_hold(&pattern.step, &block, At::Now)?;
        if !mark(word_of(allowed), k as u16, found) {
            return Some(false);
        }
    }
    Some(true)
}

/// Adds the numbers that were found, where there is one at each letter.
fn add_found(found: &[Option<u16>], next: &mut Vec<u16>) -> Result<(), RowFault>
    ensures added { OnOk result (next.new.items ≡ next.old.items ++ map (λ f. unwrap_or f 0) found.now) }
    ensures told { OnOk result (list_all is_some found.now ≡ true) }
    ensures open { IsErrOf result RowFault.Open → list_all is_some found.now ≡ false }
    ensures wide { IsErrOf result RowFault.Wide → ⊥ }
{
    for f in found {
        match f {
            Some(k) => next.push(*k)?,
            None => return Err(RowFault::Open),
        }
    }
    Ok(())
}

/// Adds the number of the assignment that follows another at each letter, looked for letter by letter.
fn add_each(
    pattern: &Pattern,
    owns: &[Vec<Value>],
    letters: &[Vec<Value>],
    own: &[Value],
    next: &mut Vec<u16>,
) -> Result<(), RowFault>
    requires shaped { IsPattern (pattern_data pattern.now) }
    requires owns { list_all (is_assignment (pattern_data pattern.now).domains) (map (λ c. c.items) owns.now) ≡ true }
    requires few { length owns.now ≤ 64 }
    requires letters { list_all (λ l. length l == (pattern_data pattern.now).params) (map (λ c. c.items) letters.now) ≡ true }
    requires own { is_assignment (pattern_data pattern.now).domains own.now ≡ true }
    ensures added { OnOk result (next.new.items ≡ next.old.items ++ next_after (pattern_data pattern.now) (map (λ c. c.items) owns.now) (map (λ c. c.items) letters.now) own.now) }
    ensures told { OnOk result (are_told_after (pattern_data pattern.now) (map (λ c. c.items) owns.now) (map (λ c. c.items) letters.now) own.now ≡ true) }
    ensures open { IsErrOf result RowFault.Open → are_told_after (pattern_data pattern.now) (map (λ c. c.items) owns.now) (map (λ c. c.items) letters.now) own.now ≡ false }
    ensures wide { IsErrOf result RowFault.Wide → ⊥ }
{
    for letter in letters {
        match next_own(pattern, owns, letter, own) {
            Some(k) => next.push(k)?,
            None => return Err(RowFault::Open),
        }
    }
    Ok(())
}

/// Adds the number of the assignment that follows another at each of up to 64 letters, for which there are words.
pub fn add_block(
    pattern: &Pattern,
    owns: &[Vec<Value>],
    letters: &[Vec<Value>],
    words: &[u64],
    own: &[Value],
    next: &mut Vec<u16>,
) -> Result<(), RowFault>
    requires shaped { IsPattern (pattern_data pattern.now) }
    requires owns { list_all (is_assignment (pattern_data pattern.now).domains) (map (λ c. c.items) owns.now) ≡ true }
    requires few { length owns.now ≤ 64 }
    requires words { AreWordsOf (map (λ c. c.items) letters.now) words.now }
    requires letters { list_all (λ l. length l == (pattern_data pattern.now).params) (map (λ c. c.items) letters.now) ≡ true }
    requires own { is_assignment (pattern_data pattern.now).domains own.now ≡ true }
    ensures added { OnOk result (next.new.items ≡ next.old.items ++ next_after (pattern_data pattern.now) (map (λ c. c.items) owns.now) (map (λ c. c.items) letters.now) own.now) }
    ensures told { OnOk result (are_told_after (pattern_data pattern.now) (map (λ c. c.items) owns.now) (map (λ c. c.items) letters.now) own.now ≡ true) }
    ensures open { IsErrOf result RowFault.Open → are_told_after (pattern_data pattern.now) (map (λ c. c.items) owns.now) (map (λ c. c.items) letters.now) own.now ≡ false }
    ensures wide { IsErrOf result RowFault.Wide → ⊥ }
{
    let mut room = [None; 64];
    let (found, _) = room.split_at_mut(letters.len());
    match find(pattern, owns, letters, words, own, found) {
        None => add_each(pattern, owns, letters, own, next),
        Some(false) => Err(RowFault::Open),
        Some(true) => add_found(found, next),
    }
}
