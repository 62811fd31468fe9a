//! Which operators are of a row, and where the row at the end of several begins.

ghost use Rattle.std.specs.Prelude.{◌≡◌, ◌≤◌, ◌<◌, ◌-◌, true, false, IfSome, length, map, drop, slice_get};
ghost use Rattle.std.specs.List.{list_all};
ghost use Rattle.spectra_resolved.specs.Chained.{LinkData};
ghost use Rattle.spectra_resolved.specs.Views.{link_data};
ghost use Rattle.spectra_copies.specs.Levels.{is_row_word as is_row_word_lem};

use spectra_resolved::tree::Link;
use spectra_trees::tree::BinaryWord;

/// Whether an operator is one of a row.
pub fn is_row_word(word: BinaryWord) -> bool
    ensures { result ≡ is_row_word_lem word }
{
    match word {
        BinaryWord::Add | BinaryWord::Sub | BinaryWord::Mul => true,
        _ => false,
    }
}

/// How many of several operators stand before the row at their end.
pub fn before_row(links: &[Link]) -> usize
    ensures within { result ≤ length links.now }
    ensures row { list_all (λ (l : LinkData). is_row_word_lem l.word) (map link_data (drop result links.now)) ≡ true }
    ensures last { 0 < result → IfSome (slice_get links.now (result - 1)) (λ l. is_row_word_lem l.word ≡ false) }
{
    let mut count = links.len();
    while count > 0 {
        if !is_row_word(links[count - 1].word) {
            return count;
        }
        count -= 1;
    }
    count
}
