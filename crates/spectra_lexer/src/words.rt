//! Which texts are signs, and which words are reserved.

ghost use Rattle.std.specs.Prelude.{◌≡◌, ◌≤◌, ℕ, List, [], slice_index_or, length, map, take, drop, nat_eq, option_map, IfSome, IfNone};
ghost use Rattle.std.specs.List.{list_any, find, starts_with};
ghost use Rattle.spectra_lexer.specs.Words.{BeginsWithSign, BeginsWithLongest, same_text, is_reserved as reserved_test};
ghost use Rattle.spectra_lexer.specs.Tokens.{kind_of as kind_of_word};

use crate::token::Kind;

/// The signs, none before a longer one that goes on from it; the frequent ones first.
pub const SIGNS: [&str; 27] = [
    ";", "(", ")", "=", ",", "&", "->", ":=", ":", "!=", "!", "|=>", "|", "{", "}", "[", "]", "..",
    "<->", "<=", "<", ">=", ">", "+", "-", "*", "?",
];

/// The words that are no names, each in the row of its length.
pub const RESERVED: [&[&str]; 17] = [
    &[],
    &["G", "Y", "O", "H", "S", "T"],
    &["GF", "or", "in"],
    &[
        "env", "sys", "aux", "Int", "var", "asm", "gar", "ini", "alw", "not", "and", "iff", "mod",
    ],
    &["spec", "type", "trig", "next", "true", "PREV", "ONCE"],
    &["trans", "alwEv", "false", "SINCE"],
    &["module", "import", "define", "always", "forall", "exists"],
    &["boolean", "pattern", "monitor", "implies"],
    &[],
    &["predicate", "guarantee", "initially", "TRIGGERED"],
    &["assumption"],
    &[],
    &["HISTORICALLY"],
    &[],
    &[],
    &[],
    &["alwaysEventually"],
];

/// How many bytes the first of these takes that a text begins with.
fn front_size(fronts: &[&str], text: &[u8]) -> Option<usize>
    ensures { result ≡ option_map length
        (find (λ front. starts_with nat_eq text.now front) (map (λ front. front.now) fronts.now)) }
{
    for front in fronts {
        if text.starts_with(front.as_bytes()) {
            return Some(front.len());
        }
    }
    None
}

/// How many bytes the longest sign at the front takes, where there is one.
pub fn sign_size(text: &[u8]) -> Option<usize>
    ensures within { IfSome result (λ size. size ≤ length text.now) }
    ensures longest { IfSome result (λ size.
        BeginsWithLongest text.now (take size text.now) (drop size text.now)) }
    ensures none { IfNone result ((sign rest : List ℕ) → ¬ BeginsWithSign text.now sign rest) }
{
    front_size(&SIGNS, text)
}

/// Whether a word is one of these.
fn is_among(words: &[&str], word: &[u8]) -> bool
    ensures { result ≡ list_any (λ w. same_text w word.now) (map (λ w. w.now) words.now) }
{
    for w in words {
        if w.as_bytes() == word {
            return true;
        }
    }
    false
}

/// Whether a word is in the row of its length.
fn is_in_row(rows: &[&[&str]], word: &[u8]) -> bool
    ensures { result ≡ list_any (λ w. same_text w word.now)
        (slice_index_or (map (λ row. map (λ w. w.now) row.now) rows.now) (length word.now) []) }
{
    match rows.get(word.len()) {
        Some(row) => is_among(row, word),
        None => false,
    }
}

/// Whether a word is no name.
fn is_reserved(word: &[u8]) -> bool
    ensures { result ≡ reserved_test word.now }
{
    is_in_row(&RESERVED, word)
}

/// A reserved word, or a name.
pub fn kind_of(word: &[u8]) -> Kind
    ensures { result ≡ kind_of_word word.now }
{
    if is_reserved(word) {
        Kind::Word
    } else {
        Kind::Name
    }
}
