//! What holds of the tokens and the faults of every text.

ghost use Rattle.std.specs.Prelude.{◌≡◌, ℕ};
ghost use Rattle.spectra_lexer.specs.Tokens.{AreTokens};
ghost use Rattle.spectra_lexer.specs.Faults.{IsTooLong, IsNotUtf8At, IsBadAt};
ghost use Rattle.spectra_lexer.specs.Slices.{AreSlices};

use crate::token::Token;

/// No text has two lists of tokens.
pub fn no_text_has_two_lists_of_tokens(text: &[u8], tokens: &[Token], others: &[Token])
    requires first { AreTokens text.now tokens.now }
    requires second { AreTokens text.now others.now }
    ensures { tokens.now ≡ others.now }
{}

/// A text with tokens has no fault.
pub fn tokens_or_a_fault(text: &[u8], tokens: &[Token])
    requires { AreTokens text.now tokens.now }
    ensures short { ¬ IsTooLong text.now }
    ensures utf8 { (line column : ℕ) → ¬ IsNotUtf8At text.now line column }
    ensures good { (line column : ℕ) → ¬ IsBadAt text.now line column }
{}

/// No text is broken at two places, or has two first strangers, and none is both.
pub fn no_text_has_two_places_of_a_fault(text: &[u8])
    ensures broken { (a b c d : ℕ) → IsNotUtf8At text.now a b → IsNotUtf8At text.now c d
        → (a ≡ c) × (b ≡ d) }
    ensures bad { (a b c d : ℕ) → IsBadAt text.now a b → IsBadAt text.now c d
        → (a ≡ c) × (b ≡ d) }
    ensures apart { (a b c d : ℕ) → IsNotUtf8At text.now a b → ¬ IsBadAt text.now c d }
{}

/// Each token is a slice of the text, the UTF-8 of characters that its kind has, and the slices rise.
pub fn tokens_are_slices(text: &[u8], tokens: &[Token])
    requires { AreTokens text.now tokens.now }
    ensures { AreSlices text.now 0 tokens.now }
{}
