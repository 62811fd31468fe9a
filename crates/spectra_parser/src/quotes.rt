//! A quoted text without its quotes.

ghost use Rattle.std.specs.Prelude.{ℕ, ◌≡◌, ◌++◌, ◌∷◌, [], List, reverse};
ghost use Rattle.spectra_parser.specs.Items.{unquoted as unquoted_lem, without_quote};

/// A text without the quote that it begins with, if it does.
fn without_first(text: &str) -> &str
    ensures { result.now ≡ without_quote text.now }
{
    match text.strip_prefix('"') {
        Some(rest) => rest,
        None => text,
    }
}

/// A text without the quote that it ends with, if it does.
fn without_last(text: &str) -> &str
    ensures { result.now ≡ reverse (without_quote (reverse text.now)) }
{
    match text.strip_suffix('"') {
        Some(rest) => rest,
        None => text,
    }
}

/// A quoted text without its quotes.
#[tactic(auto, unfolding(crate::specs::ItemGrammar::unquoted))]
pub fn unquoted(text: &str) -> &str
    ensures ends { result.now ≡ unquoted_lem text.now }
    ensures between { (inside : List ℕ) → text.now ≡ 34 ∷ (inside ++ 34 ∷ []) → result.now ≡ inside }
{
    without_last(without_first(text))
}
