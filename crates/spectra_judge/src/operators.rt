//! The table of operators: which operands each takes, and what it gives.

ghost use Rattle.std.specs.Prelude.{◌≡◌};
ghost use Rattle.spectra_judge.specs.KindViews.{kind_data};
ghost use Rattle.spectra_judge.specs.Operators.{takes as takes_lem, gives as gives_lem, is_past as is_past_lem, is_past_prefix as is_past_prefix_lem};

use crate::kind::{Kind, can_equal, difference_of, is_truth, is_whole, product_of, sum_of};
use spectra_trees::tree::{BinaryWord, PrefixWord};

/// Whether an operator between two operands takes these kinds.
pub fn takes(word: BinaryWord, a: Kind<'_>, b: Kind<'_>) -> bool
    ensures { result ≡ takes_lem word (kind_data a.entry) (kind_data b.entry) }
{
    match word {
        BinaryWord::Implies => is_truth(a) && is_truth(b),
        BinaryWord::Iff => is_truth(a) && is_truth(b),
        BinaryWord::Since => is_truth(a) && is_truth(b),
        BinaryWord::Triggered => is_truth(a) && is_truth(b),
        BinaryWord::Eq => can_equal(a, b),
        BinaryWord::Ne => can_equal(a, b),
        BinaryWord::Lt => is_whole(a) && is_whole(b),
        BinaryWord::Le => is_whole(a) && is_whole(b),
        BinaryWord::Gt => is_whole(a) && is_whole(b),
        BinaryWord::Ge => is_whole(a) && is_whole(b),
        BinaryWord::Add => is_whole(a) && is_whole(b),
        BinaryWord::Sub => is_whole(a) && is_whole(b),
        BinaryWord::Mul => is_whole(a) && is_whole(b),
    }
}

/// What an operator between two operands gives.
pub fn gives<'a>(word: BinaryWord, a: Kind<'a>, b: Kind<'a>) -> Kind<'a>
    ensures { kind_data result ≡ gives_lem word (kind_data a.entry) (kind_data b.entry) }
{
    match word {
        BinaryWord::Add => sum_of(a, b),
        BinaryWord::Sub => difference_of(a, b),
        BinaryWord::Mul => product_of(a, b),
        _ => Kind::Truth,
    }
}

/// Whether an operator between two operands speaks of the past.
pub fn is_past(word: BinaryWord) -> bool
    ensures { result ≡ is_past_lem word }
{
    match word {
        BinaryWord::Since | BinaryWord::Triggered => true,
        _ => false,
    }
}

/// Whether an operator before its operand speaks of the past.
pub fn is_past_prefix(word: PrefixWord) -> bool
    ensures { result ≡ is_past_prefix_lem word }
{
    match word {
        PrefixWord::Not => false,
        _ => true,
    }
}
