//! How arrays are read at indexes.

ghost use Rattle.std.specs.Prelude.{◌≡◌, IfOk, get_or, map};
ghost use Rattle.spectra_resolved.specs.Views.{resolved_data};
ghost use Rattle.spectra_judge.specs.Kinds.{Anything};
ghost use Rattle.spectra_judge.specs.KindViews.{kind_data, known_data};
ghost use Rattle.spectra_judge.specs.Judged.{kind_of as kind_of_lem};
ghost use Rattle.spectra_cases.specs.Formulas.{element as element_lem, by_array as by_array_lem, reading_of, is_comparing as is_comparing_lem};
ghost use Rattle.spectra_cases.specs.ReadingViews.{reading_data};

use spectra_judge::kind::Kind;
use spectra_judge::kinding::kind_of;
use spectra_judge::known::{Known, kind_at};
use spectra_resolved::tree::Resolved;
use spectra_trees::tree::BinaryWord;
use std::alloc::AllocError;

/// How an array is read at an index: at the one element that the index may be; or in each case, of a truth value where it
/// stands, or of another in the comparison around it.
#[derive(Clone, Copy)]
pub enum Reading {
    One(usize),
    Here,
    Outside,
}

// The greatest number of an element.
const LAST_ELEMENT: u64 = 255;

// The variable of a numbered element. The error is a number past 64 bits, which no text has.
fn element(first: usize, number: i64) -> Result<usize, AllocError>
    ensures { IfOk result (λ v. v ≡ element_lem first number) }
{
    if number < 0 {
        return Ok(first);
    }
    let behind = number.unsigned_abs().min(LAST_ELEMENT) as usize;
    first.checked_add(behind).ok_or(AllocError)
}

// How an array of a kind is read where several elements may be meant.
fn by_array(array: Kind<'_>) -> Reading
    ensures { reading_data result ≡ by_array_lem (kind_data array.entry) }
{
    match array {
        Kind::Truth => Reading::Here,
        Kind::Whole(_, _) | Kind::SomeWhole | Kind::NameOf(_) | Kind::OneName(_) | Kind::Anything =>
            Reading::Outside,
    }
}

/// How an array of so many elements, the first of which has this number, is read. The error is that of `element`.
pub fn reading_at(
    known: &Known<'_, '_>,
    first: usize,
    count: usize,
    index: &Resolved,
) -> Result<Reading, AllocError>
    ensures { IfOk result (λ r. reading_data r ≡ reading_of (get_or (known_data known.now).variables first Anything) first count (kind_of_lem (known_data known.now) (resolved_data index.now))) }
{
    if count == 0 {
        return Ok(Reading::One(first));
    }
    let array = kind_at(known.variables, first);
    match kind_of(known, index) {
        Kind::Whole(low, high) => {
            if low == high {
                Ok(Reading::One(element(first, low)?))
            } else {
                Ok(by_array(array))
            }
        }
        Kind::Truth | Kind::SomeWhole | Kind::NameOf(_) | Kind::OneName(_) | Kind::Anything => Ok(
            by_array(array),
        ),
    }
}

/// Whether an operator compares.
pub fn is_comparing(word: BinaryWord) -> bool
    ensures { result ≡ is_comparing_lem word }
{
    match word {
        BinaryWord::Eq | BinaryWord::Ne => true,
        BinaryWord::Lt | BinaryWord::Le | BinaryWord::Gt | BinaryWord::Ge => true,
        _ => false,
    }
}
