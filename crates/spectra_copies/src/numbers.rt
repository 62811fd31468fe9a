//! The numbers of expressions that read no variable.

ghost use Rattle.std.specs.Prelude.{◌≡◌, map};
ghost use Rattle.spectra_resolved.specs.Resolved.{Form};
ghost use Rattle.spectra_resolved.specs.Chained.{chained};
ghost use Rattle.spectra_resolved.specs.Views.{resolved_data, link_data, form_data};
ghost use Rattle.spectra_copies.specs.Numbers.{capped_number as capped_number_lem, joined_number as joined_number_lem, remainder_number as remainder_number_lem, leaf_number as leaf_number_lem, number_in as number_in_lem, form_number};
ghost use Rattle.spectra_copies.specs.ChainNumbers.{chain_number as chain_number_lem};

use spectra_resolved::tree::{Leaf, Link, Resolved, Shape};
use spectra_trees::tree::BinaryWord;

// The least number past all that are allowed.
const BEYOND: i64 = 1_000_000_000_001;

// The number as it counts: one outside of -10^12 to 10^12 is the one just outside.
fn capped_number(z: i64) -> i64
    ensures { result ≡ capped_number_lem z }
{
    z.min(BEYOND).max(-BEYOND)
}

// The number that an operator makes of two.
fn joined_number(word: BinaryWord, a: Option<i64>, b: Option<i64>) -> Option<i64>
    ensures { result ≡ joined_number_lem word a b }
{
    match (a, b) {
        (Some(a), Some(b)) => match word {
            BinaryWord::Add => Some(capped_number(a.saturating_add(b))),
            BinaryWord::Sub => Some(capped_number(a.saturating_sub(b))),
            BinaryWord::Mul => Some(capped_number(a.saturating_mul(b))),
            _ => None,
        },
        (_, _) => None,
    }
}

// The remainder of a number by another one.
fn remainder_number(n: i64, a: Option<i64>) -> Option<i64>
    ensures { result ≡ remainder_number_lem n a }
{
    match a {
        Some(a) => { if 0 < n { Some(a.rem_euclid(n)) } else { None } }
        None => None,
    }
}

// The number of an expression without parts.
fn leaf_number(numbers: &[Option<i64>], leaf: Leaf) -> Option<i64>
    ensures { result ≡ leaf_number_lem numbers.now leaf }
{
    match leaf {
        Leaf::Number(z) => Some(capped_number(z)),
        Leaf::Define(k) => { if k < numbers.len() { numbers[k] } else { None } }
        Leaf::Truth(_) => None,
        Leaf::EnumName(_) => None,
        Leaf::Variable(_) => None,
        Leaf::Parameter(_) => None,
        Leaf::Own(_) => None,
        Leaf::Bound(_) => None,
        Leaf::Hole(_) => None,
    }
}

/// The number of an expression, where it has one: it reads no variable, and the defines that it uses have these numbers. One
/// outside of -10^12 to 10^12 counts as the one just outside.
#[cycle(numbering)]
pub fn number_in(numbers: &[Option<i64>], t: &Resolved) -> Option<i64>
    ensures { result ≡ number_in_lem numbers.now (resolved_data t.now) }
{
    match t {
        Resolved::Chain(head, links) => chain_number(numbers, head, links),
        Resolved::Node(_, _, shape) => shape_number(numbers, shape),
    }
}

// The number of an expression with operators behind it.
#[cycle(numbering)]
fn chain_number(numbers: &[Option<i64>], head: &Resolved, links: &[Link]) -> Option<i64>
    ensures { result ≡ number_in_lem numbers.now (chained (resolved_data head.now) (map link_data links.now)) }
{
    let first = number_in(numbers, head);
    links_number(numbers, first, links)
}

// The number that operators in text order make behind a first operand with one.
#[cycle(numbering)]
fn links_number(numbers: &[Option<i64>], first: Option<i64>, links: &[Link]) -> Option<i64>
    ensures { result ≡ chain_number_lem numbers.now first (map link_data links.now) }
{
    let mut number = first;
    for link in links {
        number = link_number(numbers, number, link);
    }
    number
}

// The number that an operator makes, whose first operand has one.
#[cycle(numbering)]
fn link_number(numbers: &[Option<i64>], first: Option<i64>, link: &Link) -> Option<i64>
    ensures { result ≡ joined_number_lem (link_data link.now).word first (number_in_lem numbers.now (link_data link.now).second) }
{
    let second = number_in(numbers, &link.second);
    joined_number(link.word, first, second)
}

// The number of an expression without operators behind it.
#[cycle(numbering)]
fn shape_number(numbers: &[Option<i64>], shape: &Shape) -> Option<i64>
    ensures { result ≡ form_number numbers.now (form_data shape.now) }
{
    match shape {
        Shape::Leaf(leaf) => leaf_number(numbers, *leaf),
        Shape::Mod(t, _, n) => remainder_number(*n, number_in(numbers, t)),
        Shape::Predicate(_, _) => None,
        Shape::Misuse(_, _) => None,
        Shape::Next(_) => None,
        Shape::Prefix(_, _) => None,
        Shape::And(_, _) => None,
        Shape::Or(_, _) => None,
        Shape::Index(_, _, _) => None,
        Shape::Quantified(_, _, _, _, _, _) => None,
    }
}
