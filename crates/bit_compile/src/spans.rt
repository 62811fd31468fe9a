//! The cases of variables, of operations and of the entries of hidden tables.

ghost use Rattle.std.specs.Prelude.{◌≡◌, ◌<◌, ◌≤◌, ◌^◌, pos, ◌+ℤ◌, ◌-ℤ◌, ◌*ℤ◌, FitsSigned, map, length, [], ◌∷◌};
ghost use Rattle.std.specs.Int.{int_min, int_max, w64};
ghost use Rattle.spec_model.specs.Values.{WholeNumbers, values_of, same_value};
ghost use Rattle.bdd_store.specs.State.{IsRoot};
ghost use Rattle.spec_model.specs.Views.{domain_data};
ghost use Rattle.spec_model.specs.GameViews.{hidden_data};
ghost use Rattle.game_values.specs.Whole.{IsWhole};
ghost use Rattle.bdd_bits.specs.Contents.{function_at};
ghost use Rattle.bit_compile.specs.Domains.{level_count};
ghost use Rattle.bit_compile.specs.Laid.{IsCountable};
ghost use Rattle.bit_compile.specs.Compiled.{least as least_lem, greatest as greatest_lem, least_product, greatest_product, span_of as span_of_lem, results, only, same_truth, both_truths, some_pair, in_table, lettered, numbers_below, table_truth, coded};
ghost use Rattle.bit_compile.specs.CaseRoots.{AreKept, MakesCases, cases_at};
ghost use Rattle.bit_compile.specs.Crowding.{MakesNamed};
ghost use Rattle.bit_compile.specs.Named.{IsOfResults, IsOfRemainders, IsOfSameWith, IsOfSame, IsOfCoded, IsOfLettered, IsOfCells, IsOfTable};

use crate::blocks::pair_root;
use crate::cases::{CaseRoot, Source, cases_from, cases_of_truth, release_all};
use crate::codes::Codes;
use crate::domains::{domain_of, values};
use crate::operation::Operation;
use crate::pairs::Test;
use bdd_bits::{Diagrams, Root};
use game_values::cells::letters;
use game_values::seen::At;
use game_values::values::number;
use regions::Halt;
use spec_model::expr::Compare;
use spec_model::game::Hidden;
use spec_model::value::{Domain, Value};
use std::alloc::Global;

/// The first number.
fn least(xs: &[CaseRoot]) -> i64
    ensures { result ≡ least_lem (map (λ x. x.value) xs.now) }
{
    match xs.first() {
        Some(x) => number(x.value),
        None => 0,
    }
}

/// The last number.
fn greatest(xs: &[CaseRoot]) -> i64
    ensures { result ≡ greatest_lem (map (λ x. x.value) xs.now) }
{
    match xs.last() {
        Some(x) => number(x.value),
        None => 0,
    }
}

/// From the sum of the least numbers to the sum of the greatest.
fn sum_span(a: i64, b: i64, c: i64, d: i64) -> Domain
    requires { IsCountable (WholeNumbers (a +ℤ c) (b +ℤ d)) }
    ensures { domain_data result ≡ WholeNumbers (a +ℤ c) (b +ℤ d) }
{
    let lo = a + c;
    let hi = b + d;
    Domain::Range { lo, hi }
}

/// From the least number less the greatest to the greatest less the least.
fn difference_span(a: i64, b: i64, c: i64, d: i64) -> Domain
    requires { IsCountable (WholeNumbers (a -ℤ d) (b -ℤ c)) }
    ensures { domain_data result ≡ WholeNumbers (a -ℤ d) (b -ℤ c) }
{
    let lo = a - d;
    let hi = b - c;
    Domain::Range { lo, hi }
}

/// A product that fits.
fn product(x: i64, y: i64) -> i64
    requires { FitsSigned w64 (x *ℤ y) }
    ensures { result ≡ x *ℤ y }
{
    x * y
}

fn least_of(p: i64, q: i64, r: i64, t: i64) -> i64
    ensures { result ≡ int_min (int_min p q) (int_min r t) }
{
    p.min(q).min(r.min(t))
}

fn greatest_of(p: i64, q: i64, r: i64, t: i64) -> i64
    ensures { result ≡ int_max (int_max p q) (int_max r t) }
{
    p.max(q).max(r.max(t))
}

/// From one number to another.
fn interval(lo: i64, hi: i64) -> Domain
    ensures { domain_data result ≡ WholeNumbers lo hi }
{
    Domain::Range { lo, hi }
}

/// From the least of these numbers to the greatest.
fn span_between(p: i64, q: i64, r: i64, t: i64) -> Domain
    ensures { domain_data result ≡ WholeNumbers (int_min (int_min p q) (int_min r t)) (int_max (int_max p q) (int_max r t)) }
{
    let lo = least_of(p, q, r, t);
    let hi = greatest_of(p, q, r, t);
    interval(lo, hi)
}

/// From the least product of ends to the greatest.
fn product_span(a: i64, b: i64, c: i64, d: i64) -> Domain
    requires { IsCountable (WholeNumbers (least_product a b c d) (greatest_product a b c d)) }
    ensures { domain_data result ≡ WholeNumbers (least_product a b c d) (greatest_product a b c d) }
{
    let ac = product(a, c);
    let ad = product(a, d);
    let bc = product(b, c);
    let bd = product(b, d);
    span_between(ac, ad, bc, bd)
}

/// From 0 to one less than the divisor.
fn remainder_span(d: i64) -> Domain
    requires { IsCountable (WholeNumbers (pos 0) (d -ℤ pos 1)) }
    ensures { domain_data result ≡ WholeNumbers (pos 0) (d -ℤ pos 1) }
{
    let hi = d - 1;
    Domain::Range { lo: 0, hi }
}

/// An interval with all that the operation gives.
fn span_of(op: Operation, xs: &[CaseRoot], ys: &[CaseRoot]) -> Domain
    requires { IsCountable (span_of_lem op (map (λ x. x.value) xs.now) (map (λ y. y.value) ys.now)) }
    ensures { domain_data result ≡ span_of_lem op (map (λ x. x.value) xs.now) (map (λ y. y.value) ys.now) }
{
    let a = least(xs);
    let b = greatest(xs);
    let c = least(ys);
    let d = greatest(ys);
    match op {
        Operation::Add => sum_span(a, b, c, d),
        Operation::Sub => difference_span(a, b, c, d),
        Operation::Mul => product_span(a, b, c, d),
        Operation::Mod => remainder_span(d),
    }
}

/// Each number that the operation gives, with where it is had.
#[inline(never)]
pub fn operation_cases(
    diagrams: &mut Diagrams,
    alloc: Global,
    op: Operation,
    xs: &[CaseRoot],
    ys: &[CaseRoot],
) -> Result<Vec<CaseRoot>, Halt>
    requires span { IsCountable (span_of_lem op (map (λ x. x.value) xs.now) (map (λ y. y.value) ys.now)) }
    requires xs_kept { AreKept diagrams.old.state xs.now }
    requires ys_kept { AreKept diagrams.old.state ys.now }
    ensures { let c = diagrams.old in let vs = values_of (span_of_lem op (map (λ x. x.value) xs.now) (map (λ y. y.value) ys.now)) in
        MakesCases c diagrams.new result (results op (cases_at c xs.now) (cases_at c ys.now) vs) (IsOfResults op (cases_at c xs.now) (cases_at c ys.now) vs) }
{
    let domain = span_of(op, xs, ys);
    let Ok(values) = values(alloc, &domain) else {
        return Err(Halt::Memory);
    };
    cases_from(diagrams, alloc, &Source::Pairs(op, xs, ys), &values)
}

/// Each remainder, with where it is had.
#[inline(never)]
pub fn remainder_cases(
    diagrams: &mut Diagrams,
    alloc: Global,
    xs: &[CaseRoot],
    n: i64,
) -> Result<Vec<CaseRoot>, Halt>
    requires span { IsCountable (span_of_lem Operation.Mod (map (λ x. x.value) xs.now) (Value.Int n ∷ [])) }
    requires xs_kept { AreKept diagrams.old.state xs.now }
    ensures { let c = diagrams.old in let vs = values_of (span_of_lem Operation.Mod (map (λ x. x.value) xs.now) (Value.Int n ∷ [])) in
        MakesCases c diagrams.new result (results Operation.Mod (cases_at c xs.now) (only (Value.Int n)) vs) (IsOfRemainders (cases_at c xs.now) n vs) }
{
    let number = cases_from(diagrams, alloc, &Source::Everywhere, &[Value::Int(n)])?;
    let cases = operation_cases(diagrams, alloc, Operation::Mod, xs, &number);
    release_all(diagrams, number);
    cases
}

/// Where a root is the truth value that some of these cases is.
fn same_with(
    diagrams: &mut Diagrams,
    alloc: Global,
    xs: &[CaseRoot],
    b: &Root,
) -> Result<Root, Halt>
    requires xs_kept { AreKept diagrams.old.state xs.now }
    requires b_kept { IsRoot diagrams.old.state b.now }
    ensures { let c = diagrams.old in
        MakesNamed c diagrams.new result (some_pair same_value (cases_at c xs.now) (both_truths (function_at c b.now))) (IsOfSameWith (cases_at c xs.now) (function_at c b.now)) }
{
    let ys = cases_of_truth(diagrams, alloc, b)?;
    let root = pair_root(diagrams, &Test::Compared(Compare::Eq), xs, &ys);
    release_all(diagrams, ys);
    root
}

/// Where both roots are true, or neither is.
#[inline(never)]
pub fn same_root(diagrams: &mut Diagrams, alloc: Global, a: &Root, b: &Root) -> Result<Root, Halt>
    requires a_kept { IsRoot diagrams.old.state a.now }
    requires b_kept { IsRoot diagrams.old.state b.now }
    ensures { let c = diagrams.old in
        MakesNamed c diagrams.new result (same_truth (function_at c a.now) (function_at c b.now)) (IsOfSame (function_at c a.now) (function_at c b.now)) }
{
    let xs = cases_of_truth(diagrams, alloc, a)?;
    let root = same_with(diagrams, alloc, &xs, b);
    release_all(diagrams, xs);
    root
}

/// Each value of a domain, with where the bits of this place of a state are its code.
pub fn coded_cases(
    diagrams: &mut Diagrams,
    codes: &Codes,
    at: At,
    k: usize,
    domain: &Domain,
    alloc: Global,
) -> Result<Vec<CaseRoot>, Halt>
    requires known { k < length codes.now }
    requires levels { level_count codes.now ≤ diagrams.old.state.table.levels }
    requires countable { IsCountable (domain_data domain.now) }
    ensures { MakesCases diagrams.old diagrams.new result (coded codes.now at k (domain_data domain.now)) (IsOfCoded codes.now at k (domain_data domain.now)) }
{
    let Ok(values) = values(alloc, domain) else {
        return Err(Halt::Memory);
    };
    cases_from(
        diagrams,
        alloc,
        &Source::Coded(codes, at, k, domain),
        &values,
    )
}

/// So many numbers, from 0 on.
fn first_numbers(count: usize) -> Domain
    requires some { 0 < count }
    requires few { count ≤ 10 ^ 12 }
    ensures domain { domain_data result ≡ numbers_below count }
    ensures countable { IsCountable (domain_data result) }
{
    Domain::Range {
        lo: 0,
        hi: count as i64 - 1,
    }
}

/// Each letter, with where the atoms have it. Want of numbers for the letters is want of memory.
pub fn letter_cases(
    diagrams: &mut Diagrams,
    alloc: Global,
    h: &Hidden,
    atoms: &[CaseRoot],
) -> Result<Vec<CaseRoot>, Halt>
    requires whole { IsWhole h.now }
    requires counted { length atoms.now ≡ length h.now.atoms.items }
    requires kept { AreKept diagrams.old.state atoms.now }
    ensures { let fs = map (λ a. function_at diagrams.old a.root) atoms.now in MakesCases diagrams.old diagrams.new result (lettered fs) (IsOfLettered fs) }
{
    let count = letters(h);
    if count > 1_000_000_000_000 {
        return Err(Halt::Memory);
    }
    let domain = first_numbers(count);
    let Ok(values) = values(alloc, &domain) else {
        return Err(Halt::Memory);
    };
    cases_from(diagrams, alloc, &Source::Letters(atoms), &values)
}

/// Where a truth table of the hidden table at this place is true at some of these values and some letter of the atoms.
fn cells_root(
    diagrams: &mut Diagrams,
    alloc: Global,
    h: &Hidden,
    table: &[bool],
    values: &[CaseRoot],
    atoms: &[CaseRoot],
) -> Result<Root, Halt>
    requires whole { IsWhole h.now }
    requires counted { length atoms.now ≡ length h.now.atoms.items }
    requires values_kept { AreKept diagrams.old.state values.now }
    requires atoms_kept { AreKept diagrams.old.state atoms.now }
    ensures { let c = diagrams.old in let fs = map (λ a. function_at c a.root) atoms.now in
        MakesNamed c diagrams.new result (some_pair (in_table table.now (2 ^ length atoms.now)) (cases_at c values.now) (lettered fs)) (IsOfCells table.now (cases_at c values.now) fs) }
{
    let letters_had = letter_cases(diagrams, alloc, h, atoms)?;
    let test = Test::InTable(table, letters(h));
    let root = pair_root(diagrams, &test, values, &letters_had);
    release_all(diagrams, letters_had);
    root
}

/// Where a truth table of the hidden table at this place is true.
#[inline(never)]
pub fn table_root(
    diagrams: &mut Diagrams,
    codes: &Codes,
    k: usize,
    h: &Hidden,
    table: &[bool],
    atoms: &[CaseRoot],
    alloc: Global,
) -> Result<Root, Halt>
    requires known { k < length codes.now }
    requires levels { level_count codes.now ≤ diagrams.old.state.table.levels }
    requires whole { IsWhole h.now }
    requires counted { length atoms.now ≡ length h.now.atoms.items }
    requires kept { AreKept diagrams.old.state atoms.now }
    ensures { let c = diagrams.old in let fs = map (λ a. function_at c a.root) atoms.now in
        MakesNamed c diagrams.new result (table_truth codes.now k (hidden_data h.now) fs table.now) (IsOfTable codes.now k (hidden_data h.now) fs table.now) }
{
    let values = coded_cases(diagrams, codes, At::Now, k, &domain_of(h), alloc)?;
    let root = cells_root(diagrams, alloc, h, table, &values, atoms);
    release_all(diagrams, values);
    root
}
