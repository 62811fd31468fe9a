//! Where some value of one list and some of another pass a test, pair by pair. Each set on the way is that of the first
//! several pairs.

ghost use Rattle.std.specs.Prelude.{◌≡◌, ◌<◌, ◌&&◌, ◌||◌, ◌+◌, ◌*◌, ◌^◌, nat_abs, false, SomeIff};
ghost use Rattle.std.specs.List.{list_any};
ghost use Rattle.spec_model.specs.Values.{number_of};
ghost use Rattle.bdd_store.specs.State.{IsRoot};
ghost use Rattle.bdd_bits.specs.Contents.{function_at};
ghost use Rattle.bit_compile.specs.Making.{Makes};
ghost use Rattle.bit_compile.specs.Compiled.{some_pair, in_table as in_table_lem, leads as leads_lem};
ghost use Rattle.bit_compile.specs.CaseRoots.{AreKept, cases_at, passes as passes_lem, case_at};
ghost use Rattle.bit_compile.specs.Crowding.{HasCause};
ghost use Rattle.bit_compile.specs.Named.{IsBoth, IsOfRow, IsOfPairs};

use crate::cases::CaseRoot;
use crate::operation::{Operation, gives};
use crate::steps::{and, constant, keep, or};
use bdd_bits::{Diagrams, Root};
use game_values::cells::{bit_in, number_in};
use game_values::values::{compares, number};
use regions::Halt;
use spec_model::expr::Compare;
use spec_model::value::Value;

/// Which pairs of values pass.
#[derive(Clone, Copy)]
pub enum Test<'a> {
    /// The comparison holds.
    Compared(Compare),
    /// The operation gives this value.
    Gives(Operation, Value),
    /// The truth table, with so many letters, is true at the hidden value and the letter.
    InTable(&'a [bool], usize),
    /// The hidden table with these next values and so many letters leads from the first, its value, by the second, its
    /// letter, to this value.
    Leads(&'a [u16], usize, Value),
}

/// The cell of a value and a letter, where it has a number.
fn cell(letters: usize, value: Value, letter: Value) -> Option<usize>
    ensures { let cell = nat_abs (number_of value) * letters + nat_abs (number_of letter) in SomeIff result (cell < 2 ^ 64) cell }
{
    let value = number(value).unsigned_abs() as usize;
    let letter = number(letter).unsigned_abs() as usize;
    match value.checked_mul(letters) {
        None => None,
        Some(first) => first.checked_add(letter),
    }
}

/// The entry of a value and a letter, false where there is none.
fn in_table(table: &[bool], letters: usize, value: Value, letter: Value) -> bool
    ensures { result ≡ in_table_lem table.now letters value letter }
{
    match cell(letters, value, letter) {
        None => false,
        Some(cell) => bit_in(table, cell),
    }
}

/// Whether the next value of a value and a letter is this one.
fn leads(next: &[u16], letters: usize, to: Value, value: Value, letter: Value) -> bool
    ensures { result ≡ leads_lem next.now letters to value letter }
{
    let reached = match cell(letters, value, letter) {
        None => 0,
        Some(cell) => number_in(next, cell),
    };
    u64::from(reached) == number(to).unsigned_abs()
}

/// Whether two values pass.
pub fn passes(test: &Test, x: Value, y: Value) -> bool
    ensures { result ≡ passes_lem test.now x y }
{
    match test {
        Test::Compared(c) => compares(*c, x, y),
        Test::Gives(op, v) => gives(*op, *v, x, y),
        Test::InTable(table, letters) => in_table(table, *letters, x, y),
        Test::Leads(next, letters, to) => leads(next, *letters, *to, x, y),
    }
}

/// Where the sum is true, or both are.
fn or_both(diagrams: &mut Diagrams, sum: &Root, a: &Root, b: &Root) -> Result<Root, Halt>
    requires sum_kept { IsRoot diagrams.old.state sum.now }
    requires a_kept { IsRoot diagrams.old.state a.now }
    requires b_kept { IsRoot diagrams.old.state b.now }
    ensures made { Makes diagrams.old diagrams.new result (λ s. function_at diagrams.old sum.now s || function_at diagrams.old a.now s && function_at diagrams.old b.now s) }
    ensures cause { HasCause diagrams.old diagrams.new result (IsBoth (function_at diagrams.old a.now) (function_at diagrams.old b.now)) }
{
    let both = and(diagrams, a, b)?;
    let more = or(diagrams, sum, &both);
    diagrams.release(both);
    more
}

/// Where the sum is true, or both are, if they are wanted.
fn or_wanted(
    diagrams: &mut Diagrams,
    sum: &Root,
    wanted: bool,
    a: &Root,
    b: &Root,
) -> Result<Root, Halt>
    requires sum_kept { IsRoot diagrams.old.state sum.now }
    requires a_kept { IsRoot diagrams.old.state a.now }
    requires b_kept { IsRoot diagrams.old.state b.now }
    ensures made { Makes diagrams.old diagrams.new result (λ s. function_at diagrams.old sum.now s || wanted && (function_at diagrams.old a.now s && function_at diagrams.old b.now s)) }
    ensures cause { HasCause diagrams.old diagrams.new result (IsBoth (function_at diagrams.old a.now) (function_at diagrams.old b.now)) }
{
    if wanted {
        or_both(diagrams, sum, a, b)
    } else {
        keep(diagrams, sum)
    }
}

/// Where the sum is true, or this value is had and some value that passes with it.
fn or_row(
    diagrams: &mut Diagrams,
    sum: &Root,
    test: &Test,
    x: &CaseRoot,
    ys: &[CaseRoot],
) -> Result<Root, Halt>
    requires sum_kept { IsRoot diagrams.old.state sum.now }
    requires x_kept { IsRoot diagrams.old.state x.now.root }
    requires ys_kept { AreKept diagrams.old.state ys.now }
    ensures made { Makes diagrams.old diagrams.new result (λ s. function_at diagrams.old sum.now s || list_any (λ y. passes_lem test.now x.now.value y.value && (function_at diagrams.old x.now.root s && y.holds s)) (cases_at diagrams.old ys.now)) }
    ensures cause { HasCause diagrams.old diagrams.new result (IsOfRow (passes_lem test.now) (function_at diagrams.old sum.now) (case_at diagrams.old x.now) (cases_at diagrams.old ys.now)) }
{
    let mut row = keep(diagrams, sum)?;
    for y in ys {
        let wanted = passes(test, x.value, y.value);
        let more = or_wanted(diagrams, &row, wanted, &x.root, &y.root);
        diagrams.release(row);
        let next = more?;
        row = next;
    }
    Ok(row)
}

/// Where some value of the first list is had and some of the second, and the two pass.
pub fn pair_by_pair(
    diagrams: &mut Diagrams,
    test: &Test,
    xs: &[CaseRoot],
    ys: &[CaseRoot],
) -> Result<Root, Halt>
    requires xs_kept { AreKept diagrams.old.state xs.now }
    requires ys_kept { AreKept diagrams.old.state ys.now }
    ensures made { Makes diagrams.old diagrams.new result (some_pair (passes_lem test.now) (cases_at diagrams.old xs.now) (cases_at diagrams.old ys.now)) }
    ensures cause { HasCause diagrams.old diagrams.new result (IsOfPairs (passes_lem test.now) (cases_at diagrams.old xs.now) (cases_at diagrams.old ys.now)) }
{
    let mut sum = constant(diagrams, false)?;
    for x in xs {
        let more = or_row(diagrams, &sum, test, x, ys);
        diagrams.release(sum);
        let next = more?;
        sum = next;
    }
    Ok(sum)
}
