//! The formula of an expression in which everything is put in, with the cases of its indexes.

ghost use Rattle.std.specs.Prelude.{◌≡◌, ◌<◌, ◌≤◌, ◌+◌, ◌-◌, ◌++◌, false, drop, length, map, slice_get, vec_len, IfOk, OnOk, IfSome};
ghost use Rattle.spec_model.specs.Syntax.{Variable, Conjunction, Disjunction, formulas as formulas_lem};
ghost use Rattle.spec_model.specs.Views.{formula as formula_data};
ghost use Rattle.spectra_resolved.specs.Resolved.{Form};
ghost use Rattle.spectra_resolved.specs.Chained.{chained, trees};
ghost use Rattle.spectra_resolved.specs.Views.{resolved_data, link_data, form_data};
ghost use Rattle.spectra_judge.specs.KindViews.{known_data};
ghost use Rattle.spectra_cases.specs.Formulas.{formula_of, each_formula, chosen, prefix_formula};
ghost use Rattle.spectra_copies.specs.Levels.{is_row_word};
ghost use Rattle.spectra_cases.specs.Choices.{choices as choices_lem, form_choices, equation_of, operated as operated_lem, built as built_lem, form_built};
ghost use Rattle.spectra_cases.specs.Wholes.{choice_data, whole_formula, whole_choices, whole_built, whole_cases, whole_case};

use crate::choosing::{Choice, Top, Whole, choices_of, top_of};
use crate::exprs::{both, equation, joined, leaf_expr, one_of, prefixed, variable};
use crate::readings::{Reading, is_comparing, reading_at};
use spec_model::expr::Expr;
use spec_model::value::Value;
use spectra_copies::rows::before_row;
use spectra_judge::known::Known;
use spectra_resolved::tree::{Link, QuantifierWord, Resolved, Shape};
use spectra_trees::tree::PrefixWord;
use std::alloc::{AllocError, Global};

/// By what formulas are made: what is known of the names, and the number of parameters before own variables.
#[derive(Clone, Copy)]
pub struct Making<'s, 'a> {
    pub alloc: Global,
    pub known: Known<'s, 'a>,
    pub params: usize,
}

// The variable of a numbered element. The error is a number past 64 bits, which no text has.
fn element(first: usize, number: usize) -> Result<usize, AllocError>
    ensures { IfOk result (λ v. v ≡ first + number) }
{
    first.checked_add(number).ok_or(AllocError)
}

// What is made, with the cases of its indexes.
#[cycle(making)]
fn made(by: &Making<'_, '_>, whole: Whole<'_>) -> Result<Expr, AllocError>
    ensures { IfOk result (λ e. formula_data e ≡ whole_formula (known_data by.now.known) by.now.params whole.entry) }
{
    let choices = choices_of(by.alloc, &by.known, whole)?;
    let mut picks = Vec::new(by.alloc);
    cases(by, &choices, &mut picks, whole)
}

// What is made where elements are picked for the first of its indexes.
#[cycle(making)]
fn cases(
    by: &Making<'_, '_>,
    choices: &[Choice<'_>],
    picks: &mut Vec<usize>,
    whole: Whole<'_>,
) -> Result<Expr, AllocError>
    requires all { map choice_data choices.now ≡ whole_choices (known_data by.now.known) whole }
    requires few { vec_len picks.old ≤ length choices.now }
    ensures made { IfOk result (λ e. formula_data e ≡ whole_cases (known_data by.now.known) by.now.params whole.entry picks.old.items) }
    ensures picks { OnOk result (picks.new.items ≡ picks.old.items) }
{
    let place = picks.len();
    if place == choices.len() {
        return picked(by, picks, whole);
    }
    let next = choices[place];
    let mut all = Vec::with_capacity(by.alloc, next.count)?;
    for number in 0..next.count {
        let made = case(by, choices, picks, number, whole)?;
        all.push(made)?;
    }
    Ok(one_of(all))
}

// The case in which the next index is a number.
#[cycle(making)]
fn case(
    by: &Making<'_, '_>,
    choices: &[Choice<'_>],
    picks: &mut Vec<usize>,
    number: usize,
    whole: Whole<'_>,
) -> Result<Expr, AllocError>
    requires all { map choice_data choices.now ≡ whole_choices (known_data by.now.known) whole }
    requires few { vec_len picks.old < length choices.now }
    ensures made { IfOk result (λ e. formula_data e ≡ whole_case (known_data by.now.known) by.now.params whole.entry picks.old.items number) }
    ensures picks { OnOk result (picks.new.items ≡ picks.old.items) }
{
    let place = picks.len();
    let choice = choices[place];
    let equal = made(by, Whole::Equation(choice.under, choice.index, number))?;
    let pick = element(choice.first, number)?;
    picks.push(pick)?;
    let rest = cases(by, choices, picks, whole)?;
    picks.pop();
    both(by.alloc, equal, rest)
}

// What is made where elements are picked for all its indexes.
#[cycle(making)]
fn picked(by: &Making<'_, '_>, picks: &[usize], whole: Whole<'_>) -> Result<Expr, AllocError>
    ensures { IfOk result (λ e. formula_data e ≡ whole_built (known_data by.now.known) by.now.params whole.entry picks.now) }
{
    let mut next = 0;
    match whole {
        Whole::Row(head, links) => built_row(by, picks, &mut next, head, links),
        Whole::Comparison(word, head, links, second) => {
            let first = built_row(by, picks, &mut next, head, links)?;
            let second = built(by, picks, &mut next, second)?;
            joined(by.alloc, word, first, second)
        }
        Whole::Equation(under, t, number) => {
            let e = built(by, picks, &mut next, t)?;
            equation(by.alloc, under, e, number)
        }
    }
}

// The formula of a part, in which the next elements are picked.
#[cycle(making)]
fn built(
    by: &Making<'_, '_>,
    picks: &[usize],
    next: &mut usize,
    t: &Resolved,
) -> Result<Expr, AllocError>
    ensures made { IfOk result (λ e. formula_data e ≡ built_lem (known_data by.now.known) by.now.params (resolved_data t.now) (drop next.old picks.now)) }
    ensures next { OnOk result (next.new ≡ next.old + length (choices_lem (known_data by.now.known) (resolved_data t.now) false)) }
{
    match top_of(t) {
        Top::Row(head, links) => built_row(by, picks, next, head, links),
        Top::Place(shape) => built_shape(by, picks, next, shape),
    }
}

// That of an expression with operators behind it. Of what stands before the row at their end nothing is picked.
#[cycle(making)]
fn built_row(
    by: &Making<'_, '_>,
    picks: &[usize],
    next: &mut usize,
    head: &Resolved,
    links: &[Link],
) -> Result<Expr, AllocError>
    ensures made { IfOk result (λ e. formula_data e ≡ built_lem (known_data by.now.known) by.now.params (chained (resolved_data head.now) (map link_data links.now)) (drop next.old picks.now)) }
    ensures next { OnOk result (next.new ≡ next.old + length (choices_lem (known_data by.now.known) (chained (resolved_data head.now) (map link_data links.now)) false)) }
{
    let before = before_row(links);
    let mut made = built_front(by, picks, next, head, &links[..before])?;
    let row = &links[before..];
    for link in row {
        let second = built(by, picks, next, &link.second)?;
        made = joined(by.alloc, link.word, made, second)?;
    }
    Ok(made)
}

// That of an expression with operators behind it, where the last one is none of a row.
#[cycle(making)]
fn built_front(
    by: &Making<'_, '_>,
    picks: &[usize],
    next: &mut usize,
    head: &Resolved,
    links: &[Link],
) -> Result<Expr, AllocError>
    requires last { IfSome (slice_get links.now (length links.now - 1)) (λ l. is_row_word l.word ≡ false) }
    ensures made { IfOk result (λ e. formula_data e ≡ built_lem (known_data by.now.known) by.now.params (chained (resolved_data head.now) (map link_data links.now)) (drop next.old picks.now)) }
    ensures next { OnOk result (next.new ≡ next.old + length (choices_lem (known_data by.now.known) (chained (resolved_data head.now) (map link_data links.now)) false)) }
{
    if links.is_empty() {
        return built(by, picks, next, head);
    }
    let last = &links[links.len() - 1];
    let before = &links[..links.len() - 1];
    operated(by, head, before, last)
}

// That of an expression with operators behind it and one more, which is none of a row.
#[cycle(making)]
fn operated(
    by: &Making<'_, '_>,
    head: &Resolved,
    before: &[Link],
    last: &Link,
) -> Result<Expr, AllocError>
    ensures { IfOk result (λ e. formula_data e ≡ operated_lem (known_data by.now.known) by.now.params last.now.word (chained (resolved_data head.now) (map link_data before.now)) (resolved_data last.now.second)) }
{
    if is_comparing(last.word) {
        return made(by, Whole::Comparison(last.word, head, before, &last.second));
    }
    let first = front(by, head, before)?;
    let second = formula(by, &last.second)?;
    joined(by.alloc, last.word, first, second)
}

// That of what stands at a place.
#[cycle(making)]
fn built_shape(
    by: &Making<'_, '_>,
    picks: &[usize],
    next: &mut usize,
    shape: &Shape,
) -> Result<Expr, AllocError>
    ensures made { IfOk result (λ e. formula_data e ≡ form_built (known_data by.now.known) by.now.params (form_data shape.now) (drop next.old picks.now)) }
    ensures next { OnOk result (next.new ≡ next.old + length (form_choices (known_data by.now.known) (form_data shape.now) false)) }
{
    match shape {
        Shape::Leaf(leaf) => leaf_expr(by.params, *leaf),
        Shape::Predicate(_, _) => Ok(Expr::Const(Value::Bool(true))),
        Shape::Misuse(_, _) => Ok(Expr::Const(Value::Bool(true))),
        Shape::Next(t) => Ok(Expr::Next(Box::new(by.alloc, built(by, picks, next, t)?)?)),
        Shape::Prefix(word, t) => negation(by, *word, t),
        Shape::Mod(t, _, n) => Ok(Expr::Mod(Box::new(by.alloc, built(by, picks, next, t)?)?, *n)),
        Shape::And(ts, _) => conjunction(by, ts),
        Shape::Or(ts, _) => disjunction(by, ts),
        Shape::Index(first, count, t) => built_index(by, picks, next, *first, *count, t),
        Shape::Quantified(QuantifierWord::ForAll, _, _, _, _, copies) => conjunction(by, copies),
        Shape::Quantified(QuantifierWord::Exists, _, _, _, _, copies) => disjunction(by, copies),
    }
}

// That of an element of an array.
#[cycle(making)]
fn built_index(
    by: &Making<'_, '_>,
    picks: &[usize],
    next: &mut usize,
    first: usize,
    count: usize,
    t: &Resolved,
) -> Result<Expr, AllocError>
    ensures made { IfOk result (λ e. formula_data e ≡ form_built (known_data by.now.known) by.now.params (Form.Index first count (resolved_data t.now)) (drop next.old picks.now)) }
    ensures next { OnOk result (next.new ≡ next.old + length (form_choices (known_data by.now.known) (Form.Index first count (resolved_data t.now)) false)) }
{
    match reading_at(&by.known, first, count, t)? {
        Reading::One(element) => variable(element),
        Reading::Here => here(by, first, count, t),
        Reading::Outside => {
            let place = *next;
            *next = element(place, 1)?;
            match picks.get(place) {
                Some(element) => variable(*element),
                None => variable(first),
            }
        }
    }
}

// An element that is a truth value: each case where it stands.
#[cycle(making)]
fn here(by: &Making<'_, '_>, first: usize, count: usize, t: &Resolved) -> Result<Expr, AllocError>
    ensures { IfOk result (λ e. formula_data e ≡ chosen (equation_of (known_data by.now.known) by.now.params false (resolved_data t.now)) Variable first count) }
{
    let mut all = Vec::with_capacity(by.alloc, count)?;
    for number in 0..count {
        let equal = made(by, Whole::Equation(false, t, number))?;
        let number = element(first, number)?;
        let here = variable(number)?;
        let case = both(by.alloc, equal, here)?;
        all.push(case)?;
    }
    Ok(one_of(all))
}

// The formulas of several expressions.
#[cycle(making)]
fn formulas(by: &Making<'_, '_>, ts: &[Resolved]) -> Result<Vec<Expr>, AllocError>
    ensures { IfOk result (λ es. formulas_lem (map formula_data es.items) ≡ each_formula (known_data by.now.known) by.now.params (trees (map resolved_data ts.now))) }
{
    let mut all = Vec::with_capacity(by.alloc, ts.len())?;
    for t in ts {
        all.push(formula(by, t)?)?;
    }
    Ok(all)
}

// What an expression with operators behind it says.
#[cycle(making)]
#[inline(never)]
fn chain(by: &Making<'_, '_>, head: &Resolved, links: &[Link]) -> Result<Expr, AllocError>
    ensures { IfOk result (λ e. formula_data e ≡ formula_of (known_data by.now.known) by.now.params (chained (resolved_data head.now) (map link_data links.now))) }
{
    let end = before_row(links);
    if end == 0 || end < links.len() {
        return made(by, Whole::Row(head, links));
    }
    let last = &links[links.len() - 1];
    let before = &links[..links.len() - 1];
    operated(by, head, before, last)
}

// What an expression says, alone or with operators behind it.
#[cycle(making)]
#[inline(never)]
fn front(by: &Making<'_, '_>, head: &Resolved, links: &[Link]) -> Result<Expr, AllocError>
    ensures { IfOk result (λ e. formula_data e ≡ formula_of (known_data by.now.known) by.now.params (chained (resolved_data head.now) (map link_data links.now))) }
{
    if links.is_empty() {
        formula(by, head)
    } else {
        chain(by, head, links)
    }
}

// What an operator before its operand says.
#[cycle(making)]
#[inline(never)]
fn negation(by: &Making<'_, '_>, word: PrefixWord, t: &Resolved) -> Result<Expr, AllocError>
    ensures { IfOk result (λ e. formula_data e ≡ prefix_formula word (formula_of (known_data by.now.known) by.now.params (resolved_data t.now))) }
{
    prefixed(by.alloc, word, formula(by, t)?)
}

// Several expressions that all hold.
#[cycle(making)]
#[inline(never)]
fn conjunction(by: &Making<'_, '_>, ts: &[Resolved]) -> Result<Expr, AllocError>
    ensures { IfOk result (λ e. formula_data e ≡ Conjunction (each_formula (known_data by.now.known) by.now.params (trees (map resolved_data ts.now)))) }
{
    Ok(Expr::And(formulas(by, ts)?))
}

// Several expressions of which one holds.
#[cycle(making)]
#[inline(never)]
fn disjunction(by: &Making<'_, '_>, ts: &[Resolved]) -> Result<Expr, AllocError>
    ensures { IfOk result (λ e. formula_data e ≡ Disjunction (each_formula (known_data by.now.known) by.now.params (trees (map resolved_data ts.now)))) }
{
    Ok(Expr::Or(formulas(by, ts)?))
}

/// The formula of an expression in which everything is put in, of a line where there are no parameters, or of a pattern's line
/// with so many. It is made as large as `size_of` says. The error is that memory is short, or that the number of a variable is
/// past 32 bits, which no text has.
#[cycle(making)]
pub fn formula(by: &Making<'_, '_>, t: &Resolved) -> Result<Expr, AllocError>
    ensures { IfOk result (λ e. formula_data e ≡ formula_of (known_data by.now.known) by.now.params (resolved_data t.now)) }
{
    match t {
        Resolved::Node(_, _, Shape::Prefix(word, t)) => negation(by, *word, t),
        Resolved::Node(_, _, Shape::And(ts, _)) => conjunction(by, ts),
        Resolved::Node(_, _, Shape::Or(ts, _)) => disjunction(by, ts),
        Resolved::Chain(head, links) => chain(by, head, links),
        _ => made(by, Whole::Row(t, &[])),
    }
}
