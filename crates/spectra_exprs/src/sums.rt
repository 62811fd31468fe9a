//! Products, sums and bounds: one function for each production.

ghost use Rattle.std.specs.Prelude.{◌<◌};
ghost use Rattle.spectra_trees.specs.Views.{expr_data, lexemes_of};
ghost use Rattle.spectra_exprs.specs.Read.{Gives, starts as starts_lem, all_of};
ghost use Rattle.spectra_exprs.specs.OperatorReaders.{starts_sum as starts_sum_lem};
ghost use Rattle.spectra_exprs.specs.ExprViews.{term_data};
ghost use Rattle.spectra_exprs.specs.Expressions.{inside, times_of, prod_of, plus_of, sum_of, bound_of};

use crate::fault::SyntaxFault;
use crate::operands::prim;
use crate::operators::{
    Level, Read, Tokens, begun, closed, expect, first_number, starts, starts_sum, take_operator,
};
use crate::terms::{Term, between, modulo, sole, together};
use spectra_trees::class::Class;
use spectra_trees::tree::{BinaryWord, ExprTree};
use std::alloc::Global;

/// "*" prim behind a product so far.
#[cycle(expr)]
#[tactic(auto, unfolding(crate::specs::Expressions::times_of))]
pub fn times<'t>(alloc: Global, product: Term, tokens: Tokens<'t>, left: u32) -> Read<'t, Term>
    ensures read { Gives (λ x. (term_data x.0, lexemes_of x.1.now)) result (times_of (inside left) (term_data product) (lexemes_of tokens.now)) }
{
    let (operator, rest) = expect(tokens, Class::Star)?;
    let (factor, rest) = prim(alloc, rest, left)?;
    let product = between(alloc, operator.at, BinaryWord::Mul, product.tree, factor)?;
    Ok((together(product), rest))
}

/// { "*" prim } behind a first prim.
#[cycle(expr)]
pub fn products<'t>(alloc: Global, first: Term, tokens: Tokens<'t>, left: u32) -> Read<'t, Term>
    ensures read { Gives (λ x. (term_data x.0, lexemes_of x.1.now)) result (all_of (starts_lem Class.Star) (times_of (inside left)) (term_data first) (lexemes_of tokens.now)) }
{
    let (mut product, mut rest) = begun(first, tokens);
    while starts(rest, Class::Star) {
        let (next, behind) = times(alloc, product, rest, left)?;
        product = next;
        rest = behind;
    }
    Ok((product, rest))
}

/// prod = prim { "*" prim }
#[cycle(expr)]
#[tactic(auto, unfolding(crate::specs::Expressions::prod_of))]
pub fn prod<'t>(alloc: Global, tokens: Tokens<'t>, left: u32) -> Read<'t, Term>
    ensures read { Gives (λ x. (term_data x.0, lexemes_of x.1.now)) result (prod_of (inside left) (lexemes_of tokens.now)) }
{
    let (first, rest) = prim(alloc, tokens, left)?;
    products(alloc, sole(first), rest, left)
}

/// ( "+" | "-" ) prod behind a sum so far.
#[cycle(expr)]
#[tactic(auto, unfolding(crate::specs::Expressions::plus_of, crate::specs::Read::unexpected))]
pub fn plus<'t>(alloc: Global, sum: Term, tokens: Tokens<'t>, left: u32) -> Read<'t, Term>
    ensures read { Gives (λ x. (term_data x.0, lexemes_of x.1.now)) result (plus_of (inside left) (term_data sum) (lexemes_of tokens.now)) }
{
    let Some((at, word, rest)) = take_operator(tokens, Level::Sum) else {
        return Err(SyntaxFault::Unexpected(first_number(tokens)));
    };
    let (summand, rest) = prod(alloc, rest, left)?;
    let sum = between(alloc, at, word, sum.tree, summand.tree)?;
    Ok((together(sum), rest))
}

/// { ( "+" | "-" ) prod } behind a first prod.
#[cycle(expr)]
pub fn sums<'t>(alloc: Global, first: Term, tokens: Tokens<'t>, left: u32) -> Read<'t, Term>
    ensures read { Gives (λ x. (term_data x.0, lexemes_of x.1.now)) result (all_of starts_sum_lem (plus_of (inside left)) (term_data first) (lexemes_of tokens.now)) }
{
    let (mut sum, mut rest) = begun(first, tokens);
    while starts_sum(rest) {
        let (next, behind) = plus(alloc, sum, rest, left)?;
        sum = next;
        rest = behind;
    }
    Ok((sum, rest))
}

/// sum = prod { ( "+" | "-" ) prod } | prim "mod" NUMBER
#[cycle(expr)]
#[tactic(auto, unfolding(crate::specs::Expressions::sum_of))]
pub fn sum<'t>(alloc: Global, tokens: Tokens<'t>, left: u32) -> Read<'t, Term>
    ensures read { Gives (λ x. (term_data x.0, lexemes_of x.1.now)) result (sum_of (inside left) (lexemes_of tokens.now)) }
{
    let (first, rest) = prod(alloc, tokens, left)?;
    if first.alone && starts(rest, Class::Mod) {
        return modulo(alloc, first.tree, rest);
    }
    sums(alloc, first, rest, left)
}

/// sum, which no operator may follow.
#[cycle(expr)]
#[tactic(auto, unfolding(crate::specs::Expressions::bound_of))]
pub fn limit<'t>(alloc: Global, tokens: Tokens<'t>, left: u32) -> Read<'t, Box<ExprTree>>
    ensures read { Gives (λ x. (expr_data x.0.value, lexemes_of x.1.now)) result (bound_of (inside left) (lexemes_of tokens.now)) }
{
    let (operand, rest) = sum(alloc, tokens, left)?;
    closed(operand.tree, rest)
}

/// The same, out of its box.
pub fn bound<'t>(alloc: Global, tokens: Tokens<'t>, left: u32) -> Read<'t, ExprTree>
    ensures read { Gives (λ x. (expr_data x.0, lexemes_of x.1.now)) result (bound_of (inside left) (lexemes_of tokens.now)) }
{
    let (tree, rest) = limit(alloc, tokens, left)?;
    Ok((Box::into_inner(tree), rest))
}
