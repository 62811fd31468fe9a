//! Comparisons, conjunctions, disjunctions and whole expressions: one function for each production.

ghost use Rattle.std.specs.Prelude.{◌<◌};
ghost use Rattle.spectra_trees.specs.Views.{expr_data, lexemes_of};
ghost use Rattle.spectra_exprs.specs.Read.{Gives, starts as starts_lem, all_of};
ghost use Rattle.spectra_exprs.specs.OperatorReaders.{starts_or as starts_or_lem};
ghost use Rattle.spectra_exprs.specs.ExprViews.{term_data, chain_data};
ghost use Rattle.spectra_exprs.specs.Expressions.{inside, side_of, compared_of, comparison_of, cmp_of, conjunct_of, conjunction_of, conj_of, disjunct_of, disjunction_of, disj_of, arrow_of, past_of, alone_of, unquantified_of, expr_of, whole_of};

use crate::operands::{prefixed, prim};
use crate::operators::{
    Level, Read, Tokens, begun, closed, expect, expect_or, starts, starts_or, take_operator,
    take_prefix,
};
use crate::quantifiers::{exists, for_all};
use crate::sums::sum;
use crate::terms::{Chain, Term, between, joined, pair, together, tree};
use spectra_trees::class::Class;
use spectra_trees::tree::{BinaryWord, ExprForm, ExprTree, Place};
use std::alloc::Global;

/// sum | prefixed
#[cycle(expr)]
#[tactic(auto, unfolding(crate::specs::Expressions::side_of))]
pub fn side<'t>(alloc: Global, tokens: Tokens<'t>, left: u32) -> Read<'t, Box<ExprTree>>
    ensures read { Gives (λ x. (expr_data x.0.value, lexemes_of x.1.now)) result (side_of (inside left) (lexemes_of tokens.now)) }
{
    if let Some((token, word, rest)) = take_prefix(tokens) {
        return prefixed(alloc, token, word, rest, left);
    }
    let (sum, rest) = sum(alloc, tokens, left)?;
    Ok((sum.tree, rest))
}

/// ( sum | prefixed ) behind a sum and a comparison.
#[cycle(expr)]
#[tactic(auto, unfolding(crate::specs::Expressions::compared_of))]
pub fn compared<'t>(
    alloc: Global,
    first: Box<ExprTree>,
    at: Place,
    word: BinaryWord,
    tokens: Tokens<'t>,
    left: u32,
) -> Read<'t, Term>
    ensures read { Gives (λ x. (term_data x.0, lexemes_of x.1.now)) result (compared_of (inside left) (expr_data first.value) at word (lexemes_of tokens.now)) }
{
    let (second, rest) = side(alloc, tokens, left)?;
    let tree = between(alloc, at, word, first, second)?;
    Ok((together(tree), rest))
}

/// sum [ ( "=" | "!=" | "<" | "<=" | ">" | ">=" ) ( sum | prefixed ) ]
#[cycle(expr)]
#[tactic(auto, unfolding(crate::specs::Expressions::comparison_of))]
pub fn comparison<'t>(alloc: Global, tokens: Tokens<'t>, left: u32) -> Read<'t, Term>
    ensures read { Gives (λ x. (term_data x.0, lexemes_of x.1.now)) result (comparison_of (inside left) (lexemes_of tokens.now)) }
{
    let (first, rest) = sum(alloc, tokens, left)?;
    match take_operator(rest, Level::Relation) {
        Some((at, word, after)) => compared(alloc, first.tree, at, word, after, left),
        None => Ok((first, rest)),
    }
}

/// cmp = prefixed | sum [ ( "=" | "!=" | "<" | "<=" | ">" | ">=" ) ( sum | prefixed ) ]
#[cycle(expr)]
#[tactic(auto, unfolding(crate::specs::Expressions::cmp_of))]
pub fn cmp<'t>(alloc: Global, tokens: Tokens<'t>, left: u32) -> Read<'t, Term>
    ensures read { Gives (λ x. (term_data x.0, lexemes_of x.1.now)) result (cmp_of (inside left) (lexemes_of tokens.now)) }
{
    let Some((token, word, rest)) = take_prefix(tokens) else {
        return comparison(alloc, tokens, left);
    };
    let (tree, rest) = prefixed(alloc, token, word, rest, left)?;
    Ok((together(tree), rest))
}

/// ( "&" | "and" ) cmp behind a chain so far.
#[cycle(expr)]
#[tactic(auto, unfolding(crate::specs::Expressions::conjunct_of))]
pub fn conjunct<'t>(alloc: Global, chain: Chain, tokens: Tokens<'t>, left: u32) -> Read<'t, Chain>
    ensures read { Gives (λ x. (chain_data x.0, lexemes_of x.1.now)) result (conjunct_of (inside left) (chain_data chain) (lexemes_of tokens.now)) }
{
    let (operator, rest) = expect(tokens, Class::And)?;
    let (operand, rest) = cmp(alloc, rest, left)?;
    let chain = joined(chain, operator.at, operand.tree)?;
    Ok((chain, rest))
}

/// { ( "&" | "and" ) cmp } behind a first operand.
#[cycle(expr)]
pub fn conjuncts<'t>(alloc: Global, first: Chain, tokens: Tokens<'t>, left: u32) -> Read<'t, Chain>
    ensures read { Gives (λ x. (chain_data x.0, lexemes_of x.1.now)) result (all_of (starts_lem Class.And) (conjunct_of (inside left)) (chain_data first) (lexemes_of tokens.now)) }
{
    let (mut chain, mut rest) = begun(first, tokens);
    while starts(rest, Class::And) {
        let (next, behind) = conjunct(alloc, chain, rest, left)?;
        chain = next;
        rest = behind;
    }
    Ok((chain, rest))
}

/// { ( "&" | "and" ) cmp } behind a first operand, once at least.
#[cycle(expr)]
#[tactic(auto, unfolding(crate::specs::Expressions::conjunction_of))]
pub fn conjunction<'t>(
    alloc: Global,
    first: Box<ExprTree>,
    tokens: Tokens<'t>,
    left: u32,
) -> Read<'t, Term>
    ensures read { Gives (λ x. (term_data x.0, lexemes_of x.1.now)) result (conjunction_of (inside left) (expr_data first.value) (lexemes_of tokens.now)) }
{
    let (operator, rest) = expect(tokens, Class::And)?;
    let (second, rest) = cmp(alloc, rest, left)?;
    let (place, at) = (first.first, operator.at);
    let chain = pair(alloc, first, at, second.tree)?;
    let (chain, rest) = conjuncts(alloc, chain, rest, left)?;
    let conjunction = tree(place, at, ExprForm::And(chain.operands, chain.operators));
    Ok((together(Box::new(alloc, conjunction)?), rest))
}

/// ( "|" | "or" ) conj behind a chain so far.
#[cycle(expr)]
#[tactic(auto, unfolding(crate::specs::Expressions::disjunct_of))]
pub fn disjunct<'t>(alloc: Global, chain: Chain, tokens: Tokens<'t>, left: u32) -> Read<'t, Chain>
    ensures read { Gives (λ x. (chain_data x.0, lexemes_of x.1.now)) result (disjunct_of (inside left) (chain_data chain) (lexemes_of tokens.now)) }
{
    let (operator, rest) = expect_or(tokens)?;
    let (operand, rest) = conj(alloc, rest, left)?;
    let chain = joined(chain, operator.at, operand.tree)?;
    Ok((chain, rest))
}

/// { ( "|" | "or" ) conj } behind a first operand.
#[cycle(expr)]
pub fn disjuncts<'t>(alloc: Global, first: Chain, tokens: Tokens<'t>, left: u32) -> Read<'t, Chain>
    ensures read { Gives (λ x. (chain_data x.0, lexemes_of x.1.now)) result (all_of starts_or_lem (disjunct_of (inside left)) (chain_data first) (lexemes_of tokens.now)) }
{
    let (mut chain, mut rest) = begun(first, tokens);
    while starts_or(rest) {
        let (next, behind) = disjunct(alloc, chain, rest, left)?;
        chain = next;
        rest = behind;
    }
    Ok((chain, rest))
}

/// { ( "|" | "or" ) conj } behind a first operand, once at least.
#[cycle(expr)]
#[tactic(auto, unfolding(crate::specs::Expressions::disjunction_of))]
pub fn disjunction<'t>(
    alloc: Global,
    first: Box<ExprTree>,
    tokens: Tokens<'t>,
    left: u32,
) -> Read<'t, Term>
    ensures read { Gives (λ x. (term_data x.0, lexemes_of x.1.now)) result (disjunction_of (inside left) (expr_data first.value) (lexemes_of tokens.now)) }
{
    let (operator, rest) = expect_or(tokens)?;
    let (second, rest) = conj(alloc, rest, left)?;
    let (place, at) = (first.first, operator.at);
    let chain = pair(alloc, first, at, second.tree)?;
    let (chain, rest) = disjuncts(alloc, chain, rest, left)?;
    let disjunction = tree(place, at, ExprForm::Or(chain.operands, chain.operators));
    Ok((together(Box::new(alloc, disjunction)?), rest))
}

/// conj = cmp { ( "&" | "and" ) cmp }
#[cycle(expr)]
#[tactic(auto, unfolding(crate::specs::Expressions::conj_of))]
pub fn conj<'t>(alloc: Global, tokens: Tokens<'t>, left: u32) -> Read<'t, Term>
    ensures read { Gives (λ x. (term_data x.0, lexemes_of x.1.now)) result (conj_of (inside left) (lexemes_of tokens.now)) }
{
    let (first, rest) = cmp(alloc, tokens, left)?;
    if starts(rest, Class::And) {
        return conjunction(alloc, first.tree, rest, left);
    }
    Ok((first, rest))
}

/// disj = conj { ( "|" | "or" ) conj }
#[cycle(expr)]
#[tactic(auto, unfolding(crate::specs::Expressions::disj_of))]
pub fn disj<'t>(alloc: Global, tokens: Tokens<'t>, left: u32) -> Read<'t, Term>
    ensures read { Gives (λ x. (term_data x.0, lexemes_of x.1.now)) result (disj_of (inside left) (lexemes_of tokens.now)) }
{
    let (first, rest) = conj(alloc, tokens, left)?;
    if starts_or(rest) {
        return disjunction(alloc, first.tree, rest, left);
    }
    Ok((first, rest))
}

/// disj behind a first one and the operator between them.
#[cycle(expr)]
#[tactic(auto, unfolding(crate::specs::Expressions::arrow_of))]
pub fn arrow<'t>(
    alloc: Global,
    first: Box<ExprTree>,
    at: Place,
    word: BinaryWord,
    tokens: Tokens<'t>,
    left: u32,
) -> Read<'t, Box<ExprTree>>
    ensures read { Gives (λ x. (expr_data x.0.value, lexemes_of x.1.now)) result (arrow_of (inside left) (expr_data first.value) at word (lexemes_of tokens.now)) }
{
    let (second, rest) = disj(alloc, tokens, left)?;
    let tree = between(alloc, at, word, first, second.tree)?;
    Ok((tree, rest))
}

/// [ ( "SINCE" | "S" | "TRIGGERED" | "T" ) prim ] behind a prim.
#[cycle(expr)]
#[tactic(auto, unfolding(crate::specs::Expressions::past_of))]
pub fn past<'t>(
    alloc: Global,
    first: Box<ExprTree>,
    tokens: Tokens<'t>,
    left: u32,
) -> Read<'t, Box<ExprTree>>
    ensures read { Gives (λ x. (expr_data x.0.value, lexemes_of x.1.now)) result (past_of (inside left) (expr_data first.value) (lexemes_of tokens.now)) }
{
    let Some((at, word, rest)) = take_operator(tokens, Level::Past) else {
        return Ok((first, tokens));
    };
    let (second, rest) = prim(alloc, rest, left)?;
    let tree = between(alloc, at, word, first, second)?;
    Ok((tree, rest))
}

/// What may follow a disj before which no arrow stands.
#[cycle(expr)]
#[tactic(auto, unfolding(crate::specs::Expressions::alone_of))]
pub fn alone<'t>(
    alloc: Global,
    first: Term,
    tokens: Tokens<'t>,
    left: u32,
) -> Read<'t, Box<ExprTree>>
    ensures read { Gives (λ x. (expr_data x.0.value, lexemes_of x.1.now)) result (alone_of (inside left) (expr_data first.tree.value) first.alone (lexemes_of tokens.now)) }
{
    if first.alone {
        return past(alloc, first.tree, tokens, left);
    }
    Ok((first.tree, tokens))
}

/// disj [ ( "->" | "implies" | "<->" | "iff" ) disj ]
/// | prim ( "SINCE" | "S" | "TRIGGERED" | "T" ) prim
#[cycle(expr)]
#[tactic(auto, unfolding(crate::specs::Expressions::unquantified_of))]
pub fn unquantified<'t>(alloc: Global, tokens: Tokens<'t>, left: u32) -> Read<'t, Box<ExprTree>>
    ensures read { Gives (λ x. (expr_data x.0.value, lexemes_of x.1.now)) result (unquantified_of (inside left) (lexemes_of tokens.now)) }
{
    let (first, rest) = disj(alloc, tokens, left)?;
    match take_operator(rest, Level::Arrow) {
        Some((at, word, after)) => arrow(alloc, first.tree, at, word, after, left),
        None => alone(alloc, first, rest, left),
    }
}

/// expr = disj [ ( "->" | "implies" | "<->" | "iff" ) disj ]
/// | prim ( "SINCE" | "S" | "TRIGGERED" | "T" ) prim
/// | ( "forall" | "exists" ) NAME "in" sum ".." sum ":" expr
#[cycle(expr)]
#[tactic(auto, unfolding(crate::specs::Expressions::expr_of))]
pub fn expr<'t>(alloc: Global, tokens: Tokens<'t>, left: u32) -> Read<'t, Box<ExprTree>>
    ensures read { Gives (λ x. (expr_data x.0.value, lexemes_of x.1.now)) result (expr_of (inside left) (lexemes_of tokens.now)) }
{
    if starts(tokens, Class::ForAll) {
        return for_all(alloc, tokens, left);
    }
    if starts(tokens, Class::Exists) {
        return exists(alloc, tokens, left);
    }
    unquantified(alloc, tokens, left)
}

/// expr, which no operator may follow.
#[cycle(expr)]
#[tactic(auto, unfolding(crate::specs::Expressions::whole_of))]
pub fn formula<'t>(alloc: Global, tokens: Tokens<'t>, left: u32) -> Read<'t, Box<ExprTree>>
    ensures read { Gives (λ x. (expr_data x.0.value, lexemes_of x.1.now)) result (whole_of (inside left) (lexemes_of tokens.now)) }
{
    let (tree, rest) = expr(alloc, tokens, left)?;
    closed(tree, rest)
}

/// The same, out of its box.
pub fn whole<'t>(alloc: Global, tokens: Tokens<'t>, left: u32) -> Read<'t, ExprTree>
    ensures read { Gives (λ x. (expr_data x.0, lexemes_of x.1.now)) result (whole_of (inside left) (lexemes_of tokens.now)) }
{
    let (tree, rest) = formula(alloc, tokens, left)?;
    Ok((Box::into_inner(tree), rest))
}
