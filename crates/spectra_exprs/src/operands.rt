//! Operands and arguments: one function for each production. `left` says how many levels may still be opened.
//!
//! Each function answers the tree and the tokens behind it, or the fault at the first token that goes on no text.

ghost use Rattle.std.specs.Prelude.{◌<◌, map};
ghost use Rattle.spectra_trees.specs.Views.{expr_data, lexeme_of, lexemes_of};
ghost use Rattle.spectra_exprs.specs.Read.{Gives, starts as starts_lem, all_of};
ghost use Rattle.spectra_exprs.specs.ExprViews.{scope_data};
ghost use Rattle.spectra_exprs.specs.Expressions.{read_of, inside, index_of, next_of, parentheses_of, call_of, named_of, prim_of, prefixed_of, operand_of, argument_of, some_arguments_of, arguments_of};

use crate::fault::SyntaxFault;
use crate::formulas::formula;
use crate::operators::{Read, Tokens, begun, expect, starts, take_prefix};
use crate::quantifiers::{scope, subscript};
use crate::terms::{Scope, leaf, literal, opened, read};
use spectra_trees::class::Class;
use spectra_trees::lexeme::{Spelled, is, name};
use spectra_trees::tree::{ExprForm, ExprTree, PrefixWord};
use std::alloc::Global;

/// An expression that a token opens a level for.
#[cycle(expr)]
pub fn deeper_whole<'t>(
    alloc: Global,
    token: &Spelled<'t>,
    tokens: Tokens<'t>,
    left: u32,
) -> Read<'t, Box<ExprTree>>
    ensures read { Gives (λ x. (expr_data x.0.value, lexemes_of x.1.now)) result ((inside left).whole (lexeme_of token.now) (lexemes_of tokens.now)) }
{
    if left == 0 {
        return Err(SyntaxFault::TooDeep(token.number));
    }
    formula(alloc, tokens, left - 1)
}

/// An operand that a prefix opens a level for.
#[cycle(expr)]
pub fn deeper_operand<'t>(
    alloc: Global,
    token: &Spelled<'t>,
    tokens: Tokens<'t>,
    left: u32,
) -> Read<'t, Box<ExprTree>>
    ensures read { Gives (λ x. (expr_data x.0.value, lexemes_of x.1.now)) result ((inside left).operand (lexeme_of token.now) (lexemes_of tokens.now)) }
{
    if left == 0 {
        return Err(SyntaxFault::TooDeep(token.number));
    }
    operand(alloc, tokens, left - 1)
}

/// Arguments that a parenthesis opens a level for.
#[cycle(expr)]
pub fn deeper_arguments<'t>(
    alloc: Global,
    token: &Spelled<'t>,
    tokens: Tokens<'t>,
    left: u32,
) -> Read<'t, Vec<ExprTree>>
    ensures read { Gives (λ x. (map expr_data x.0.items, lexemes_of x.1.now)) result ((inside left).arguments (lexeme_of token.now) (lexemes_of tokens.now)) }
{
    if left == 0 {
        return Err(SyntaxFault::TooDeep(token.number));
    }
    arguments(alloc, tokens, left - 1)
}

/// What stands in an index, that its bracket opens a level for.
#[cycle(expr)]
pub fn deeper_subscript<'t>(
    alloc: Global,
    token: &Spelled<'t>,
    tokens: Tokens<'t>,
    left: u32,
) -> Read<'t, Box<ExprTree>>
    ensures read { Gives (λ x. (expr_data x.0.value, lexemes_of x.1.now)) result ((inside left).subscript (lexeme_of token.now) (lexemes_of tokens.now)) }
{
    if left == 0 {
        return Err(SyntaxFault::TooDeep(token.number));
    }
    subscript(alloc, tokens, left - 1)
}

/// What follows a quantifier's word, that the word opens a level for.
#[cycle(expr)]
pub fn deeper_scope<'t>(
    alloc: Global,
    token: &Spelled<'t>,
    tokens: Tokens<'t>,
    left: u32,
) -> Read<'t, Scope>
    ensures read { Gives (λ x. (scope_data x.0, lexemes_of x.1.now)) result ((inside left).scope (lexeme_of token.now) (lexemes_of tokens.now)) }
{
    if left == 0 {
        return Err(SyntaxFault::TooDeep(token.number));
    }
    scope(alloc, tokens, left - 1)
}

/// "(" expr ")" behind the word `next`.
#[cycle(expr)]
#[tactic(auto, unfolding(crate::specs::Expressions::next_of))]
pub fn next<'t>(
    alloc: Global,
    token: &Spelled<'t>,
    tokens: Tokens<'t>,
    left: u32,
) -> Read<'t, Box<ExprTree>>
    ensures read { Gives (λ x. (expr_data x.0.value, lexemes_of x.1.now)) result (next_of (inside left) (lexeme_of token.now) (lexemes_of tokens.now)) }
{
    let (open, inner) = expect(tokens, Class::Open)?;
    let (operand, rest) = deeper_whole(alloc, open, inner, left)?;
    let (_, rest) = expect(rest, Class::Close)?;
    let next = leaf(token, ExprForm::Next(operand));
    Ok((Box::new(alloc, next)?, rest))
}

/// expr ")" behind "(".
#[cycle(expr)]
#[tactic(auto, unfolding(crate::specs::Expressions::parentheses_of))]
pub fn parentheses<'t>(
    alloc: Global,
    token: &Spelled<'t>,
    tokens: Tokens<'t>,
    left: u32,
) -> Read<'t, Box<ExprTree>>
    ensures read { Gives (λ x. (expr_data x.0.value, lexemes_of x.1.now)) result (parentheses_of (inside left) (lexeme_of token.now) (lexemes_of tokens.now)) }
{
    let (inner, rest) = deeper_whole(alloc, token, tokens, left)?;
    let (_, rest) = expect(rest, Class::Close)?;
    Ok((opened(token, inner), rest))
}

/// "(" [ expr { "," expr } ] ")" behind a name.
#[cycle(expr)]
#[tactic(auto, unfolding(crate::specs::Expressions::call_of))]
pub fn call<'t>(
    alloc: Global,
    token: &Spelled<'t>,
    opening: &Spelled<'t>,
    tokens: Tokens<'t>,
    left: u32,
) -> Read<'t, Box<ExprTree>>
    ensures read { Gives (λ x. (expr_data x.0.value, lexemes_of x.1.now)) result (call_of (inside left) (lexeme_of token.now) (lexeme_of opening.now) (lexemes_of tokens.now)) }
{
    let (arguments, rest) = deeper_arguments(alloc, opening, tokens, left)?;
    let name = name(alloc, token)?;
    let call = leaf(token, ExprForm::Call(name, arguments));
    Ok((Box::new(alloc, call)?, rest))
}

/// "[" sum "]" behind a name.
#[cycle(expr)]
#[tactic(auto, unfolding(crate::specs::Expressions::index_of))]
pub fn index<'t>(
    alloc: Global,
    token: &Spelled<'t>,
    opening: &Spelled<'t>,
    tokens: Tokens<'t>,
    left: u32,
) -> Read<'t, Box<ExprTree>>
    ensures read { Gives (λ x. (expr_data x.0.value, lexemes_of x.1.now)) result (index_of (inside left) (lexeme_of token.now) (lexeme_of opening.now) (lexemes_of tokens.now)) }
{
    let (inner, rest) = deeper_subscript(alloc, opening, tokens, left)?;
    let name = name(alloc, token)?;
    let index = leaf(token, ExprForm::Index(name, inner));
    Ok((Box::new(alloc, index)?, rest))
}

/// [ "(" [ expr { "," expr } ] ")" | "[" sum "]" ] behind NAME.
#[cycle(expr)]
#[tactic(auto, unfolding(crate::specs::Expressions::named_of, crate::specs::Expressions::read_of))]
pub fn named<'t>(
    alloc: Global,
    token: &Spelled<'t>,
    tokens: Tokens<'t>,
    left: u32,
) -> Read<'t, Box<ExprTree>>
    ensures read { Gives (λ x. (expr_data x.0.value, lexemes_of x.1.now)) result (named_of (inside left) (lexeme_of token.now) (lexemes_of tokens.now)) }
{
    match tokens.split_first() {
        Some((open, rest)) if is(open, Class::Open) => call(alloc, token, open, rest, left),
        Some((open, rest)) if is(open, Class::OpenBracket) => index(alloc, token, open, rest, left),
        _ => read(alloc, token, tokens),
    }
}

/// prim = "true" | "false" | [ "-" ] NUMBER | NAME | NAME "(" [ expr { "," expr } ] ")"
/// | NAME "[" sum "]" | "next" "(" expr ")" | "(" expr ")"
#[cycle(expr)]
#[tactic(auto, unfolding(crate::specs::Expressions::prim_of))]
pub fn prim<'t>(alloc: Global, tokens: Tokens<'t>, left: u32) -> Read<'t, Box<ExprTree>>
    ensures read { Gives (λ x. (expr_data x.0.value, lexemes_of x.1.now)) result (prim_of (inside left) (lexemes_of tokens.now)) }
{
    let Some((token, rest)) = tokens.split_first() else {
        return Err(SyntaxFault::Unexpected(0));
    };
    if is(token, Class::Name) {
        return named(alloc, token, rest, left);
    }
    if is(token, Class::Next) {
        return next(alloc, token, rest, left);
    }
    if is(token, Class::Open) {
        return parentheses(alloc, token, rest, left);
    }
    literal(alloc, tokens)
}

/// prefixed = PREFIX { PREFIX } prim, behind the first PREFIX.
#[cycle(expr)]
#[tactic(auto, unfolding(crate::specs::Expressions::prefixed_of))]
pub fn prefixed<'t>(
    alloc: Global,
    token: &Spelled<'t>,
    word: PrefixWord,
    tokens: Tokens<'t>,
    left: u32,
) -> Read<'t, Box<ExprTree>>
    ensures read { Gives (λ x. (expr_data x.0.value, lexemes_of x.1.now)) result (prefixed_of (inside left) (lexeme_of token.now) word (lexemes_of tokens.now)) }
{
    let (operand, rest) = deeper_operand(alloc, token, tokens, left)?;
    let prefixed = leaf(token, ExprForm::Prefix(word, operand));
    Ok((Box::new(alloc, prefixed)?, rest))
}

/// prefixed | prim
#[cycle(expr)]
#[tactic(auto, unfolding(crate::specs::Expressions::operand_of))]
pub fn operand<'t>(alloc: Global, tokens: Tokens<'t>, left: u32) -> Read<'t, Box<ExprTree>>
    ensures read { Gives (λ x. (expr_data x.0.value, lexemes_of x.1.now)) result (operand_of (inside left) (lexemes_of tokens.now)) }
{
    match take_prefix(tokens) {
        Some((token, word, rest)) => prefixed(alloc, token, word, rest, left),
        None => prim(alloc, tokens, left),
    }
}

/// "," expr behind the arguments so far.
#[cycle(expr)]
#[tactic(auto, unfolding(crate::specs::Expressions::argument_of))]
pub fn argument<'t>(
    alloc: Global,
    arguments: Vec<ExprTree>,
    tokens: Tokens<'t>,
    left: u32,
) -> Read<'t, Vec<ExprTree>>
    ensures read { Gives (λ x. (map expr_data x.0.items, lexemes_of x.1.now)) result (argument_of (inside left) (map expr_data arguments.items) (lexemes_of tokens.now)) }
{
    let (_, rest) = expect(tokens, Class::Comma)?;
    let (next, rest) = formula(alloc, rest, left)?;
    let mut arguments = arguments;
    arguments.push(Box::into_inner(next))?;
    Ok((arguments, rest))
}

/// { "," expr } behind a first argument.
#[cycle(expr)]
pub fn more_arguments<'t>(
    alloc: Global,
    first: Vec<ExprTree>,
    tokens: Tokens<'t>,
    left: u32,
) -> Read<'t, Vec<ExprTree>>
    ensures read { Gives (λ x. (map expr_data x.0.items, lexemes_of x.1.now)) result (all_of (starts_lem Class.Comma) (argument_of (inside left)) (map expr_data first.items) (lexemes_of tokens.now)) }
{
    let (mut arguments, mut rest) = begun(first, tokens);
    while starts(rest, Class::Comma) {
        let (next, behind) = argument(alloc, arguments, rest, left)?;
        arguments = next;
        rest = behind;
    }
    Ok((arguments, rest))
}

/// expr { "," expr } ")"
#[cycle(expr)]
#[tactic(auto, unfolding(crate::specs::Expressions::some_arguments_of))]
pub fn some_arguments<'t>(alloc: Global, tokens: Tokens<'t>, left: u32) -> Read<'t, Vec<ExprTree>>
    ensures read { Gives (λ x. (map expr_data x.0.items, lexemes_of x.1.now)) result (some_arguments_of (inside left) (lexemes_of tokens.now)) }
{
    let (first, rest) = formula(alloc, tokens, left)?;
    let mut arguments = Vec::new(alloc);
    arguments.push(Box::into_inner(first))?;
    let (arguments, rest) = more_arguments(alloc, arguments, rest, left)?;
    let (_, rest) = expect(rest, Class::Close)?;
    Ok((arguments, rest))
}

/// [ expr { "," expr } ] ")"
#[cycle(expr)]
#[tactic(auto, unfolding(crate::specs::Expressions::arguments_of))]
pub fn arguments<'t>(alloc: Global, tokens: Tokens<'t>, left: u32) -> Read<'t, Vec<ExprTree>>
    ensures read { Gives (λ x. (map expr_data x.0.items, lexemes_of x.1.now)) result (arguments_of (inside left) (lexemes_of tokens.now)) }
{
    if !starts(tokens, Class::Close) {
        return some_arguments(alloc, tokens, left);
    }
    let (_, rest) = expect(tokens, Class::Close)?;
    Ok((Vec::new(alloc), rest))
}
