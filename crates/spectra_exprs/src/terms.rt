//! The trees of single tokens, and what is read so far of a sum or a chain.

ghost use Rattle.std.specs.Prelude.{◌≡◌, ◌<◌, ◌++◌, ◌∷◌, [], false, true, map, IfOk, IfErr};
ghost use Rattle.spectra_trees.specs.Data.{expression};
ghost use Rattle.spectra_trees.specs.Views.{expr_data, form_data, lexeme_of, lexemes_of};
ghost use Rattle.spectra_exprs.specs.Read.{Gives};
ghost use Rattle.spectra_exprs.specs.ExprViews.{term_data, chain_data};
ghost use Rattle.spectra_exprs.specs.Expressions.{leaf as leaf_lem, between as between_lem, opened as opened_lem, negative as negative_lem, number_of, literal as literal_lem, modulo as modulo_lem, read_of};

use crate::fault::SyntaxFault;
use crate::operators::{Read, Tokens, expect};
use spectra_trees::class::Class;
use spectra_trees::lexeme::{Spelled, is, name};
use spectra_trees::tree::{BinaryWord, ExprForm, ExprTree, Name, Place};
use std::alloc::Global;

/// A tree by its parts.
pub fn tree(first: Place, at: Place, form: ExprForm) -> ExprTree
    ensures { expr_data result ≡ expression first at (form_data form) }
{
    ExprTree { first, at, form }
}

/// A tree of one token.
pub fn leaf(token: &Spelled<'_>, form: ExprForm) -> ExprTree
    ensures { expr_data result ≡ leaf_lem (lexeme_of token.now) (form_data form) }
{
    tree(token.at, token.at, form)
}

/// An operator at a place between its operands.
pub fn between(
    alloc: Global,
    at: Place,
    word: BinaryWord,
    one: Box<ExprTree>,
    other: Box<ExprTree>,
) -> Result<Box<ExprTree>, SyntaxFault>
    ensures read { IfOk result (λ e. expr_data e.value ≡ between_lem at word (expr_data one.value) (expr_data other.value)) }
    ensures memory { IfErr result (λ e. e ≡ SyntaxFault.Memory) }
{
    let first = one.first;
    let form = ExprForm::Binary(word, one, other);
    Ok(Box::new(alloc, tree(first, at, form))?)
}

/// The same as the tree that begins with the parenthesis.
pub fn opened(token: &Spelled<'_>, tree: Box<ExprTree>) -> Box<ExprTree>
    ensures { expr_data result.value ≡ opened_lem (lexeme_of token.now) (expr_data tree.value) }
{
    let mut tree = tree;
    tree.first = token.at;
    tree
}
/// An expression, and whether it is one prim alone.
#[derive(Drop)]
pub struct Term {
    pub tree: Box<ExprTree>,
    pub alone: bool,
}

/// A prim alone.
pub fn sole(tree: Box<ExprTree>) -> Term
    ensures { term_data result ≡ (expr_data tree.value, true) }
{
    Term { tree, alone: true }
}

/// An expression that is no prim alone.
pub fn together(tree: Box<ExprTree>) -> Term
    ensures { term_data result ≡ (expr_data tree.value, false) }
{
    Term { tree, alone: false }
}
/// NUMBER behind "-".
#[tactic(auto, unfolding(crate::specs::Expressions::negative))]
pub fn negative<'t>(
    alloc: Global,
    minus: &Spelled<'t>,
    tokens: Tokens<'t>,
) -> Read<'t, Box<ExprTree>>
    ensures read { Gives (λ x. (expr_data x.0.value, lexemes_of x.1.now)) result (negative_lem (lexeme_of minus.now) (lexemes_of tokens.now)) }
{
    let (number, rest) = expect(tokens, Class::Number)?;
    let digits = String::from_str(alloc, number.text)?;
    let negated = tree(minus.at, number.at, ExprForm::Number(true, digits));
    Ok((Box::new(alloc, negated)?, rest))
}
/// NUMBER
#[tactic(auto, unfolding(crate::specs::Expressions::number_of))]
pub fn number<'t>(alloc: Global, token: &Spelled<'t>, tokens: Tokens<'t>) -> Read<'t, Box<ExprTree>>
    ensures read { Gives (λ x. (expr_data x.0.value, lexemes_of x.1.now)) result (number_of (lexeme_of token.now) (lexemes_of tokens.now)) }
{
    let digits = String::from_str(alloc, token.text)?;
    let number = leaf(token, ExprForm::Number(false, digits));
    Ok((Box::new(alloc, number)?, tokens))
}
/// "true" | "false" | [ "-" ] NUMBER
#[tactic(auto, unfolding(crate::specs::Expressions::literal))]
pub fn literal<'t>(alloc: Global, tokens: Tokens<'t>) -> Read<'t, Box<ExprTree>>
    ensures read { Gives (λ x. (expr_data x.0.value, lexemes_of x.1.now)) result (literal_lem (lexemes_of tokens.now)) }
{
    let Some((token, rest)) = tokens.split_first() else {
        return Err(SyntaxFault::Unexpected(0));
    };
    if is(token, Class::True) {
        return Ok((Box::new(alloc, leaf(token, ExprForm::True))?, rest));
    }
    if is(token, Class::False) {
        return Ok((Box::new(alloc, leaf(token, ExprForm::False))?, rest));
    }
    if is(token, Class::Number) {
        return number(alloc, token, rest);
    }
    if is(token, Class::Minus) {
        return negative(alloc, token, rest);
    }
    Err(SyntaxFault::Unexpected(token.number))
}
/// "mod" NUMBER behind a prim.
#[tactic(auto, unfolding(crate::specs::Expressions::modulo))]
pub fn modulo<'t>(alloc: Global, operand: Box<ExprTree>, tokens: Tokens<'t>) -> Read<'t, Term>
    ensures read { Gives (λ x. (term_data x.0, lexemes_of x.1.now)) result (modulo_lem (expr_data operand.value) (lexemes_of tokens.now)) }
{
    let (operator, rest) = expect(tokens, Class::Mod)?;
    let (number, rest) = expect(rest, Class::Number)?;
    let (first, at, place) = (operand.first, operator.at, number.at);
    let digits = String::from_str(alloc, number.text)?;
    let remainder = tree(first, at, ExprForm::Mod(operand, place, digits));
    Ok((together(Box::new(alloc, remainder)?), rest))
}
/// NAME alone.
#[tactic(auto, unfolding(crate::specs::Expressions::read_of))]
pub fn read<'t>(alloc: Global, token: &Spelled<'t>, tokens: Tokens<'t>) -> Read<'t, Box<ExprTree>>
    ensures read { Gives (λ x. (expr_data x.0.value, lexemes_of x.1.now)) result (read_of (lexeme_of token.now) (lexemes_of tokens.now)) }
{
    let name = name(alloc, token)?;
    let read = leaf(token, ExprForm::Read(name));
    Ok((Box::new(alloc, read)?, tokens))
}

/// What follows a quantifier's word: its variable, its bounds, and what it says of each number.
#[derive(Drop)]
pub struct Scope {
    pub name: Name,
    pub low: Box<ExprTree>,
    pub high: Box<ExprTree>,
    pub body: Box<ExprTree>,
}

/// The operands of a conjunction or a disjunction so far, and the places of its operators.
#[derive(Drop)]
pub struct Chain {
    pub operands: Vec<ExprTree>,
    pub operators: Vec<Place>,
}

/// A chain of two operands.
pub fn pair(
    alloc: Global,
    first: Box<ExprTree>,
    at: Place,
    second: Box<ExprTree>,
) -> Result<Chain, SyntaxFault>
    ensures read { IfOk result (λ c. chain_data c ≡ (expr_data first.value ∷ expr_data second.value ∷ [], at ∷ [])) }
    ensures memory { IfErr result (λ e. e ≡ SyntaxFault.Memory) }
{
    let mut operands = Vec::new(alloc);
    let mut operators = Vec::new(alloc);
    operands.push(Box::into_inner(first))?;
    operands.push(Box::into_inner(second))?;
    operators.push(at)?;
    Ok(Chain {
        operands,
        operators,
    })
}

/// One operator and one operand more.
pub fn joined(chain: Chain, at: Place, operand: Box<ExprTree>) -> Result<Chain, SyntaxFault>
    ensures read { IfOk result (λ c. chain_data c ≡ (map expr_data chain.operands.items ++ expr_data operand.value ∷ [], chain.operators.items ++ at ∷ [])) }
    ensures memory { IfErr result (λ e. e ≡ SyntaxFault.Memory) }
{
    let mut operands = chain.operands;
    let mut operators = chain.operators;
    operands.push(Box::into_inner(operand))?;
    operators.push(at)?;
    Ok(Chain {
        operands,
        operators,
    })
}
