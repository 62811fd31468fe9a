//! Indexes and quantifiers: one function for each production.

ghost use Rattle.std.specs.Prelude.{◌<◌};
ghost use Rattle.spectra_trees.specs.Views.{expr_data, lexemes_of};
ghost use Rattle.spectra_exprs.specs.Read.{Gives};
ghost use Rattle.spectra_exprs.specs.ExprViews.{scope_data};
ghost use Rattle.spectra_exprs.specs.Expressions.{inside, subscript_of, scope_of, for_all_of, exists_of};

use crate::formulas::formula;
use crate::operands::deeper_scope;
use crate::operators::{Read, Tokens, expect};
use crate::sums::limit;
use crate::terms::{Scope, leaf};
use spectra_trees::class::Class;
use spectra_trees::lexeme::name;
use spectra_trees::tree::{ExprForm, ExprTree};
use std::alloc::Global;

/// sum "]"
#[cycle(expr)]
#[tactic(auto, unfolding(crate::specs::Expressions::subscript_of))]
pub fn subscript<'t>(alloc: Global, tokens: Tokens<'t>, left: u32) -> Read<'t, Box<ExprTree>>
    ensures read { Gives (λ x. (expr_data x.0.value, lexemes_of x.1.now)) result (subscript_of (inside left) (lexemes_of tokens.now)) }
{
    let (inner, rest) = limit(alloc, tokens, left)?;
    let (_, rest) = expect(rest, Class::CloseBracket)?;
    Ok((inner, rest))
}

/// NAME "in" sum ".." sum ":" expr
#[cycle(expr)]
#[tactic(auto, unfolding(crate::specs::Expressions::scope_of))]
pub fn scope<'t>(alloc: Global, tokens: Tokens<'t>, left: u32) -> Read<'t, Scope>
    ensures read { Gives (λ x. (scope_data x.0, lexemes_of x.1.now)) result (scope_of (inside left) (lexemes_of tokens.now)) }
{
    let (variable, rest) = expect(tokens, Class::Name)?;
    let (_, rest) = expect(rest, Class::In)?;
    let (low, rest) = limit(alloc, rest, left)?;
    let (_, rest) = expect(rest, Class::UpTo)?;
    let (high, rest) = limit(alloc, rest, left)?;
    let (_, rest) = expect(rest, Class::Colon)?;
    let (body, rest) = formula(alloc, rest, left)?;
    let name = name(alloc, variable)?;
    let scope = Scope {
        name,
        low,
        high,
        body,
    };
    Ok((scope, rest))
}

/// "forall", and what follows it.
#[cycle(expr)]
#[tactic(auto, unfolding(crate::specs::Expressions::for_all_of))]
pub fn for_all<'t>(alloc: Global, tokens: Tokens<'t>, left: u32) -> Read<'t, Box<ExprTree>>
    ensures read { Gives (λ x. (expr_data x.0.value, lexemes_of x.1.now)) result (for_all_of (inside left) (lexemes_of tokens.now)) }
{
    let (word, rest) = expect(tokens, Class::ForAll)?;
    let (scope, rest) = deeper_scope(alloc, word, rest, left)?;
    let form = ExprForm::ForAll(scope.name, scope.low, scope.high, scope.body);
    Ok((Box::new(alloc, leaf(word, form))?, rest))
}

/// "exists", and what follows it.
#[cycle(expr)]
#[tactic(auto, unfolding(crate::specs::Expressions::exists_of))]
pub fn exists<'t>(alloc: Global, tokens: Tokens<'t>, left: u32) -> Read<'t, Box<ExprTree>>
    ensures read { Gives (λ x. (expr_data x.0.value, lexemes_of x.1.now)) result (exists_of (inside left) (lexemes_of tokens.now)) }
{
    let (word, rest) = expect(tokens, Class::Exists)?;
    let (scope, rest) = deeper_scope(alloc, word, rest, left)?;
    let form = ExprForm::Exists(scope.name, scope.low, scope.high, scope.body);
    Ok((Box::new(alloc, leaf(word, form))?, rest))
}
