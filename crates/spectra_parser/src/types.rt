//! Types: one function for each production.

ghost use Rattle.std.specs.Prelude.{◌<◌, map};
ghost use Rattle.spectra_trees.specs.Views.{name_data, type_data, lexeme_of, lexemes_of};
ghost use Rattle.spectra_exprs.specs.Read.{Gives, starts as starts_lem, all_of};
ghost use Rattle.spectra_parser.specs.Items.{name_after as name_after_lem, name_type as name_type_lem, named_type as named_type_lem, names as names_lem, range_type as range_type_lem, type_of};

use crate::limits::LEVELS;
use spectra_exprs::fault::SyntaxFault;
use spectra_exprs::operators::{Read, Tokens, begun, expect, starts};
use spectra_exprs::sums::bound;
use spectra_trees::class::Class;
use spectra_trees::lexeme::{Spelled, is, name};
use spectra_trees::tree::{Name, Place, TypeForm, TypeTree};
use std::alloc::Global;

/// "," NAME behind the names so far.
#[tactic(auto, unfolding(crate::specs::Items::name_after))]
fn name_after<'t>(alloc: Global, names: Vec<Name>, tokens: Tokens<'t>) -> Read<'t, Vec<Name>>
    ensures read { Gives (λ x. (map name_data x.0.items, lexemes_of x.1.now)) result (name_after_lem (map name_data names.items) (lexemes_of tokens.now)) }
{
    let (_, rest) = expect(tokens, Class::Comma)?;
    let (token, rest) = expect(rest, Class::Name)?;
    let next = name(alloc, token)?;
    let mut names = names;
    names.push(next)?;
    Ok((names, rest))
}

/// { "," NAME } behind a first name.
fn more_names<'t>(alloc: Global, first: Vec<Name>, tokens: Tokens<'t>) -> Read<'t, Vec<Name>>
    ensures read { Gives (λ x. (map name_data x.0.items, lexemes_of x.1.now)) result (all_of (starts_lem Class.Comma) name_after_lem (map name_data first.items) (lexemes_of tokens.now)) }
{
    let (mut names, mut rest) = begun(first, tokens);
    while starts(rest, Class::Comma) {
        let (next, behind) = name_after(alloc, names, rest)?;
        names = next;
        rest = behind;
    }
    Ok((names, rest))
}

/// NAME { "," NAME }
#[tactic(auto, unfolding(crate::specs::Items::names))]
pub fn names<'t>(alloc: Global, tokens: Tokens<'t>) -> Read<'t, Vec<Name>>
    ensures read { Gives (λ x. (map name_data x.0.items, lexemes_of x.1.now)) result (names_lem (lexemes_of tokens.now)) }
{
    let (token, rest) = expect(tokens, Class::Name)?;
    let first = name(alloc, token)?;
    let mut names = Vec::new(alloc);
    names.push(first)?;
    more_names(alloc, names, rest)
}

/// NAME { "," NAME } "}" behind "{".
#[tactic(auto, unfolding(crate::specs::Items::name_type))]
fn name_type<'t>(alloc: Global, at: Place, tokens: Tokens<'t>) -> Read<'t, TypeTree>
    ensures read { Gives (λ x. (type_data x.0, lexemes_of x.1.now)) result (name_type_lem at (lexemes_of tokens.now)) }
{
    let (names, rest) = names(alloc, tokens)?;
    let (_, rest) = expect(rest, Class::CloseBrace)?;
    let form = TypeForm::Names(names);
    Ok((TypeTree { at, form }, rest))
}

/// "(" sum ".." sum ")" behind `Int`.
#[tactic(auto, unfolding(crate::specs::Items::range_type))]
fn range_type<'t>(alloc: Global, at: Place, tokens: Tokens<'t>) -> Read<'t, TypeTree>
    ensures read { Gives (λ x. (type_data x.0, lexemes_of x.1.now)) result (range_type_lem at (lexemes_of tokens.now)) }
{
    let (_, rest) = expect(tokens, Class::Open)?;
    let (low, rest) = bound(alloc, rest, LEVELS)?;
    let (_, rest) = expect(rest, Class::UpTo)?;
    let (high, rest) = bound(alloc, rest, LEVELS)?;
    let (_, rest) = expect(rest, Class::Close)?;
    let form = TypeForm::Range(low, high);
    Ok((TypeTree { at, form }, rest))
}

/// NAME as a type.
#[tactic(auto, unfolding(crate::specs::Items::named_type))]
fn named_type<'t>(alloc: Global, token: &Spelled<'t>, tokens: Tokens<'t>) -> Read<'t, TypeTree>
    ensures read { Gives (λ x. (type_data x.0, lexemes_of x.1.now)) result (named_type_lem (lexeme_of token.now) (lexemes_of tokens.now)) }
{
    let form = TypeForm::Named(name(alloc, token)?);
    Ok((TypeTree { at: token.at, form }, tokens))
}

/// type = "boolean" | "Int" "(" sum ".." sum ")" | "{" NAME { "," NAME } "}" | NAME
#[tactic(auto, unfolding(crate::specs::Items::type_of))]
pub fn type_tree<'t>(alloc: Global, tokens: Tokens<'t>) -> Read<'t, TypeTree>
    ensures read { Gives (λ x. (type_data x.0, lexemes_of x.1.now)) result (type_of (lexemes_of tokens.now)) }
{
    let Some((token, rest)) = tokens.split_first() else {
        return Err(SyntaxFault::Unexpected(0));
    };
    if is(token, Class::Boolean) {
        let form = TypeForm::Boolean;
        return Ok((TypeTree { at: token.at, form }, rest));
    }
    if is(token, Class::Int) {
        return range_type(alloc, token.at, rest);
    }
    if is(token, Class::OpenBrace) {
        return name_type(alloc, token.at, rest);
    }
    if is(token, Class::Name) {
        return named_type(alloc, token, rest);
    }
    Err(SyntaxFault::Unexpected(token.number))
}
