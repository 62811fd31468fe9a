//! Declarations of variables, types, defines and predicates: one function for each production.

ghost use Rattle.std.specs.Prelude.{◌<◌, map, option_map};
ghost use Rattle.spectra_trees.specs.Views.{item_data, length_data, lexemes_of};
ghost use Rattle.spectra_exprs.specs.Read.{Gives, starts as starts_lem, all_of};
ghost use Rattle.spectra_parser.specs.ItemViews.{body_pair, parameter_pair};
ghost use Rattle.spectra_parser.specs.Items.{define as define_lem, definition as definition_lem, definition_after as definition_after_lem, length_of, some_length as some_length_lem, parameter as parameter_lem, parameter_after as parameter_after_lem, parameters as parameters_lem, predicate as predicate_lem, some_parameters as some_parameters_lem, typedecl as typedecl_lem, vardecl as vardecl_lem};

use crate::limits::LEVELS;
use crate::types::type_tree;
use spectra_exprs::formulas::whole;
use spectra_exprs::operators::{Read, Tokens, begun, expect, starts};
use spectra_trees::class::Class;
use spectra_trees::lexeme::name;
use spectra_trees::tree::{
    DefineItem, ExprTree, Item, Length, Name, OwnerWord, Place, PredicateItem, TypeItem, TypeTree,
    VarItem,
};
use std::alloc::Global;

/// "[" NUMBER "]"
#[tactic(auto, unfolding(crate::specs::Items::some_length))]
fn some_length<'t>(alloc: Global, tokens: Tokens<'t>) -> Read<'t, Option<Length>>
    ensures read { Gives (λ x. (option_map length_data x.0, lexemes_of x.1.now)) result (some_length_lem (lexemes_of tokens.now)) }
{
    let (open, rest) = expect(tokens, Class::OpenBracket)?;
    let (number, rest) = expect(rest, Class::Number)?;
    let (_, rest) = expect(rest, Class::CloseBracket)?;
    let digits = String::from_str(alloc, number.text)?;
    let bracket = open.at;
    Ok((Some(Length { bracket, digits }), rest))
}

/// [ "[" NUMBER "]" ]
#[tactic(auto, unfolding(crate::specs::Items::length_of))]
fn length<'t>(alloc: Global, tokens: Tokens<'t>) -> Read<'t, Option<Length>>
    ensures read { Gives (λ x. (option_map length_data x.0, lexemes_of x.1.now)) result (length_of (lexemes_of tokens.now)) }
{
    if starts(tokens, Class::OpenBracket) {
        return some_length(alloc, tokens);
    }
    Ok((None, tokens))
}

/// vardecl = ( "env" | "sys" | "aux" ) type [ "[" NUMBER "]" ] NAME ";", behind its first word.
#[tactic(auto, unfolding(crate::specs::Items::vardecl))]
pub fn vardecl<'t>(alloc: Global, at: Place, owner: OwnerWord, tokens: Tokens<'t>) -> Read<'t, Item>
    ensures read { Gives (λ x. (item_data x.0, lexemes_of x.1.now)) result (vardecl_lem at owner (lexemes_of tokens.now)) }
{
    let (domain, rest) = type_tree(alloc, tokens)?;
    let (length, rest) = length(alloc, rest)?;
    let (token, rest) = expect(rest, Class::Name)?;
    let (_, rest) = expect(rest, Class::Semicolon)?;
    let name = name(alloc, token)?;
    let item = VarItem {
        at,
        owner,
        domain,
        length,
        name,
    };
    Ok((Item::Variable(item), rest))
}

/// typedecl = "type" NAME "=" type ";", behind its first word.
#[tactic(auto, unfolding(crate::specs::Items::typedecl))]
pub fn typedecl<'t>(alloc: Global, at: Place, tokens: Tokens<'t>) -> Read<'t, Item>
    ensures read { Gives (λ x. (item_data x.0, lexemes_of x.1.now)) result (typedecl_lem at (lexemes_of tokens.now)) }
{
    let (token, rest) = expect(tokens, Class::Name)?;
    let (_, rest) = expect(rest, Class::Equal)?;
    let (body, rest) = type_tree(alloc, rest)?;
    let (_, rest) = expect(rest, Class::Semicolon)?;
    let name = name(alloc, token)?;
    Ok((Item::Alias(TypeItem { at, name, body }), rest))
}

/// NAME ":=" expr ";"
#[tactic(auto, unfolding(crate::specs::Items::definition))]
fn definition<'t>(alloc: Global, tokens: Tokens<'t>) -> Read<'t, (Name, ExprTree)>
    ensures read { Gives (λ x. (body_pair x.0, lexemes_of x.1.now)) result (definition_lem (lexemes_of tokens.now)) }
{
    let (token, rest) = expect(tokens, Class::Name)?;
    let (_, rest) = expect(rest, Class::Becomes)?;
    let (body, rest) = whole(alloc, rest, LEVELS)?;
    let (_, rest) = expect(rest, Class::Semicolon)?;
    let name = name(alloc, token)?;
    Ok(((name, body), rest))
}

/// NAME ":=" expr ";" behind the definitions so far.
#[tactic(auto, unfolding(crate::specs::Items::definition_after))]
fn definition_after<'t>(
    alloc: Global,
    all: Vec<(Name, ExprTree)>,
    tokens: Tokens<'t>,
) -> Read<'t, Vec<(Name, ExprTree)>>
    ensures read { Gives (λ x. (map body_pair x.0.items, lexemes_of x.1.now)) result (definition_after_lem (map body_pair all.items) (lexemes_of tokens.now)) }
{
    let (next, rest) = definition(alloc, tokens)?;
    let mut all = all;
    all.push(next)?;
    Ok((all, rest))
}

/// { NAME ":=" expr ";" } behind a first one.
fn more_definitions<'t>(
    alloc: Global,
    first: Vec<(Name, ExprTree)>,
    tokens: Tokens<'t>,
) -> Read<'t, Vec<(Name, ExprTree)>>
    ensures read { Gives (λ x. (map body_pair x.0.items, lexemes_of x.1.now)) result (all_of (starts_lem Class.Name) definition_after_lem (map body_pair first.items) (lexemes_of tokens.now)) }
{
    let (mut all, mut rest) = begun(first, tokens);
    while starts(rest, Class::Name) {
        let (next, behind) = definition_after(alloc, all, rest)?;
        all = next;
        rest = behind;
    }
    Ok((all, rest))
}

/// define = "define" NAME ":=" expr ";" { NAME ":=" expr ";" }, behind its first word.
#[tactic(auto, unfolding(crate::specs::Items::define))]
pub fn define<'t>(alloc: Global, at: Place, tokens: Tokens<'t>) -> Read<'t, Item>
    ensures read { Gives (λ x. (item_data x.0, lexemes_of x.1.now)) result (define_lem at (lexemes_of tokens.now)) }
{
    let (first, rest) = definition(alloc, tokens)?;
    let mut bodies = Vec::new(alloc);
    bodies.push(first)?;
    let (bodies, rest) = more_definitions(alloc, bodies, rest)?;
    Ok((Item::Define(DefineItem { at, bodies }), rest))
}

/// type NAME
#[tactic(auto, unfolding(crate::specs::Items::parameter))]
fn parameter<'t>(alloc: Global, tokens: Tokens<'t>) -> Read<'t, (TypeTree, Name)>
    ensures read { Gives (λ x. (parameter_pair x.0, lexemes_of x.1.now)) result (parameter_lem (lexemes_of tokens.now)) }
{
    let (domain, rest) = type_tree(alloc, tokens)?;
    let (token, rest) = expect(rest, Class::Name)?;
    let name = name(alloc, token)?;
    Ok(((domain, name), rest))
}

/// "," type NAME behind the parameters so far.
#[tactic(auto, unfolding(crate::specs::Items::parameter_after))]
fn parameter_after<'t>(
    alloc: Global,
    all: Vec<(TypeTree, Name)>,
    tokens: Tokens<'t>,
) -> Read<'t, Vec<(TypeTree, Name)>>
    ensures read { Gives (λ x. (map parameter_pair x.0.items, lexemes_of x.1.now)) result (parameter_after_lem (map parameter_pair all.items) (lexemes_of tokens.now)) }
{
    let (_, rest) = expect(tokens, Class::Comma)?;
    let (next, rest) = parameter(alloc, rest)?;
    let mut all = all;
    all.push(next)?;
    Ok((all, rest))
}

/// { "," type NAME } behind a first one.
fn more_parameters<'t>(
    alloc: Global,
    first: Vec<(TypeTree, Name)>,
    tokens: Tokens<'t>,
) -> Read<'t, Vec<(TypeTree, Name)>>
    ensures read { Gives (λ x. (map parameter_pair x.0.items, lexemes_of x.1.now)) result (all_of (starts_lem Class.Comma) parameter_after_lem (map parameter_pair first.items) (lexemes_of tokens.now)) }
{
    let (mut all, mut rest) = begun(first, tokens);
    while starts(rest, Class::Comma) {
        let (next, behind) = parameter_after(alloc, all, rest)?;
        all = next;
        rest = behind;
    }
    Ok((all, rest))
}

/// type NAME { "," type NAME } ")"
#[tactic(auto, unfolding(crate::specs::Items::some_parameters))]
fn some_parameters<'t>(alloc: Global, tokens: Tokens<'t>) -> Read<'t, Vec<(TypeTree, Name)>>
    ensures read { Gives (λ x. (map parameter_pair x.0.items, lexemes_of x.1.now)) result (some_parameters_lem (lexemes_of tokens.now)) }
{
    let (first, rest) = parameter(alloc, tokens)?;
    let mut all = Vec::new(alloc);
    all.push(first)?;
    let (all, rest) = more_parameters(alloc, all, rest)?;
    let (_, rest) = expect(rest, Class::Close)?;
    Ok((all, rest))
}

/// [ type NAME { "," type NAME } ] ")"
#[tactic(auto, unfolding(crate::specs::Items::parameters))]
fn parameters<'t>(alloc: Global, tokens: Tokens<'t>) -> Read<'t, Vec<(TypeTree, Name)>>
    ensures read { Gives (λ x. (map parameter_pair x.0.items, lexemes_of x.1.now)) result (parameters_lem (lexemes_of tokens.now)) }
{
    if !starts(tokens, Class::Close) {
        return some_parameters(alloc, tokens);
    }
    let (_, rest) = expect(tokens, Class::Close)?;
    Ok((Vec::new(alloc), rest))
}

/// predicate = "predicate" NAME "(" [ type NAME { "," type NAME } ] ")" ":" expr ";", behind its first word.
#[tactic(auto, unfolding(crate::specs::Items::predicate))]
pub fn predicate<'t>(alloc: Global, at: Place, tokens: Tokens<'t>) -> Read<'t, Item>
    ensures read { Gives (λ x. (item_data x.0, lexemes_of x.1.now)) result (predicate_lem at (lexemes_of tokens.now)) }
{
    let (token, rest) = expect(tokens, Class::Name)?;
    let (_, rest) = expect(rest, Class::Open)?;
    let (params, rest) = parameters(alloc, rest)?;
    let (_, rest) = expect(rest, Class::Colon)?;
    let (body, rest) = whole(alloc, rest, LEVELS)?;
    let (_, rest) = expect(rest, Class::Semicolon)?;
    let name = name(alloc, token)?;
    let item = PredicateItem {
        at,
        name,
        params,
        body,
    };
    Ok((Item::Predicate(item), rest))
}
