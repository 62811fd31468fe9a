//! Assumptions and guarantees: one function for each production.

ghost use Rattle.std.specs.Prelude.{◌<◌};
ghost use Rattle.spectra_trees.specs.Views.{body_data, item_data, lexeme_of, lexemes_of};
ghost use Rattle.spectra_exprs.specs.Read.{Gives};
ghost use Rattle.spectra_parser.specs.ItemViews.{said_data};
ghost use Rattle.spectra_parser.specs.Items.{labelled as labelled_lem, line as line_lem, named as named_lem, pattern_use as pattern_use_lem, said as said_lem, trigger as trigger_lem, unlabelled as unlabelled_lem, use_behind as use_behind_lem, body_of};

use crate::limits::LEVELS;
use spec_model::spec::Role;
use spectra_exprs::fault::SyntaxFault;
use spectra_exprs::formulas::whole;
use spectra_exprs::operands::arguments;
use spectra_exprs::operators::{Read, Tokens, expect, starts};
use spectra_regexes::regex::regex;
use spectra_trees::class::Class;
use spectra_trees::lexeme::{Spelled, is, name};
use spectra_trees::tree::{BodyTree, Item, LineItem, Name, Place};
use std::alloc::Global;

/// regex "|=>" regex behind `trig`.
#[tactic(auto, unfolding(crate::specs::Items::trigger))]
fn trigger<'t>(alloc: Global, at: Place, tokens: Tokens<'t>) -> Read<'t, BodyTree>
    ensures read { Gives (λ x. (body_data x.0, lexemes_of x.1.now)) result (trigger_lem at (lexemes_of tokens.now)) }
{
    let (cause, rest) = regex(alloc, tokens, LEVELS)?;
    let (_, rest) = expect(rest, Class::Then)?;
    let (effect, rest) = regex(alloc, rest, LEVELS)?;
    Ok((BodyTree::Trigger(at, cause, effect), rest))
}

/// "(" [ expr { "," expr } ] ")" behind NAME.
#[tactic(auto, unfolding(crate::specs::Items::use_behind))]
fn use_behind<'t>(alloc: Global, token: &Spelled<'t>, tokens: Tokens<'t>) -> Read<'t, BodyTree>
    ensures read { Gives (λ x. (body_data x.0, lexemes_of x.1.now)) result (use_behind_lem (lexeme_of token.now) (lexemes_of tokens.now)) }
{
    let (_, rest) = expect(tokens, Class::Open)?;
    let (arguments, rest) = arguments(alloc, rest, LEVELS)?;
    let name = name(alloc, token)?;
    Ok((BodyTree::Call(name, arguments), rest))
}

/// NAME "(" [ expr { "," expr } ] ")"
#[tactic(auto, unfolding(crate::specs::Items::pattern_use))]
fn pattern_use<'t>(alloc: Global, tokens: Tokens<'t>) -> Read<'t, BodyTree>
    ensures read { Gives (λ x. (body_data x.0, lexemes_of x.1.now)) result (pattern_use_lem (lexemes_of tokens.now)) }
{
    let (token, rest) = expect(tokens, Class::Name)?;
    use_behind(alloc, token, rest)
}

/// body = INI expr | ALW expr | ALWEV expr | "trig" regex "|=>" regex | NAME "(" [ expr { "," expr } ] ")"
#[tactic(auto, unfolding(crate::specs::Items::body_of, crate::specs::Items::body_formula))]
fn body<'t>(alloc: Global, tokens: Tokens<'t>) -> Read<'t, BodyTree>
    ensures read { Gives (λ x. (body_data x.0, lexemes_of x.1.now)) result (body_of (lexemes_of tokens.now)) }
{
    let Some((token, rest)) = tokens.split_first() else {
        return Err(SyntaxFault::Unexpected(0));
    };
    if is(token, Class::Ini) {
        let (formula, rest) = whole(alloc, rest, LEVELS)?;
        return Ok((BodyTree::Initial(formula), rest));
    }
    if is(token, Class::Alw) {
        let (formula, rest) = whole(alloc, rest, LEVELS)?;
        return Ok((BodyTree::Always(formula), rest));
    }
    if is(token, Class::AlwEv) {
        let (formula, rest) = whole(alloc, rest, LEVELS)?;
        return Ok((BodyTree::Recurring(formula), rest));
    }
    if is(token, Class::Trig) {
        return trigger(alloc, token.at, rest);
    }
    pattern_use(alloc, tokens)
}

/// What a line says, with its name where it has one.
#[derive(Drop)]
pub struct Said {
    pub name: Option<Name>,
    pub body: BodyTree,
}

/// ":" body behind NAME.
#[tactic(auto, unfolding(crate::specs::Items::labelled))]
fn labelled<'t>(alloc: Global, token: &Spelled<'t>, tokens: Tokens<'t>) -> Read<'t, Said>
    ensures read { Gives (λ x. (said_data x.0, lexemes_of x.1.now)) result (labelled_lem (lexeme_of token.now) (lexemes_of tokens.now)) }
{
    let (_, rest) = expect(tokens, Class::Colon)?;
    let (body, rest) = body(alloc, rest)?;
    let name = Some(name(alloc, token)?);
    Ok((Said { name, body }, rest))
}

/// "(" [ expr { "," expr } ] ")" behind the NAME of a pattern.
#[tactic(auto, unfolding(crate::specs::Items::unlabelled))]
fn unlabelled<'t>(alloc: Global, token: &Spelled<'t>, tokens: Tokens<'t>) -> Read<'t, Said>
    ensures read { Gives (λ x. (said_data x.0, lexemes_of x.1.now)) result (unlabelled_lem (lexeme_of token.now) (lexemes_of tokens.now)) }
{
    let (body, rest) = use_behind(alloc, token, tokens)?;
    Ok((Said { name: None, body }, rest))
}

/// What begins with a NAME: that of the line or that of a pattern.
#[tactic(auto, unfolding(crate::specs::Items::named))]
fn named<'t>(alloc: Global, tokens: Tokens<'t>) -> Read<'t, Said>
    ensures read { Gives (λ x. (said_data x.0, lexemes_of x.1.now)) result (named_lem (lexemes_of tokens.now)) }
{
    let (token, rest) = expect(tokens, Class::Name)?;
    if starts(rest, Class::Colon) {
        return labelled(alloc, token, rest);
    }
    unlabelled(alloc, token, rest)
}

/// [ NAME ":" ] body
#[tactic(auto, unfolding(crate::specs::Items::said))]
fn saying<'t>(alloc: Global, tokens: Tokens<'t>) -> Read<'t, Said>
    ensures read { Gives (λ x. (said_data x.0, lexemes_of x.1.now)) result (said_lem (lexemes_of tokens.now)) }
{
    if starts(tokens, Class::Name) {
        return named(alloc, tokens);
    }
    let (body, rest) = body(alloc, tokens)?;
    Ok((Said { name: None, body }, rest))
}

/// line = ( ASM | GAR ) [ NAME ":" ] body ";", behind its first word.
#[tactic(auto, unfolding(crate::specs::Items::line))]
pub fn line<'t>(alloc: Global, at: Place, role: Role, tokens: Tokens<'t>) -> Read<'t, Item>
    ensures read { Gives (λ x. (item_data x.0, lexemes_of x.1.now)) result (line_lem at role (lexemes_of tokens.now)) }
{
    let (said, rest) = saying(alloc, tokens)?;
    let (_, rest) = expect(rest, Class::Semicolon)?;
    let item = LineItem {
        at,
        role,
        name: said.name,
        body: said.body,
    };
    Ok((Item::Statement(item), rest))
}
