//! Patterns and monitors: one function for each production.

ghost use Rattle.std.specs.Prelude.{◌≡◌, ◌<◌, map};
ghost use Rattle.spectra_trees.specs.Views.{item_data, name_data, part_data, part_shape, lexemes_of};
ghost use Rattle.spectra_exprs.specs.Read.{Gives, all_of};
ghost use Rattle.spectra_parser.specs.Items.{mitem as mitem_lem, mitem_after as mitem_after_lem, mitems as mitems_lem, monitor as monitor_lem, name_parameters as name_parameters_lem, own as own_lem, part_line as part_line_lem, part_shape as part_shape_lem, pattern as pattern_lem, pitem as pitem_lem, pitem_after as pitem_after_lem, pitems as pitems_lem, inside_braces};

use crate::limits::LEVELS;
use crate::types::{names, type_tree};
use spectra_exprs::fault::SyntaxFault;
use spectra_exprs::formulas::whole;
use spectra_exprs::operators::{Read, Tokens, begun, expect, first_number, starts};
use spectra_trees::class::Class;
use spectra_trees::lexeme::{Spelled, is, name};
use spectra_trees::tree::{Item, MonitorItem, Name, Part, PartForm, PatternItem, Place};
use std::alloc::Global;

/// type NAME ";" behind `var`.
#[tactic(auto, unfolding(crate::specs::Items::own))]
fn own<'t>(alloc: Global, at: Place, tokens: Tokens<'t>) -> Read<'t, Part>
    ensures read { Gives (λ x. (part_data x.0, lexemes_of x.1.now)) result (own_lem at (lexemes_of tokens.now)) }
{
    let (domain, rest) = type_tree(alloc, tokens)?;
    let (token, rest) = expect(rest, Class::Name)?;
    let (_, rest) = expect(rest, Class::Semicolon)?;
    let form = PartForm::Own(domain, name(alloc, token)?);
    Ok((Part { at, form }, rest))
}

/// ( INI | ALW | ALWEV ) expr
#[tactic(auto, unfolding(crate::specs::Items::part_shape, crate::specs::Items::part_formula))]
fn part_form<'t>(alloc: Global, tokens: Tokens<'t>) -> Read<'t, PartForm>
    ensures read { Gives (λ x. (part_shape x.0, lexemes_of x.1.now)) result (part_shape_lem (lexemes_of tokens.now)) }
{
    let Some((token, rest)) = tokens.split_first() else {
        return Err(SyntaxFault::Unexpected(0));
    };
    if is(token, Class::Ini) {
        let (formula, rest) = whole(alloc, rest, LEVELS)?;
        return Ok((PartForm::Initial(formula), rest));
    }
    if is(token, Class::Alw) {
        let (formula, rest) = whole(alloc, rest, LEVELS)?;
        return Ok((PartForm::Always(formula), rest));
    }
    if is(token, Class::AlwEv) {
        let (formula, rest) = whole(alloc, rest, LEVELS)?;
        return Ok((PartForm::Recurring(formula), rest));
    }
    Err(SyntaxFault::Unexpected(token.number))
}

/// ( INI | ALW | ALWEV ) expr ";"
#[tactic(auto, unfolding(crate::specs::Items::part_line))]
fn part_line<'t>(alloc: Global, at: Place, tokens: Tokens<'t>) -> Read<'t, Part>
    ensures read { Gives (λ x. (part_data x.0, lexemes_of x.1.now)) result (part_line_lem at (lexemes_of tokens.now)) }
{
    let (form, rest) = part_form(alloc, tokens)?;
    let (_, rest) = expect(rest, Class::Semicolon)?;
    Ok((Part { at, form }, rest))
}

/// pitem = "var" type NAME ";" | ( INI | ALW | ALWEV ) expr ";"
#[tactic(auto, unfolding(crate::specs::Items::pitem))]
fn pitem<'t>(alloc: Global, tokens: Tokens<'t>) -> Read<'t, Part>
    ensures read { Gives (λ x. (part_data x.0, lexemes_of x.1.now)) result (pitem_lem (lexemes_of tokens.now)) }
{
    let Some((token, rest)) = tokens.split_first() else {
        return Err(SyntaxFault::Unexpected(0));
    };
    if is(token, Class::Var) {
        return own(alloc, token.at, rest);
    }
    part_line(alloc, token.at, tokens)
}

/// ( INI | ALW ) expr ";"
#[tactic(auto, unfolding(crate::specs::Items::mitem, spectra_exprs::specs::Read::unexpected))]
fn mitem<'t>(alloc: Global, tokens: Tokens<'t>) -> Read<'t, Part>
    ensures read { Gives (λ x. (part_data x.0, lexemes_of x.1.now)) result (mitem_lem (lexemes_of tokens.now)) }
{
    if starts(tokens, Class::Ini) || starts(tokens, Class::Alw) {
        return pitem(alloc, tokens);
    }
    Err(SyntaxFault::Unexpected(first_number(tokens)))
}

/// Whether no brace closes.
#[tactic(auto, unfolding(crate::specs::Items::inside_braces))]
fn is_inside_braces(tokens: &[Spelled<'_>]) -> bool
    ensures { result ≡ inside_braces (lexemes_of tokens.now) }
{
    !starts(tokens, Class::CloseBrace)
}

/// pitem behind the parts so far.
#[tactic(auto, unfolding(crate::specs::Items::pitem_after))]
fn pitem_after<'t>(alloc: Global, parts: Vec<Part>, tokens: Tokens<'t>) -> Read<'t, Vec<Part>>
    ensures read { Gives (λ x. (map part_data x.0.items, lexemes_of x.1.now)) result (pitem_after_lem (map part_data parts.items) (lexemes_of tokens.now)) }
{
    let (next, rest) = pitem(alloc, tokens)?;
    let mut parts = parts;
    parts.push(next)?;
    Ok((parts, rest))
}

/// { pitem } behind the parts so far.
fn more_pitems<'t>(alloc: Global, first: Vec<Part>, tokens: Tokens<'t>) -> Read<'t, Vec<Part>>
    ensures read { Gives (λ x. (map part_data x.0.items, lexemes_of x.1.now)) result (all_of inside_braces pitem_after_lem (map part_data first.items) (lexemes_of tokens.now)) }
{
    let (mut parts, mut rest) = begun(first, tokens);
    while is_inside_braces(rest) {
        let (next, behind) = pitem_after(alloc, parts, rest)?;
        parts = next;
        rest = behind;
    }
    Ok((parts, rest))
}

/// { pitem } "}"
#[tactic(auto, unfolding(crate::specs::Items::pitems))]
fn pitems<'t>(alloc: Global, tokens: Tokens<'t>) -> Read<'t, Vec<Part>>
    ensures read { Gives (λ x. (map part_data x.0.items, lexemes_of x.1.now)) result (pitems_lem (lexemes_of tokens.now)) }
{
    let (parts, rest) = more_pitems(alloc, Vec::new(alloc), tokens)?;
    let (_, rest) = expect(rest, Class::CloseBrace)?;
    Ok((parts, rest))
}

/// ( INI | ALW ) expr ";" behind the parts so far.
#[tactic(auto, unfolding(crate::specs::Items::mitem_after))]
fn mitem_after<'t>(alloc: Global, parts: Vec<Part>, tokens: Tokens<'t>) -> Read<'t, Vec<Part>>
    ensures read { Gives (λ x. (map part_data x.0.items, lexemes_of x.1.now)) result (mitem_after_lem (map part_data parts.items) (lexemes_of tokens.now)) }
{
    let (next, rest) = mitem(alloc, tokens)?;
    let mut parts = parts;
    parts.push(next)?;
    Ok((parts, rest))
}

/// { ( INI | ALW ) expr ";" } behind the parts so far.
fn more_mitems<'t>(alloc: Global, first: Vec<Part>, tokens: Tokens<'t>) -> Read<'t, Vec<Part>>
    ensures read { Gives (λ x. (map part_data x.0.items, lexemes_of x.1.now)) result (all_of inside_braces mitem_after_lem (map part_data first.items) (lexemes_of tokens.now)) }
{
    let (mut parts, mut rest) = begun(first, tokens);
    while is_inside_braces(rest) {
        let (next, behind) = mitem_after(alloc, parts, rest)?;
        parts = next;
        rest = behind;
    }
    Ok((parts, rest))
}

/// { ( INI | ALW ) expr ";" } "}"
#[tactic(auto, unfolding(crate::specs::Items::mitems))]
fn mitems<'t>(alloc: Global, tokens: Tokens<'t>) -> Read<'t, Vec<Part>>
    ensures read { Gives (λ x. (map part_data x.0.items, lexemes_of x.1.now)) result (mitems_lem (lexemes_of tokens.now)) }
{
    let (parts, rest) = more_mitems(alloc, Vec::new(alloc), tokens)?;
    let (_, rest) = expect(rest, Class::CloseBrace)?;
    Ok((parts, rest))
}

/// [ NAME { "," NAME } ] ")"
#[tactic(auto, unfolding(crate::specs::Items::name_parameters))]
fn name_parameters<'t>(alloc: Global, tokens: Tokens<'t>) -> Read<'t, Vec<Name>>
    ensures read { Gives (λ x. (map name_data x.0.items, lexemes_of x.1.now)) result (name_parameters_lem (lexemes_of tokens.now)) }
{
    if starts(tokens, Class::Close) {
        let (_, rest) = expect(tokens, Class::Close)?;
        return Ok((Vec::new(alloc), rest));
    }
    let (names, rest) = names(alloc, tokens)?;
    let (_, rest) = expect(rest, Class::Close)?;
    Ok((names, rest))
}

/// pattern = "pattern" NAME "(" [ NAME { "," NAME } ] ")" "{" { pitem } "}", behind its first word.
#[tactic(auto, unfolding(crate::specs::Items::pattern))]
pub fn pattern<'t>(alloc: Global, at: Place, tokens: Tokens<'t>) -> Read<'t, Item>
    ensures read { Gives (λ x. (item_data x.0, lexemes_of x.1.now)) result (pattern_lem at (lexemes_of tokens.now)) }
{
    let (token, rest) = expect(tokens, Class::Name)?;
    let (_, rest) = expect(rest, Class::Open)?;
    let (params, rest) = name_parameters(alloc, rest)?;
    let (_, rest) = expect(rest, Class::OpenBrace)?;
    let (parts, rest) = pitems(alloc, rest)?;
    let name = name(alloc, token)?;
    let item = PatternItem {
        at,
        name,
        params,
        parts,
    };
    Ok((Item::Pattern(item), rest))
}

/// monitor = "monitor" type NAME "{" { ( INI | ALW ) expr ";" } "}", behind its first word.
#[tactic(auto, unfolding(crate::specs::Items::monitor))]
pub fn monitor<'t>(alloc: Global, at: Place, tokens: Tokens<'t>) -> Read<'t, Item>
    ensures read { Gives (λ x. (item_data x.0, lexemes_of x.1.now)) result (monitor_lem at (lexemes_of tokens.now)) }
{
    let (domain, rest) = type_tree(alloc, tokens)?;
    let (token, rest) = expect(rest, Class::Name)?;
    let (_, rest) = expect(rest, Class::OpenBrace)?;
    let (parts, rest) = mitems(alloc, rest)?;
    let name = name(alloc, token)?;
    let item = MonitorItem {
        at,
        domain,
        name,
        parts,
    };
    Ok((Item::Monitor(item), rest))
}
