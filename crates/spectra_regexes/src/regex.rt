//! Regular expressions: one function for each production. `left` says how many levels may still be opened.

ghost use Rattle.std.specs.Prelude.{◌≡◌, ◌<◌, map};
ghost use Rattle.spectra_trees.specs.Views.{expr_data, regex_data, lexeme_of, lexemes_of};
ghost use Rattle.spectra_exprs.specs.Read.{Gives, starts as starts_lem, all_of};
ghost use Rattle.spectra_regexes.specs.Regexes.{atom_of, group_of, ratom_of, post_of, starts_ratom as starts_ratom_lem, follower_of, followed_of, cat_of, branch_of, branched_of, regex_of, inside_regex};

use crate::repeats::repeats;
use spectra_exprs::fault::SyntaxFault;
use spectra_exprs::formulas::whole;
use spectra_exprs::operators::{Read, Tokens, begun, expect, starts};
use spectra_trees::class::Class;
use spectra_trees::lexeme::Spelled;
use spectra_trees::tree::{ExprTree, RegexTree};
use std::alloc::Global;

/// Whether a part begins.
#[tactic(auto, unfolding(crate::specs::Regexes::starts_ratom))]
fn starts_ratom(tokens: &[Spelled<'_>]) -> bool
    ensures { result ≡ starts_ratom_lem (lexemes_of tokens.now) }
{
    starts(tokens, Class::OpenBracket) || starts(tokens, Class::Open)
}

/// An expression that a bracket opens a level for.
fn deeper_atom<'t>(
    alloc: Global,
    token: &Spelled<'t>,
    tokens: Tokens<'t>,
    left: u32,
) -> Read<'t, ExprTree>
    ensures read { Gives (λ x. (expr_data x.0, lexemes_of x.1.now)) result ((inside_regex left).atom (lexeme_of token.now) (lexemes_of tokens.now)) }
{
    if left == 0 {
        return Err(SyntaxFault::TooDeep(token.number));
    }
    whole(alloc, tokens, left - 1)
}

/// "[" expr "]"
#[tactic(auto, unfolding(crate::specs::Regexes::atom_of))]
fn atom<'t>(alloc: Global, tokens: Tokens<'t>, left: u32) -> Read<'t, RegexTree>
    ensures read { Gives (λ x. (regex_data x.0, lexemes_of x.1.now)) result (atom_of (inside_regex left) (lexemes_of tokens.now)) }
{
    let (opening, rest) = expect(tokens, Class::OpenBracket)?;
    let (formula, rest) = deeper_atom(alloc, opening, rest, left)?;
    let (_, rest) = expect(rest, Class::CloseBracket)?;
    let atom = RegexTree::Atom(Box::new(alloc, formula)?);
    Ok((atom, rest))
}

/// A regular expression that a parenthesis opens a level for.
#[cycle(regex)]
fn deeper_regex<'t>(
    alloc: Global,
    token: &Spelled<'t>,
    tokens: Tokens<'t>,
    left: u32,
) -> Read<'t, RegexTree>
    ensures read { Gives (λ x. (regex_data x.0, lexemes_of x.1.now)) result ((inside_regex left).regex (lexeme_of token.now) (lexemes_of tokens.now)) }
{
    if left == 0 {
        return Err(SyntaxFault::TooDeep(token.number));
    }
    regex(alloc, tokens, left - 1)
}

/// "(" regex ")"
#[cycle(regex)]
#[tactic(auto, unfolding(crate::specs::Regexes::group_of))]
fn group<'t>(alloc: Global, tokens: Tokens<'t>, left: u32) -> Read<'t, RegexTree>
    ensures read { Gives (λ x. (regex_data x.0, lexemes_of x.1.now)) result (group_of (inside_regex left) (lexemes_of tokens.now)) }
{
    let (opening, rest) = expect(tokens, Class::Open)?;
    let (inner, rest) = deeper_regex(alloc, opening, rest, left)?;
    let (_, rest) = expect(rest, Class::Close)?;
    Ok((inner, rest))
}

/// ratom = "[" expr "]" | "(" regex ")"
#[cycle(regex)]
#[tactic(auto, unfolding(crate::specs::Regexes::ratom_of))]
fn ratom<'t>(alloc: Global, tokens: Tokens<'t>, left: u32) -> Read<'t, RegexTree>
    ensures read { Gives (λ x. (regex_data x.0, lexemes_of x.1.now)) result (ratom_of (inside_regex left) (lexemes_of tokens.now)) }
{
    if starts(tokens, Class::OpenBracket) {
        return atom(alloc, tokens, left);
    }
    group(alloc, tokens, left)
}

/// post = ratom { "*" | "+" | "?" | "{" NUMBER [ "," NUMBER ] "}" }
#[cycle(regex)]
#[tactic(auto, unfolding(crate::specs::Regexes::post_of))]
fn post<'t>(alloc: Global, tokens: Tokens<'t>, left: u32) -> Read<'t, RegexTree>
    ensures read { Gives (λ x. (regex_data x.0, lexemes_of x.1.now)) result (post_of (inside_regex left) (lexemes_of tokens.now)) }
{
    let (first, rest) = ratom(alloc, tokens, left)?;
    repeats(alloc, first, rest)
}

/// post behind the parts so far.
#[cycle(regex)]
#[tactic(auto, unfolding(crate::specs::Regexes::follower_of))]
fn follower<'t>(
    alloc: Global,
    parts: Vec<RegexTree>,
    tokens: Tokens<'t>,
    left: u32,
) -> Read<'t, Vec<RegexTree>>
    ensures read { Gives (λ x. (map regex_data x.0.items, lexemes_of x.1.now)) result (follower_of (inside_regex left) (map regex_data parts.items) (lexemes_of tokens.now)) }
{
    let (next, rest) = post(alloc, tokens, left)?;
    let mut parts = parts;
    parts.push(next)?;
    Ok((parts, rest))
}

/// { post } behind a first part.
#[cycle(regex)]
fn followers<'t>(
    alloc: Global,
    first: Vec<RegexTree>,
    tokens: Tokens<'t>,
    left: u32,
) -> Read<'t, Vec<RegexTree>>
    ensures read { Gives (λ x. (map regex_data x.0.items, lexemes_of x.1.now)) result (all_of starts_ratom_lem (follower_of (inside_regex left)) (map regex_data first.items) (lexemes_of tokens.now)) }
{
    let (mut parts, mut rest) = begun(first, tokens);
    while starts_ratom(rest) {
        let (next, behind) = follower(alloc, parts, rest, left)?;
        parts = next;
        rest = behind;
    }
    Ok((parts, rest))
}

/// { post } behind a first part, once at least, as one tree.
#[cycle(regex)]
#[tactic(auto, unfolding(crate::specs::Regexes::followed_of))]
fn followed<'t>(
    alloc: Global,
    first: RegexTree,
    tokens: Tokens<'t>,
    left: u32,
) -> Read<'t, RegexTree>
    ensures read { Gives (λ x. (regex_data x.0, lexemes_of x.1.now)) result (followed_of (inside_regex left) (regex_data first) (lexemes_of tokens.now)) }
{
    let (second, rest) = post(alloc, tokens, left)?;
    let mut parts = Vec::new(alloc);
    parts.push(first)?;
    parts.push(second)?;
    let (parts, rest) = followers(alloc, parts, rest, left)?;
    Ok((RegexTree::Cat(parts), rest))
}

/// cat = post { post }
#[cycle(regex)]
#[tactic(auto, unfolding(crate::specs::Regexes::cat_of))]
fn cat<'t>(alloc: Global, tokens: Tokens<'t>, left: u32) -> Read<'t, RegexTree>
    ensures read { Gives (λ x. (regex_data x.0, lexemes_of x.1.now)) result (cat_of (inside_regex left) (lexemes_of tokens.now)) }
{
    let (first, rest) = post(alloc, tokens, left)?;
    if starts_ratom(rest) {
        return followed(alloc, first, rest, left);
    }
    Ok((first, rest))
}

/// "|" cat behind the parts so far.
#[cycle(regex)]
#[tactic(auto, unfolding(crate::specs::Regexes::branch_of))]
fn branch<'t>(
    alloc: Global,
    parts: Vec<RegexTree>,
    tokens: Tokens<'t>,
    left: u32,
) -> Read<'t, Vec<RegexTree>>
    ensures read { Gives (λ x. (map regex_data x.0.items, lexemes_of x.1.now)) result (branch_of (inside_regex left) (map regex_data parts.items) (lexemes_of tokens.now)) }
{
    let (_, rest) = expect(tokens, Class::Bar)?;
    let (next, rest) = cat(alloc, rest, left)?;
    let mut parts = parts;
    parts.push(next)?;
    Ok((parts, rest))
}

/// { "|" cat } behind a first part.
#[cycle(regex)]
fn branches<'t>(
    alloc: Global,
    first: Vec<RegexTree>,
    tokens: Tokens<'t>,
    left: u32,
) -> Read<'t, Vec<RegexTree>>
    ensures read { Gives (λ x. (map regex_data x.0.items, lexemes_of x.1.now)) result (all_of (starts_lem Class.Bar) (branch_of (inside_regex left)) (map regex_data first.items) (lexemes_of tokens.now)) }
{
    let (mut parts, mut rest) = begun(first, tokens);
    while starts(rest, Class::Bar) {
        let (next, behind) = branch(alloc, parts, rest, left)?;
        parts = next;
        rest = behind;
    }
    Ok((parts, rest))
}

/// { "|" cat } behind a first part, once at least, as one tree.
#[cycle(regex)]
#[tactic(auto, unfolding(crate::specs::Regexes::branched_of))]
fn branched<'t>(
    alloc: Global,
    first: RegexTree,
    tokens: Tokens<'t>,
    left: u32,
) -> Read<'t, RegexTree>
    ensures read { Gives (λ x. (regex_data x.0, lexemes_of x.1.now)) result (branched_of (inside_regex left) (regex_data first) (lexemes_of tokens.now)) }
{
    let (_, rest) = expect(tokens, Class::Bar)?;
    let (second, rest) = cat(alloc, rest, left)?;
    let mut parts = Vec::new(alloc);
    parts.push(first)?;
    parts.push(second)?;
    let (parts, rest) = branches(alloc, parts, rest, left)?;
    Ok((RegexTree::Alt(parts), rest))
}

/// regex = cat { "|" cat }
#[cycle(regex)]
#[tactic(auto, unfolding(crate::specs::Regexes::regex_of))]
pub fn regex<'t>(alloc: Global, tokens: Tokens<'t>, left: u32) -> Read<'t, RegexTree>
    ensures read { Gives (λ x. (regex_data x.0, lexemes_of x.1.now)) result (regex_of (inside_regex left) (lexemes_of tokens.now)) }
{
    let (first, rest) = cat(alloc, tokens, left)?;
    if starts(rest, Class::Bar) {
        return branched(alloc, first, rest, left);
    }
    Ok((first, rest))
}
