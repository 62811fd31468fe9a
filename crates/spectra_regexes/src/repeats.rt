//! What may stand behind a regular expression: how often it is repeated.

ghost use Rattle.std.specs.Prelude.{◌≡◌, ◌<◌, IfErr, string_bytes};
ghost use Rattle.spectra_trees.specs.Views.{regex_data, repeat_data, lexemes_of};
ghost use Rattle.spectra_exprs.specs.Read.{Gives, all_of};
ghost use Rattle.spectra_regexes.specs.Regexes.{between_of, exactly_of, counted as counted_lem, repeat as repeat_lem, starts_repeat as starts_repeat_lem, repeated as repeated_lem};

use spectra_exprs::fault::SyntaxFault;
use spectra_exprs::operators::{Read, Tokens, begun, expect, starts};
use spectra_trees::class::Class;
use spectra_trees::lexeme::{Spelled, is};
use spectra_trees::tree::{RegexTree, RepeatTree};
use std::alloc::Global;

/// "," NUMBER "}" behind "{" NUMBER.
#[tactic(auto, unfolding(crate::specs::Regexes::between_of))]
pub fn between<'t>(alloc: Global, low: String, tokens: Tokens<'t>) -> Read<'t, RepeatTree>
    ensures read { Gives (λ x. (repeat_data x.0, lexemes_of x.1.now)) result (between_of (string_bytes low) (lexemes_of tokens.now)) }
{
    let (_, rest) = expect(tokens, Class::Comma)?;
    let (high, rest) = expect(rest, Class::Number)?;
    let (_, rest) = expect(rest, Class::CloseBrace)?;
    let high = String::from_str(alloc, high.text)?;
    Ok((RepeatTree::Between(low, high), rest))
}

/// "}" behind "{" NUMBER.
#[tactic(auto, unfolding(crate::specs::Regexes::exactly_of))]
pub fn exactly<'t>(low: String, tokens: Tokens<'t>) -> Read<'t, RepeatTree>
    ensures read { Gives (λ x. (repeat_data x.0, lexemes_of x.1.now)) result (exactly_of (string_bytes low) (lexemes_of tokens.now)) }
    ensures told { IfErr result (λ e. e ≡ SyntaxFault.Memory → ⊥) }
{
    let (_, rest) = expect(tokens, Class::CloseBrace)?;
    Ok((RepeatTree::Exactly(low), rest))
}

/// "{" NUMBER [ "," NUMBER ] "}"
#[tactic(auto, unfolding(crate::specs::Regexes::counted))]
pub fn counted<'t>(alloc: Global, tokens: Tokens<'t>) -> Read<'t, RepeatTree>
    ensures read { Gives (λ x. (repeat_data x.0, lexemes_of x.1.now)) result (counted_lem (lexemes_of tokens.now)) }
{
    let (_, rest) = expect(tokens, Class::OpenBrace)?;
    let (low, rest) = expect(rest, Class::Number)?;
    let low = String::from_str(alloc, low.text)?;
    if starts(rest, Class::Comma) {
        return between(alloc, low, rest);
    }
    exactly(low, rest)
}

/// "*" | "+" | "?" | "{" NUMBER [ "," NUMBER ] "}"
#[tactic(auto, unfolding(crate::specs::Regexes::repeat))]
pub fn repeat<'t>(alloc: Global, tokens: Tokens<'t>) -> Read<'t, RepeatTree>
    ensures read { Gives (λ x. (repeat_data x.0, lexemes_of x.1.now)) result (repeat_lem (lexemes_of tokens.now)) }
{
    let Some((token, rest)) = tokens.split_first() else {
        return Err(SyntaxFault::Unexpected(0));
    };
    if is(token, Class::Star) {
        return Ok((RepeatTree::Star, rest));
    }
    if is(token, Class::Plus) {
        return Ok((RepeatTree::Plus, rest));
    }
    if is(token, Class::Question) {
        return Ok((RepeatTree::Optional, rest));
    }
    counted(alloc, tokens)
}

/// Whether a part is repeated.
#[tactic(auto, unfolding(crate::specs::Regexes::starts_repeat))]
pub fn starts_repeat(tokens: &[Spelled<'_>]) -> bool
    ensures { result ≡ starts_repeat_lem (lexemes_of tokens.now) }
{
    starts(tokens, Class::Star)
        || starts(tokens, Class::Plus)
        || starts(tokens, Class::Question)
        || starts(tokens, Class::OpenBrace)
}

/// One more repeat of a part.
#[tactic(auto, unfolding(crate::specs::Regexes::repeated))]
pub fn repeated<'t>(alloc: Global, part: RegexTree, tokens: Tokens<'t>) -> Read<'t, RegexTree>
    ensures read { Gives (λ x. (regex_data x.0, lexemes_of x.1.now)) result (repeated_lem (regex_data part) (lexemes_of tokens.now)) }
{
    let (times, rest) = repeat(alloc, tokens)?;
    let part = RegexTree::Repeat(Box::new(alloc, part)?, times);
    Ok((part, rest))
}

/// { "*" | "+" | "?" | "{" NUMBER [ "," NUMBER ] "}" } behind a part.
pub fn repeats<'t>(alloc: Global, first: RegexTree, tokens: Tokens<'t>) -> Read<'t, RegexTree>
    ensures read { Gives (λ x. (regex_data x.0, lexemes_of x.1.now)) result (all_of starts_repeat_lem repeated_lem (regex_data first) (lexemes_of tokens.now)) }
{
    let (mut part, mut rest) = begun(first, tokens);
    while starts_repeat(rest) {
        let (next, behind) = repeated(alloc, part, rest)?;
        part = next;
        rest = behind;
    }
    Ok((part, rest))
}
