//! Tokens and operators at the front of what is left to read.

ghost use Rattle.std.specs.Prelude.{◌≡◌, ◌<◌, IfErr, option_map};
ghost use Rattle.spectra_trees.specs.Views.{expr_data, lexeme_of, lexemes_of};
ghost use Rattle.spectra_exprs.specs.Read.{Gives, first_number as first_number_lem, starts as starts_lem, expect as expect_lem};
ghost use Rattle.spectra_exprs.specs.Operators.{prefix_word as prefix_word_lem, arrow_word as arrow_word_lem, past_word as past_word_lem, relation_word as relation_word_lem, sum_word as sum_word_lem, operator_word as operator_word_lem, joins as joins_lem, is_operator as is_operator_lem};
ghost use Rattle.spectra_exprs.specs.OperatorReaders.{operator_at, prefix_at, starts_sum as starts_sum_lem, starts_or as starts_or_lem, expect_or as expect_or_lem, closed as closed_lem};

use crate::fault::SyntaxFault;
use spectra_trees::class::{Class, is_same};
use spectra_trees::lexeme::{Spelled, is};
use spectra_trees::tree::{BinaryWord, ExprTree, Place, PrefixWord};

/// What is left to read.
pub type Tokens<'t> = &'t [Spelled<'t>];

/// What was read at the front, and what is left behind it; or the fault at which reading stops.
pub type Read<'t, T> = Result<(T, Tokens<'t>), SyntaxFault>;

/// Between what an operator stands.
#[derive(Clone, Copy)]
pub enum Level {
    /// Two disjunctions.
    Arrow,
    /// Two single operands, about the past.
    Past,
    /// Two sums.
    Relation,
    /// Two products.
    Sum,
}

/// The number of the first token.
#[tactic(auto, unfolding(crate::specs::Read::first_number))]
pub fn first_number(tokens: &[Spelled<'_>]) -> u32
    ensures { result ≡ first_number_lem (lexemes_of tokens.now) }
{
    match tokens.split_first() {
        Some((token, _)) => token.number,
        None => 0,
    }
}

/// Whether the first token is of a class.
#[tactic(auto, unfolding(crate::specs::Read::starts))]
pub fn starts(tokens: &[Spelled<'_>], class: Class) -> bool
    ensures { result ≡ starts_lem class (lexemes_of tokens.now) }
{
    match tokens.split_first() {
        Some((token, _)) => is(token, class),
        None => false,
    }
}

/// One token of a class.
#[tactic(auto, unfolding(crate::specs::Read::expect))]
pub fn expect<'t>(tokens: Tokens<'t>, class: Class) -> Read<'t, &'t Spelled<'t>>
    ensures read { Gives (λ x. (lexeme_of x.0.now, lexemes_of x.1.now)) result (expect_lem class (lexemes_of tokens.now)) }
    ensures told { IfErr result (λ e. e ≡ SyntaxFault.Memory → ⊥) }
{
    match tokens.split_first() {
        Some((token, rest)) => {
            if is(token, class) {
                Ok((token, rest))
            } else {
                Err(SyntaxFault::Unexpected(token.number))
            }
        }
        None => Err(SyntaxFault::Unexpected(0)),
    }
}

/// PREFIX = "!" | "not" | "PREV" | "Y" | "ONCE" | "O" | "HISTORICALLY" | "H"
#[tactic(auto, unfolding(crate::specs::Operators::prefix_word))]
fn prefix_word(class: Class) -> Option<PrefixWord>
    ensures { result ≡ prefix_word_lem class }
{
    if is_same(class, Class::Not) {
        Some(PrefixWord::Not)
    } else if is_same(class, Class::Prev) {
        Some(PrefixWord::Prev)
    } else if is_same(class, Class::Once) {
        Some(PrefixWord::Once)
    } else if is_same(class, Class::Historically) {
        Some(PrefixWord::Historically)
    } else {
        None
    }
}

/// "->" | "implies" | "<->" | "iff"
#[tactic(auto, unfolding(crate::specs::Operators::arrow_word))]
fn arrow_word(class: Class) -> Option<BinaryWord>
    ensures { result ≡ arrow_word_lem class }
{
    if is_same(class, Class::Implies) {
        Some(BinaryWord::Implies)
    } else if is_same(class, Class::Iff) {
        Some(BinaryWord::Iff)
    } else {
        None
    }
}

/// "SINCE" | "S" | "TRIGGERED" | "T"
#[tactic(auto, unfolding(crate::specs::Operators::past_word))]
fn past_word(class: Class) -> Option<BinaryWord>
    ensures { result ≡ past_word_lem class }
{
    if is_same(class, Class::Since) {
        Some(BinaryWord::Since)
    } else if is_same(class, Class::Triggered) {
        Some(BinaryWord::Triggered)
    } else {
        None
    }
}

/// "=" | "!=" | "<" | "<=" | ">" | ">="
#[tactic(auto, unfolding(crate::specs::Operators::relation_word))]
fn relation_word(class: Class) -> Option<BinaryWord>
    ensures { result ≡ relation_word_lem class }
{
    if is_same(class, Class::Equal) {
        Some(BinaryWord::Eq)
    } else if is_same(class, Class::Unequal) {
        Some(BinaryWord::Ne)
    } else if is_same(class, Class::Less) {
        Some(BinaryWord::Lt)
    } else if is_same(class, Class::AtMost) {
        Some(BinaryWord::Le)
    } else if is_same(class, Class::Greater) {
        Some(BinaryWord::Gt)
    } else if is_same(class, Class::AtLeast) {
        Some(BinaryWord::Ge)
    } else {
        None
    }
}

/// "+" | "-"
#[tactic(auto, unfolding(crate::specs::Operators::sum_word))]
fn sum_word(class: Class) -> Option<BinaryWord>
    ensures { result ≡ sum_word_lem class }
{
    if is_same(class, Class::Plus) {
        Some(BinaryWord::Add)
    } else if is_same(class, Class::Minus) {
        Some(BinaryWord::Sub)
    } else {
        None
    }
}

/// The operator of a level that a class is.
fn operator_word(level: Level, class: Class) -> Option<BinaryWord>
    ensures { result ≡ operator_word_lem level class }
{
    match level {
        Level::Arrow => arrow_word(class),
        Level::Past => past_word(class),
        Level::Relation => relation_word(class),
        Level::Sum => sum_word(class),
    }
}

/// An operator of a level at the front, with its place, and what is behind it.
#[tactic(auto, unfolding(crate::specs::OperatorReaders::operator_at))]
pub fn take_operator<'t>(
    tokens: Tokens<'t>,
    level: Level,
) -> Option<(Place, BinaryWord, &'t [Spelled<'t>])>
    ensures read { option_map (λ x. ((x.0, x.1), lexemes_of x.2.now)) result ≡ operator_at level (lexemes_of tokens.now) }
{
    let (token, rest) = tokens.split_first()?;
    let word = operator_word(level, token.class)?;
    Some((token.at, word, rest))
}

/// PREFIX at the front, and what is behind it.
#[tactic(auto, unfolding(crate::specs::OperatorReaders::prefix_at))]
pub fn take_prefix<'t>(
    tokens: Tokens<'t>,
) -> Option<(&'t Spelled<'t>, PrefixWord, &'t [Spelled<'t>])>
    ensures read { option_map (λ x. ((lexeme_of x.0.now, x.1), lexemes_of x.2.now)) result ≡ prefix_at (lexemes_of tokens.now) }
{
    let (token, rest) = tokens.split_first()?;
    let word = prefix_word(token.class)?;
    Some((token, word, rest))
}

/// What a loop begins with: what was read so far, and the tokens behind it.
pub fn begun<'t, T>(first: T, tokens: Tokens<'t>) -> (T, &'t [Spelled<'t>])
    ensures first { result.0 ≡ first }
    ensures rest { result.1.now ≡ tokens.now }
{
    (first, tokens)
}

/// Whether a sum goes on.
#[tactic(auto, unfolding(crate::specs::OperatorReaders::starts_sum))]
pub fn starts_sum(tokens: &[Spelled<'_>]) -> bool
    ensures { result ≡ starts_sum_lem (lexemes_of tokens.now) }
{
    starts(tokens, Class::Plus) || starts(tokens, Class::Minus)
}

/// Whether a disjunction goes on: by the sign or by the word.
#[tactic(auto, unfolding(crate::specs::OperatorReaders::starts_or))]
pub fn starts_or(tokens: &[Spelled<'_>]) -> bool
    ensures { result ≡ starts_or_lem (lexemes_of tokens.now) }
{
    starts(tokens, Class::Bar) || starts(tokens, Class::Or)
}

/// "|" | "or"
#[tactic(auto, unfolding(crate::specs::OperatorReaders::expect_or))]
pub fn expect_or<'t>(tokens: Tokens<'t>) -> Read<'t, &'t Spelled<'t>>
    ensures read { Gives (λ x. (lexeme_of x.0.now, lexemes_of x.1.now)) result (expect_or_lem (lexemes_of tokens.now)) }
    ensures told { IfErr result (λ e. e ≡ SyntaxFault.Memory → ⊥) }
{
    if starts(tokens, Class::Bar) {
        return expect(tokens, Class::Bar);
    }
    expect(tokens, Class::Or)
}

/// Whether a class is an operator that stands alone at its level.
#[tactic(auto, unfolding(crate::specs::Operators::joins))]
fn joins(class: Class) -> bool
    ensures { result ≡ joins_lem class }
{
    is_same(class, Class::And)
        || is_same(class, Class::Or)
        || is_same(class, Class::Bar)
        || is_same(class, Class::Star)
        || is_same(class, Class::Mod)
}

/// Whether a class is an operator between operands.
#[tactic(auto, unfolding(crate::specs::Operators::is_operator))]
pub fn is_operator(class: Class) -> bool
    ensures { result ≡ is_operator_lem class }
{
    joins(class)
        || arrow_word(class).is_some()
        || past_word(class).is_some()
        || relation_word(class).is_some()
        || sum_word(class).is_some()
}

/// What was read, where no operator follows. An operator behind a whole expression wants parentheses.
#[tactic(auto, unfolding(crate::specs::OperatorReaders::closed))]
pub fn closed<'t>(tree: Box<ExprTree>, tokens: Tokens<'t>) -> Read<'t, Box<ExprTree>>
    ensures read { Gives (λ x. (expr_data x.0.value, lexemes_of x.1.now)) result (closed_lem (expr_data tree.value) (lexemes_of tokens.now)) }
    ensures told { IfErr result (λ e. e ≡ SyntaxFault.Memory → ⊥) }
{
    match tokens.split_first() {
        Some((token, _)) if is_operator(token.class) => Err(SyntaxFault::Parentheses(token.number)),
        _ => Ok((tree, tokens)),
    }
}
