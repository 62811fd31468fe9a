//! What a token is for the grammar: which reserved word or sign, or a name, a number or a text.

ghost use Rattle.std.specs.Prelude.{◌≡◌};
ghost use Rattle.spectra_trees.specs.Classes.{class_of as class_of_lem, place_of, same_class};

use crate::spellings::{sign_class, word_class};
use spectra_lexer::Kind;

/// What a token is for the grammar. Words and signs of one meaning are one class, as the tables of `spellings` have them.
#[derive(Clone, Copy, PartialEq, Eq)]
pub enum Class {
    Head,
    Import,
    Env,
    Sys,
    Aux,
    Boolean,
    Int,
    TypeWord,
    Define,
    Predicate,
    Pattern,
    Var,
    Monitor,
    Asm,
    Gar,
    Ini,
    Alw,
    AlwEv,
    Trig,
    Next,
    True,
    False,
    Not,
    Prev,
    Once,
    Historically,
    Implies,
    Iff,
    Since,
    Triggered,
    And,
    Or,
    /// The sign `|`, which also stands between regular expressions.
    Bar,
    Equal,
    Unequal,
    Less,
    AtMost,
    Greater,
    AtLeast,
    Plus,
    Minus,
    Star,
    Mod,
    ForAll,
    Exists,
    In,
    Then,
    Becomes,
    UpTo,
    Question,
    Colon,
    Semicolon,
    Comma,
    Open,
    Close,
    OpenBracket,
    CloseBracket,
    OpenBrace,
    CloseBrace,
    Name,
    Number,
    Text,
    /// The end of the text.
    Finish,
    /// A word or a sign that the grammar doesn't have.
    Unknown,
}

/// What a token of a kind is for the grammar, by its text.
#[tactic(auto, unfolding(crate::specs::Classes::class_of))]
pub fn class_of(kind: Kind, text: &str) -> Class
    ensures { result ≡ class_of_lem kind text.now }
{
    match kind {
        Kind::Word => word_class(text),
        Kind::Sign => sign_class(text),
        Kind::Name => Class::Name,
        Kind::Number => Class::Number,
        Kind::Text => Class::Text,
        Kind::Finish => Class::Finish,
    }
}

/// The place of a class in its declaration, which tells it apart.
#[tactic(auto, unfolding(crate::specs::Classes::place_of))]
fn place(class: Class) -> u8
    ensures { result ≡ place_of class }
{
    class as u8
}

/// Whether two classes are the same.
#[tactic(auto, unfolding(crate::specs::Classes::same_class))]
pub fn is_same(one: Class, other: Class) -> bool
    ensures { result ≡ same_class one other }
{
    place(one) == place(other)
}
