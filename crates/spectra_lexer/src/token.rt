//! A token and its kind.

/// What a token is.
#[derive(Clone, Copy, PartialEq, Eq)]
pub enum Kind {
    /// A reserved word.
    Word,
    /// A word that isn't reserved.
    Name,
    /// A run of digits.
    Number,
    /// A quoted text, its quotation marks included.
    Text,
    /// A sign.
    Sign,
    /// The end of the text, one past its last character.
    Finish,
}

/// A token: its kind, its slice `from..to` of the text in bytes, and the place of its first character, from 1:1.
#[derive(Clone, Copy, PartialEq, Eq)]
pub struct Token {
    pub kind: Kind,
    pub from: u32,
    pub to: u32,
    pub line: u32,
    pub column: u32,
}
