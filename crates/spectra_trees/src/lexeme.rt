//! A token with its text, its class and its number.

ghost use Rattle.std.specs.Prelude.{◌≡◌, ◌≤◌, ◌<◌, ◌^◌, ◌-◌, IfOk, take, drop, length};
ghost use Rattle.std.specs.Str.{IsUtf8};
ghost use Rattle.spectra_lexer.specs.Slices.{AreSlices};
ghost use Rattle.spectra_trees.specs.Lexemes.{lexeme as lexeme_lem, lexemes_from, name_of};
ghost use Rattle.spectra_trees.specs.Classes.{same_class};
ghost use Rattle.spectra_trees.specs.Views.{name_data, lexeme_of, lexemes_of};

use crate::class::{Class, class_of, is_same};
use crate::tree::{Name, Place};
use spectra_lexer::Token;
use std::alloc::{AllocError, Global};

/// A token with its text: what it is for the grammar, where it stands, and its number in the list, from 0.
#[derive(Clone, Copy)]
pub struct Spelled<'a> {
    pub class: Class,
    pub text: &'a str,
    pub at: Place,
    pub number: u32,
}

/// Whether a token is of a class.
pub fn is(token: &Spelled<'_>, class: Class) -> bool
    ensures { result ≡ same_class (lexeme_of token.now).class class }
{
    is_same(token.class, class)
}

/// The name that a token is.
pub fn name(alloc: Global, token: &Spelled<'_>) -> Result<Name, AllocError>
    ensures { IfOk result (λ n. name_data n ≡ name_of (lexeme_of token.now)) }
{
    Ok(Name {
        text: String::from_str(alloc, token.text)?,
        line: token.at.line,
        column: token.at.column,
    })
}

/// A token with its slice of the text.
fn spell<'a>(text: &'a [u8], token: &Token, number: u32) -> Spelled<'a>
    requires forward { token.now.from ≤ token.now.to }
    requires within { token.now.to ≤ length text.now }
    requires utf8 { IsUtf8 (take (token.now.to - token.now.from) (drop token.now.from text.now)) }
    ensures { lexeme_of result ≡ lexeme_lem text.entry.now number token.now }
{
    let slice = &text[token.from as usize..token.to as usize];
    let text = str::from_utf8(slice).unwrap();
    Spelled {
        class: class_of(token.kind, text),
        text,
        at: Place {
            line: token.line,
            column: token.column,
        },
        number,
    }
}

/// The tokens of a text with their slices of it, numbered from 0.
pub fn spell_all<'a>(
    alloc: Global,
    text: &'a [u8],
    tokens: &[Token],
) -> Result<Vec<Spelled<'a>>, AllocError>
    requires slices { AreSlices text.now 0 tokens.now }
    requires few { length tokens.now < 2 ^ 32 }
    ensures { IfOk result (λ found. lexemes_of found.items ≡ lexemes_from text.entry.now 0 tokens.now) }
{
    let mut found = Vec::with_capacity(alloc, tokens.len())?;
    let mut number = 0;
    for token in tokens {
        found.push(spell(text, token, number))?;
        number += 1;
    }
    Ok(found)
}
