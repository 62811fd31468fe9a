//! The tokens of a text: words, names, numbers, quoted texts and signs, each with its slice, line and column; or the
//! first fault of the text, with its place.
//!
//! The tokens are a relation by cases on the text's characters: its first characters say which piece is at its front (a
//! blank, a comment or a token), and each piece is as long as it can be. A name is by Unicode's XID properties
//! (Unicode Standard Annex 31), in the version of the crate `unicode_ident`.
//!
//! Contract: `lex` answers the text's tokens, or the one fault that it has, exactly where it is. Path: text → **tokens**
//! → trees.
#![tactic(auto)]

mod beginning;
mod characters;
mod fault;
mod laws;
mod lexing;
mod opening;
mod pieces;
mod spot;
mod token;
mod words;

pub use fault::LexFault;
pub use laws::{
    no_text_has_two_lists_of_tokens, no_text_has_two_places_of_a_fault, tokens_are_slices,
    tokens_or_a_fault,
};
pub use lexing::{MAX_BYTES, lex};
pub use token::{Kind, Token};
