//! The words of a line, and what they give a variable.

ghost use Rattle.std.specs.Prelude.{◌≡◌, ◌<◌, [], ◌∷◌, ◌++◌, List, ℕ, Some, None, length, map, filter, not, ◌==◌, IfSome, IfNone};
ghost use Rattle.std.specs.List.{position, list_all};
ghost use Rattle.std.specs.Option.{option_copied};
ghost use Rattle.spec_model.specs.Views.{variable_data};
ghost use Rattle.session_lines.specs.Reading.{is_blank as blank_test, words, after_sign, after_name, texts_given, names_one};

use spec_model::value::Var;

/// Whether a byte separates words.
pub fn is_blank(byte: u8) -> bool
    ensures { result ≡ blank_test byte }
{
    byte == b' ' || byte == b'\t'
}

// The place of the first blank.
fn blank_at(line: &[u8]) -> Option<usize>
    ensures { result ≡ position blank_test line.now }
{
    line.iter().position(|byte| is_blank(*byte))
}

// What stands before the first blank, and what follows it.
fn cut(line: &[u8]) -> (&[u8], &[u8])
    requires { 0 < length line.now }
    ensures words { words line.now ≡ filter (λ w. not (length w == 0)) (result.0.now ∷ []) ++ words result.1.now }
    ensures shorter { length result.1.now < length line.now }
{
    match blank_at(line) {
        Some(at) => (&line[..at], &line[at + 1..]),
        None => (line, &line[line.len()..]),
    }
}

// What follows an equals sign.
fn text_after_sign(bytes: &[u8]) -> Option<&[u8]>
    ensures { option_copied result ≡ after_sign bytes.now }
{
    match bytes.split_first() {
        Some((&b'=', text)) => Some(text),
        _ => None,
    }
}

// What follows the name and `=`, where the word begins with them.
fn text_in<'a>(name: &str, word: &'a [u8]) -> Option<&'a [u8]>
    ensures { option_copied result ≡ after_name name.now word.now }
{
    match word.strip_prefix(name.as_bytes()) {
        Some(after) => text_after_sign(after),
        None => None,
    }
}

/// The text of the variable's item, where a line begins with that item, and what follows it.
pub fn first_item<'a>(var: &Var, line: &'a [u8]) -> Option<(&'a [u8], &'a [u8])>
    ensures { IfSome result (λ found. words line.now ≡ ((variable_data var.now).name ++ 61 ∷ found.0.now) ∷ words found.1.now) }
{
    if line.is_empty() {
        return None;
    }
    let (word, after) = cut(line);
    match text_in(&var.name, word) {
        Some(text) => Some((text, after)),
        None => None,
    }
}

// The first text that the words of a line give the variable, and what follows its word.
fn first_text<'a>(var: &Var, line: &'a [u8]) -> Option<(&'a [u8], &'a [u8])>
    ensures some { IfSome result (λ found. texts_given (variable_data var.now) (words line.now)
        ≡ found.0.now ∷ texts_given (variable_data var.now) (words found.1.now)) }
    ensures none { IfNone result (texts_given (variable_data var.now) (words line.now) ≡ []) }
{
    let mut rest = line;
    while !rest.is_empty() {
        let (word, after) = cut(rest);
        if let Some(text) = text_in(&var.name, word) {
            return Some((text, after));
        }
        rest = after;
    }
    None
}

/// The text that the words of a line give the variable, where they give it one and no other.
pub fn one_text<'a>(var: &Var, line: &'a [u8]) -> Option<&'a [u8]>
    ensures some { IfSome result (λ text. texts_given (variable_data var.now) (words line.now) ≡ text.now ∷ []) }
    ensures none { IfNone result ((text : List ℕ) → texts_given (variable_data var.now) (words line.now) ≡ text ∷ [] → ⊥) }
{
    let (text, after) = first_text(var, line)?;
    match first_text(var, after) {
        Some(_) => None,
        None => Some(text),
    }
}

// Whether the word is an item of one of the variables.
fn names_some(vars: &[Var], word: &[u8]) -> bool
    ensures { result ≡ names_one (map variable_data vars.now) word.now }
{
    for var in vars {
        if text_in(&var.name, word).is_some() {
            return true;
        }
    }
    false
}

/// Whether each word of a line is an item of one of the variables.
pub fn all_known(vars: &[Var], line: &[u8]) -> bool
    ensures { result ≡ list_all (names_one (map variable_data vars.now)) (words line.now) }
{
    let mut rest = line;
    while !rest.is_empty() {
        let (word, after) = cut(rest);
        if !word.is_empty() && !names_some(vars, word) {
            return false;
        }
        rest = after;
    }
    true
}
