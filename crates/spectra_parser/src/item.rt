//! Items and whole texts: one function for each production.

ghost use Rattle.std.specs.Prelude.{◌≡◌, ◌<◌, map, IfOk, IfErr};
ghost use Rattle.spectra_trees.specs.Views.{item_data, name_data, tree_data, lexeme_of, lexemes_of};
ghost use Rattle.spectra_exprs.specs.Read.{Gives, starts as starts_lem, all_of};
ghost use Rattle.spectra_parser.specs.Items.{declaration as declaration_lem, import_after as import_after_lem, imported as imported_lem, item_after as item_after_lem, owner_word as owner_word_lem, role_word as role_word_lem, semicolon as semicolon_lem, before_end, item_of, text_of};

use crate::braces::{monitor, pattern};
use crate::declaration::{define, predicate, typedecl, vardecl};
use crate::lines::line;
use crate::quotes::unquoted;
use spec_model::spec::Role;
use spectra_exprs::fault::SyntaxFault;
use spectra_exprs::operators::{Read, Tokens, begun, expect, starts};
use spectra_trees::class::{Class, is_same};
use spectra_trees::lexeme::{Spelled, is, name};
use spectra_trees::tree::{Item, Name, OwnerWord, Tree};
use std::alloc::Global;

/// "env" | "sys" | "aux"
#[tactic(auto, unfolding(crate::specs::ItemGrammar::owner_word))]
fn owner_word(class: Class) -> Option<OwnerWord>
    ensures { result ≡ owner_word_lem class }
{
    if is_same(class, Class::Env) {
        Some(OwnerWord::Env)
    } else if is_same(class, Class::Sys) {
        Some(OwnerWord::Sys)
    } else if is_same(class, Class::Aux) {
        Some(OwnerWord::Aux)
    } else {
        None
    }
}

/// ASM and GAR.
#[tactic(auto, unfolding(crate::specs::ItemGrammar::role_word))]
fn role_word(class: Class) -> Option<Role>
    ensures { result ≡ role_word_lem class }
{
    if is_same(class, Class::Asm) {
        Some(Role::Assumption)
    } else if is_same(class, Class::Gar) {
        Some(Role::Guarantee)
    } else {
        None
    }
}

/// typedecl | define | predicate | pattern | monitor
#[tactic(auto, unfolding(crate::specs::Items::declaration))]
fn declaration<'t>(alloc: Global, tokens: Tokens<'t>) -> Read<'t, Item>
    ensures read { Gives (λ x. (item_data x.0, lexemes_of x.1.now)) result (declaration_lem (lexemes_of tokens.now)) }
{
    let Some((token, rest)) = tokens.split_first() else {
        return Err(SyntaxFault::Unexpected(0));
    };
    if is(token, Class::TypeWord) {
        return typedecl(alloc, token.at, rest);
    }
    if is(token, Class::Define) {
        return define(alloc, token.at, rest);
    }
    if is(token, Class::Predicate) {
        return predicate(alloc, token.at, rest);
    }
    if is(token, Class::Pattern) {
        return pattern(alloc, token.at, rest);
    }
    if is(token, Class::Monitor) {
        return monitor(alloc, token.at, rest);
    }
    Err(SyntaxFault::Unexpected(token.number))
}

/// item = vardecl | typedecl | define | predicate | pattern | monitor | line
#[tactic(auto, unfolding(crate::specs::Items::item_of))]
fn item<'t>(alloc: Global, tokens: Tokens<'t>) -> Read<'t, Item>
    ensures read { Gives (λ x. (item_data x.0, lexemes_of x.1.now)) result (item_of (lexemes_of tokens.now)) }
{
    let Some((token, rest)) = tokens.split_first() else {
        return Err(SyntaxFault::Unexpected(0));
    };
    if let Some(owner) = owner_word(token.class) {
        return vardecl(alloc, token.at, owner, rest);
    }
    match role_word(token.class) {
        Some(role) => line(alloc, token.at, role, rest),
        None => declaration(alloc, tokens),
    }
}

/// item behind the items so far.
#[tactic(auto, unfolding(crate::specs::Items::item_after))]
fn item_after<'t>(alloc: Global, items: Vec<Item>, tokens: Tokens<'t>) -> Read<'t, Vec<Item>>
    ensures read { Gives (λ x. (map item_data x.0.items, lexemes_of x.1.now)) result (item_after_lem (map item_data items.items) (lexemes_of tokens.now)) }
{
    let (next, rest) = item(alloc, tokens)?;
    let mut items = items;
    items.push(next)?;
    Ok((items, rest))
}

/// Whether more than the end of the text is left.
#[tactic(auto, unfolding(crate::specs::Items::at_end, crate::specs::Items::before_end))]
fn is_before_end(tokens: &[Spelled<'_>]) -> bool
    ensures { result ≡ before_end (lexemes_of tokens.now) }
{
    match tokens {
        [token] => !is(token, Class::Finish),
        _ => true,
    }
}

/// { item } behind the items so far, up to the end of the text.
fn more_items<'t>(alloc: Global, first: Vec<Item>, tokens: Tokens<'t>) -> Read<'t, Vec<Item>>
    ensures read { Gives (λ x. (map item_data x.0.items, lexemes_of x.1.now)) result (all_of before_end item_after_lem (map item_data first.items) (lexemes_of tokens.now)) }
{
    let (mut items, mut rest) = begun(first, tokens);
    while is_before_end(rest) {
        let (next, behind) = item_after(alloc, items, rest)?;
        items = next;
        rest = behind;
    }
    Ok((items, rest))
}

/// A quoted text without its quotes, at the place of the word `import`.
fn imported(alloc: Global, word: &Spelled<'_>, quoted: &Spelled<'_>) -> Result<Name, SyntaxFault>
    ensures read { IfOk result (λ n. name_data n ≡ imported_lem (lexeme_of word.now) (lexeme_of quoted.now)) }
    ensures memory { IfErr result (λ e. e ≡ SyntaxFault.Memory) }
{
    Ok(Name {
        text: String::from_str(alloc, unquoted(quoted.text))?,
        line: word.at.line,
        column: word.at.column,
    })
}

/// [ ";" ]
#[tactic(auto, unfolding(crate::specs::Items::semicolon))]
fn semicolon<'t>(names: Vec<Name>, tokens: Tokens<'t>) -> Read<'t, Vec<Name>>
    ensures read { Gives (λ x. (map name_data x.0.items, lexemes_of x.1.now)) result (semicolon_lem (map name_data names.items) (lexemes_of tokens.now)) }
    ensures told { IfErr result (λ e. e ≡ SyntaxFault.Memory → ⊥) }
{
    if !starts(tokens, Class::Semicolon) {
        return Ok((names, tokens));
    }
    let (_, rest) = expect(tokens, Class::Semicolon)?;
    Ok((names, rest))
}

/// import = "import" TEXT [ ";" ], behind the imports so far.
#[tactic(auto, unfolding(crate::specs::Items::import_after))]
fn import_after<'t>(alloc: Global, imports: Vec<Name>, tokens: Tokens<'t>) -> Read<'t, Vec<Name>>
    ensures read { Gives (λ x. (map name_data x.0.items, lexemes_of x.1.now)) result (import_after_lem (map name_data imports.items) (lexemes_of tokens.now)) }
{
    let (word, rest) = expect(tokens, Class::Import)?;
    let (quoted, rest) = expect(rest, Class::Text)?;
    let next = imported(alloc, word, quoted)?;
    let mut imports = imports;
    imports.push(next)?;
    semicolon(imports, rest)
}

/// { import } behind the imports so far.
fn more_imports<'t>(alloc: Global, first: Vec<Name>, tokens: Tokens<'t>) -> Read<'t, Vec<Name>>
    ensures read { Gives (λ x. (map name_data x.0.items, lexemes_of x.1.now)) result (all_of (starts_lem Class.Import) import_after_lem (map name_data first.items) (lexemes_of tokens.now)) }
{
    let (mut imports, mut rest) = begun(first, tokens);
    while starts(rest, Class::Import) {
        let (next, behind) = import_after(alloc, imports, rest)?;
        imports = next;
        rest = behind;
    }
    Ok((imports, rest))
}

/// text = { import } ( "spec" | "module" ) NAME { item }
#[tactic(auto, unfolding(crate::specs::Items::text_of))]
pub fn text<'t>(alloc: Global, tokens: Tokens<'t>) -> Read<'t, Tree>
    ensures read { Gives (λ x. (tree_data x.0, lexemes_of x.1.now)) result (text_of (lexemes_of tokens.now)) }
{
    let (imports, rest) = more_imports(alloc, Vec::new(alloc), tokens)?;
    let (_, rest) = expect(rest, Class::Head)?;
    let (token, rest) = expect(rest, Class::Name)?;
    let header = name(alloc, token)?;
    let (items, rest) = more_items(alloc, Vec::new(alloc), rest)?;
    Ok((
        Tree {
            header,
            imports,
            items,
        },
        rest,
    ))
}
