//! From tokens to the tree of a text.

ghost use Rattle.std.specs.Prelude.{◌≡◌, IfOk, IfErr};
ghost use Rattle.spectra_lexer.specs.Tokens.{AreTokens};
ghost use Rattle.spectra_trees.specs.Data.{TreeData};
ghost use Rattle.spectra_trees.specs.Views.{tree_data, lexemes_of};
ghost use Rattle.spectra_trees.specs.Lexemes.{lexemes};
ghost use Rattle.spectra_parser.specs.Shapes.{IsShaped};
ghost use Rattle.spectra_parser.specs.Texts.{HasTree, IsText, Explains};
ghost use Rattle.spectra_parser.specs.Wholes.{IsWholeFrom};
ghost use Rattle.spectra_exprs.specs.declared.fault.SyntaxFault.TheVariants.{Memory};

use crate::item;
use spectra_exprs::fault::SyntaxFault;
use spectra_lexer::{Token, tokens_are_slices};
use spectra_trees::lexeme::{Spelled, spell_all};
use spectra_trees::tree::{Name, Tree};
use std::alloc::Global;

/// The tree of a list of tokens.
pub fn tree_of(alloc: Global, tokens: &[Spelled<'_>]) -> Result<Tree, SyntaxFault>
    requires whole { IsWholeFrom 0 (lexemes_of tokens.now) }
    ensures tree { IfOk result (λ tree. HasTree (lexemes_of tokens.now) (tree_data tree)) }
    ensures fault { IfErr result (Explains (lexemes_of tokens.now)) }
{
    let (tree, _) = item::text(alloc, tokens)?;
    Ok(tree)
}

/// The tree of a text's tokens. `Unexpected`, `Parentheses`: the tokens before this one begin a text of the grammar, with at
/// most 128 levels open, and with it they begin none; at `Parentheses` it is an operator behind a whole expression, and
/// at `Unexpected` it is none. `TooDeep`: the same, but it opens level 129 of a text. `Memory`: none was given.
pub fn parse(alloc: Global, text: &[u8], tokens: &[Token]) -> Result<Tree, SyntaxFault>
    requires lexed { AreTokens text.now tokens.now }
    ensures tree { IfOk result (λ tree. IsText text.now tokens.now (tree_data tree)) }
    ensures only { IfOk result (λ tree. (other : TreeData)
        → IsText text.now tokens.now other → other ≡ tree_data tree) }
    ensures shaped { IfOk result (λ tree. IsShaped (tree_data tree)) }
    ensures fault { IfErr result (Explains (lexemes text.now tokens.now)) }

    // Every text of the grammar gets its tree, where memory is given.
    ensures whole { IfErr result (λ fault. (tree : TreeData)
        → IsText text.now tokens.now tree → fault ≡ Memory) }
{
    tokens_are_slices(text, tokens);
    let spelled = spell_all(alloc, text, tokens)?;
    tree_of(alloc, &spelled)
}

/// The names of the files that a text imports, in text order. It takes no memory.
pub fn imports(tree: &Tree) -> &[Name]
    ensures { result.now ≡ tree.now.imports.items }
{
    &tree.imports
}
