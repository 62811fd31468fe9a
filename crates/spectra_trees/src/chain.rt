//! Chains of operators, as a sum of many numbers without parentheses. Its tree nests to the left as deep as the text is long,
//! so that a walk that recurses into first operands is no way to read it.

ghost use Rattle.std.specs.Prelude.{◌≡◌, false, IfOk};
ghost use Rattle.spectra_trees.specs.Chains.{is_joined};
ghost use Rattle.spectra_trees.specs.ChainViews.{chain_data};
ghost use Rattle.spectra_trees.specs.Views.{expr_data};

use crate::tree::{BinaryWord, ExprForm, ExprTree, Place};
use std::alloc::{AllocError, Global};

/// An operator between two operands, with the second one. `first` is the place of the first token of both.
#[derive(Clone, Copy)]
pub struct Link<'t> {
    pub first: Place,
    pub at: Place,
    pub word: BinaryWord,
    pub second: &'t ExprTree,
}

/// An expression with operators behind it in text order, each of which has all before it as its first operand.
#[derive(Drop)]
pub struct Chain<'t> {
    pub head: &'t ExprTree,
    pub links: Vec<Link<'t>>,
}

/// An expression as a chain whose head is no operator between two operands. A chain without operators takes no memory.
pub fn chain_of<'t>(alloc: Global, tree: &'t ExprTree) -> Result<Chain<'t>, AllocError>
    ensures whole { IfOk result (λ c. chain_data c ≡ expr_data tree.now) }
    ensures head { IfOk result (λ c. is_joined (expr_data c.head.now) ≡ false) }
{
    let mut head = tree;
    let mut links = Vec::new(alloc);
    while let ExprForm::Binary(word, a, b) = &head.form {
        links.push(Link {
            first: head.first,
            at: head.at,
            word: *word,
            second: b,
        })?;
        head = a;
    }
    links.reverse();
    Ok(Chain { head, links })
}
