//! What holds of the trees and the faults of every text.

ghost use Rattle.std.specs.Prelude.{ℕ, ◌≡◌};
ghost use Rattle.spectra_trees.specs.Data.{TreeData};
ghost use Rattle.spectra_trees.specs.Lexemes.{lexemes};
ghost use Rattle.spectra_exprs.specs.declared.fault.SyntaxFault.{SyntaxFault as Fault};
ghost use Rattle.spectra_exprs.specs.declared.fault.SyntaxFault.TheVariants.{TooDeep, Memory};
ghost use Rattle.spectra_parser.specs.Texts.{IsText, OpensLevelTooMany, Explains};
ghost use Rattle.spectra_parser.specs.Wholes.{AreOne};

use spectra_lexer::Token;

/// No text has two trees.
pub fn no_text_has_two_trees(text: &[u8], tokens: &[Token])
    ensures { (first second : TreeData) → IsText text.now tokens.now first
        → IsText text.now tokens.now second → first ≡ second }
{}

/// Two faults that explain the tokens of one text are the same, with the same place, and none explains those that
/// have a tree. A token that opens level 129 is told as `TooDeep`.
pub fn one_fault_explains_a_text(text: &[u8], tokens: &[Token])
    ensures one { (first second : Fault) → Explains (lexemes text.now tokens.now) first
        → Explains (lexemes text.now tokens.now) second → AreOne first second }
    ensures deep { (at : ℕ) (fault : Fault) → OpensLevelTooMany (lexemes text.now tokens.now) at
        → Explains (lexemes text.now tokens.now) fault → AreOne fault (TooDeep at) }
    ensures none { (tree : TreeData) (fault : Fault) → IsText text.now tokens.now tree
        → Explains (lexemes text.now tokens.now) fault → fault ≡ Memory }
{}
