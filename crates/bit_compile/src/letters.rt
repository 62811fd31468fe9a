//! Where the atoms of a hidden table have a letter.

ghost use Rattle.std.specs.Prelude.{◌==◌, ◌&&◌, ◌%◌, map, ◌≡◌};
ghost use Rattle.bdd_store.specs.State.{IsRoot};
ghost use Rattle.bdd_bits.specs.Contents.{function_at};
ghost use Rattle.bit_compile.specs.Making.{Makes};
ghost use Rattle.bit_compile.specs.Compiled.{is_letter, is_not};
ghost use Rattle.bit_compile.specs.CaseRoots.{AreKept};
ghost use Rattle.std.specs.Bool.{beq};
ghost use Rattle.bit_compile.specs.Crowding.{HasCause};
ghost use Rattle.bit_compile.specs.Named.{IsOfLetter};

use crate::cases::CaseRoot;
use crate::steps::{and, constant, not};
use bdd_bits::{Diagrams, Root};
use regions::Halt;

/// Where the product is true, and the atom is as wanted.
fn and_as(diagrams: &mut Diagrams, product: &Root, atom: &Root, wanted: bool) -> Result<Root, Halt>
    requires product_kept { IsRoot diagrams.old.state product.now }
    requires atom_kept { IsRoot diagrams.old.state atom.now }
    ensures made { Makes diagrams.old diagrams.new result (λ s. function_at diagrams.old product.now s && beq (function_at diagrams.old atom.now s) wanted) }
    ensures cause { HasCause diagrams.old diagrams.new result (λ f. f ≡ is_not (function_at diagrams.old atom.now)) }
{
    if wanted {
        return and(diagrams, product, atom);
    }
    let other = not(diagrams, atom)?;
    let whole = and(diagrams, product, &other);
    diagrams.release(other);
    whole
}

/// Where the atoms have this letter, the number whose bit k is 1 where the k-th is true.
pub fn letter_root(diagrams: &mut Diagrams, atoms: &[CaseRoot], letter: u64) -> Result<Root, Halt>
    requires { AreKept diagrams.old.state atoms.now }
    ensures made { Makes diagrams.old diagrams.new result (is_letter (map (λ a. function_at diagrams.old a.root) atoms.now) letter) }
    ensures cause { HasCause diagrams.old diagrams.new result (IsOfLetter (map (λ a. function_at diagrams.old a.root) atoms.now) letter) }
{
    let mut product = constant(diagrams, true)?;
    let mut left = letter;
    for atom in atoms {
        let more = and_as(diagrams, &product, &atom.root, left % 2 == 1);
        diagrams.release(product);
        let next = more?;
        product = next;
        left /= 2;
    }
    if left != 0 {
        let none = constant(diagrams, false);
        diagrams.release(product);
        return none;
    }
    Ok(product)
}
