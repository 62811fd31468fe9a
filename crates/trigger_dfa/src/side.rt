//! The positions of a side of a trigger: which may be read first, last, and right after one another (Glushkov 1961;
//! McNaughton and Yamada 1960, positions of regular expressions). A set of positions is one word of 64 bits.

ghost use Rattle.std.specs.Prelude.{◌≡◌, ◌≤◌, ◌<◌, ◌-◌, ◌+◌, ◌==◌, ◌^◌, if◌then◌else◌, true, ℕ, length, map, vec_len};
ghost use Rattle.spec_model.specs.Views.{formula};
ghost use Rattle.spec_model.specs.TriggerStates.{Written, Then, Either, brackets};
ghost use Rattle.trigger_dfa.specs.Sides.{IsPart, Links, Means};
ghost use Rattle.trigger_dfa.specs.Words.{in_word};
ghost use Rattle.trigger_dfa.specs.Standings.{first_place};
ghost use Rattle.spec_model.specs.Sizes.{same_formula};

use crate::same::is_same_tree;
use spec_model::expr::{Expr, Regex};

/// The most positions of a side.
pub const MAX_POSITIONS: usize = 64;

/// The positions of a side.
#[derive(Drop)]
pub struct Side {
    /// For each position, the set of those that may be read right after it.
    pub follow: Vec<u64>,
    /// For each atom, the set of the positions whose bracket it is.
    pub meant: Vec<u64>,
}

/// What an expression is among the positions: how many it has, whether it can be skipped, and which may be read first and last.
#[derive(Clone, Copy)]
pub struct Part {
    pub size: usize,
    pub skipped: bool,
    pub firsts: u64,
    pub lasts: u64,
}

impl Part {
    /// Nothing.
    pub const EMPTY: Part = Part {
        size: 0,
        skipped: true,
        firsts: 0,
        lasts: 0,
    };

    /// One after the other.
    pub fn then(self, b: Part) -> Part
        requires { self.size + b.size ≤ 64 }
        ensures size { result.size ≡ self.size + b.size }
        ensures part { (x y : Written) (n : ℕ) → IsPart x n self → IsPart y (n + length (brackets x)) b → IsPart (Then x y) n result }
    {
        Part {
            size: self.size + b.size,
            skipped: self.skipped & b.skipped,
            firsts: self.firsts | when(self.skipped, b.firsts),
            lasts: when(b.skipped, self.lasts) | b.lasts,
        }
    }

    /// One or the other.
    pub fn either(self, b: Part) -> Part
        requires { self.size + b.size ≤ 64 }
        ensures { (x y : Written) (n : ℕ) → IsPart x n self → IsPart y (n + length (brackets x)) b → IsPart (Either x y) n result }
    {
        Part {
            size: self.size + b.size,
            skipped: self.skipped | b.skipped,
            firsts: self.firsts | b.firsts,
            lasts: self.lasts | b.lasts,
        }
    }

    /// The same, where it may be skipped.
    pub fn skippable(self) -> Part
        ensures { result ≡ record self { skipped = true } }
    {
        Part {
            skipped: true,
            ..self
        }
    }
}

/// The word, or the empty one.
pub fn when(wanted: bool, word: u64) -> u64
    ensures { result ≡ (if wanted then word else 0) }
{
    if wanted { word } else { 0 }
}

/// Whether the set has the position.
pub fn has(word: u64, p: usize) -> bool
    requires { p < 64 }
    ensures { result ≡ in_word word p }
{
    (word >> p) & 1 == 1
}

/// The set of one position.
pub fn single(p: usize) -> u64
    requires { p < 64 }
    ensures { result ≡ 2 ^ p }
{
    1 << p
}

impl Side {
    /// Each position of the one set is followed by each of the other one.
    pub fn link(&mut self, from: u64, to: u64)
        requires { vec_len self.old.follow ≡ 64 }
        ensures { Links from to self.old self.new }
    {
        if from == 0 || to == 0 {
            return;
        }
        for q in 0..MAX_POSITIONS {
            self.follow[q] |= when(has(from, q), to);
        }
    }

    /// The bracket at a position is this atom.
    pub fn mean(&mut self, atom: usize, p: usize)
        requires { p < 64 }
        ensures { Means atom p self.old self.new }
    {
        if atom < self.meant.len() {
            self.meant[atom] |= single(p);
        }
    }
}

/// The number of the atom, or the number of atoms.
pub fn atom_number(atoms: &[Expr], e: &Expr) -> usize
    ensures { result ≡ first_place (λ a. same_formula a (formula e.now)) (map formula atoms.now) }
{
    for (k, atom) in atoms.iter().enumerate() {
        if is_same_tree(atom, e) {
            return k;
        }
    }
    atoms.len()
}
