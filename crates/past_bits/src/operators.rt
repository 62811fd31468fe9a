//! The past operators that were met, each once.

ghost use Rattle.std.specs.Prelude.{◌≡◌, [], map, OnOk};
ghost use Rattle.spec_model.specs.Syntax.{PastOf};
ghost use Rattle.spec_model.specs.Sizes.{same_formula};
ghost use Rattle.game_values.specs.Safety.{formulas_in};
ghost use Rattle.past_bits.specs.Entries.{place_of, with_operator};
ghost use Rattle.past_bits.specs.Bits.{tree_of};

use crate::digest::digest;
use crate::same::{are_same_trees, number_of_past};
use indexmap::IndexMap;
use spec_model::expr::{Expr, Past};
use std::alloc::{AllocError, Global};
use std::marker::Model;

/// A past operator with its operands.
#[derive(Clone, Copy)]
pub struct Operator<'a> {
    pub op: Past,
    pub operands: &'a [Expr],
}

/// Whether a past operator is this one, as a tree.
fn is_operator(o: &Operator<'_>, op: Past, operands: &[Expr]) -> bool
    ensures { result ≡ same_formula (PastOf op (formulas_in operands.now)) (tree_of o.now) }
{
    number_of_past(op) == number_of_past(o.op) && are_same_trees(operands, o.operands)
}

/// Different past operators, in the order in which they were met, those within others first.
#[derive(Drop)]
pub struct Operators<'a> {
    found: Vec<Operator<'a>>,
    /// A place by the digest of each tree. Of trees with one digest it is the last one's, so what stands there is compared.
    places: IndexMap<u64, usize>,
}

impl<'a> Model for Operators<'a> {
    ghost use Rattle.std.specs.Prelude.{List};
    ghost use Rattle.std.specs.Coded.{codes};
    ghost use Rattle.spec_model.specs.contracts.expr.Expr as expr;
    ghost use Rattle.past_bits.specs.declared.operators.Operator.{Operator};
    ghost use Rattle.past_bits.specs.Bits.{AreNumbered};

    ghost Value = { List Operator };

    ghost coded = { Prim.hlevel (codes, expr.the_row.coded) };

    ghost view = { λ o. o.found.items };

    ghost invariant = { λ o. AreNumbered o.found.items o.places };
}

impl<'a> Operators<'a> {
    pub fn new(alloc: Global) -> Operators<'a>
        ensures { result ≡ [] }
    {
        Operators {
            found: Vec::new(alloc),
            places: IndexMap::new(alloc),
        }
    }

    /// The first place of an operator; one that isn't there has the place past all.
    fn searched(&self, op: Past, operands: &[Expr]) -> usize
        ensures { result ≡ place_of (map tree_of self.now) (PastOf op (formulas_in operands.now)) }
    {
        for (k, o) in self.found.iter().enumerate() {
            if is_operator(o, op, operands) {
                return k;
            }
        }
        self.found.len()
    }

    #[tactic(auto, using(crate::proofs::Places::guessed, crate::proofs::Places::unknown))]
    /// The place of an operator; one that isn't there has the place past all. Only one whose digest another one has too is
    /// compared with each.
    pub fn place(&self, op: Past, operands: &[Expr]) -> usize
        ensures { result ≡ place_of (map tree_of self.now) (PastOf op (formulas_in operands.now)) }
    {
        let Some(guess) = self.places.get(&digest(op, operands)) else {
            return self.found.len();
        };
        if *guess < self.found.len() && is_operator(&self.found[*guess], op, operands) {
            return *guess;
        }
        self.searched(op, operands)
    }

    #[tactic(auto, using(crate::proofs::Places::kept, crate::proofs::Places::place_small, crate::proofs::Places::new_one, crate::proofs::Places::numbered_more, crate::proofs::Places::numbered_still, crate::proofs::Places::numbered_unchanged))]
    /// Adds an operator, unless it is there. There is no number for one past 2^32, and no memory.
    pub fn add(&mut self, op: Past, operands: &'a [Expr]) -> Result<(), AllocError>
        ensures { OnOk result (map tree_of self.new ≡ with_operator (map tree_of self.old) (PastOf op (formulas_in operands.now))) }
    {
        let place = self.place(op, operands);
        if place < self.found.len() {
            return Ok(());
        }
        if place + 1 > u32::MAX as usize {
            return Err(AllocError);
        }
        self.places.insert(digest(op, operands), place)?;
        self.found.push(Operator { op, operands })?;
        Ok(())
    }

    #[tactic(auto, using(crate::proofs::Places::place_fits))]
    /// The number of an operator's table.
    pub fn number(&self, op: Past, operands: &[Expr]) -> u32
        ensures { result ≡ place_of (map tree_of self.now) (PastOf op (formulas_in operands.now)) }
    {
        let _ = &self.found;
        let place = self.place(op, operands);
        place as u32
    }

    /// The operators, with their operands.
    pub fn operators(&self) -> &[Operator<'a>]
        ensures { result.now ≡ self.now }
    {
        &self.found
    }
}
