//! The hidden tables of past operators.

ghost use Rattle.std.specs.Prelude.{◌≡◌, map, IfOk};
ghost use Rattle.spec_model.specs.Views.{spec_data};
ghost use Rattle.spec_model.specs.GameViews.{hidden_data};
ghost use Rattle.past_bits.specs.Tables.{first_bit, number_of_bit, next_cells, entry_cells};
ghost use Rattle.past_bits.specs.Bits.{tree_of, table_of, tables_of, bits_of, bit_data};

use crate::operators::{Operator, Operators};
use spec_model::copy::copy_exprs;
use spec_model::expr::{Expr, Past};
use spec_model::game::Hidden;
use spec_model::spec::Spec;
use std::alloc::{AllocError, Global};

/// The value at the first position.
fn first_value(op: Past) -> u16
    ensures { result ≡ number_of_bit (first_bit op) }
{
    match op {
        Past::Prev | Past::Once | Past::Since => 0,
        Past::Historically | Past::Triggered => 1,
    }
}

/// The next value for each value and letter.
fn next_values(alloc: Global, op: Past) -> Result<Vec<u16>, AllocError>
    ensures { IfOk result (λ next. next.items ≡ next_cells op) }
{
    match op {
        Past::Prev => Vec::from_slice(alloc, &[0, 1, 0, 1]),
        Past::Once => Vec::from_slice(alloc, &[0, 1, 1, 1]),
        Past::Historically => Vec::from_slice(alloc, &[0, 0, 0, 1]),
        Past::Since => Vec::from_slice(alloc, &[0, 0, 1, 1, 0, 1, 1, 1]),
        Past::Triggered => Vec::from_slice(alloc, &[0, 0, 0, 1, 0, 0, 1, 1]),
    }
}

/// The operator's value for each value and letter.
fn entries(alloc: Global, op: Past) -> Result<Vec<bool>, AllocError>
    ensures { IfOk result (λ table. table.items ≡ entry_cells op) }
{
    match op {
        Past::Prev => Vec::from_slice(alloc, &[false, false, true, true]),
        Past::Once => Vec::from_slice(alloc, &[false, true, true, true]),
        Past::Historically => Vec::from_slice(alloc, &[false, false, false, true]),
        Past::Since => {
            Vec::from_slice(alloc, &[false, false, true, true, false, true, true, true])
        }
        Past::Triggered => {
            Vec::from_slice(
                alloc,
                &[false, false, false, true, false, false, true, true],
            )
        }
    }
}

impl<'a> Operators<'a> {
    #[tactic(auto, using(crate::proofs::Collected::table_parts))]
    /// The table of an operator.
    fn table(&self, alloc: Global, o: &Operator<'a>) -> Result<Hidden, AllocError>
        ensures { IfOk result (λ h. hidden_data h ≡ table_of (map tree_of self.now) (tree_of o.now)) }
    {
        let atoms = self.each(alloc, o.operands)?;
        let mut tables = Vec::new(alloc);
        tables.push(entries(alloc, o.op)?)?;
        Ok(Hidden {
            values: 2,
            first: first_value(o.op),
            atoms,
            next: next_values(alloc, o.op)?,
            tables,
        })
    }

    /// The tables of all operators, in order.
    pub fn tables(&self, alloc: Global) -> Result<Vec<Hidden>, AllocError>
        ensures { IfOk result (λ hidden. map hidden_data hidden.items ≡ tables_of (map tree_of self.now)) }
    {
        let mut hidden = Vec::new(alloc);
        for o in self.operators() {
            hidden.push(self.table(alloc, o)?)?;
        }
        Ok(hidden)
    }

    /// The operators, each with its table.
    pub fn pairs(&self, alloc: Global) -> Result<Vec<(Expr, Hidden)>, AllocError>
        ensures { IfOk result (λ bits. map bit_data bits.items ≡ map (λ e. (e, table_of (map tree_of self.now) e)) (map tree_of self.now)) }
    {
        let mut bits = Vec::new(alloc);
        for o in self.operators() {
            let tree = Expr::Past(o.op, copy_exprs(alloc, o.operands)?);
            bits.push((tree, self.table(alloc, o)?))?;
        }
        Ok(bits)
    }
}

/// Each different past operator of a specification, those within others first and by first meeting in text order, with
/// its hidden table. `OutOfMemory`: no memory was given.
pub fn bits(alloc: Global, spec: &Spec) -> Result<Vec<(Expr, Hidden)>, AllocError>
    ensures { IfOk result (λ bits. map bit_data bits.items ≡ bits_of (spec_data spec.now)) }
{
    Operators::of_spec(alloc, spec)?.pairs(alloc)
}
