//! Expressions in which each past operator is the entry of its table.

ghost use Rattle.std.specs.Prelude.{◌≡◌, map, IfOk};
ghost use Rattle.spec_model.specs.Views.{formula};
ghost use Rattle.past_bits.specs.Entries.{with_entries as with_entries_lem};
ghost use Rattle.past_bits.specs.Bits.{tree_of};

use crate::operators::Operators;
use spec_model::expr::Expr;
use std::alloc::{AllocError, Global};

impl<'a> Operators<'a> {
    #[tactic(auto, using(crate::proofs::Collected::each_parts))]
    /// A copy of an expression with an entry for each past operator.
    #[cycle(entering)]
    pub fn with_entries(&self, alloc: Global, e: &Expr) -> Result<Expr, AllocError>
        ensures { IfOk result (λ copy. formula copy ≡ with_entries_lem (map tree_of self.now) (formula e.now)) }
    {
        match e {
            Expr::Const(v) => Ok(Expr::Const(*v)),
            Expr::Var(k) => Ok(Expr::Var(*k)),
            Expr::Next(a) => Ok(Expr::Next(self.boxed(alloc, a)?)),
            Expr::Not(a) => Ok(Expr::Not(self.boxed(alloc, a)?)),
            Expr::And(es) => Ok(Expr::And(self.each(alloc, es)?)),
            Expr::Or(es) => Ok(Expr::Or(self.each(alloc, es)?)),
            Expr::Implies(a, b) => Ok(Expr::Implies(self.boxed(alloc, a)?, self.boxed(alloc, b)?)),
            Expr::Iff(a, b) => Ok(Expr::Iff(self.boxed(alloc, a)?, self.boxed(alloc, b)?)),
            Expr::Cmp(c, a, b) => Ok(Expr::Cmp(*c, self.boxed(alloc, a)?, self.boxed(alloc, b)?)),
            Expr::Add(a, b) => Ok(Expr::Add(self.boxed(alloc, a)?, self.boxed(alloc, b)?)),
            Expr::Sub(a, b) => Ok(Expr::Sub(self.boxed(alloc, a)?, self.boxed(alloc, b)?)),
            Expr::Mul(a, b) => Ok(Expr::Mul(self.boxed(alloc, a)?, self.boxed(alloc, b)?)),
            Expr::Mod(a, n) => Ok(Expr::Mod(self.boxed(alloc, a)?, *n)),
            Expr::Past(op, es) => Ok(Expr::Table(self.number(*op, es), 0)),
            Expr::Table(h, n) => Ok(Expr::Table(*h, *n)),
        }
    }

    #[cycle(entering)]
    fn boxed(&self, alloc: Global, e: &Expr) -> Result<Box<Expr>, AllocError>
        ensures { IfOk result (λ copy. formula copy.value ≡ with_entries_lem (map tree_of self.now) (formula e.now)) }
    {
        Ok(Box::new(alloc, self.with_entries(alloc, e)?)?)
    }

    /// Copies of expressions with an entry for each past operator.
    #[cycle(entering)]
    pub fn each(&self, alloc: Global, es: &[Expr]) -> Result<Vec<Expr>, AllocError>
        ensures { IfOk result (λ copies. map formula copies.items ≡ map (λ e. with_entries_lem (map tree_of self.now) (formula e)) es.now) }
    {
        let mut copies = Vec::new(alloc);
        for e in es {
            copies.push(self.with_entries(alloc, e)?)?;
        }
        Ok(copies)
    }
}
