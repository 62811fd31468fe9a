//! A specification, with its past operators as they are numbered.

ghost use Rattle.std.specs.Prelude.{◌≡◌, map, IfOk};
ghost use Rattle.spec_model.specs.Views.{formula, spec_data};
ghost use Rattle.hidden_game.specs.GameOf.{entered as entered_lem};
ghost use Rattle.hidden_game.specs.Sources.{IsSource};

use past_bits::Operators;
use spec_model::expr::Expr;
use spec_model::spec::Spec;
use std::alloc::{AllocError, Global};

/// A specification and its past operators.
#[derive(Drop)]
pub struct Source<'a> {
    pub spec: &'a Spec,
    pub operators: Operators<'a>,
}

impl<'a> Source<'a> {
    /// A copy of an expression with entries in place of past operators.
    pub fn entered(&self, alloc: Global, e: &Expr) -> Result<Expr, AllocError>
        requires source { IsSource self.now }
        ensures { IfOk result (λ copy. formula copy ≡ entered_lem (spec_data self.now.spec.now) (formula e.now)) }
    {
        self.operators.with_entries(alloc, e)
    }

    /// Copies of expressions with entries in place of past operators.
    pub fn each_entered(&self, alloc: Global, es: &[Expr]) -> Result<Vec<Expr>, AllocError>
        requires source { IsSource self.now }
        ensures { IfOk result (λ copies. map formula copies.items ≡ map (entered_lem (spec_data self.now.spec.now)) (map formula es.now)) }
    {
        let mut copies = Vec::new(alloc);
        for e in es {
            copies.push(self.entered(alloc, e)?)?;
        }
        Ok(copies)
    }
}
