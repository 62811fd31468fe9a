//! The hidden table of a trigger.

ghost use Rattle.std.specs.Prelude.{◌≡◌, ◌≤◌, ◌+◌, ◌^◌, nat_lt, map, vec_len, IfOk, OnOk, IsErrOf};
ghost use Rattle.spec_model.specs.Views.{formula, trigger_data};
ghost use Rattle.spec_model.specs.GameViews.{hidden_data};
ghost use Rattle.trigger_dfa.specs.Standings.{table_of};
ghost use Rattle.trigger_dfa.specs.Narrow.{IsNarrow};
ghost use Rattle.trigger_dfa.specs.Pairs.{next_of, table_in};

use crate::atoms::trigger_atoms;
use crate::fault::DfaFault;
use crate::states::{Sides, Values};
use spec_model::expr::Expr;
use spec_model::game::Hidden;
use spec_model::spec::Trigger;
use std::alloc::{AllocError, Global};

// The next values: the cause's rows, and then the effect's.
fn next_values(
    alloc: Global,
    sides: &Sides,
    values: &Values,
    other: u16,
) -> Result<Vec<u16>, AllocError>
    requires cause { vec_len sides.now.cause.follow ≤ 64 }
    requires effect { vec_len sides.now.effect.follow ≤ 64 }
    requires room { other + vec_len values.now.causes + vec_len values.now.effects + 2 ≤ 2 ^ 16 }
    ensures { IfOk result (λ next. next.items ≡ next_of sides.now values.now other) }
{
    let mut next = Vec::new(alloc);
    sides.cause.rows(&mut next, &values.causes, 0, other)?;
    sides.effect.rows(&mut next, &values.effects, other, 0)?;
    Ok(next)
}

// Where no effect is pending: the next value is the cause's.
fn goal(alloc: Global, next: &[u16], other: u16) -> Result<Vec<bool>, AllocError>
    ensures { IfOk result (λ goal. goal.items ≡ map (λ v. nat_lt v other) next.now) }
{
    next.iter().map(|v| *v < other).collect(alloc)
}

// The table of both sides.
fn table(
    alloc: Global,
    atoms: Vec<Expr>,
    sides: &Sides,
    values: &Values,
) -> Result<Hidden, AllocError>
    requires cause { vec_len sides.now.cause.follow ≤ 64 }
    requires effect { vec_len sides.now.effect.follow ≤ 64 }
    requires room { vec_len values.now.causes + vec_len values.now.effects ≤ 254 }
    ensures { IfOk result (λ h. hidden_data h ≡ table_in (map formula atoms.items) sides.now values.now) }
{
    let other = values.causes.len() as u16 + 1;
    let next = next_values(alloc, sides, values, other)?;
    let goal = goal(alloc, &next, other)?;
    let count = other + (values.effects.len() as u16 + 1);
    Ok(Hidden {
        values: count,
        first: 0,
        atoms,
        next,
        tables: vec![in alloc; goal]?,
    })
}

/// The hidden table of a trigger, whose one truth table tells where no effect is pending.
///
/// `Wide`: there are more than 8 different brackets, more than 64 positions on a side with its repeats written out, or more
/// than 256 states in both sides together. `Memory`: none was given.
pub fn build(alloc: Global, trigger: &Trigger) -> Result<Hidden, DfaFault>
    ensures table { IfOk result (λ h. hidden_data h ≡ table_of (trigger_data trigger.now)) }
    ensures narrow { OnOk result (IsNarrow (trigger_data trigger.now)) }
    ensures wide { IsErrOf result DfaFault.Wide → ¬ (IsNarrow (trigger_data trigger.now)) }
{
    let atoms = trigger_atoms(alloc, trigger)?;
    let sides = Sides::of(alloc, &atoms, trigger)?;
    let values = sides.values(alloc)?;
    Ok(table(alloc, atoms, &sides, &values)?)
}
