//! The sides of a trigger, and the values of its table.

ghost use Rattle.std.specs.Prelude.{◌≡◌, ◌≤◌, ◌<◌, ◌+◌, ◌==◌, ◌⊎◌, List, length, map, filter, bit_and, vec_len, IfOk, IsErrOf};
ghost use Rattle.spec_model.specs.Syntax.{Formula};
ghost use Rattle.spec_model.specs.Views.{formula, regular};
ghost use Rattle.spec_model.specs.TriggerStates.{Written, written, brackets};
ghost use Rattle.trigger_dfa.specs.Pairs.{AreSides, AreValues, set_count};

use crate::fault::DfaFault;
use crate::walk::Walk;
use spec_model::expr::Expr;
use spec_model::spec::Trigger;
use std::alloc::{AllocError, Global};

// The most sets that are reached in both sides together: with the two starts there are 256 states.
const MAX_SETS: usize = 254;

/// Both sides.
#[derive(Drop)]
pub struct Sides {
    pub cause: Walk,
    pub effect: Walk,
}

/// The sets of each side that are values.
#[derive(Drop)]
pub struct Values {
    pub causes: Vec<u64>,
    pub effects: Vec<u64>,
}

impl Sides {
    /// The sides of a trigger. `Wide` where one has more than 64 positions.
    pub fn of(alloc: Global, atoms: &[Expr], trigger: &Trigger) -> Result<Sides, DfaFault>
        ensures sides { IfOk result (λ sides. AreSides (map formula atoms.now) (written (regular trigger.now.cause)) (written (regular trigger.now.effect)) sides) }
        ensures cause { IfOk result (λ sides. length (brackets (written (regular trigger.now.cause))) ≤ 64) }
        ensures effect { IfOk result (λ sides. length (brackets (written (regular trigger.now.effect))) ≤ 64) }
        ensures wide { IsErrOf result DfaFault.Wide → (64 < length (brackets (written (regular trigger.now.cause)))) ⊎ (64 < length (brackets (written (regular trigger.now.effect)))) }
    {
        let cause = Walk::of(alloc, atoms, &trigger.cause)?;
        let effect = Walk::of(alloc, atoms, &trigger.effect)?;
        Ok(Sides { cause, effect })
    }

    /// The values of both sides. `Wide` past 254 sets.
    pub fn values(&self, alloc: Global) -> Result<Values, DfaFault>
        requires cause { vec_len self.now.cause.follow ≤ 64 }
        requires effect { vec_len self.now.effect.follow ≤ 64 }
        ensures values { IfOk result (λ values. (atoms : List Formula) (x y : Written) → AreSides atoms x y self.now → AreValues atoms x y values) }
        ensures room { IfOk result (λ values. vec_len values.causes + vec_len values.effects ≤ 254) }
        ensures wide { IsErrOf result DfaFault.Wide → (atoms : List Formula) (x y : Written) → AreSides atoms x y self.now → 254 < set_count atoms x y }
    {
        let causes = self.cause.explore(alloc, MAX_SETS)?;
        let effects = self.effect.explore(alloc, MAX_SETS - causes.len())?;
        Ok(Values {
            causes: self.cause.open_sets(alloc, &causes)?,
            effects: self.effect.open_sets(alloc, &effects)?,
        })
    }
}

impl Walk {
    // The sets without a last position.
    fn open_sets(&self, alloc: Global, words: &[u64]) -> Result<Vec<u64>, AllocError>
        ensures sets { IfOk result (λ v. v.items ≡ filter (λ word. bit_and word self.now.lasts == 0) words.now) }
        ensures within { IfOk result (λ v. vec_len v ≤ length words.now) }
    {
        let mut sets = Vec::new(alloc);
        for word in words {
            if *word & self.lasts == 0 {
                sets.push(*word)?;
            }
        }
        Ok(sets)
    }
}
