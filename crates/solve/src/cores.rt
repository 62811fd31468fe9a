//! The core of an unrealizable specification: guarantees that can't be kept together, and can without any one of them.

ghost use Rattle.std.specs.Prelude.{◌≤◌, IfOk, IfErr, IfSome, MatchOption};
ghost use Rattle.spec_model.specs.Views.{spec_data};
ghost use Rattle.spec_model.specs.WellTyped.{WellTyped};
ghost use Rattle.spec_model.specs.Cores.{Realizable, Unrealizable, IsLeft, IsCore};
ghost use Rattle.solve.specs.Budgets.{MayHaltInTurn, MayFail};

use crate::answers::Numbers;
use crate::deciding::whole_numbers;
use crate::parts::{Parts, guarantee_numbers, numbers_at};
use core_min::CoreFault;
use regions::Halt;
use spec_model::spec::Spec;
use std::alloc::Global;

/// The line numbers of the core, or `None` where the specification is realizable: what is left of all guarantees after each,
/// in text order, was dropped if the rest is unrealizable (Könighofer et al. 2009, unrealizable cores). `Budget`: the nodes ran
/// out for one of the specifications that are so tried. `Memory`: none was given.
pub fn core_of(alloc: Global, spec: &Spec, budget: u32) -> Result<Option<Vec<u32>>, Halt>
    requires typed { WellTyped (spec_data spec.now) }
    requires budget { 2 ≤ budget }
    ensures answer { let s = spec_data spec.now in IfOk result (λ core. MatchOption core (Realizable s) (λ _. Unrealizable s)) }
    ensures left { IfOk result (λ core. IfSome core (λ left. IsLeft (spec_data spec.now) left.items)) }
    ensures core { IfOk result (λ core. IfSome core (λ left. IsCore (spec_data spec.now) left.items)) }
    ensures cause { IfErr result (MayHaltInTurn budget (spec_data spec.now)) }
{
    match whole_numbers(alloc, spec, budget)? {
        Numbers::Realizable { .. } => Ok(None),
        Numbers::Unrealizable { .. } => {
            let core = core_of_lost(alloc, spec, budget)?;
            Ok(Some(core))
        }
    }
}

/// The core of a specification that is unrealizable, likewise. It may be empty, where what isn't a guarantee can't be kept.
pub fn core_of_lost(alloc: Global, spec: &Spec, budget: u32) -> Result<Vec<u32>, Halt>
    requires typed { WellTyped (spec_data spec.now) }
    requires budget { 2 ≤ budget }
    requires lost { Unrealizable (spec_data spec.now) }
    ensures left { IfOk result (λ left. IsLeft (spec_data spec.now) left.items) }
    ensures core { IfOk result (λ left. IsCore (spec_data spec.now) left.items) }
    ensures cause { IfErr result (MayHaltInTurn budget (spec_data spec.now)) }
{
    match tried_core(alloc, spec, budget) {
        Ok(core) => Ok(core),
        Err(CoreFault::Memory) => Err(Halt::Memory),
        Err(CoreFault::Judge(halt)) => Err(halt),
    }
}

// That core, or why a part could not be judged.
fn tried_core(alloc: Global, spec: &Spec, budget: u32) -> Result<Vec<u32>, CoreFault<Halt>>
    requires typed { WellTyped (spec_data spec.now) }
    requires budget { 2 ≤ budget }
    requires lost { Unrealizable (spec_data spec.now) }
    ensures left { IfOk result (λ left. IsLeft (spec_data spec.now) left.items) }
    ensures core { IfOk result (λ left. IsCore (spec_data spec.now) left.items) }
    ensures cause { IfErr result (MayFail budget (spec_data spec.now)) }
{
    let numbers = guarantee_numbers(alloc, &spec.lines)?;
    let mut parts = Parts::make(alloc, spec, &numbers, budget)?;
    let places = core_min::core(alloc, &mut parts, numbers.len())?;
    Ok(numbers_at(alloc, &numbers, &places)?)
}
