//! Whether the environment can meet its assumptions whatever the system does.

ghost use Rattle.std.specs.Prelude.{◌≤◌, IfOk, IfErr};
ghost use Rattle.spec_model.specs.Views.{spec_data};
ghost use Rattle.spec_model.specs.WellTyped.{WellTyped};
ghost use Rattle.spec_model.specs.Cores.{forced as forced_lem};
ghost use Rattle.spec_model.specs.Room.{HasRoomForOne};
ghost use Rattle.solve.specs.Budgets.{MayHalt};
ghost use Rattle.solve.specs.Separations.{IsSeparationOf};

use crate::answers::Numbers;
use crate::deciding::whole_numbers;
use regions::Halt;
use spec_model::spec::Spec;
use spec_parts::forced;
use std::alloc::Global;

/// Whether the assumptions of a specification can be met whatever the system does, with the numbers of the specification whose
/// one guarantee can never be met.
#[derive(Clone, Copy, Debug, PartialEq, Eq)]
pub enum Separation {
    /// The environment can: it meets them for ever, with N shifts and M denials in a row.
    Separated { n: u64, m: u64 },
    /// The system can force the environment to break one, or to meet one no more, with K rounds.
    Forced { k: u64 },
}

/// Whether a specification is separated. `Budget`: the nodes ran out. `Memory`: none was given.
pub fn separated(alloc: Global, spec: &Spec, budget: u32) -> Result<Separation, Halt>
    requires typed { WellTyped (spec_data spec.now) }
    requires budget { 2 ≤ budget }
    requires room { HasRoomForOne (spec_data spec.now) }
    ensures separation { IfOk result (IsSeparationOf (spec_data spec.now)) }
    ensures cause { IfErr result (MayHalt budget (forced_lem (spec_data spec.now))) }
{
    let Ok(forced_spec) = forced(alloc, spec) else {
        return Err(Halt::Memory);
    };
    match whole_numbers(alloc, &forced_spec, budget)? {
        Numbers::Realizable { k } => Ok(Separation::Forced { k }),
        Numbers::Unrealizable { n, m } => Ok(Separation::Separated { n, m }),
    }
}
