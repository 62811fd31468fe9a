//! A specification with a part of its guarantees, and with one that can never be met.

ghost use Rattle.std.specs.Prelude.{◌≡◌, ◌≤◌, IfOk};
ghost use Rattle.spec_model.specs.Views.{spec_data};
ghost use Rattle.spec_model.specs.Cores.{with_guarantees, forced as forced_lem};
ghost use Rattle.spec_model.specs.Room.{HasRoomForOne};
ghost use Rattle.spec_model.specs.WellTyped.{WellTyped, all_hidden};

use crate::OutOfMemory;
use spec_model::copy_lines::copy_with_lines;
use spec_model::kept_lines::{copy_forced_lines, copy_kept_lines};
use spec_model::spec::Spec;
use std::alloc::Global;

/// The specification that keeps of the guarantees only those whose line numbers are in `kept`, and every assumption, every
/// monitor's line and every line number. Nothing is asked of `kept`: numbers may stand in any order, twice, or be no
/// guarantee's. The time is linear in the sizes of both.
pub fn without(alloc: Global, spec: &Spec, kept: &[u32]) -> Result<Spec, OutOfMemory>
    requires typed { WellTyped (spec_data spec.now) }
    ensures value { IfOk result (λ s. spec_data s ≡ with_guarantees (spec_data spec.now) kept.now) }
    ensures typed { IfOk result (λ s. WellTyped (spec_data s)) }
    ensures hidden { IfOk result (λ s. all_hidden (spec_data s) ≤ all_hidden (spec_data spec.now)) }
{
    let lines = copy_kept_lines(alloc, &spec.lines, kept)?;
    copy_with_lines(alloc, spec, lines)
}

/// The specification whose one guarantee can never be met, with the number after the greatest, and with every assumption and
/// monitor's line. The number, and the guarantee's one node, may be one past what a text may have.
pub fn forced(alloc: Global, spec: &Spec) -> Result<Spec, OutOfMemory>
    requires typed { WellTyped (spec_data spec.now) }
    requires room { HasRoomForOne (spec_data spec.now) }
    ensures value { IfOk result (λ s. spec_data s ≡ forced_lem (spec_data spec.now)) }
    ensures typed { IfOk result (λ s. WellTyped (spec_data s)) }
    ensures hidden { IfOk result (λ s. all_hidden (spec_data s) ≤ all_hidden (spec_data spec.now)) }
{
    let lines = copy_forced_lines(alloc, &spec.lines)?;
    copy_with_lines(alloc, spec, lines)
}
