//! The verdict on a specification, and on one with a part of its guarantees.
//!
//! A game is solved in at most two attempts, each in a store of its own. The first has the bits of a state in the near order: those
//! that lines tie together stand close, and most sets are small. Where the nodes run out there, the second has the bits in the
//! declared order, of which the need of a specification is told.

ghost use Rattle.std.specs.Prelude.{◌≡◌, ◌≤◌, false, IfOk, IfErr};
ghost use Rattle.spec_model.specs.Views.{spec_data};
ghost use Rattle.spec_model.specs.WellTyped.{WellTyped};
ghost use Rattle.spec_model.specs.Cores.{with_guarantees};
ghost use Rattle.solve.specs.Budgets.{MayHalt};
ghost use Rattle.solve.specs.Verdicts.{AreNumbersOf, IsVerdictOn, IsOppositionOn};

use crate::answers::{Numbers, Opposition, Verdict};
use crate::playing::{environment_play, system_play};
use crate::solving::{Opposed, Solved, game_numbers, oppose_game, solve_game};
use crate::space::space_of;
use regions::Halt;
use spec_model::spec::Spec;
use spec_parts::without;
use std::alloc::Global;

/// Who wins a specification, with the numbers, in one attempt. The cause of a refusal is told of the declared order alone.
fn numbers_under(alloc: Global, spec: &Spec, budget: u32, near: bool) -> Result<Numbers, Halt>
    requires typed { WellTyped (spec_data spec.now) }
    requires budget { 2 ≤ budget }
    ensures numbers { IfOk result (AreNumbersOf (spec_data spec.now)) }
    ensures cause { near ≡ false → IfErr result (MayHalt budget (spec_data spec.now)) }
{
    let mut g = space_of(alloc, spec, budget, near)?;
    game_numbers(alloc, &mut g)
}

/// Who wins a specification, with the numbers. `near`: whether the near order comes first; it is cleared where the nodes run out
/// there. `Budget`: the nodes ran out. `Memory`: none was given.
fn numbers_by(alloc: Global, spec: &Spec, budget: u32, near: &mut bool) -> Result<Numbers, Halt>
    requires typed { WellTyped (spec_data spec.now) }
    requires budget { 2 ≤ budget }
    ensures numbers { IfOk result (AreNumbersOf (spec_data spec.now)) }
    ensures cause { IfErr result (MayHalt budget (spec_data spec.now)) }
{
    if *near {
        match numbers_under(alloc, spec, budget, true) {
            Ok(numbers) => return Ok(numbers),
            Err(Halt::Memory) => return Err(Halt::Memory),
            Err(Halt::Budget) => *near = false,
        }
    }
    numbers_under(alloc, spec, budget, false)
}

/// Who wins a specification, with the numbers. `Budget`: the nodes ran out. `Memory`: none was given.
pub fn whole_numbers(alloc: Global, spec: &Spec, budget: u32) -> Result<Numbers, Halt>
    requires typed { WellTyped (spec_data spec.now) }
    requires budget { 2 ≤ budget }
    ensures numbers { IfOk result (AreNumbersOf (spec_data spec.now)) }
    ensures cause { IfErr result (MayHalt budget (spec_data spec.now)) }
{
    let mut near = true;
    numbers_by(alloc, spec, budget, &mut near)
}

/// Who wins a specification, with the numbers and a strategy, in one attempt. The cause of a refusal is told of the declared order
/// alone.
fn verdict_under(alloc: Global, spec: &Spec, budget: u32, near: bool) -> Result<Verdict, Halt>
    requires typed { WellTyped (spec_data spec.now) }
    requires budget { 2 ≤ budget }
    ensures verdict { IfOk result (IsVerdictOn (spec_data spec.now)) }
    ensures cause { near ≡ false → IfErr result (MayHalt budget (spec_data spec.now)) }
{
    let mut g = space_of(alloc, spec, budget, near)?;
    match solve_game(alloc, &mut g)? {
        Solved::BySystem(layers) => {
            let (k, play) = system_play(alloc, g, layers)?;
            Ok(Verdict::Realizable { k, play })
        }
        Solved::ByEnvironment(layers) => {
            let (n, m, play) = environment_play(alloc, g, layers)?;
            Ok(Verdict::Unrealizable { n, m, play })
        }
    }
}

/// Who wins a specification, with the numbers and a strategy, which must be closed. `Budget`: the nodes ran out. `Memory`: none
/// was given.
pub fn whole_verdict(alloc: Global, spec: &Spec, budget: u32) -> Result<Verdict, Halt>
    requires typed { WellTyped (spec_data spec.now) }
    requires budget { 2 ≤ budget }
    ensures verdict { IfOk result (IsVerdictOn (spec_data spec.now)) }
    ensures cause { IfErr result (MayHalt budget (spec_data spec.now)) }
{
    match verdict_under(alloc, spec, budget, true) {
        Ok(verdict) => Ok(verdict),
        Err(Halt::Memory) => Err(Halt::Memory),
        Err(Halt::Budget) => verdict_under(alloc, spec, budget, false),
    }
}

/// Who wins a specification, with the numbers, and with the environment's strategy where it does, in one attempt. The cause of a
/// refusal is told of the declared order alone.
fn opposition_under(alloc: Global, spec: &Spec, budget: u32, near: bool) -> Result<Opposition, Halt>
    requires typed { WellTyped (spec_data spec.now) }
    requires budget { 2 ≤ budget }
    ensures opposition { IfOk result (IsOppositionOn (spec_data spec.now)) }
    ensures cause { near ≡ false → IfErr result (MayHalt budget (spec_data spec.now)) }
{
    let mut g = space_of(alloc, spec, budget, near)?;
    match oppose_game(alloc, &mut g)? {
        Opposed::BySystem(k) => Ok(Opposition::Realizable { k }),
        Opposed::ByEnvironment(layers) => {
            let (n, m, play) = environment_play(alloc, g, layers)?;
            Ok(Opposition::Unrealizable { n, m, play })
        }
    }
}

/// Who wins a specification, with the numbers, and with the environment's strategy where it does, which must be closed. Of the
/// system's layers none is held but the last one of a goal. `Budget`: the nodes ran out. `Memory`: none was given.
pub fn whole_opposition(alloc: Global, spec: &Spec, budget: u32) -> Result<Opposition, Halt>
    requires typed { WellTyped (spec_data spec.now) }
    requires budget { 2 ≤ budget }
    ensures opposition { IfOk result (IsOppositionOn (spec_data spec.now)) }
    ensures cause { IfErr result (MayHalt budget (spec_data spec.now)) }
{
    match opposition_under(alloc, spec, budget, true) {
        Ok(opposition) => Ok(opposition),
        Err(Halt::Memory) => Err(Halt::Memory),
        Err(Halt::Budget) => opposition_under(alloc, spec, budget, false),
    }
}

/// Who wins the specification that keeps of the guarantees only those whose line numbers are in `kept`, with the numbers.
/// `Budget`: the nodes ran out. `Memory`: none was given.
pub fn numbers(alloc: Global, spec: &Spec, kept: &[u32], budget: u32) -> Result<Numbers, Halt>
    requires typed { WellTyped (spec_data spec.now) }
    requires budget { 2 ≤ budget }
    ensures numbers { IfOk result (AreNumbersOf (with_guarantees (spec_data spec.now) kept.now)) }
    ensures cause { IfErr result (MayHalt budget (with_guarantees (spec_data spec.now) kept.now)) }
{
    let mut near = true;
    part_numbers(alloc, spec, kept, budget, &mut near)
}

/// The same of one part after the other. `near`: whether the near order comes first; it is cleared where the nodes run out there.
pub fn part_numbers(
    alloc: Global,
    spec: &Spec,
    kept: &[u32],
    budget: u32,
    near: &mut bool,
) -> Result<Numbers, Halt>
    requires typed { WellTyped (spec_data spec.now) }
    requires budget { 2 ≤ budget }
    ensures numbers { IfOk result (AreNumbersOf (with_guarantees (spec_data spec.now) kept.now)) }
    ensures cause { IfErr result (MayHalt budget (with_guarantees (spec_data spec.now) kept.now)) }
{
    let Ok(part) = without(alloc, spec, kept) else {
        return Err(Halt::Memory);
    };
    numbers_by(alloc, &part, budget, near)
}

/// Who wins that specification, with the numbers and a strategy, which must be closed. `Budget`: the nodes ran out. `Memory`:
/// none was given.
pub fn verdict(alloc: Global, spec: &Spec, kept: &[u32], budget: u32) -> Result<Verdict, Halt>
    requires typed { WellTyped (spec_data spec.now) }
    requires budget { 2 ≤ budget }
    ensures verdict { IfOk result (IsVerdictOn (with_guarantees (spec_data spec.now) kept.now)) }
    ensures cause { IfErr result (MayHalt budget (with_guarantees (spec_data spec.now) kept.now)) }
{
    let Ok(part) = without(alloc, spec, kept) else {
        return Err(Halt::Memory);
    };
    whole_verdict(alloc, &part, budget)
}
