//! The sets of states that specifications are solved over.

ghost use Rattle.std.specs.Prelude.{◌≡◌, ◌≤◌, false, IfOk, IfErr};
ghost use Rattle.spec_model.specs.Views.{spec_data};
ghost use Rattle.spec_model.specs.WellTyped.{WellTyped};
ghost use Rattle.hidden_game.specs.GameOf.{game_of};
ghost use Rattle.solve.specs.Budgets.{MayHalt};
ghost use Rattle.solve.specs.Spaces.{space_kept, IsNewOf};

use hidden_game::expand;
use region_bdd::RegionBdd;
use regions::Halt;
use spec_model::spec::Spec;
use std::alloc::Global;

/// Sets of states of one game.
pub type Space = RegionBdd;

/// The space of the game of a specification, with at most so many nodes at a time. Nothing is held at first. Where `near`, the
/// bits stand in the near order, and nothing is told of what fills the budget.
pub fn space_of(alloc: Global, spec: &Spec, budget: u32, near: bool) -> Result<Space, Halt>
    requires typed { WellTyped (spec_data spec.now) }
    requires budget { 2 ≤ budget }
    ensures made { IfOk result (λ r. IsNewOf (game_of (spec_data spec.now)) (space_kept r)) }
    ensures bound { near ≡ false → IfOk result (λ r. (space_kept r).bound ≡ budget) }
    ensures cause { near ≡ false → IfErr result (MayHalt budget (spec_data spec.now)) }
{
    let Ok(game) = expand(alloc, spec) else {
        return Err(Halt::Memory);
    };
    RegionBdd::make(alloc, game, budget, near)
}
