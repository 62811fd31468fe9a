//! A law of regions as diagrams. The function does nothing: its contract is the law.

ghost use Rattle.std.specs.Prelude.{◌≡◌, ◌<◌, Some};
ghost use Rattle.regions.specs.Kept.{Jam};
ghost use Rattle.region_bdd.specs.Crowding.{FillsBudget};
ghost use Rattle.region_bdd.specs.Seen.{seen};

use crate::object::RegionBdd;

/// Where a call ran out of budget, and the object shows a budget, all that it tells was held then fills the budget exactly, with
/// some sets that the game's formulas and the call's name, and with what one operation on these made so far. It shows its budget
/// where each bit stands at the level of its number, and else 0.
pub fn a_jam_fills_the_budget(regions: &RegionBdd)
    ensures { let k = seen regions.now in
        (jam : Jam) → k.jam ≡ Some jam → 0 < k.bound → ∥ FillsBudget k.game k.bound jam ∥₁ }
{}
