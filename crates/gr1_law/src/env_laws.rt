//! Laws of the environment's layers. These functions do nothing: their contracts are the laws.

ghost use Rattle.std.specs.Prelude.{ℕ};
ghost use Rattle.spec_model.specs.Games.{GameData};
ghost use Rattle.spec_model.specs.Agreement.{HasNoGoals};
ghost use Rattle.spec_model.specs.WellMade.{WellMade};
ghost use Rattle.spec_model.specs.Sets.{StateSet};
ghost use Rattle.gr1_law.specs.EnvLaws.{HoldIsTold, EnvLayersAreTold, DenialsAreTold, DenialsAreFew, SidesAreDual, LosingIsASpecialCase};

/// Each goal has one hold above each set: the greatest set that equals what the least sets of its equation, one for each
/// assumption, have in common (Könighofer et al. 2009, counterstrategies).
pub fn hold_is_told()
    ensures { (g : GameData) (lower : StateSet) (j : ℕ) → HoldIsTold g lower j }
{}

/// Each game has layers of the environment, and no others. Each is part of the next, and of the one numbered N.
pub fn env_layers_are_told()
    ensures { (g : GameData) → EnvLayersAreTold g }
{}

/// Each game has one N, so one list of greatest ranks for each hold in the layers up to it, and one M.
pub fn denials_are_told()
    ensures { (g : GameData) → DenialsAreTold g }
{}

/// N is at most the number of states, and M at most one more than the number of assumptions times the number of states.
pub fn denials_are_few()
    ensures { (g : GameData) → DenialsAreFew g }
{}

/// The two fixpoints are each other's complement: together they have all states, and they share none. So exactly one side
/// forces the first state into its own: the system into Z, or the environment into its last layer.
pub fn sides_are_dual()
    ensures { (g : GameData) → WellMade g → SidesAreDual g }
{}

/// In a game without goals the environment's layers, N and M are those of a safety game: the environment wins by leaving the
/// system without a legal output (Bloem et al. 2012, safety games).
pub fn losing_is_a_special_case()
    ensures { (g : GameData) → HasNoGoals g → LosingIsASpecialCase g }
{}
