//! Laws over the definitions alone. These functions do nothing: their contracts are the laws.

ghost use Rattle.spec_model.specs.Games.{GameData};
ghost use Rattle.spec_model.specs.WellMade.{WellMade};
ghost use Rattle.spec_model.specs.Sets.{StateSet};
ghost use Rattle.gr1_law.specs.Laws.{LayersAreTold, WinningIsTold, RanksAreFew, ChoiceIsOne, ChosenPlaysKeep, WinningIsRealizable, RoundsLower, ChosenPlaysAreRanked};

/// Each set of states has layers, and no others: the equations tell them.
pub fn layers_are_told()
    ensures { (g : GameData) (z : StateSet) → LayersAreTold g z }
{}

/// Each game has one set Z, so one list of greatest ranks, and one number K.
pub fn winning_is_told()
    ensures { (g : GameData) → WinningIsTold g }
{}

/// K is at most one more than the number of goals times the number of states.
pub fn ranks_are_few()
    ensures { (g : GameData) → RanksAreFew g }
{}

/// What is remembered, and the input, determine the output and what is remembered then.
pub fn choice_is_one()
    ensures { (g : GameData) → ChoiceIsOne g }
{}

/// From a start that can be forced into Z, a run of chosen outputs for legal inputs is a play in Z that keeps each recurring
/// guarantee within K rounds, and after each legal input an output is chosen (Bloem et al. 2012, solving GR(1) games).
pub fn chosen_plays_keep()
    ensures { (g : GameData) → WellMade g → ChosenPlaysKeep g }
{}

/// So the game is realizable with K.
pub fn winning_is_realizable()
    ensures { (g : GameData) → WellMade g → WinningIsRealizable g }
{}

/// Along such a run each round in which a goal isn't met lowers the goal's potential: the rank for the goal aimed at, and
/// the greatest ranks of the goals from there on up to the goal itself.
pub fn rounds_lower()
    ensures { (g : GameData) → WellMade g → RoundsLower g }
{}

/// What is remembered along such a run has ranks that fall towards the goal aimed at, and that are at most the greatest.
pub fn chosen_plays_are_ranked()
    ensures { (g : GameData) → ChosenPlaysAreRanked g }
{}
