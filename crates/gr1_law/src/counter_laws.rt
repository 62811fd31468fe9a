//! Laws of the environment's choices. These functions do nothing: their contracts are the laws.

ghost use Rattle.spec_model.specs.Games.{GameData};
ghost use Rattle.spec_model.specs.WellMade.{WellMade};
ghost use Rattle.gr1_law.specs.EnvLayers.{EnvLayerSets};
ghost use Rattle.gr1_law.specs.CounterLaws.{LabelsDiffer, AnsweredPlaysBeat, LosingIsUnrealizable, AnswerIsOne, DenialsLower};
ghost use Rattle.gr1_law.specs.FollowedPlays.{AnsweredPlaysAreFollowed};

/// What is remembered and the state determine the next input; and with the state that it leads to what is remembered then.
pub fn answer_is_one()
    ensures { (g : GameData) (e : EnvLayerSets) → AnswerIsOne g e }
{}

/// From a start that the environment can force into its last layer, a run of given inputs and legal replies is a play that beats
/// the system within N shifts and M denials in a row, and it goes on (Könighofer et al. 2009, counterstrategies).
pub fn answered_plays_beat()
    ensures { (g : GameData) → WellMade g → LabelsDiffer g → AnsweredPlaysBeat g }
{}

/// So the game is unrealizable with N and M.
pub fn losing_is_unrealizable()
    ensures { (g : GameData) → WellMade g → LabelsDiffer g → LosingIsUnrealizable g }
{}

/// Along such a run each denial at which an assumption fails lowers the assumption's potential: the state's rank for the
/// assumption aimed at, and the hold's greatest ranks for the assumptions from there on up to the one that fails.
pub fn denials_lower()
    ensures { (g : GameData) → DenialsLower g }
{}

/// What is remembered along such a run waits for the assumptions that are aimed at, by ranks that fall; and each input leads into a
/// set whose number falls with them.
pub fn answered_plays_are_followed()
    ensures { (g : GameData) → AnsweredPlaysAreFollowed g }
{}
