//! What the layers of a game say of a specification that it agrees with. These functions do nothing: their contracts are the
//! laws. The game is well made.

ghost use Rattle.spec_model.specs.Syntax.{Specification};
ghost use Rattle.spec_model.specs.Games.{GameData};
ghost use Rattle.spec_model.specs.Laws.{NumbersRise};
ghost use Rattle.spec_model.specs.WellMade.{WellMade};
ghost use Rattle.spec_model.specs.Agreement.{Agrees, HasNoGoals, NothingRecurs};
ghost use Rattle.gr1_law.specs.CoreLaws.{PartStaysRealizable, LeftIsCore};
ghost use Rattle.gr1_law.specs.CounterLaws.{LabelsDiffer};
ghost use Rattle.gr1_law.specs.Specifications.{SpecificationIsRealizable, SystemWinsWithRanks, ChosenPlaysKeepTheSpecification, SafetyIsASpecialCase, StayingWins, EnvironmentWinsWithLayers, AnsweredPlaysBeatTheSpecification, OneWins, OneIsTrue};

/// Where the system can force the first state of the game into Z, the specification is realizable with K.
pub fn specification_is_realizable()
    ensures { (s : Specification) (g : GameData) → Agrees s g → WellMade g → SpecificationIsRealizable s g }
{}

/// K is within the bound that the specification's size gives.
pub fn system_wins()
    ensures { (s : Specification) (g : GameData) → Agrees s g → WellMade g → SystemWinsWithRanks s g }
{}

/// A run of chosen outputs is a play of the specification that keeps each recurring guarantee within K rounds, and after each
/// legal input a legal output is chosen (Bloem et al. 2012, solving GR(1) games).
pub fn chosen_plays_keep_the_specification()
    ensures { (s : Specification) (g : GameData) → Agrees s g → WellMade g → ChosenPlaysKeepTheSpecification s g }
{}

/// In a game without goals Z is the greatest set in which the system can stay (Bloem et al. 2012, safety games), and K is 2
/// where Z has a state, and 1 where it has none.
pub fn safety_is_a_special_case()
    ensures { (g : GameData) → HasNoGoals g → SafetyIsASpecialCase g }
{}

/// So where nothing recurs and the system can force the first state into that set, it wins the specification with that K.
pub fn staying_wins()
    ensures { (s : Specification) (g : GameData) → Agrees s g → WellMade g → NothingRecurs s → StayingWins s g }
{}

/// Where line numbers rise no two goals of the game have one label.
pub fn labels_differ()
    ensures { (s : Specification) (g : GameData) → Agrees s g → NumbersRise s.lines → LabelsDiffer g }
{}

/// Where the environment can force the first state of the game into its last layer, the specification is unrealizable with N
/// and M, within the bounds that its size gives.
pub fn environment_wins()
    ensures { (s : Specification) (g : GameData) → Agrees s g → WellMade g → NumbersRise s.lines → EnvironmentWinsWithLayers s g }
{}

/// A run of given inputs and legal replies is a play of the specification that beats the system within N shifts and M denials
/// in a row; an input that the specification allows is given after it, and each reply that it allows makes such a run again
/// (Könighofer et al. 2009, counterstrategies).
pub fn answered_plays_beat_the_specification()
    ensures { (s : Specification) (g : GameData) → Agrees s g → WellMade g → LabelsDiffer g → AnsweredPlaysBeatTheSpecification s g }
{}

/// So one of the two wins the specification, within the bounds.
pub fn one_wins()
    ensures wins { (s : Specification) (g : GameData) → Agrees s g → WellMade g → NumbersRise s.lines → OneWins s }
    ensures is_true { (s : Specification) (g : GameData) → Agrees s g → WellMade g → NumbersRise s.lines → OneIsTrue s }
{}

/// What is realizable with some of its guarantees, within its bound, is realizable with a part of them, within the part's own.
pub fn part_stays_realizable()
    ensures { (s : Specification) → PartStaysRealizable s }
{}

/// What trying the guarantees of an unrealizable specification in text order leaves is a core (Könighofer et al. 2009,
/// unrealizable cores).
pub fn left_is_core()
    ensures { (s : Specification) → LeftIsCore s }
{}
