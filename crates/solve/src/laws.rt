//! What holds of every verdict. These functions do nothing: their contracts are the laws.

ghost use Rattle.std.specs.Prelude.{◌⊎◌, ◌<◌, ℕ};
ghost use Rattle.spec_model.specs.Syntax.{Specification};
ghost use Rattle.spec_model.specs.WellTyped.{WellTyped};
ghost use Rattle.spec_model.specs.Cores.{Realizable, Unrealizable};
ghost use Rattle.spec_model.specs.Needs.{need_of};
ghost use Rattle.hidden_game.specs.GameOf.{game_of};
ghost use Rattle.solve.specs.WinnerLaws.{NeverBoth, OneOfBoth, PartsStayRealizable};
ghost use Rattle.solve.specs.Crowded.{Crowded};

/// No specification is won by both sides, whatever the numbers.
pub fn no_specification_is_won_by_both()
    ensures { (s : Specification) → NeverBoth s }
{}

/// One of the two wins each well-typed specification.
pub fn one_of_both_wins()
    ensures { (s : Specification) → WellTyped s → OneOfBoth s }
{}

/// Each well-typed specification is realizable or unrealizable, within the bounds of its size.
pub fn realizable_or_unrealizable()
    ensures { (s : Specification) → WellTyped s → Realizable s ⊎ Unrealizable s }
{}

/// What is realizable stays so with a part of its guarantees, within the part's own bound.
pub fn fewer_guarantees_stay_realizable()
    ensures { (s : Specification) → WellTyped s → PartsStayRealizable s }
{}

/// The sets that the solver may hold never fill as many nodes as a specification needs.
pub fn crowded_only_below_the_need()
    ensures { (s : Specification) (n : ℕ) → Crowded (game_of s) n → n < need_of s }
{}
