//! What holds of every specification and its game.

ghost use Rattle.std.specs.Prelude.{◌≡◌, ◌<◌, ◌^◌, length};
ghost use Rattle.spec_model.specs.Syntax.{Specification};
ghost use Rattle.spec_model.specs.Agreement.{Agrees};
ghost use Rattle.spec_model.specs.Laws.{NumbersRise};
ghost use Rattle.spec_model.specs.WellMade.{WellMade};
ghost use Rattle.spec_model.specs.WellTyped.{WellTyped};
ghost use Rattle.hidden_game.specs.GameOf.{game_of};

/// The game of a well-typed specification is well made, and agrees with it: after each run, by the state that the hidden
/// values give, it has its legal moves, its recurring goals with their labels, and its first broken assumption and guarantee
/// or monitor's line. Equal specifications have equal games.
pub fn games_agree()
    ensures made { (s : Specification) → WellTyped s → WellMade (game_of s) }
    ensures agrees { (s : Specification) → WellTyped s → Agrees s (game_of s) }
    ensures equal { (s t : Specification) → s ≡ t → game_of s ≡ game_of t }
{}

/// The lines of a well-typed specification are numbered in text order.
pub fn lines_rise()
    ensures { (s : Specification) → WellTyped s → NumbersRise s.lines }
{}

/// The game of a well-typed specification has fewer than 2^32 goals, and fewer than 2^32 assumptions.
pub fn goals_are_few()
    ensures goals { (s : Specification) → WellTyped s → length (game_of s).goals < 2 ^ 32 }
    ensures asms { (s : Specification) → WellTyped s → length (game_of s).assume < 2 ^ 32 }
{}
