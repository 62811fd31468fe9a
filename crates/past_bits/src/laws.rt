//! What holds of the tables of every specification's past operators.

ghost use Rattle.spec_model.specs.Syntax.{Specification};
ghost use Rattle.spec_model.specs.Games.{GameData};
ghost use Rattle.spec_model.specs.WellTyped.{WellTyped};
ghost use Rattle.past_bits.specs.Laws.{BeginsWithBits, EntriesAreOperators, TablesAreMade};

/// In a game that begins with the tables of a well-typed specification's past operators, the entry of each is the
/// operator's value, on every run and at every position.
pub fn entries_are_operators()
    ensures { (s : Specification) (g : GameData) → WellTyped s → BeginsWithBits s g → EntriesAreOperators s g }
{}

/// The tables of a well-typed specification's past operators are well made, as the first of a game.
pub fn tables_are_made()
    ensures { (s : Specification) → WellTyped s → TablesAreMade s }
{}
