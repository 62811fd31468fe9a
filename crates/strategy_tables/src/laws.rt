//! Laws over the definitions alone. These functions do nothing: their contracts are the laws.

ghost use Rattle.spec_model.specs.Games.{GameData};
ghost use Rattle.spec_model.specs.Syntax.{Specification};
ghost use Rattle.spec_model.specs.WellMade.{WellMade};
ghost use Rattle.spec_model.specs.WellTyped.{WellTyped};
ghost use Rattle.gr1_law.specs.CounterLaws.{LabelsDiffer};
ghost use Rattle.strategy_tables.specs.Sound.{SoundSystemTablesWin, SoundEnvironmentTablesWin, SoundTablesWin};

/// A system's table that meets its five rules wins the game: the game is realizable with the table's k.
pub fn sound_system_tables_win()
    ensures { (g : GameData) → WellMade g → SoundSystemTablesWin g }
{}

/// An environment's table that meets its five rules wins the game: the game is unrealizable with the table's n and m.
pub fn sound_environment_tables_win()
    ensures { (g : GameData) → WellMade g → LabelsDiffer g → SoundEnvironmentTablesWin g }
{}

/// A table that meets its rules in the game of a well-typed specification shows what it claims of the specification: that it is
/// realizable with k, or unrealizable with n and m.
pub fn sound_tables_win()
    ensures { (s : Specification) → WellTyped s → SoundTablesWin s }
{}
