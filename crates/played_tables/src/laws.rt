//! Laws over the definitions alone. These functions do nothing: their contracts are the laws.

ghost use Rattle.spec_model.specs.Games.{GameData};
ghost use Rattle.played_tables.specs.CounterPlayed.{AnsweredTablesAreSound};
ghost use Rattle.played_tables.specs.Played.{PlayedTablesAreSound};

/// A table whose nodes are where plays of chosen outputs end, and whose rows lead on by the choices, meets the five rules of a
/// system's table.
pub fn played_tables_are_sound()
    ensures { (g : GameData) → PlayedTablesAreSound g }
{}

/// A table whose nodes are where noted plays of given inputs end, and whose rows lead on by the legal replies, meets the five
/// rules of an environment's table.
pub fn answered_tables_are_sound()
    ensures { (g : GameData) → AnsweredTablesAreSound g }
{}
