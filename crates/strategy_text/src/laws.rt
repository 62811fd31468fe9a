//! Laws over the definitions alone. These functions do nothing: their contracts are the laws.

ghost use Rattle.spec_model.specs.Syntax.{Specification};
ghost use Rattle.spec_model.specs.WellTyped.{WellTyped};
ghost use Rattle.strategy_tables.specs.Games.{TableData};
ghost use Rattle.strategy_text.specs.Laws.{ReadsBack, ReadsTablesOnly};

/// What is written of a table of a well-typed specification's game reads as that table.
pub fn what_is_written_is_read()
    ensures { (s : Specification) (t : TableData) → WellTyped s → ReadsBack s t }
{}

/// What is read is a table of the specification's game.
pub fn only_tables_are_read()
    ensures { (s : Specification) → ReadsTablesOnly s }
{}
