//! What holds of the table of every pattern that is determined.

ghost use Rattle.std.specs.Prelude.{◌≡◌, ℕ, true};
ghost use Rattle.spec_model.specs.Syntax.{PatternData};
ghost use Rattle.spec_model.specs.WellTyped.{is_determined, is_typed_pattern};
ghost use Rattle.pattern_rows.specs.Patterns.{IsPattern};
ghost use Rattle.pattern_rows.specs.Laws.{IsTableOf, HasTable, is_filled};
ghost use Rattle.pattern_rows.specs.Rows.{rows_of};

/// On every run of the parameters and at every position, the table of a pattern that is determined has the number of the
/// own variables' values, and its entries are whether the goals hold.
pub fn tables_are_patterns()
    ensures { (p : PatternData) → IsPattern p → is_determined p ≡ true → IsTableOf p }
{}

/// The table of a pattern that is determined is whole: its first and next values are among its values, and it has a next
/// value and an entry for each value and letter.
pub fn tables_are_filled()
    ensures { (p : PatternData) → is_determined p ≡ true → is_filled (rows_of p) ≡ true }
{}

/// Each pattern of a well-typed specification meets the condition of `rows`, is not too wide and is determined.
pub fn typed_patterns_have_tables()
    ensures { (names : ℕ) (p : PatternData) → is_typed_pattern names p ≡ true → HasTable p }
{}
