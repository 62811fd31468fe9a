//! Laws over the definitions alone. These functions do nothing: their contracts are the laws.

ghost use Rattle.spectra_cases.specs.Laws.{LineIsTyped, PatternIsTyped, LineKeepsBans, PatternKeepsBans};

/// An expression of a line in which everything is put in, and that has no fault where it stands, has a typed formula.
pub fn line_is_typed()
    ensures { LineIsTyped }
{}

/// So has an expression of a pattern's line.
pub fn pattern_is_typed()
    ensures { PatternIsTyped }
{}

/// Nothing that is banned where a line's expression stands is in its formula.
pub fn line_keeps_bans()
    ensures { LineKeepsBans }
{}

/// So it is with an expression of a pattern's line.
pub fn pattern_keeps_bans()
    ensures { PatternKeepsBans }
{}
