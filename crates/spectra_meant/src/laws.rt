//! A law over the definitions alone. This function does nothing: its contract is the law.

ghost use Rattle.spectra_meant.specs.Laws.{TypesAreMeant};

/// Types that don't go round, and whose ranges have numbers, have domains.
pub fn types_are_meant()
    ensures { TypesAreMeant }
{}
