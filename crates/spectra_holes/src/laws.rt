//! A law over the definitions alone. This function does nothing: its contract is the law.

ghost use Rattle.spectra_holes.specs.Laws.{HoledStays};

/// An expression without faults has no hole in place of an argument.
pub fn holed_stays()
    ensures { HoledStays }
{}
