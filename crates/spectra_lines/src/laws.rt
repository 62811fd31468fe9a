//! A law over the definitions alone. This function does nothing: its contract is the law.

ghost use Rattle.spectra_lines.specs.Laws.{FaultlessAreMeant};

/// Where lines and patterns have no fault, all of them mean something, and pass no limit.
pub fn faultless_are_meant()
    ensures { FaultlessAreMeant }
{}
