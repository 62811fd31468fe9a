//! A law over the definitions alone. This function does nothing: its contract is the law.

ghost use Rattle.spectra_judge.specs.Laws.{FirstIsLeast};

/// The first of several faults is one of them that no other one comes before, and there is none exactly where there are none.
pub fn first_is_least()
    ensures { FirstIsLeast }
{}
