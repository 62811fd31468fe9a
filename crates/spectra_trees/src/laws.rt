//! What holds of the numbers and words of faults.

ghost use Rattle.spectra_trees.specs.Laws.{ConstantsAreNumbers, EachIsShown};

/// Each constant of `faults` is the number of its fault.
pub fn constants_are_numbers()
    ensures { ConstantsAreNumbers }
{}

/// What is shown of a fault's number is the number and the word of that fault.
pub fn each_fault_is_shown()
    ensures { EachIsShown }
{}
