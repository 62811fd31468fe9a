//! What holds of all files, and other laws over definitions alone. These functions do nothing: their contracts are the laws.

ghost use Rattle.spectra_types.specs.Laws.{FaultlessIsWellTyped, FaultlessHasRoom, DefinitionsHaveOneSense, UseIsWorked, SpansAreExact};

/// Files without a fault mean a well-typed specification.
pub fn faultless_files_are_well_typed()
    ensures { FaultlessIsWellTyped }
{}

/// It has room for the guarantee that can never be met.
pub fn faultless_files_have_room()
    ensures { FaultlessHasRoom }
{}

/// Definitions of files without a fault are what their bodies are, in exactly one way.
pub fn definitions_have_one_sense()
    ensures { DefinitionsHaveOneSense }
{}

/// A worked example: the use of a predicate whose argument is a define that speaks of the past.
pub fn use_is_worked()
    ensures { UseIsWorked }
{}

/// An expression has a span that is too wide exactly where it has one in whole numbers without bound.
pub fn spans_are_exact()
    ensures { SpansAreExact }
{}
