//! Laws over the definitions alone. These functions do nothing: their contracts are the laws.

ghost use Rattle.spectra_elaboration.specs.Laws.{EverythingIsPutIn, HoledIsAsWritten};

/// Where every definition has a meaning and none is used in its own body, everything is put in.
pub fn everything_is_put_in()
    ensures { EverythingIsPutIn }
{}

/// Where no name is misused and no parameter's type is without meaning, an expression without faults is put in as it is written.
pub fn holed_is_as_written()
    ensures { HoledIsAsWritten }
{}
