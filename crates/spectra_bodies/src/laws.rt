//! Laws over the definitions alone.

ghost use Rattle.spectra_bodies.specs.Laws.{RangesHaveNumbers, NoneGoesRound, EachHasAMeaning, BodiesAreAsWritten, LinesArePutIn, ParametersAreMeant};

/// Where types and definitions have no fault, each range has numbers.
pub fn ranges_have_numbers()
    ensures { RangesHaveNumbers }
{}

/// Where types and definitions have no fault, no definition is used in its own body.
pub fn none_goes_round()
    ensures { NoneGoesRound }
{}

/// Where types and definitions have no fault, and no name stands twice among a definition's parameters, each has a meaning.
pub fn each_has_a_meaning()
    ensures { EachHasAMeaning }
{}

/// Then each body is put in as it is written, where no name is misused and no parameter's type is without meaning.
pub fn bodies_are_as_written()
    ensures { BodiesAreAsWritten }
{}

/// And everything is put in in an expression of a line that has no fault as it is written.
pub fn lines_are_put_in()
    ensures { LinesArePutIn }
{}

/// And no parameter's type is without meaning, where each name of a type is that of a declared one.
pub fn parameters_are_meant()
    ensures { ParametersAreMeant }
{}
