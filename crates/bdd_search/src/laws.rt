//! Laws of the bits that come first.

ghost use Rattle.std.specs.Prelude.{List};
ghost use Rattle.spec_model.specs.declared.value.Value.{Value};
ghost use Rattle.spec_model.specs.Values.{DomainData};
ghost use Rattle.spec_model.specs.Diagrams.{Bits};
ghost use Rattle.bdd_search.specs.Parts.{FirstHaveFirst};

/// Where the next bits of one list of values come before those of another, and their present bits are the same, the other
/// list does not come before it.
pub fn first_bits_have_first_values()
    ensures { (ds : List DomainData) (us vs : List Value) (u v : Bits) → FirstHaveFirst ds us vs u v }
{}
