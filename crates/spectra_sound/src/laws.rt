//! Laws over the definitions alone. These functions do nothing: their contracts are the laws.

ghost use Rattle.std.specs.Prelude.{◌≡◌, ◌≤◌, List, true, length};
ghost use Rattle.std.specs.List.{list_all};
ghost use Rattle.spectra_resolved.specs.Spaces.{Entry};
ghost use Rattle.spectra_declared.specs.declared.declaring.Space.{Space};
ghost use Rattle.spectra_declared.specs.Items.{FiledItem};
ghost use Rattle.spectra_declared.specs.Declarations.{entries, enums_in, names_past};
ghost use Rattle.spectra_sound.specs.Laws.{FaultlessIsSound, WrittenIsSound};

/// Where the names of several files have no fault, their text is sound.
pub fn faultless_is_sound()
    ensures { FaultlessIsSound }
{}

/// A sound text is sound when its quantifiers are written out.
pub fn written_is_sound()
    ensures { WrittenIsSound }
{}
