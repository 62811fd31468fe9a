//! By what bounds are judged.

ghost use Rattle.spectra_bounds.specs.TypeViews.{constants_data};
ghost use Rattle.spectra_elaboration.specs.DefinitionViews.{definitions_data};
ghost use Rattle.spectra_bodies.specs.SoundBounds.{HaveSoundBounds};

use spectra_bounds::constants::Constants;
use spectra_elaboration::definitions::Definitions;
use spectra_judge::known::Known;
use std::alloc::Global;

/// By what bounds are judged: the numbers of defines, what is put in for definitions, and what is known of the names as they are
/// written. A bound that has a number by these defines has no fault with everything put in.
#[derive(Clone, Copy)]
pub struct Basis<'s, 'a> {
    pub alloc: Global,
    pub constants: &'s Constants<'a>,
    pub definitions: &'s Definitions,
    pub known: Known<'s, 'a>,
    pub ghost sound: { HaveSoundBounds (constants_data constants.now) (definitions_data definitions.now) },
}
