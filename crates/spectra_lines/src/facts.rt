//! What lines are judged by.

use spectra_elaboration::definitions::Definitions;
use spectra_judge::known::Known;

/// What is known of the names in lines as they are written, and the bodies that are put in for definitions, with none for a
/// definition without meaning.
#[derive(Clone, Copy)]
pub struct Facts<'s, 'a> {
    pub known: Known<'s, 'a>,
    pub definitions: &'s Definitions,
}
