//! The enum names of a text, by their first mentions.

ghost use Rattle.std.specs.Prelude.{◌≡◌, [], ◌∷◌, map, position, length, bytes_eq, IfOk, OnOk};
ghost use Rattle.spectra_trees.specs.Views.{name_data};
ghost use Rattle.spectra_resolved.specs.Enums.{with_names};
ghost use Rattle.spectra_resolved.specs.EnumViews.{names_in};

use indexmap::IndexSet;
use spectra_trees::tree::Name;
use std::alloc::{AllocError, Global};

/// Enum names in the order of their first mentions.
#[derive(Drop)]
pub struct EnumNames<'a> {
    pub texts: IndexSet<&'a str>,
}

impl<'a> EnumNames<'a> {
    /// No names.
    pub fn new(alloc: Global) -> EnumNames<'a>
        ensures { names_in result ≡ [] }
    {
        EnumNames {
            texts: IndexSet::new(alloc),
        }
    }

    /// How many names there are.
    pub fn len(&self) -> usize
        ensures { result ≡ length (names_in self.now) }
    {
        self.texts.len()
    }

    #[tactic(auto, using(crate::proofs::Mapped::mapped))]
    /// The number of a name, from 0.
    pub fn number(&self, name: &str) -> Option<usize>
        ensures { result ≡ position (bytes_eq name.now) (names_in self.now) }
    {
        self.texts.get_index_of(&name)
    }

    #[tactic(auto, using(crate::proofs::Mapped::mapped))]
    /// Puts a name behind the others, if it isn't there.
    pub fn add(&mut self, name: &'a Name) -> Result<(), AllocError>
        ensures { OnOk result (names_in self.new ≡ with_names (names_in self.old) (name_data name.now ∷ [])) }
    {
        self.texts.insert(name.text.as_str())?;
        Ok(())
    }

    /// The names in the order of their numbers.
    pub fn listed(&self, alloc: Global) -> Result<Vec<&'a str>, AllocError>
        ensures { IfOk result (λ texts. map (λ text. text.now) texts.items ≡ names_in self.now) }
    {
        self.texts.iter().copied().collect(alloc)
    }
}
