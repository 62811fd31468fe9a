//! What a name stands for where it stands.

ghost use Rattle.std.specs.Prelude.{◌≡◌, map};
ghost use Rattle.spectra_resolved.specs.MentionViews.{mention_data};
ghost use Rattle.spectra_resolved.specs.Looks.{looked_up, outside, through_quantifiers};
ghost use Rattle.spectra_resolved.specs.LookViews.{around_data, look_data, scope_data};

use crate::enum_names::EnumNames;
use crate::spot::Mention;
use crate::table::{Named, Table};
use crate::tree::Leaf;

/// What the names of several files stand for: every enum name, by its first mention, and the four name spaces.
#[derive(Drop)]
pub struct Scope<'t> {
    pub names: EnumNames<'t>,
    pub values: Table<'t>,
    pub types: Table<'t>,
    pub patterns: Table<'t>,
    pub lines: Table<'t>,
}

/// What is seen from where a name stands, beside what is declared around it: all values, or in a pattern enum names alone.
#[derive(Clone, Copy)]
pub enum Sight {
    Values,
    EnumNames,
}

/// Where a name stands: what is declared around it, as parameters, hides what is outside, and the variables of the quantifiers
/// around it, the innermost last, hide both.
#[derive(Clone, Copy)]
pub struct Look<'s, 't> {
    pub scope: &'s Scope<'t>,
    pub around: Option<&'s Table<'t>>,
    pub sight: Sight,
    pub quantified: &'s [Mention<'s>],
}

impl<'s, 't> Look<'s, 't> {
    /// What a name stands for, where it has a declaration that is visible.
    pub fn named(&self, text: &str) -> Option<Named>
        ensures { result ≡ look_data self.now text.now }
    {
        let declared = self.declared(text);
        self.through(text, declared)
    }

    // What a name stands for that stands for so much outside of the quantifiers.
    fn through(&self, text: &str, outside: Option<Named>) -> Option<Named>
        ensures { result ≡ through_quantifiers (map mention_data self.now.quantified.now) text.now outside }
    {
        let quantified = self.quantified;
        let mut named = outside;
        for variable in quantified {
            if text == variable.text {
                named = Some(Named::Leaf(Leaf::Bound(variable.at)));
            }
        }
        named
    }

    // What a name stands for by declarations.
    fn declared(&self, text: &str) -> Option<Named>
        ensures { result ≡ looked_up self.now.sight (scope_data self.now.scope.now) (around_data self.now.around) text.now }
    {
        match self.inside(text) {
            Some(named) => Some(named),
            None => self.outside(text),
        }
    }

    // What a name stands for by what is declared around it.
    fn inside(&self, text: &str) -> Option<Named>
        ensures { result ≡ around_data self.now.around text.now }
    {
        match self.around {
            Some(table) => table.get(text),
            None => None,
        }
    }

    // What a name stands for outside of what is around.
    fn outside(&self, text: &str) -> Option<Named>
        ensures { result ≡ outside self.now.sight (scope_data self.now.scope.now) text.now }
    {
        match self.sight {
            Sight::Values => self.scope.values.get(text),
            Sight::EnumNames => match self.scope.names.number(text) {
                Some(number) => Some(Named::Leaf(Leaf::EnumName(number))),
                None => None,
            },
        }
    }
}
