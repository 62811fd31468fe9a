//! A table of names, each with what it stands for.

ghost use Rattle.std.specs.Prelude.{◌≡◌, List, ℕ, None, OnOk};
ghost use Rattle.spectra_resolved.specs.Spaces.{and_name};
ghost use Rattle.spectra_resolved.specs.Tables.{in_table, told};
ghost use Rattle.spectra_resolved.specs.MentionViews.{mention_data};
ghost use Rattle.spectra_resolved.specs.Spaces.{clash};
ghost use Rattle.spectra_resolved.specs.SpaceViews.{with_entry};
ghost use Rattle.spectra_resolved.specs.Findings.{with_faults};
ghost use Rattle.spectra_resolved.specs.Reports.{found_in};

use crate::findings::Findings;
use crate::spot::Mention;
use crate::tree::Leaf;
use indexmap::IndexMap;
use spectra_trees::faults::TWICE;
use std::alloc::{AllocError, Global};

/// What a name stands for: a value without parentheses; an array, by the number of its first element and that of all, which is
/// 0 where its length is faulty; a predicate or a pattern, by its number and that of its parameters; a type, by its number;
/// nothing but itself, as the name of a line.
#[derive(Clone, Copy, PartialEq, Eq)]
pub enum Named {
    Leaf(Leaf),
    Array(usize, usize),
    Predicate(usize, usize),
    Pattern(usize, usize),
    Type(usize),
    Plain,
}

/// Names, each with what it was first declared as.
#[derive(Drop)]
pub struct Table<'t> {
    entries: IndexMap<&'t str, Named>,
}

impl<'t> Table<'t> {
    /// No names.
    pub fn new(alloc: Global) -> Table<'t>
        ensures { (text : List ℕ) → in_table result text ≡ None }
    {
        Table {
            entries: IndexMap::new(alloc),
        }
    }

    /// What a name was first declared as.
    pub fn get(&self, name: &str) -> Option<Named>
        ensures { result ≡ in_table self.now name.now }
    {
        self.entries.get(&name).copied()
    }

    // Puts a name there, if it isn't there.
    fn put(&mut self, name: &'t str, named: Named) -> Result<(), AllocError>
        ensures { OnOk result ((text : List ℕ) → in_table self.new text ≡ and_name (in_table self.old) name.now named text) }
    {
        if self.entries.get(&name).is_none() {
            self.entries.insert(name, named)?;
        }
        Ok(())
    }

    /// One more declaration, which is a fault where its name is there, but for an enum name that is there as one.
    pub fn declare(
        &mut self,
        findings: &mut Findings,
        name: Mention<'t>,
        named: Named,
    ) -> Result<(), AllocError>
        ensures { OnOk result (told self.new findings.new ≡ with_entry (told self.old findings.old) (mention_data name.entry, named)) }
    {
        report_clash(findings, self.get(name.text), name, named);
        self.put(name.text, named)
    }
}

// Reports a declaration whose name stands for something else already.
fn report_clash(findings: &mut Findings, first: Option<Named>, name: Mention<'_>, again: Named)
    ensures { found_in findings.new ≡ with_faults (found_in findings.old) (clash first (mention_data name.entry, again)) }
{
    match (first, again) {
        (None, _) => {}
        (Some(Named::Leaf(Leaf::EnumName(_))), Named::Leaf(Leaf::EnumName(_))) => {}
        (Some(_), _) => findings.report(TWICE, name.at),
    }
}
