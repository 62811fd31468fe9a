//! What the items of several files declare.

ghost use Rattle.std.specs.Prelude.{◌≡◌, ◌+◌, [], ◌∷◌, map, option_map, IfOk, OnOk};
ghost use Rattle.spectra_trees.specs.Views.{name_data, expr_data, length_data, item_data};
ghost use Rattle.spectra_resolved.specs.Reports.{found_in};
ghost use Rattle.spectra_resolved.specs.Spaces.{no_names};
ghost use Rattle.spectra_resolved.specs.SpaceViews.{with_entries};
ghost use Rattle.spectra_resolved.specs.Tables.{told};
ghost use Rattle.spectra_resolved.specs.Spots.{mentioned as mentioned_lem};
ghost use Rattle.spectra_resolved.specs.EnumViews.{names_in};
ghost use Rattle.spectra_declared.specs.MentionViews.{names_data};
ghost use Rattle.spectra_declared.specs.ItemViews.{filed_data};
ghost use Rattle.spectra_declared.specs.Declarations.{no_counts, counted as counted_lem, variable_named as variable_named_lem, enum_entry, define_entries, own_entries, enum_entries, entries_of, entries};

use crate::items::Filed;
use crate::mentions::enum_names_of;
use spectra_items::lengths::{count_of, elements_of};
use spectra_resolved::enum_names::EnumNames;
use spectra_resolved::findings::Findings;
use spectra_resolved::spot::mentioned;
use spectra_resolved::table::{Named, Table};
use spectra_resolved::tree::Leaf;
use spectra_trees::tree::{ExprTree, Item, Length, Name};
use std::alloc::{AllocError, Global};

/// A name space.
#[derive(Clone, Copy)]
pub enum Space {
    Values,
    Types,
    Patterns,
    Lines,
}

/// How many variables, types, defines and predicates, and patterns there are.
#[derive(Clone, Copy)]
pub struct Counts {
    pub variables: usize,
    pub types: usize,
    pub definitions: usize,
    pub patterns: usize,
}

// A sum. One past the machine's numbers is a want of memory.
fn more(count: usize, added: usize) -> Result<usize, AllocError>
    ensures { IfOk result (λ sum. sum ≡ count + added) }
{
    count.checked_add(added).ok_or(AllocError)
}

impl Counts {
    // Nothing.
    fn none() -> Counts
        ensures { result ≡ no_counts }
    {
        Counts {
            variables: 0,
            types: 0,
            definitions: 0,
            patterns: 0,
        }
    }

    // The counts behind an item.
    fn counted(self, item: &Item) -> Result<Counts, AllocError>
        ensures { IfOk result (λ counts. counts ≡ counted_lem self (item_data item.now)) }
    {
        let mut counts = self;
        match item {
            Item::Variable(x) => {
                counts.variables = more(counts.variables, count_of(&x.length))?;
            }
            Item::Monitor(_) => counts.variables = more(counts.variables, 1)?,
            Item::Alias(_) => counts.types = more(counts.types, 1)?,
            Item::Define(d) => counts.definitions = more(counts.definitions, d.bodies.len())?,
            Item::Predicate(_) => counts.definitions = more(counts.definitions, 1)?,
            Item::Pattern(_) => counts.patterns = more(counts.patterns, 1)?,
            Item::Statement(_) => {}
        }
        Ok(counts)
    }
}

// Declares one name of a file.
fn declare<'t>(
    table: &mut Table<'t>,
    findings: &mut Findings,
    file: usize,
    name: &'t Name,
    named: Named,
) -> Result<(), AllocError>
    ensures { OnOk result (told table.new findings.new ≡ with_entries (told table.old findings.old) ((mentioned_lem file (name_data name.now), named) ∷ [])) }
{
    table.declare(findings, mentioned(file, name), named)
}

// Declares enum names by their numbers.
fn declare_enums<'t>(
    table: &mut Table<'t>,
    findings: &mut Findings,
    enums: &EnumNames<'t>,
    file: usize,
    names: &[&'t Name],
) -> Result<(), AllocError>
    ensures { OnOk result (told table.new findings.new ≡ with_entries (told table.old findings.old) (map (enum_entry (names_in enums.now) file) (names_data names.now))) }
{
    for name in names {
        let number = enums.number(name.text.as_str()).unwrap_or(0);
        declare(
            table,
            findings,
            file,
            name,
            Named::Leaf(Leaf::EnumName(number)),
        )?;
    }
    Ok(())
}

// Declares the names of a `define`, where so many definitions stand before it.
fn declare_defines<'t>(
    table: &mut Table<'t>,
    findings: &mut Findings,
    file: usize,
    before: usize,
    bodies: &'t [(Name, ExprTree)],
) -> Result<(), AllocError>
    ensures { OnOk result (told table.new findings.new ≡ with_entries (told table.old findings.old) (define_entries file before (map (λ b. (name_data b.0, expr_data b.1)) bodies.now))) }
{
    let mut number = before;
    for body in bodies {
        declare(
            table,
            findings,
            file,
            &body.0,
            Named::Leaf(Leaf::Define(number)),
        )?;
        number = more(number, 1)?;
    }
    Ok(())
}

// What the name of a variable stands for, before which so many stand: an array where it has a length.
fn variable_named(before: usize, length: &Option<Length>) -> Named
    ensures { result ≡ variable_named_lem before (option_map length_data length.now) }
{
    match length {
        Some(length) => Named::Array(before, elements_of(length)),
        None => Named::Leaf(Leaf::Variable(before)),
    }
}

// Declares an item's own name in the space of values.
fn declare_value<'t>(
    table: &mut Table<'t>,
    findings: &mut Findings,
    counts: Counts,
    file: usize,
    item: &'t Item,
) -> Result<(), AllocError>
    ensures { OnOk result (told table.new findings.new ≡ with_entries (told table.old findings.old) (own_entries Space.Values counts file (item_data item.now))) }
{
    match item {
        Item::Variable(x) => {
            let variable = variable_named(counts.variables, &x.length);
            declare(table, findings, file, &x.name, variable)
        }
        Item::Monitor(m) => {
            let monitor = Named::Leaf(Leaf::Variable(counts.variables));
            declare(table, findings, file, &m.name, monitor)
        }
        Item::Define(d) => declare_defines(table, findings, file, counts.definitions, &d.bodies),
        Item::Predicate(p) => {
            let predicate = Named::Predicate(counts.definitions, p.params.len());
            declare(table, findings, file, &p.name, predicate)
        }
        Item::Alias(_) | Item::Pattern(_) | Item::Statement(_) => Ok(()),
    }
}

// Declares an item's own name in a name space.
fn declare_own<'t>(
    space: Space,
    table: &mut Table<'t>,
    findings: &mut Findings,
    counts: Counts,
    file: usize,
    item: &'t Item,
) -> Result<(), AllocError>
    ensures { OnOk result (told table.new findings.new ≡ with_entries (told table.old findings.old) (own_entries space counts file (item_data item.now))) }
{
    match (space, item) {
        (Space::Values, _) => declare_value(table, findings, counts, file, item),
        (Space::Types, Item::Alias(t)) => {
            declare(table, findings, file, &t.name, Named::Type(counts.types))
        }
        (Space::Patterns, Item::Pattern(p)) => {
            let pattern = Named::Pattern(counts.patterns, p.params.len());
            declare(table, findings, file, &p.name, pattern)
        }
        (Space::Lines, Item::Statement(l)) => match &l.name {
            Some(name) => declare(table, findings, file, name, Named::Plain),
            None => Ok(()),
        },
        (_, _) => Ok(()),
    }
}

// Declares the enum names of an item in a name space.
fn declare_mentions<'t>(
    alloc: Global,
    space: Space,
    table: &mut Table<'t>,
    findings: &mut Findings,
    enums: &EnumNames<'t>,
    filed: Filed<'t>,
) -> Result<(), AllocError>
    ensures { OnOk result (told table.new findings.new ≡ with_entries (told table.old findings.old) (enum_entries space (names_in enums.now) filed.entry.file (item_data filed.entry.item.now))) }
{
    match space {
        Space::Values => {
            let names = enum_names_of(alloc, filed.item)?;
            declare_enums(table, findings, enums, filed.file, &names)
        }
        Space::Types | Space::Patterns | Space::Lines => Ok(()),
    }
}

#[tactic(auto, using(spectra_items::proofs::Told::with_entries_append))]
// Declares what an item has in a name space.
fn declare_item<'t>(
    alloc: Global,
    space: Space,
    table: &mut Table<'t>,
    findings: &mut Findings,
    enums: &EnumNames<'t>,
    counts: Counts,
    filed: Filed<'t>,
) -> Result<(), AllocError>
    ensures { OnOk result (told table.new findings.new ≡ with_entries (told table.old findings.old) (entries_of space (names_in enums.now) counts (filed_data filed.entry))) }
{
    match filed.item {
        Item::Predicate(_) => {
            declare_own(space, table, findings, counts, filed.file, filed.item)?;
            declare_mentions(alloc, space, table, findings, enums, filed)
        }
        _ => {
            declare_mentions(alloc, space, table, findings, enums, filed)?;
            declare_own(space, table, findings, counts, filed.file, filed.item)
        }
    }
}

#[tactic(auto, using(spectra_items::proofs::Told::with_entries_append))]
/// What several items declare in a name space. Each second declaration of a name is reported, but for an enum name in two enums.
pub fn space_of<'t>(
    alloc: Global,
    space: Space,
    findings: &mut Findings,
    enums: &EnumNames<'t>,
    items: &[Filed<'t>],
) -> Result<Table<'t>, AllocError>
    ensures { IfOk result (λ table. told table findings.new
        ≡ with_entries (record { look = no_names; found = found_in findings.old }) (entries space (names_in enums.now) (map filed_data items.now))) }
{
    let mut table = Table::new(alloc);
    let mut counts = Counts::none();
    for filed in items {
        declare_item(alloc, space, &mut table, findings, enums, counts, *filed)?;
        counts = counts.counted(filed.item)?;
    }
    Ok(table)
}
