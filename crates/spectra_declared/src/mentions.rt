//! The enum names that the types of an item declare.

ghost use Rattle.std.specs.Prelude.{◌≡◌, ◌++◌, map, flat_map, IfOk, OnOk};
ghost use Rattle.spectra_trees.specs.Data.{TypeData, NameData};
ghost use Rattle.spectra_trees.specs.Views.{name_data, type_data, part_data, item_data};
ghost use Rattle.spectra_resolved.specs.Enums.{enum_names};
ghost use Rattle.spectra_declared.specs.Items.{part_enum_names, enum_names_of as enum_names_of_lem};
ghost use Rattle.spectra_declared.specs.MentionViews.{names_data};

use spectra_trees::tree::{Item, Name, Part, PartForm, TypeForm, TypeTree};
use std::alloc::{AllocError, Global};

// Puts names behind others.
fn add_names<'t>(all: &mut Vec<&'t Name>, names: &'t [Name]) -> Result<(), AllocError>
    ensures { OnOk result (names_data all.new.items ≡ names_data all.old.items ++ map name_data names.now) }
{
    for name in names {
        all.push(name)?;
    }
    Ok(())
}

// Puts the names of a type behind others, where it is an enum.
fn add_enum<'t>(all: &mut Vec<&'t Name>, domain: &'t TypeTree) -> Result<(), AllocError>
    ensures { OnOk result (names_data all.new.items ≡ names_data all.old.items ++ enum_names (type_data domain.now)) }
{
    match &domain.form {
        TypeForm::Names(names) => add_names(all, names),
        TypeForm::Boolean | TypeForm::Range(_, _) | TypeForm::Named(_) => Ok(()),
    }
}

// Puts the names of parameters' types behind others.
fn add_parameters<'t>(
    all: &mut Vec<&'t Name>,
    params: &'t [(TypeTree, Name)],
) -> Result<(), AllocError>
    ensures { OnOk result (names_data all.new.items ≡ names_data all.old.items
        ++ flat_map (λ (a : TypeData × NameData). enum_names a.0) (map (λ a. (type_data a.0, name_data a.1)) params.now)) }
{
    for param in params {
        add_enum(all, &param.0)?;
    }
    Ok(())
}

// Puts the names of an own variable's type behind others.
fn add_part<'t>(all: &mut Vec<&'t Name>, part: &'t Part) -> Result<(), AllocError>
    ensures { OnOk result (names_data all.new.items ≡ names_data all.old.items ++ part_enum_names (part_data part.now)) }
{
    match &part.form {
        PartForm::Own(domain, _) => add_enum(all, domain),
        PartForm::Initial(_) | PartForm::Always(_) | PartForm::Recurring(_) => Ok(()),
    }
}

// Puts the names of own variables' types behind others.
fn add_parts<'t>(all: &mut Vec<&'t Name>, parts: &'t [Part]) -> Result<(), AllocError>
    ensures { OnOk result (names_data all.new.items ≡ names_data all.old.items ++ flat_map part_enum_names (map part_data parts.now)) }
{
    for part in parts {
        add_part(all, part)?;
    }
    Ok(())
}

/// Every mention of an enum name by a type of an item.
pub fn enum_names_of<'t>(alloc: Global, item: &'t Item) -> Result<Vec<&'t Name>, AllocError>
    ensures { IfOk result (λ all. names_data all.items ≡ enum_names_of_lem (item_data item.now)) }
{
    let mut all = Vec::new(alloc);
    match item {
        Item::Variable(x) => add_enum(&mut all, &x.domain)?,
        Item::Alias(t) => add_enum(&mut all, &t.body)?,
        Item::Predicate(p) => add_parameters(&mut all, &p.params)?,
        Item::Pattern(p) => add_parts(&mut all, &p.parts)?,
        Item::Monitor(m) => add_enum(&mut all, &m.domain)?,
        Item::Define(_) | Item::Statement(_) => {}
    }
    Ok(all)
}
