//! The patterns of several files.

ghost use Rattle.std.specs.Prelude.{◌≡◌, map, flat_map, IfOk, OnOk};
ghost use Rattle.spectra_trees.specs.Views.{name_data, part_data};
ghost use Rattle.spectra_resolved.specs.declared.tree.Leaf.TheVariants as leaves;
ghost use Rattle.spectra_resolved.specs.TextViews.{type_data, pattern_line_data, pattern_data};
ghost use Rattle.spectra_items.specs.Meanings.{by_place, own_names, pattern_entries as pattern_entries_lem, own_types, pattern_lines, part_faults, pattern_of, pattern_faults};
ghost use Rattle.spectra_items.specs.ItemViews.{pattern_item_data, entry_data};
ghost use Rattle.spectra_items.specs.Steps.{names_by, look_by, Adds, Finds};

use crate::spaces::{is_doubled, resolver_inside, space_of};
use crate::types::type_use;
use spectra_resolved::findings::Findings;
use spectra_resolved::look::Sight;
use spectra_resolved::resolving::{Resolver, tree};
use spectra_resolved::spot::{Mention, mentioned, spot_at};
use spectra_resolved::table::Named;
use spectra_resolved::text::{Pattern, PatternLine, TypeUse};
use spectra_resolved::tree::Leaf;
use spectra_trees::tree::{Name, Part, PartForm, PatternItem};
use std::alloc::{AllocError, Global};

// ---- the names that are seen in a pattern

// Puts the parameters behind others, each by its place.
fn add_parameters<'t>(
    entries: &mut Vec<(Mention<'t>, Named)>,
    file: usize,
    params: &'t [Name],
) -> Result<(), AllocError>
    ensures { OnOk result (Adds entry_data entries.old.items entries.new.items
        (by_place leaves.Parameter file 0 (map name_data params.now))) }
{
    for (place, param) in params.iter().enumerate() {
        let parameter = Named::Leaf(Leaf::Parameter(place));
        entries.push((mentioned(file, param), parameter))?;
    }
    Ok(())
}

// Puts the own variables behind others, each by its number among them.
fn add_own<'t>(
    entries: &mut Vec<(Mention<'t>, Named)>,
    file: usize,
    parts: &'t [Part],
) -> Result<(), AllocError>
    ensures { OnOk result (Adds entry_data entries.old.items entries.new.items
        (by_place leaves.Own file 0 (flat_map own_names (map part_data parts.now)))) }
{
    let mut number = 0;
    for part in parts {
        match &part.form {
            PartForm::Own(_, name) => {
                let own = Named::Leaf(Leaf::Own(number));
                entries.push((mentioned(file, name), own))?;
                number += 1;
            }
            PartForm::Initial(_) | PartForm::Always(_) | PartForm::Recurring(_) => {}
        }
    }
    Ok(())
}

// The parameters and own variables of a pattern.
fn pattern_entries<'t>(
    alloc: Global,
    file: usize,
    item: &'t PatternItem,
) -> Result<Vec<(Mention<'t>, Named)>, AllocError>
    ensures { IfOk result (λ entries. map entry_data entries.items
        ≡ pattern_entries_lem file (pattern_item_data item.now)) }
{
    let mut entries = Vec::new(alloc);
    add_parameters(&mut entries, file, &item.params)?;
    add_own(&mut entries, file, &item.parts)?;
    Ok(entries)
}

// ---- own variables and lines

#[tactic(auto, using(spectra_resolved::proofs::Mapped::map_push))]
// Puts the type of an own variable behind others, or a line.
fn add_part(
    own: &mut Vec<TypeUse>,
    lines: &mut Vec<PatternLine>,
    resolver: &Resolver<'_, '_>,
    findings: &mut Findings,
    part: &Part,
) -> Result<(), AllocError>
    ensures own { OnOk result (Adds type_data own.old.items own.new.items
        (own_types (names_by resolver.now) (look_by resolver.now)
        resolver.now.file (part_data part.now))) }
    ensures lines { OnOk result (Adds pattern_line_data lines.old.items lines.new.items
        (pattern_lines (look_by resolver.now) resolver.now.file (part_data part.now))) }
    ensures found { OnOk result (Finds findings.old findings.new
        (part_faults (names_by resolver.now) (look_by resolver.now)
        resolver.now.file (part_data part.now))) }
{
    let at = spot_at(resolver.file, part.at);
    match &part.form {
        PartForm::Own(domain, _) => own.push(type_use(resolver, findings, domain)?)?,
        PartForm::Initial(e) => {
            lines.push(PatternLine::Initial(at, tree(resolver, findings, e)?))?
        }
        PartForm::Always(e) => lines.push(PatternLine::Safety(at, tree(resolver, findings, e)?))?,
        PartForm::Recurring(e) => {
            lines.push(PatternLine::Recurring(at, tree(resolver, findings, e)?))?
        }
    }
    Ok(())
}

// Puts the types of own variables behind others, and the lines.
fn add_parts(
    own: &mut Vec<TypeUse>,
    lines: &mut Vec<PatternLine>,
    resolver: &Resolver<'_, '_>,
    findings: &mut Findings,
    parts: &[Part],
) -> Result<(), AllocError>
    ensures own { OnOk result (Adds type_data own.old.items own.new.items
        (flat_map (own_types (names_by resolver.now) (look_by resolver.now)
        resolver.now.file) (map part_data parts.now))) }
    ensures lines { OnOk result (Adds pattern_line_data lines.old.items lines.new.items
        (flat_map (pattern_lines (look_by resolver.now) resolver.now.file)
        (map part_data parts.now))) }
    ensures found { OnOk result (Finds findings.old findings.new
        (flat_map (part_faults (names_by resolver.now)
        (look_by resolver.now) resolver.now.file) (map part_data parts.now))) }
{
    for part in parts {
        add_part(own, lines, resolver, findings, part)?;
    }
    Ok(())
}

// ---- the whole

/// A pattern. What means nothing in it, and each second parameter or own variable of a name, is reported.
pub fn pattern<'t>(
    resolver: &Resolver<'_, 't>,
    findings: &mut Findings,
    item: &'t PatternItem,
) -> Result<Pattern<'t>, AllocError>
    ensures pattern { IfOk result (λ p. pattern_data p
        ≡ pattern_of (names_by resolver.now) resolver.now.file (pattern_item_data item.now)) }
    ensures found { OnOk result (Finds findings.old findings.new
        (pattern_faults (names_by resolver.now) resolver.now.file (pattern_item_data item.now))) }
{
    let entries = pattern_entries(resolver.alloc, resolver.file, item)?;
    let table = space_of(resolver.alloc, findings, &entries)?;
    let alloc = resolver.alloc;
    let file = resolver.file;
    let scope = resolver.look.scope;
    let inside = resolver_inside(alloc, scope, &table, Sight::EnumNames, file);
    let mut own = Vec::new(resolver.alloc);
    let mut lines = Vec::new(resolver.alloc);
    add_parts(&mut own, &mut lines, &inside, findings, &item.parts)?;
    let doubled = is_doubled(resolver.alloc, &entries)?;
    Ok(Pattern {
        name: mentioned(resolver.file, &item.name),
        params: item.params.len(),
        doubled,
        own,
        lines,
    })
}
