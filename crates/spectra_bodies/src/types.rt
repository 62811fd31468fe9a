//! The faults of all types in a text.

ghost use Rattle.std.specs.Prelude.{◌≡◌, map, flat_map, OnOk};
ghost use Rattle.spectra_resolved.specs.Findings.{with_faults};
ghost use Rattle.spectra_resolved.specs.Reports.{found_in};
ghost use Rattle.spectra_resolved.specs.Texts.{ResolvedVariable, ResolvedAlias, ResolvedDefinition};
ghost use Rattle.spectra_resolved.specs.TextViews.{variable_data, alias_data, definition_data, pattern_data, text_data};
ghost use Rattle.spectra_elaboration.specs.DefinitionViews.{definitions_data};
ghost use Rattle.spectra_notes.specs.Notes.{noted};
ghost use Rattle.spectra_notes.specs.NoteViews.{notes_data};
ghost use Rattle.spectra_bodies.specs.PutIn.{bodies as bodies_lem};
ghost use Rattle.spectra_bodies.specs.Faults.{type_faults, each_type_faults, basis_of, typed_faults, own_faults, faults_of_types};
ghost use Rattle.spectra_bodies.specs.BasisViews.{basis_data};

use crate::basis::Basis;
use crate::bounds::{report_each, report_type};
use spectra_bounds::cycles::report_type_cycles;
use spectra_elaboration::definitions::Definitions;
use spectra_notes::notes::{Notes, known_in_line};
use spectra_notes::patterns::{known_in_pattern, pattern_kinds};
use spectra_resolved::findings::Findings;
use spectra_resolved::text::{Alias, Definition, Pattern, Text, Variable};
use std::alloc::{AllocError, Global};

// Reports the faults of the types of variables.
fn report_variables(
    findings: &mut Findings,
    basis: &Basis<'_, '_>,
    variables: &[Variable<'_>],
) -> Result<(), AllocError>
    ensures { OnOk result (found_in findings.new ≡ with_faults (found_in findings.old) (flat_map (λ (v : ResolvedVariable). type_faults (basis_data basis.now) v.domain) (map variable_data variables.now))) }
{
    for variable in variables {
        report_type(findings, basis, &variable.domain)?;
    }
    Ok(())
}

// Reports those of declared types.
fn report_aliases(
    findings: &mut Findings,
    basis: &Basis<'_, '_>,
    types: &[Alias<'_>],
) -> Result<(), AllocError>
    ensures { OnOk result (found_in findings.new ≡ with_faults (found_in findings.old) (flat_map (λ (a : ResolvedAlias). type_faults (basis_data basis.now) a.body) (map alias_data types.now))) }
{
    for alias in types {
        report_type(findings, basis, &alias.body)?;
    }
    Ok(())
}

// Reports those of the types of predicates' parameters.
fn report_parameters(
    findings: &mut Findings,
    basis: &Basis<'_, '_>,
    definitions: &[Definition<'_>],
) -> Result<(), AllocError>
    ensures { OnOk result (found_in findings.new ≡ with_faults (found_in findings.old) (flat_map (λ (d : ResolvedDefinition). each_type_faults (basis_data basis.now) d.params) (map definition_data definitions.now))) }
{
    for definition in definitions {
        report_each(findings, basis, &definition.params)?;
    }
    Ok(())
}

// Reports those of the types of variables, of declared types and of the types of predicates' parameters.
fn report_typed(
    findings: &mut Findings,
    basis: &Basis<'_, '_>,
    text: &Text<'_>,
) -> Result<(), AllocError>
    ensures { OnOk result (found_in findings.new ≡ with_faults (found_in findings.old) (typed_faults (basis_data basis.now) (text_data text.now))) }
{
    report_variables(findings, basis, &text.variables)?;
    report_aliases(findings, basis, &text.types)?;
    report_parameters(findings, basis, &text.definitions)?;
    Ok(())
}

// Reports those of the types of a pattern's own variables.
fn report_own<'s, 'a>(
    alloc: Global,
    findings: &mut Findings,
    notes: &'s Notes<'a>,
    definitions: &'s Definitions,
    text: &'a Text<'_>,
    pattern: &'a Pattern<'_>,
) -> Result<(), AllocError>
    requires notes { notes_data notes.now ≡ noted (text_data text.now) }
    requires bodies { definitions_data definitions.now ≡ bodies_lem (text_data text.now) }
    ensures { OnOk result (found_in findings.new ≡ with_faults (found_in findings.old) (own_faults (text_data text.now) (pattern_data pattern.now))) }
{
    let kinds = pattern_kinds(alloc, notes, text, pattern)?;
    let basis = Basis {
        alloc,
        constants: &notes.kinds.constants,
        definitions,
        known: known_in_pattern(notes, &kinds),
    };
    report_each(findings, &basis, &pattern.own)?;
    Ok(())
}

// Reports those of the types of all own variables.
fn report_patterns<'s, 'a>(
    alloc: Global,
    findings: &mut Findings,
    notes: &'s Notes<'a>,
    definitions: &'s Definitions,
    text: &'a Text<'_>,
    patterns: &'a [Pattern<'_>],
) -> Result<(), AllocError>
    requires notes { notes_data notes.now ≡ noted (text_data text.now) }
    requires bodies { definitions_data definitions.now ≡ bodies_lem (text_data text.now) }
    ensures { OnOk result (found_in findings.new ≡ with_faults (found_in findings.old) (flat_map (own_faults (text_data text.now)) (map pattern_data patterns.now))) }
{
    for pattern in patterns {
        report_own(alloc, findings, notes, definitions, text, pattern)?;
    }
    Ok(())
}

// Reports those of types outside of patterns.
fn report_outside<'s>(
    alloc: Global,
    findings: &mut Findings,
    notes: &'s Notes<'_>,
    definitions: &'s Definitions,
    text: &Text<'_>,
) -> Result<(), AllocError>
    requires notes { notes_data notes.now ≡ noted (text_data text.now) }
    requires bodies { definitions_data definitions.now ≡ bodies_lem (text_data text.now) }
    ensures { OnOk result (found_in findings.new ≡ with_faults (found_in findings.old) (typed_faults (basis_of (text_data text.now)) (text_data text.now))) }
{
    let basis = Basis {
        alloc,
        constants: &notes.kinds.constants,
        definitions,
        known: known_in_line(notes),
    };
    report_typed(findings, &basis, text)?;
    Ok(())
}

/// Reports the faults of a text's types: a type that its own name goes round to (15), a range without numbers (14), and each
/// fault of a bound (9 to 14). The error is that memory is short.
pub fn report_types<'s, 'a>(
    alloc: Global,
    findings: &mut Findings,
    notes: &'s Notes<'a>,
    definitions: &'s Definitions,
    text: &'a Text<'_>,
) -> Result<(), AllocError>
    requires notes { notes_data notes.now ≡ noted (text_data text.now) }
    requires bodies { definitions_data definitions.now ≡ bodies_lem (text_data text.now) }
    ensures { OnOk result (found_in findings.new ≡ with_faults (found_in findings.old) (faults_of_types (text_data text.now))) }
{
    report_outside(alloc, findings, notes, definitions, text)?;
    report_patterns(alloc, findings, notes, definitions, text, &text.patterns)?;
    report_type_cycles(alloc, findings, &text.types)?;
    Ok(())
}
