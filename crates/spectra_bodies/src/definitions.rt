//! The faults of definitions.

ghost use Rattle.std.specs.Prelude.{◌≡◌, ◌<◌, Some, map, flat_map, length, slice_get, IfOk, OnOk};
ghost use Rattle.spectra_resolved.specs.Findings.{with_faults};
ghost use Rattle.spectra_resolved.specs.Reports.{found_in};
ghost use Rattle.spectra_resolved.specs.Texts.{ResolvedDefinition};
ghost use Rattle.spectra_resolved.specs.TextViews.{definition_data, text_data};
ghost use Rattle.spectra_notes.specs.Notes.{noted, body_faults, known_inside};
ghost use Rattle.spectra_notes.specs.NoteViews.{notes_data};
ghost use Rattle.spectra_bodies.specs.Faults.{faults_of_definitions};

use spectra_bounds::cycles::report_cycles;
use spectra_judge::reporting::report_faults;
use spectra_notes::notes::{Notes, known_in_body, stand_of};
use spectra_resolved::findings::Findings;
use spectra_resolved::spot::Spot;
use spectra_resolved::text::{Definition, Text};
use std::alloc::{AllocError, Global};

// Where the names of definitions stand.
fn places_of(alloc: Global, definitions: &[Definition<'_>]) -> Result<Vec<Spot>, AllocError>
    ensures { IfOk result (λ places. places.items ≡ map (λ (d : ResolvedDefinition). d.name.at) (map definition_data definitions.now)) }
{
    let mut places = Vec::new(alloc);
    for definition in definitions {
        places.push(definition.name.at)?;
    }
    Ok(places)
}

// Reports the faults of a numbered definition's body as it is written.
fn report_body(findings: &mut Findings, notes: &Notes<'_>, text: &Text<'_>, k: usize)
    requires notes { notes_data notes.now ≡ noted (text_data text.now) }
    requires within { k < length text.now.definitions.items }
    ensures { (d : ResolvedDefinition) → slice_get (text_data text.now).definitions k ≡ Some d → found_in findings.new
        ≡ with_faults (found_in findings.old) (body_faults (known_inside (text_data text.now) (noted (text_data text.now)).defines d) d) }
{
    let definition = &text.definitions[k];
    let known = known_in_body(notes, k);
    let stand = stand_of(definition.word);
    report_faults(findings, &known, stand, &definition.body);
}

// Reports the faults of definitions' bodies as they are written.
fn report_bodies(findings: &mut Findings, notes: &Notes<'_>, text: &Text<'_>)
    requires notes { notes_data notes.now ≡ noted (text_data text.now) }
    ensures { found_in findings.new ≡ with_faults (found_in findings.old)
        (flat_map (λ (d : ResolvedDefinition). body_faults (known_inside (text_data text.now) (noted (text_data text.now)).defines d) d) (text_data text.now).definitions) }
{
    for k in 0..text.definitions.len() {
        report_body(findings, notes, text, k);
    }
}

/// Reports each definition that is used in its own body (15), and the faults of all bodies as they are written (9 to 14). The
/// error is that memory is short.
pub fn report_definitions(
    alloc: Global,
    findings: &mut Findings,
    notes: &Notes<'_>,
    text: &Text<'_>,
) -> Result<(), AllocError>
    requires notes { notes_data notes.now ≡ noted (text_data text.now) }
    ensures { OnOk result (found_in findings.new ≡ with_faults (found_in findings.old) (faults_of_definitions (text_data text.now))) }
{
    let places = places_of(alloc, &text.definitions)?;
    report_cycles(findings, &notes.order.on_cycle, &places);
    report_bodies(findings, notes, text);
    Ok(())
}
