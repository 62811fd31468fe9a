//! All faults of types and definitions.

ghost use Rattle.std.specs.Prelude.{◌≡◌, OnOk, IfOk};
ghost use Rattle.spectra_resolved.specs.Findings.{with_faults, first_of_faults};
ghost use Rattle.spectra_resolved.specs.Reports.{found_in};
ghost use Rattle.spectra_resolved.specs.TextViews.{text_data};
ghost use Rattle.spectra_elaboration.specs.DefinitionViews.{definitions_data};
ghost use Rattle.spectra_notes.specs.Notes.{noted};
ghost use Rattle.spectra_notes.specs.NoteViews.{notes_data};
ghost use Rattle.spectra_bodies.specs.PutIn.{bodies as bodies_lem};
ghost use Rattle.spectra_bodies.specs.Faults.{wrong_in, declared_faults};

use crate::definitions::report_definitions;
use crate::types::report_types;
use crate::unmeant::report_all_unmeant;
use spectra_elaboration::definitions::Definitions;
use spectra_notes::notes::Notes;
use spectra_resolved::findings::{Finding, Findings};
use spectra_resolved::text::Text;
use std::alloc::{AllocError, Global};

// The first of what is wrong with a text's types and definitions.
fn first_wrong<'s, 'a>(
    alloc: Global,
    notes: &'s Notes<'a>,
    definitions: &'s Definitions,
    text: &'a Text<'_>,
) -> Result<Option<Finding>, AllocError>
    requires notes { notes_data notes.now ≡ noted (text_data text.now) }
    requires bodies { definitions_data definitions.now ≡ bodies_lem (text_data text.now) }
    ensures { IfOk result (λ first. first ≡ first_of_faults (wrong_in (text_data text.now))) }
{
    let mut findings = Findings::new();
    // Definitions are judged as they are written alone, so they come first: a bound behind their faults has nothing put in.
    report_definitions(alloc, &mut findings, notes, text)?;
    report_types(alloc, &mut findings, notes, definitions, text)?;
    Ok(findings.first())
}

/// Reports the faults of a text's types and definitions: types and definitions that are used in their own bodies (15), ranges
/// without numbers (14), and the faults of bounds and of bodies (9 to 14), of bounds also with everything put in; and where
/// there is none of these, ranges whose bounds are too large to be judged so (19). `definitions` is what is put in for
/// them. The error is that memory is short.
pub fn report_declared<'s, 'a>(
    alloc: Global,
    findings: &mut Findings,
    notes: &'s Notes<'a>,
    definitions: &'s Definitions,
    text: &'a Text<'_>,
) -> Result<(), AllocError>
    requires notes { notes_data notes.now ≡ noted (text_data text.now) }
    requires bodies { definitions_data definitions.now ≡ bodies_lem (text_data text.now) }
    ensures { OnOk result (found_in findings.new ≡ with_faults (found_in findings.old) (declared_faults (text_data text.now))) }
{
    let first = first_wrong(alloc, notes, definitions, text)?;
    match first {
        Some(fault) => {
            findings.report(fault.number, fault.at);
            Ok(())
        }
        None => {
            report_all_unmeant(findings, &notes.kinds.constants, text);
            Ok(())
        }
    }
}
