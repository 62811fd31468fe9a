//! The bodies that are put in, and the faults of an expression in which everything is put in.

ghost use Rattle.std.specs.Prelude.{◌≡◌, ◌<◌, true, None, length, get_or, option_map, OnOk, IfOk};
ghost use Rattle.spectra_resolved.specs.Findings.{with_faults};
ghost use Rattle.spectra_resolved.specs.Reports.{found_in};
ghost use Rattle.spectra_resolved.specs.Views.{resolved_data};
ghost use Rattle.spectra_resolved.specs.TextViews.{text_data};
ghost use Rattle.spectra_judge.specs.KindViews.{known_data};
ghost use Rattle.spectra_elaboration.specs.PuttingViews.{bodies_data};
ghost use Rattle.spectra_elaboration.specs.DefinitionViews.{definitions_data};
ghost use Rattle.spectra_notes.specs.Notes.{noted};
ghost use Rattle.spectra_notes.specs.NoteViews.{notes_data};
ghost use Rattle.spectra_bodies.specs.PutIn.{bodies as bodies_lem, is_shallow as is_shallow_lem, made_faults, put_in_faults};

use spectra_cases::sizes::size_of;
use spectra_elaboration::definitions::{Definitions, definitions_of};
use spectra_elaboration::putting::put_in;
use spectra_holes::holing::holed;
use spectra_judge::known::Known;
use spectra_judge::reporting::report_faults;
use spectra_notes::notes::{Notes, known_in_body, stand_of};
use spectra_resolved::findings::Findings;
use spectra_resolved::stand::Stand;
use spectra_resolved::text::Text;
use spectra_resolved::tree::Resolved;
use std::alloc::{AllocError, Global};

// The most nodes, and the most levels, of what is judged.
const MOST_NODES: usize = 1_000_000;

const MOST_LEVELS: usize = 512;

// ---- bodies

// Whether a definition has no meaning, by its number. One that isn't there has none.
fn is_hole(holes: &[bool], number: usize) -> bool
    ensures { result ≡ get_or holes.now number true }
{
    match holes.get(number) {
        Some(hole) => *hole,
        None => true,
    }
}

// What is put in for a numbered definition.
fn body_of(
    alloc: Global,
    notes: &Notes<'_>,
    text: &Text<'_>,
    k: usize,
) -> Result<Option<Resolved>, AllocError>
    requires notes { notes_data notes.now ≡ noted (text_data text.now) }
    requires within { k < length text.now.definitions.items }
    ensures { IfOk result (λ body. option_map resolved_data body ≡ get_or (bodies_lem (text_data text.now)) k None) }
{
    let definition = &text.definitions[k];
    if is_hole(&notes.holes, k) {
        return Ok(None);
    }
    let known = known_in_body(notes, k);
    let stand = stand_of(definition.word);
    let body = holed(alloc, &known, stand, &definition.body)?;
    Ok(Some(body))
}

// What is put in for each definition, in the order of definitions.
fn each_body(
    alloc: Global,
    notes: &Notes<'_>,
    text: &Text<'_>,
) -> Result<Vec<Option<Resolved>>, AllocError>
    requires notes { notes_data notes.now ≡ noted (text_data text.now) }
    ensures { IfOk result (λ bodies. bodies_data bodies.items ≡ bodies_lem (text_data text.now)) }
{
    let mut bodies = Vec::new(alloc);
    for k in 0..text.definitions.len() {
        let body = body_of(alloc, notes, text, k)?;
        bodies.push(body)?;
    }
    Ok(bodies)
}

/// What is put in for each definition: its body, with holes for faulty arguments; and nothing where it has no meaning. The
/// error is that memory is short.
pub fn bodies_of(
    alloc: Global,
    notes: &Notes<'_>,
    text: &Text<'_>,
) -> Result<Definitions, AllocError>
    requires notes { notes_data notes.now ≡ noted (text_data text.now) }
    ensures { IfOk result (λ definitions. definitions_data definitions ≡ bodies_lem (text_data text.now)) }
{
    let bodies = each_body(alloc, notes, text)?;
    definitions_of(alloc, bodies, &notes.order.numbers)
}

// ---- faults

// Whether the formula of an expression has few levels, where each operator is one.
fn is_shallow(known: &Known<'_, '_>, t: &Resolved) -> Result<bool, AllocError>
    ensures { IfOk result (λ few. few ≡ is_shallow_lem (known_data known.now) (resolved_data t.now)) }
{
    let size = size_of(known, t)?;
    Ok(size.levels <= MOST_LEVELS as u64)
}

// Reports the first fault of what was made where there was room. The error is a number of a variable past 64 bits, which no
// text has.
fn report_made(
    findings: &mut Findings,
    known: &Known<'_, '_>,
    stand: Stand,
    made: &Option<Resolved>,
) -> Result<(), AllocError>
    ensures { OnOk result (found_in findings.new ≡ with_faults (found_in findings.old) (made_faults (known_data known.now) stand (option_map resolved_data made.now))) }
{
    if let Some(t) = made {
        if is_shallow(known, t)? {
            report_faults(findings, known, stand, t);
        }
    }
    Ok(())
}

/// Reports the first fault of an expression that stands somewhere, with everything put in for its names, where that has at
/// most 1,000,000 nodes and 512 levels, and so has its formula, each operator one. The error is that memory is short.
pub fn report_put_in(
    alloc: Global,
    findings: &mut Findings,
    definitions: &Definitions,
    known: &Known<'_, '_>,
    stand: Stand,
    t: &Resolved,
) -> Result<(), AllocError>
    ensures { OnOk result (found_in findings.new ≡ with_faults (found_in findings.old) (put_in_faults (definitions_data definitions.now) (known_data known.now) stand (resolved_data t.now))) }
{
    let written = holed(alloc, known, stand, t)?;
    let made = put_in(alloc, definitions, MOST_NODES, MOST_LEVELS, &written)?;
    report_made(findings, known, stand, &made)?;
    Ok(())
}
