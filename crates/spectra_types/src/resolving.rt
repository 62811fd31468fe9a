//! From the trees of several files to the specification that they mean together.

ghost use Rattle.std.specs.Prelude.{◌≡◌, ◌≢◌, true, min, map, List, Some, All, IfOk, IfErr, OnOk};
ghost use Rattle.spec_model.specs.Views.{spec_data, line_data as model_line, trigger_data, pattern_data as model_pattern};
ghost use Rattle.spec_model.specs.WellTyped.{WellTyped};
ghost use Rattle.spec_model.specs.Room.{HasRoomForOne};
ghost use Rattle.spectra_trees.specs.Data.{TreeData};
ghost use Rattle.spectra_trees.specs.Views.{tree_data};
ghost use Rattle.spectra_parser.specs.Shapes.{IsShaped};
ghost use Rattle.spectra_resolved.specs.Findings.{with_faults, first_of_faults};
ghost use Rattle.spectra_resolved.specs.Reports.{found_in};
ghost use Rattle.spectra_resolved.specs.TextViews.{text_data};
ghost use Rattle.spectra_judge.specs.KindViews.{kind_data};
ghost use Rattle.spectra_patterns.specs.SoundPatterns.{is_type_kind};
ghost use Rattle.spectra_notes.specs.TypeKinds.{type_kinds as type_kinds_lem};
ghost use Rattle.spectra_notes.specs.Notes.{noted};
ghost use Rattle.spectra_notes.specs.NoteViews.{notes_data};
ghost use Rattle.spectra_declared.specs.Wholes.{text_of};
ghost use Rattle.spectra_lines.specs.SoundParts.{AreSound};
ghost use Rattle.spectra_lines.specs.Said.{lines_meant, triggers_meant, patterns_meant};
ghost use Rattle.spectra_types.specs.declared.fault.TypeFault.TheVariants.{Memory};
ghost use Rattle.spectra_types.specs.Meanings.{written_out as written_out_lem, facts_of, typed_patterns as typed_patterns_lem, text_faults, faults_of, specification_of};
ghost use Rattle.spectra_types.specs.Resolved.{Means, Explains};
ghost use Rattle.spectra_types.specs.SameText.{SaysSameText};

use crate::fault::TypeFault;
use crate::meaning::{names_of, variables_of};
use crate::patterns::typed_patterns;
use spec_model::spec::Spec;
use spectra_bodies::putting::bodies_of;
use spectra_bodies::reporting::report_declared;
use spectra_bounds::constants::constants_of;
use spectra_copies::texts::write_text;
use spectra_declared::text::resolved_text;
use spectra_judge::kind::Kind;
use spectra_lines::facts::Facts;
use spectra_lines::said::{Said, read_lines};
use spectra_notes::notes::{Notes, known_in_line, notes_of};
use spectra_resolved::findings::{Finding, Findings};
use spectra_resolved::text::Text;
use spectra_trees::tree::Tree;
use spectra_uses::order::order_of;
use std::alloc::{AllocError, Global};

// The number of a file, where it is one.
fn tree_number(file: usize) -> u32
    ensures { result ≡ min file 4_294_967_295 }
{
    if file < u32::MAX as usize {
        file as u32
    } else {
        u32::MAX
    }
}

// The refusal of files for their first fault.
fn refused(first: Finding) -> TypeFault
    ensures fault { (trees : List TreeData) → first_of_faults (faults_of trees) ≡ Some first → Explains trees result }
    ensures told { result ≢ Memory }
{
    TypeFault::Refused {
        number: first.number,
        tree: tree_number(first.at.file),
        line: first.at.line,
        column: first.at.column,
    }
}

// What the lines and patterns of a text mean. Every fault of types and definitions, of lines and of patterns is reported.
fn text_said<'a>(
    alloc: Global,
    findings: &mut Findings,
    notes: &Notes<'a>,
    text: &'a Text<'_>,
) -> Result<Said, AllocError>
    requires notes { notes_data notes.now ≡ noted (text_data text.now) }
    requires sound { AreSound (facts_of (text_data text.now)) (typed_patterns_lem (text_data text.now)) }
    ensures found { OnOk result (found_in findings.new ≡ with_faults (found_in findings.old) (text_faults (text_data text.now))) }
    ensures lines { IfOk result (λ s. map model_line s.lines.items ≡ lines_meant (facts_of (text_data text.now)) (typed_patterns_lem (text_data text.now)) (text_data text.now).lines) }
    ensures triggers { IfOk result (λ s. map trigger_data s.triggers.items ≡ triggers_meant (facts_of (text_data text.now)) (typed_patterns_lem (text_data text.now)) (text_data text.now).lines) }
    ensures patterns { IfOk result (λ s. map model_pattern s.patterns.items ≡ patterns_meant (facts_of (text_data text.now)) (typed_patterns_lem (text_data text.now)) (text_data text.now).lines) }
{
    let definitions = bodies_of(alloc, notes, text)?;
    report_declared(alloc, findings, &*notes, &definitions, text)?;
    let patterns = typed_patterns(alloc, &notes.kinds, text)?;
    let facts = Facts {
        known: known_in_line(&*notes),
        definitions: &definitions,
    };
    read_lines(alloc, findings, &facts, &patterns, &text.lines)
}

// The specification of a text without faults, by what its lines and patterns mean.
fn specification(
    alloc: Global,
    kinds: &[Kind<'_>],
    text: &Text<'_>,
    said: Said,
) -> Result<Spec, AllocError>
    requires kinds { map kind_data kinds.now ≡ (type_kinds_lem (text_data text.now)).variables }
    requires room { All (λ k. is_type_kind 65_536 (kind_data k) ≡ true) kinds.now }
    requires lines { map model_line said.lines.items ≡ lines_meant (facts_of (text_data text.now)) (typed_patterns_lem (text_data text.now)) (text_data text.now).lines }
    requires triggers { map trigger_data said.triggers.items ≡ triggers_meant (facts_of (text_data text.now)) (typed_patterns_lem (text_data text.now)) (text_data text.now).lines }
    requires patterns { map model_pattern said.patterns.items ≡ patterns_meant (facts_of (text_data text.now)) (typed_patterns_lem (text_data text.now)) (text_data text.now).lines }
    ensures { IfOk result (λ s. spec_data s ≡ specification_of (text_data text.now)) }
{
    Ok(Spec {
        names: names_of(alloc, &text.names)?,
        vars: variables_of(alloc, kinds, text)?,
        patterns: said.patterns,
        triggers: said.triggers,
        lines: said.lines,
    })
}

// A text with quantifiers written out whose bounds have numbers, as long as there is room.
fn written_out<'t>(alloc: Global, text: Text<'t>) -> Result<Text<'t>, AllocError>
    ensures { IfOk result (λ made. text_data made ≡ written_out_lem (text_data text.entry)) }
{
    let order = order_of(alloc, &text.definitions)?;
    let constants = constants_of(alloc, &text.definitions, &order)?;
    write_text(alloc, &constants.numbers, text)
}

/// The specification that several files mean together, by their trees: the last is that of the main file, and those before it
/// are its imports', in the order in which it names them. `Refused`: of the faults of names and types this one comes first: it
/// stands in the file of this number, from 0, the first that has one, at the least line and column, and has the least number
/// there. `Memory`: none was given.
pub fn resolve(alloc: Global, trees: &[Tree]) -> Result<Spec, TypeFault>
    requires shaped { All IsShaped (map tree_data trees.now) }
    ensures means { IfOk result (λ s. Means (map tree_data trees.now) (spec_data s)) }

    // Each line has the value of the line that is written.
    ensures says { IfOk result (λ s. SaysSameText (text_of (map tree_data trees.now)) (spec_data s)) }
    ensures typed { IfOk result (λ s. WellTyped (spec_data s)) }
    ensures room { IfOk result (λ s. HasRoomForOne (spec_data s)) }
    ensures fault { IfErr result (Explains (map tree_data trees.now)) }
{
    let mut findings = Findings::new();
    let resolved = resolved_text(alloc, &mut findings, trees)?;
    let text = written_out(alloc, resolved)?;
    let notes = notes_of(alloc, &text)?;
    let said = text_said(alloc, &mut findings, &notes, &text)?;
    match findings.first() {
        Some(first) => Err(refused(first)),
        None => Ok(specification(alloc, &notes.kinds.variables, &text, said)?),
    }
}
