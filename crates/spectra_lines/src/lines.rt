//! The faults of a line, and the line with everything put in.

ghost use Rattle.std.specs.Prelude.{◌≡◌, ◌&&◌, ◌++◌, [], is_none, if◌then◌else◌, option_map, Some, None, IfOk, OnOk};
ghost use Rattle.spectra_resolved.specs.Findings.{with_faults, first_of_faults};
ghost use Rattle.spectra_resolved.specs.Reports.{found_in};
ghost use Rattle.spectra_resolved.specs.TextViews.{body_data, line_data};
ghost use Rattle.spectra_judge.specs.KindViews.{known_data};
ghost use Rattle.spectra_patterns.specs.Patterns.{is_empty};
ghost use Rattle.spectra_lines.specs.Contents.{trees_in, line_put};
ghost use Rattle.spectra_lines.specs.Limits.{room_behind, is_small};
ghost use Rattle.spectra_lines.specs.Lines.{trees_faults, put_trees, whole_faults, line_faults};
ghost use Rattle.spectra_lines.specs.Views.{facts_data};

use crate::facts::Facts;
use crate::judging::{first_fault, report_own, report_whole};
use crate::putting::put_line;
use crate::trees::{is_assumption, stand_in, trees_of};
use spectra_judge::findings::report_if;
use spectra_judge::known::Known;
use spectra_judge::reporting::report_first;
use spectra_resolved::findings::{Finding, Findings};
use spectra_resolved::stand::Stand;
use spectra_resolved::text::{Body, Line};
use spectra_trees::faults::TOO_LARGE;
use std::alloc::{AllocError, Global};

// Reports a trigger that isn't right as a whole, where it is to be looked at.
fn report_if_whole(
    alloc: Global,
    findings: &mut Findings,
    known: &Known<'_, '_>,
    whole: bool,
    body: &Body,
) -> Result<(), AllocError>
    ensures { OnOk result (found_in findings.new ≡ with_faults (found_in findings.old) (if whole then whole_faults (known_data known.now) (body_data body.now) else [])) }
{
    if !whole {
        return Ok(());
    }
    report_whole(alloc, findings, known, body)
}

// The first fault of expressions with everything put in.
fn first_put(
    alloc: Global,
    known: &Known<'_, '_>,
    stand: Stand,
    body: &Body,
) -> Result<Option<Finding>, AllocError>
    ensures { IfOk result (λ first. first ≡ first_of_faults (trees_faults (known_data known.now) stand (trees_in (body_data body.now)))) }
{
    let trees = trees_of(alloc, body)?;
    Ok(first_fault(known, stand, &trees))
}

/// Whether there is no fault, where `sound` says that there is none elsewhere.
pub fn is_sound(sound: bool, first: Option<Finding>) -> bool
    ensures { result ≡ (sound && is_none first) }
{
    sound && first.is_none()
}

// Reports the faults of a line's expressions with everything put in, and of a trigger as a whole, where these have none and
// `sound` says that the expressions that are written have none.
fn report_put(
    alloc: Global,
    findings: &mut Findings,
    known: &Known<'_, '_>,
    sound: bool,
    stand: Stand,
    body: &Body,
) -> Result<(), AllocError>
    ensures { OnOk result (found_in findings.new ≡ with_faults (found_in findings.old)
        (trees_faults (known_data known.now) stand (trees_in (body_data body.now))
        ++ (if sound && is_empty (trees_faults (known_data known.now) stand (trees_in (body_data body.now))) then whole_faults (known_data known.now) (body_data body.now) else []))) }
{
    let first = first_put(alloc, known, stand, body)?;
    report_first(findings, first);
    let whole = is_sound(sound, first);
    report_if_whole(alloc, findings, known, whole, body)
}

/// Reports every fault of a line, by the room that is left for its nodes, and gives the line with everything put in, unless it
/// is too large. It takes the room that it needs. The error is that memory is short.
pub fn read_line<'t>(
    alloc: Global,
    findings: &mut Findings,
    facts: &Facts<'_, '_>,
    room: &mut Option<u32>,
    line: &Line<'t>,
) -> Result<Option<Line<'t>>, AllocError>
    ensures found { OnOk result (found_in findings.new ≡ with_faults (found_in findings.old) (line_faults (facts_data facts.now) room.old (line_data line.now))) }
    ensures room { OnOk result (room.new ≡ room_behind (facts_data facts.now).known 0 room.old (put_trees (facts_data facts.now) (line_data line.now))) }
    ensures made { IfOk result (λ made. option_map line_data made
        ≡ (if is_small (facts_data facts.now).known 0 room.old (put_trees (facts_data facts.now) (line_data line.now)) then Some (line_put (facts_data facts.now) (line_data line.now)) else None)) }
{
    let stand = stand_in(is_assumption(line.role), &line.body);
    let trees = trees_of(alloc, &line.body)?;
    let first = first_fault(&facts.known, stand, &trees);
    report_first(findings, first);
    report_own(findings, &line.body);
    let had_room = room.is_some();
    let put = put_line(alloc, facts, room, line)?;
    match put {
        Some(made) => {
            let sound = first.is_none();
            report_put(alloc, findings, &facts.known, sound, stand, &made.body)?;
            Ok(Some(made))
        }
        None => {
            report_if(findings, had_room, TOO_LARGE, line.at);
            Ok(None)
        }
    }
}
