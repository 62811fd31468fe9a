//! The lines and patterns of a text, one after another.

ghost use Rattle.std.specs.Prelude.{◌≡◌, ◌++◌, ◌∷◌, [], Some, is_some, IsTrue, map, option_map, option_to_list, OnOk, IfOk};
ghost use Rattle.spec_model.specs.Views.{pattern_data as model_pattern};
ghost use Rattle.spectra_resolved.specs.Findings.{with_faults};
ghost use Rattle.spectra_resolved.specs.Reports.{found_in};
ghost use Rattle.spectra_resolved.specs.Views.{resolved_data};
ghost use Rattle.spectra_resolved.specs.TextViews.{pattern_line_data, line_data};
ghost use Rattle.spectra_patterns.specs.Patterns.{line_at, line_tree};
ghost use Rattle.spectra_lines.specs.Contents.{pattern_line_put};
ghost use Rattle.spectra_lines.specs.Lines.{line_faults};
ghost use Rattle.spectra_lines.specs.Parts.{LinePart, PatternPart, line_room, large_lines, room_behind_lines, put_lines as put_lines_lem, part_room, part_faults, part_patterns, parts_faults, parts_lines, parts_patterns};
ghost use Rattle.spectra_lines.specs.SoundParts.{IsSoundTyped};
ghost use Rattle.spectra_lines.specs.Said.{all_room};
ghost use Rattle.spectra_lines.specs.Steps.{ReadsPart, IsSoundPart, ArePartsSound};
ghost use Rattle.spectra_lines.specs.Views.{facts_data, typed_data, part_data};

use crate::facts::Facts;
use crate::lines::{is_sound, read_line};
use crate::order::{Part, Typed};
use crate::putting::put_pattern_line;
use crate::sizes::behind;
use spec_model::spec;
use spectra_copies::refusal::Refusal;
use spectra_judge::findings::report_if;
use spectra_judge::reporting::report_first;
use spectra_patterns::patterns::{lines_fault, pattern, size_inside};
use spectra_resolved::findings::Findings;
use spectra_resolved::spot::Spot;
use spectra_resolved::text::{Line, PatternLine};
use spectra_resolved::tree::Resolved;
use spectra_trees::faults::TOO_LARGE;
use std::alloc::{AllocError, Global};

/// The most nodes of all lines.
const MOST_NODES: u32 = 1_000_000;

/// What was read so far: the room that is left for nodes, the lines that aren't too large with everything put in, and what
/// patterns mean.
#[derive(Drop)]
pub struct Read<'t> {
    pub room: Option<u32>,
    pub lines: Vec<Line<'t>>,
    pub patterns: Vec<spec::Pattern>,
}

// ---- patterns

// The place of a pattern's line.
fn place_of(line: &PatternLine) -> Spot
    ensures { result ≡ line_at (pattern_line_data line.now) }
{
    match line {
        PatternLine::Initial(at, _) => *at,
        PatternLine::Safety(at, _) => *at,
        PatternLine::Recurring(at, _) => *at,
    }
}

// The expression of a pattern's line.
fn tree_of(line: &PatternLine) -> &Resolved
    ensures { resolved_data result.now ≡ line_tree (pattern_line_data line.now) }
{
    match line {
        PatternLine::Initial(_, t) => t,
        PatternLine::Safety(_, t) => t,
        PatternLine::Recurring(_, t) => t,
    }
}

// The room that is left behind a pattern's line with everything put in, which is put behind others, where there is so much.
fn behind_line(
    alloc: Global,
    facts: &Facts<'_, '_>,
    typed: &Typed<'_, '_, '_>,
    room: u32,
    line: &PatternLine,
    lines: &mut Vec<PatternLine>,
) -> Result<Option<u32>, AllocError>
    ensures left { IfOk result (λ left. left ≡ line_room (typed_data typed.now) (Some room) (pattern_line_put (facts_data facts.now) (pattern_line_data line.now))) }
    ensures lines { IfOk result (λ left. IsTrue (is_some left) → map pattern_line_data lines.new.items ≡ map pattern_line_data lines.old.items ++ pattern_line_put (facts_data facts.now) (pattern_line_data line.now) ∷ []) }
{
    let made = match put_pattern_line(alloc, facts, line) {
        Ok(made) => made,
        Err(Refusal::Memory) => return Err(AllocError),
        Err(Refusal::Large) => return Ok(None),
        Err(Refusal::Deep) => return Ok(None),
    };
    let size = size_inside(alloc, &typed.own, typed.pattern.params, tree_of(&made))?;
    lines.push(made)?;
    Ok(behind(room, size))
}

// A pattern's lines with everything put in, where there is room for all. The first one that is too large is reported. They take
// the room that they need.
fn put_lines(
    alloc: Global,
    findings: &mut Findings,
    facts: &Facts<'_, '_>,
    room: &mut Option<u32>,
    typed: &Typed<'_, '_, '_>,
) -> Result<Vec<PatternLine>, AllocError>
    ensures found { OnOk result (found_in findings.new ≡ with_faults (found_in findings.old) (large_lines (typed_data typed.now) room.old (put_lines_lem (facts_data facts.now) (typed_data typed.now)))) }
    ensures room { OnOk result (room.new ≡ room_behind_lines (typed_data typed.now) room.old (put_lines_lem (facts_data facts.now) (typed_data typed.now))) }
    ensures lines { IfOk result (λ lines. IsTrue (is_some room.new) → map pattern_line_data lines.items ≡ put_lines_lem (facts_data facts.now) (typed_data typed.now)) }
{
    let mut lines = Vec::new(alloc);
    for line in &typed.pattern.lines {
        if let Some(left) = *room {
            *room = behind_line(alloc, facts, typed, left, line, &mut lines)?;
            report_if(findings, room.is_none(), TOO_LARGE, place_of(line));
        }
    }
    Ok(lines)
}

// Puts what a pattern means behind others, where it means something.
fn add_made(
    patterns: &mut Vec<spec::Pattern>,
    made: Option<spec::Pattern>,
) -> Result<(), AllocError>
    ensures { OnOk result (map model_pattern patterns.new.items ≡ map model_pattern patterns.old.items ++ option_to_list (option_map model_pattern made)) }
{
    match made {
        Some(made) => patterns.push(made)?,
        None => {}
    }
    Ok(())
}

// What a pattern means, where it has no fault and none of its lines is too large. Every fault of it is reported.
fn pattern_meant(
    alloc: Global,
    findings: &mut Findings,
    facts: &Facts<'_, '_>,
    room: &mut Option<u32>,
    typed: &Typed<'_, '_, '_>,
) -> Result<Option<spec::Pattern>, AllocError>
    requires sound { IsSoundTyped (facts_data facts.now) (typed_data typed.now) }
    ensures found { OnOk result (found_in findings.new ≡ with_faults (found_in findings.old) (part_faults (facts_data facts.now) room.old (PatternPart (typed_data typed.now)))) }
    ensures room { OnOk result (room.new ≡ part_room (facts_data facts.now) room.old (PatternPart (typed_data typed.now))) }
    ensures meant { IfOk result (λ made. option_to_list (option_map model_pattern made) ≡ part_patterns (facts_data facts.now) room.old (PatternPart (typed_data typed.now))) }
{
    let params = typed.pattern.params;
    let first = lines_fault(alloc, &typed.own, params, &typed.pattern.lines)?;
    report_first(findings, first);
    let lines = put_lines(alloc, findings, facts, room, typed)?;
    if room.is_none() {
        return Ok(None);
    }
    let sound = is_sound(typed.sound, first);
    pattern(alloc, findings, sound, &typed.own, typed.pattern, &lines)
}

// Reports every fault of a pattern, and puts what it means behind others.
fn read_pattern(
    alloc: Global,
    findings: &mut Findings,
    facts: &Facts<'_, '_>,
    read: &mut Read<'_>,
    typed: &Typed<'_, '_, '_>,
) -> Result<(), AllocError>
    requires sound { IsSoundTyped (facts_data facts.now) (typed_data typed.now) }
    ensures found { OnOk result (found_in findings.new ≡ with_faults (found_in findings.old) (part_faults (facts_data facts.now) read.old.room (PatternPart (typed_data typed.now)))) }
    ensures read { OnOk result (ReadsPart (facts_data facts.now) (PatternPart (typed_data typed.now)) read.old read.new) }
{
    let made = pattern_meant(alloc, findings, facts, &mut read.room, typed)?;
    add_made(&mut read.patterns, made)?;
    Ok(())
}

// ---- all

// Reports every fault of a line, and puts it behind others with everything put in, unless it is too large.
fn read_one<'t>(
    alloc: Global,
    findings: &mut Findings,
    facts: &Facts<'_, '_>,
    read: &mut Read<'t>,
    line: &Line<'t>,
) -> Result<(), AllocError>
    ensures found { OnOk result (found_in findings.new ≡ with_faults (found_in findings.old) (line_faults (facts_data facts.now) read.old.room (line_data line.now))) }
    ensures read { OnOk result (ReadsPart (facts_data facts.now) (LinePart (line_data line.now)) read.old read.new) }
{
    if let Some(made) = read_line(alloc, findings, facts, &mut read.room, line)? {
        read.lines.push(made)?;
    }
    Ok(())
}

// Reports every fault of a line or pattern.
fn read_part<'t>(
    alloc: Global,
    findings: &mut Findings,
    facts: &Facts<'_, '_>,
    read: &mut Read<'t>,
    part: Part<'_, '_, 't>,
) -> Result<(), AllocError>
    requires sound { IsSoundPart (facts_data facts.now) (part_data part) }
    ensures found { OnOk result (found_in findings.new ≡ with_faults (found_in findings.old) (part_faults (facts_data facts.now) read.old.room (part_data part.entry))) }
    ensures read { OnOk result (ReadsPart (facts_data facts.now) (part_data part.entry) read.old read.new) }
{
    match part {
        Part::Line(line) => read_one(alloc, findings, facts, read, line),
        Part::Pattern(typed) => {
            read_pattern(alloc, findings, facts, read, typed)?;
            Ok(())
        }
    }
}

/// Reports every fault of lines and patterns in text order, and gives the lines that aren't too large with everything put in,
/// and what the patterns without faults mean. The error is that memory is short.
pub fn read_parts<'t>(
    alloc: Global,
    findings: &mut Findings,
    facts: &Facts<'_, '_>,
    parts: &[Part<'_, '_, 't>],
) -> Result<Read<'t>, AllocError>
    requires sound { ArePartsSound (facts_data facts.now) (map part_data parts.now) }
    ensures found { OnOk result (found_in findings.new ≡ with_faults (found_in findings.old) (parts_faults (facts_data facts.now) all_room (map part_data parts.now))) }
    ensures lines { IfOk result (λ read. map line_data read.lines.items ≡ parts_lines (facts_data facts.now) all_room (map part_data parts.now)) }
    ensures patterns { IfOk result (λ read. map model_pattern read.patterns.items ≡ parts_patterns (facts_data facts.now) all_room (map part_data parts.now)) }
{
    let mut read = Read {
        room: Some(MOST_NODES),
        lines: Vec::new(alloc),
        patterns: Vec::new(alloc),
    };
    for part in parts {
        read_part(alloc, findings, facts, &mut read, *part)?;
    }
    Ok(read)
}
