//! All that the lines and patterns of a text say.

ghost use Rattle.std.specs.Prelude.{◌≡◌, map, IfOk, OnOk};
ghost use Rattle.spec_model.specs.Views.{line_data as model_line, trigger_data, pattern_data as model_pattern};
ghost use Rattle.spectra_resolved.specs.Findings.{with_faults};
ghost use Rattle.spectra_resolved.specs.Reports.{found_in};
ghost use Rattle.spectra_resolved.specs.TextViews.{line_data};
ghost use Rattle.spectra_lines.specs.Said.{lines_faults, lines_meant, triggers_meant, patterns_meant};
ghost use Rattle.spectra_lines.specs.SoundParts.{AreSound};
ghost use Rattle.spectra_lines.specs.Views.{facts_data, typed_data};

use crate::facts::Facts;
use crate::meaning::statements;
use crate::order::{Typed, in_text_order};
use crate::reading::read_parts;
use spec_model::spec;
use spec_model::spec::Trigger;
use spectra_patterns::hidden::report_hidden;
use spectra_resolved::findings::Findings;
use spectra_resolved::spot::Spot;
use spectra_resolved::text::Line;
use std::alloc::{AllocError, Global};

/// What the lines and patterns of a text mean: those of them that aren't too large, and of the patterns those without a fault.
#[derive(Drop)]
pub struct Said {
    pub lines: Vec<spec::Line>,
    pub triggers: Vec<Trigger>,
    pub patterns: Vec<spec::Pattern>,
}

// The places of the items that lines stand in.
fn places_of(alloc: Global, lines: &[Line<'_>]) -> Result<Vec<Spot>, AllocError>
    ensures { IfOk result (λ places. places.items ≡ map (λ l. l.item) (map line_data lines.now)) }
{
    let mut places = Vec::new(alloc);
    for line in lines {
        places.push(line.item)?;
    }
    Ok(places)
}

/// What the lines and patterns of a text mean. Every fault of them is reported: of expressions as they are written (9 to 14),
/// and with everything put in (9 to 14); more than 1,000,000 nodes in all lines, or 512 levels in a line (19), at the first
/// token of the line; repeats and sizes of triggers (22), at `trig`; patterns that aren't determined (20) or too wide (21), at
/// their names; and more than 1,024 hidden tables (18), at the first token of the item. The error is that memory is short.
pub fn read_lines(
    alloc: Global,
    findings: &mut Findings,
    facts: &Facts<'_, '_>,
    patterns: &[Typed<'_, '_, '_>],
    lines: &[Line<'_>],
) -> Result<Said, AllocError>
    requires sound { AreSound (facts_data facts.now) (map typed_data patterns.now) }
    ensures found { OnOk result (found_in findings.new ≡ with_faults (found_in findings.old) (lines_faults (facts_data facts.now) (map typed_data patterns.now) (map line_data lines.now))) }
    ensures lines { IfOk result (λ said. map model_line said.lines.items ≡ lines_meant (facts_data facts.now) (map typed_data patterns.now) (map line_data lines.now)) }
    ensures triggers { IfOk result (λ said. map trigger_data said.triggers.items ≡ triggers_meant (facts_data facts.now) (map typed_data patterns.now) (map line_data lines.now)) }
    ensures patterns { IfOk result (λ said. map model_pattern said.patterns.items ≡ patterns_meant (facts_data facts.now) (map typed_data patterns.now) (map line_data lines.now)) }
{
    let parts = in_text_order(alloc, patterns, lines)?;
    let read = read_parts(alloc, findings, facts, &parts)?;
    let stated = statements(alloc, &facts.known, &read.lines)?;
    let places = places_of(alloc, &read.lines)?;
    report_hidden(alloc, findings, &places, &stated.triggers, &stated.lines)?;
    Ok(Said {
        lines: stated.lines,
        triggers: stated.triggers,
        patterns: read.patterns,
    })
}
