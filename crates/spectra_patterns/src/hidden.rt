//! The line with which there are too many hidden tables.

ghost use Rattle.std.specs.Prelude.{◌≡◌, ◌+◌, ◌<◌, ◌≤◌, true, List, ◌++◌, ◌∷◌, [], length, map, IfOk, OnOk, IsErrOf};
ghost use Rattle.spec_model.specs.Syntax.{Statement};
ghost use Rattle.spec_model.specs.Views.{content_data, line_data as model_line, trigger_data};
ghost use Rattle.spec_model.specs.WellTyped.{is_hidden as is_hidden_lem};
ghost use Rattle.spectra_resolved.specs.Findings.{with_faults};
ghost use Rattle.spectra_resolved.specs.Reports.{found_in};
ghost use Rattle.spectra_patterns.specs.declared.stop.Stop.TheVariants.{Many};
ghost use Rattle.spectra_patterns.specs.Hidden.{are_many, hidden_faults};
ghost use Rattle.spectra_patterns.specs.Gathering.{own_tables, IsCount};

use crate::gathering::{Tables, gather_body};
use crate::stop::Stop;
use past_bits::Operators;
use spec_model::spec::{Body, Line, Trigger};
use spectra_resolved::findings::Findings;
use spectra_resolved::spot::Spot;
use spectra_trees::faults::TOO_MANY;
use std::alloc::{AllocError, Global};

/// The most hidden tables.
const MOST_HIDDEN: usize = 1_024;

// Whether a line has a hidden table of its own.
fn is_hidden(body: &Body) -> bool
    ensures { result ≡ is_hidden_lem (content_data body.now) }
{
    match body {
        Body::Initial(_) => false,
        Body::Safety(_) => false,
        Body::Recurring(_) => false,
        Body::Pattern(_, _) => true,
        Body::Trigger(_) => true,
    }
}

// How many lines have a table of their own with one more line, unless these are too many.
fn with_own(own: usize, body: &Body) -> Result<usize, Stop>
    ensures counted { IfOk result (λ n. n ≡ own + own_tables (content_data body.now)) }
    ensures few { IfOk result (λ n. n ≤ 1_024) }
    ensures many { IsErrOf result Many → 1_024 < own + own_tables (content_data body.now) }
{
    let more = if is_hidden(body) { 1 } else { 0 };
    if own > MOST_HIDDEN - more {
        return Err(Stop::Many);
    }
    Ok(own + more)
}

// Counts the tables of one more line, as long as there aren't too many.
fn count_line<'a>(
    tables: &mut Tables<'a>,
    triggers: &'a [Trigger],
    line: &'a Line,
) -> Result<(), Stop>
    ensures counted { (before : List Statement) → IsCount (map trigger_data triggers.now) before tables.old → OnOk result (IsCount (map trigger_data triggers.now) (before ++ model_line line.now ∷ []) tables.new) }
    ensures many { (before : List Statement) → IsCount (map trigger_data triggers.now) before tables.old → IsErrOf result Many → are_many (map trigger_data triggers.now) (before ++ model_line line.now ∷ []) ≡ true }
{
    let own = with_own(tables.own, &line.body)?;
    let most = MOST_HIDDEN - own;
    gather_body(&mut tables.ops, most, triggers, &line.body)?;
    if tables.ops.operators().len() > most {
        return Err(Stop::Many);
    }
    tables.own = own;
    Ok(())
}

/// Reports the first of several lines, by its place, with which there are too many hidden tables: one for each different past operator, and
/// one for each use of a pattern and for each trigger. The error is that memory is short.
pub fn report_hidden(
    alloc: Global,
    findings: &mut Findings,
    places: &[Spot],
    triggers: &[Trigger],
    lines: &[Line],
) -> Result<(), AllocError>
    requires placed { length places.now ≡ length lines.now }
    ensures { OnOk result (found_in findings.new ≡ with_faults (found_in findings.old)
        (hidden_faults (map trigger_data triggers.now) [] places.now (map model_line lines.now))) }
{
    let mut tables = Tables {
        ops: Operators::new(alloc),
        own: 0,
    };
    for k in 0..lines.len() {
        match count_line(&mut tables, triggers, &lines[k]) {
            Ok(()) => {}
            Err(Stop::Many) => {
                findings.report(TOO_MANY, places[k]);
                return Ok(());
            }
            Err(Stop::Memory) => return Err(AllocError),
        }
    }
    Ok(())
}
