//! The faults of expressions, and of triggers as wholes.

ghost use Rattle.std.specs.Prelude.{◌≡◌, IfOk, OnOk};
ghost use Rattle.spectra_resolved.specs.Findings.{with_faults, first_of_faults};
ghost use Rattle.spectra_resolved.specs.Reports.{found_in};
ghost use Rattle.spectra_resolved.specs.Views.{regex_data};
ghost use Rattle.spectra_resolved.specs.TextViews.{body_data};
ghost use Rattle.spectra_judge.specs.KindViews.{known_data};
ghost use Rattle.spectra_patterns.specs.Triggers.{is_right as is_right_lem};
ghost use Rattle.spectra_lines.specs.Lines.{trees_faults, own_faults, whole_faults};
ghost use Rattle.spectra_lines.specs.Views.{trees_data};

use spectra_judge::findings::report_if;
use spectra_judge::known::Known;
use spectra_judge::reporting::report_faults;
use spectra_patterns::triggers::{report_repeats, trigger};
use spectra_resolved::findings::{Finding, Findings};
use spectra_resolved::stand::Stand;
use spectra_resolved::text::Body;
use spectra_resolved::tree::{Regex, Resolved};
use spectra_trees::faults::TRIGGER_WIDE;
use std::alloc::{AllocError, Global};

/// The first fault of several expressions that stand somewhere.
pub fn first_fault(known: &Known<'_, '_>, stand: Stand, trees: &[&Resolved]) -> Option<Finding>
    ensures { result ≡ first_of_faults (trees_faults (known_data known.now) stand (trees_data trees.now)) }
{
    let mut findings = Findings::new();
    for t in trees {
        report_faults(&mut findings, known, stand, t);
    }
    findings.first()
}

/// Reports a trigger's repeats with wrong numbers, as they are written.
pub fn report_own(findings: &mut Findings, body: &Body)
    ensures { found_in findings.new ≡ with_faults (found_in findings.old) (own_faults (body_data body.now)) }
{
    match body {
        Body::Trigger(at, cause, effect) => report_repeats(findings, *at, cause, effect),
        Body::Initial(_) => {}
        Body::Safety(_) => {}
        Body::Recurring(_) => {}
        Body::Pattern(_, _, _) => {}
    }
}

// Whether a trigger is right as a whole. The error is that memory is short.
fn is_right(
    alloc: Global,
    known: &Known<'_, '_>,
    cause: &Regex,
    effect: &Regex,
) -> Result<bool, AllocError>
    ensures { IfOk result (λ right. right ≡ is_right_lem (known_data known.now) (regex_data cause.now) (regex_data effect.now)) }
{
    let made = trigger(alloc, known, cause, effect)?;
    Ok(made.is_some())
}

/// Reports a trigger that isn't right as a whole. The error is that memory is short.
pub fn report_whole(
    alloc: Global,
    findings: &mut Findings,
    known: &Known<'_, '_>,
    body: &Body,
) -> Result<(), AllocError>
    ensures { OnOk result (found_in findings.new ≡ with_faults (found_in findings.old) (whole_faults (known_data known.now) (body_data body.now))) }
{
    match body {
        Body::Trigger(at, cause, effect) => {
            let right = is_right(alloc, known, cause, effect)?;
            report_if(findings, !right, TRIGGER_WIDE, *at);
        }
        Body::Initial(_) => {}
        Body::Safety(_) => {}
        Body::Recurring(_) => {}
        Body::Pattern(_, _, _) => {}
    }
    Ok(())
}
