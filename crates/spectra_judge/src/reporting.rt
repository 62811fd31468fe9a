//! Faults of expressions, found beside others.

ghost use Rattle.std.specs.Prelude.{◌≡◌, List};
ghost use Rattle.spectra_resolved.specs.declared.findings.Finding.{Finding};
ghost use Rattle.spectra_resolved.specs.Views.{resolved_data};
ghost use Rattle.spectra_resolved.specs.Findings.{with_faults, first_of_faults};
ghost use Rattle.spectra_resolved.specs.Reports.{found_in};
ghost use Rattle.spectra_judge.specs.KindViews.{known_data};
ghost use Rattle.spectra_judge.specs.Judged.{faults_of};

use crate::judging::judge;
use crate::known::Known;
use spectra_resolved::findings::{Finding, Findings};
use spectra_resolved::stand::Stand;
use spectra_resolved::tree::Resolved;

/// Puts a finding among others, where there is one: the first of some faults.
pub fn report_first(findings: &mut Findings, first: Option<Finding>)
    ensures { (fs : List Finding) → first ≡ first_of_faults fs → found_in findings.new ≡ with_faults (found_in findings.old) fs }
{
    match first {
        Some(first) => findings.report(first.number, first.at),
        None => {}
    }
}

/// Reports the faults of an expression that stands somewhere.
pub fn report_faults(findings: &mut Findings, known: &Known<'_, '_>, stand: Stand, t: &Resolved)
    ensures { found_in findings.new ≡ with_faults (found_in findings.old) (faults_of (known_data known.now) stand (resolved_data t.now)) }
{
    let judged = judge(known, stand, t);
    report_first(findings, judged.fault);
}
