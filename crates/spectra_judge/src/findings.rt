//! Faults that are found where a test holds.

ghost use Rattle.std.specs.Prelude.{◌≡◌};
ghost use Rattle.spectra_resolved.specs.Findings.{with_faults};
ghost use Rattle.spectra_resolved.specs.Reports.{found_in};
ghost use Rattle.spectra_judge.specs.Findings.{fault_if};

use spectra_resolved::findings::Findings;
use spectra_resolved::spot::Spot;

/// Reports a fault where a test holds.
pub fn report_if(findings: &mut Findings, wrong: bool, number: u8, at: Spot)
    ensures { found_in findings.new ≡ with_faults (found_in findings.old) (fault_if wrong number at) }
{
    if wrong {
        findings.report(number, at);
    }
}
