//! The faults of bounds.

ghost use Rattle.std.specs.Prelude.{◌≡◌, ◌++◌, map, OnOk};
ghost use Rattle.spectra_resolved.specs.Findings.{with_faults};
ghost use Rattle.spectra_resolved.specs.Reports.{found_in};
ghost use Rattle.spectra_resolved.specs.Views.{resolved_data};
ghost use Rattle.spectra_resolved.specs.TextViews.{type_data};
ghost use Rattle.spectra_judge.specs.KindViews.{known_data};
ghost use Rattle.spectra_elaboration.specs.DefinitionViews.{definitions_data};
ghost use Rattle.spectra_bodies.specs.PutIn.{put_in_faults};
ghost use Rattle.spectra_bodies.specs.Faults.{bound_faults, type_faults, each_type_faults};
ghost use Rattle.spectra_bodies.specs.BasisViews.{basis_data};

use crate::basis::Basis;
use crate::places::is_behind;
use crate::putting::report_put_in;
use spectra_bounds::types::report_range;
use spectra_judge::reporting::report_faults;
use spectra_resolved::findings::Findings;
use spectra_resolved::stand::Stand;
use spectra_resolved::text::TypeUse;
use spectra_resolved::tree::Resolved;
use std::alloc::AllocError;

// Reports the faults of a bound with everything put in. Nothing is put in for one that stands behind the first fault so far, and
// for one that has a number, which has none.
fn report_bound_put_in(
    findings: &mut Findings,
    basis: &Basis<'_, '_>,
    t: &Resolved,
) -> Result<(), AllocError>
    ensures { OnOk result (found_in findings.new ≡ with_faults (found_in findings.old) (put_in_faults (definitions_data basis.now.definitions.now) (known_data basis.now.known) Stand.Bound (resolved_data t.now))) }
{
    if is_behind(findings, t) {
        return Ok(());
    }
    match basis.constants.sound_number(Stand::Bound, t) {
        Some(_) => Ok(()),
        None => report_put_in(
            basis.alloc,
            findings,
            basis.definitions,
            &basis.known,
            Stand::Bound,
            t,
        ),
    }
}

#[tactic(auto, using(spectra_resolved::proofs::First::with_faults_append))]
// Reports the faults of a bound, as it is written and with everything put in.
fn report_bound(
    findings: &mut Findings,
    basis: &Basis<'_, '_>,
    t: &Resolved,
) -> Result<(), AllocError>
    ensures { OnOk result (found_in findings.new ≡ with_faults (found_in findings.old) (bound_faults (basis_data basis.now) (resolved_data t.now))) }
{
    report_faults(findings, &basis.known, Stand::Bound, t);
    report_bound_put_in(findings, basis, t)?;
    Ok(())
}

#[tactic(auto, using(spectra_resolved::proofs::First::with_faults_append))]
// Reports those of both bounds of a range.
fn report_both(
    findings: &mut Findings,
    basis: &Basis<'_, '_>,
    low: &Resolved,
    high: &Resolved,
) -> Result<(), AllocError>
    ensures { OnOk result (found_in findings.new ≡ with_faults (found_in findings.old) (bound_faults (basis_data basis.now) (resolved_data low.now) ++ bound_faults (basis_data basis.now) (resolved_data high.now))) }
{
    report_bound(findings, basis, low)?;
    report_bound(findings, basis, high)?;
    Ok(())
}

#[tactic(auto, using(spectra_resolved::proofs::First::with_faults_append))]
/// Reports the faults of a type: a range without numbers (14), and each fault of a bound (9 to 14). The error is that memory is
/// short.
pub fn report_type(
    findings: &mut Findings,
    basis: &Basis<'_, '_>,
    t: &TypeUse,
) -> Result<(), AllocError>
    ensures { OnOk result (found_in findings.new ≡ with_faults (found_in findings.old) (type_faults (basis_data basis.now) (type_data t.now))) }
{
    match t {
        TypeUse::Range(_, low, high) => {
            report_range(findings, basis.constants, t);
            report_both(findings, basis, low, high)?;
        }
        _ => {}
    }
    Ok(())
}

/// Reports those of several types. The error is that memory is short.
pub fn report_each(
    findings: &mut Findings,
    basis: &Basis<'_, '_>,
    ts: &[TypeUse],
) -> Result<(), AllocError>
    ensures { OnOk result (found_in findings.new ≡ with_faults (found_in findings.old) (each_type_faults (basis_data basis.now) (map type_data ts.now))) }
{
    for t in ts {
        report_type(findings, basis, t)?;
    }
    Ok(())
}
