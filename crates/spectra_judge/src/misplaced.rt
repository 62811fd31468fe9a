//! The faults of what stands where it may not: `next`, past operators, variables and parameters.

ghost use Rattle.std.specs.Prelude.{◌≡◌};
ghost use Rattle.spectra_resolved.specs.Findings.{with_faults};
ghost use Rattle.spectra_resolved.specs.Reports.{found_in};
ghost use Rattle.spectra_judge.specs.KindViews.{setting_data};
ghost use Rattle.spectra_judge.specs.Around.{in_next, in_past, in_bounds, next_faults, past_faults, shifted, variable_faults, parameter_faults, own_faults};
ghost use Rattle.spectra_judge.specs.Judged.{operator_faults};

use crate::around::{Around, meeting};
use crate::findings::report_if;
use crate::known::Setting;
use spectra_resolved::findings::Findings;
use spectra_resolved::spot::{Mark, Spot};
use spectra_trees::faults::{
    NEXT_HERE, NEXT_NESTED, NEXT_OF_SYSTEM, SYSTEM_IN_INITIAL, WRONG_TYPE,
};

// Reports a part in a `next`, where it may not be.
fn report_in_next(findings: &mut Findings, next: Option<Mark>, at: Mark)
    ensures { found_in findings.new ≡ with_faults (found_in findings.old) (in_next next at) }
{
    match next {
        Some(next) => findings.report(NEXT_NESTED, meeting(next, at, at)),
        None => {}
    }
}

// Reports a `next` in past operators.
fn report_in_past(findings: &mut Findings, around: Around, at: Spot)
    ensures { found_in findings.new ≡ with_faults (found_in findings.old) (in_past around at) }
{
    let first = around.brought.unwrap_or(at);
    report_if(findings, around.past, NEXT_NESTED, first);
}

// Reports a part in the bounds of a quantifier, where it may not be.
fn report_in_bounds(findings: &mut Findings, banned: bool, number: u8, around: Around, at: Mark)
    ensures { found_in findings.new ≡ with_faults (found_in findings.old) (in_bounds banned number around at) }
{
    match around.bound {
        Some(outer) => report_if(findings, banned, number, meeting(outer, at, at)),
        None => {}
    }
}

#[tactic(auto, using(spectra_resolved::proofs::First::with_faults_append))]
/// Reports what is wrong with a `next`, its operand apart.
#[inline(never)]
pub fn report_next(findings: &mut Findings, setting: &Setting<'_, '_>, around: Around, at: Mark)
    ensures { found_in findings.new ≡ with_faults (found_in findings.old) (next_faults setting.now.bans around at) }
{
    report_if(findings, setting.bans.next, NEXT_HERE, at.spot);
    report_in_next(findings, around.next, at);
    report_in_past(findings, around, at.spot);
    report_in_bounds(findings, true, NEXT_HERE, around, at);
}

#[tactic(auto, using(spectra_resolved::proofs::First::with_faults_append))]
// Reports what is wrong with a past operator, its operands apart.
fn report_past(findings: &mut Findings, setting: &Setting<'_, '_>, next: Option<Mark>, at: Mark)
    ensures { found_in findings.new ≡ with_faults (found_in findings.old) (past_faults setting.now.bans next at) }
{
    report_if(findings, setting.bans.past, WRONG_TYPE, at.spot);
    report_in_next(findings, next, at);
}

/// Reports what is wrong with an operator where it stands, which speaks of the past or not.
#[inline(never)]
pub fn report_operator(
    findings: &mut Findings,
    setting: &Setting<'_, '_>,
    past: bool,
    next: Option<Mark>,
    at: Mark,
)
    ensures { found_in findings.new ≡ with_faults (found_in findings.old) (operator_faults (setting_data setting.now) past next at) }
{
    if past {
        report_past(findings, setting, next, at);
    }
}

// Reports what is read under a `next`, where it may not be.
fn report_shifted(findings: &mut Findings, banned: bool, number: u8, next: Option<Mark>, at: Mark)
    ensures { found_in findings.new ≡ with_faults (found_in findings.old) (shifted banned number next at) }
{
    match next {
        Some(next) => {
            if banned {
                findings.report(number, meeting(next, at, next));
            }
        }
        None => {}
    }
}

#[tactic(auto, using(spectra_resolved::proofs::First::with_faults_append))]
/// Reports a variable that may not be read, of the system or not.
pub fn report_variable(
    findings: &mut Findings,
    setting: &Setting<'_, '_>,
    around: Around,
    at: Mark,
    system: bool,
)
    ensures { found_in findings.new ≡ with_faults (found_in findings.old) (variable_faults setting.now.bans around at system) }
{
    let bans = setting.bans;
    report_if(findings, bans.variable, WRONG_TYPE, at.spot);
    report_if(findings, bans.system && system, SYSTEM_IN_INITIAL, at.spot);
    let banned = bans.shifted_system && system;
    report_shifted(findings, banned, NEXT_OF_SYSTEM, around.next, at);
    report_in_bounds(findings, true, WRONG_TYPE, around, at);
}

#[tactic(auto, using(spectra_resolved::proofs::First::with_faults_append))]
/// Reports a pattern's own variable that may not be read.
pub fn report_own(findings: &mut Findings, setting: &Setting<'_, '_>, around: Around, at: Mark)
    ensures { found_in findings.new ≡ with_faults (found_in findings.old) (own_faults setting.now.bans around at) }
{
    report_if(findings, setting.bans.variable, WRONG_TYPE, at.spot);
    report_in_bounds(findings, true, WRONG_TYPE, around, at);
}

#[tactic(auto, using(spectra_resolved::proofs::First::with_faults_append))]
/// Reports a pattern's parameter that may not be read.
pub fn report_parameter(
    findings: &mut Findings,
    setting: &Setting<'_, '_>,
    around: Around,
    at: Mark,
)
    ensures { found_in findings.new ≡ with_faults (found_in findings.old) (parameter_faults setting.now.bans around at) }
{
    let bans = setting.bans;
    report_if(
        findings,
        bans.variable || bans.parameter,
        WRONG_TYPE,
        at.spot,
    );
    report_shifted(findings, bans.shifted_parameter, NEXT_HERE, around.next, at);
    report_in_bounds(findings, bans.bound_parameter, WRONG_TYPE, around, at);
}
