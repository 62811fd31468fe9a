//! Triggers: the faults of their brackets and repeats and of the whole, and what they mean.

ghost use Rattle.std.specs.Prelude.{◌≡◌, true, [], ◌∷◌, map, option_map, All, IfOk, OnOk, if◌then◌else◌, Some, None};
ghost use Rattle.spec_model.specs.Syntax.{regulars};
ghost use Rattle.spec_model.specs.Views.{regular, trigger_data};
ghost use Rattle.spectra_resolved.specs.Findings.{with_faults};
ghost use Rattle.spectra_resolved.specs.Reports.{found_in};
ghost use Rattle.spectra_resolved.specs.declared.tree.Regex.{Regex};
ghost use Rattle.spectra_resolved.specs.declared.tree.Times.{Times};
ghost use Rattle.spectra_resolved.specs.Chained.{regexes};
ghost use Rattle.spectra_resolved.specs.Views.{regex_data};
ghost use Rattle.spectra_judge.specs.KindViews.{known_data};
ghost use Rattle.spectra_patterns.specs.Triggers.{count_of, regular_of, regulars_of, repeat_faults, is_narrow as is_narrow_lem, trigger_of as trigger_of_lem};
ghost use Rattle.spectra_patterns.specs.TriggerParts.{atom_faults, each_atom_faults, with_repeats, meant_by};

use crate::counting::{MAX_COUNT, counts_well};
use spec_model::expr;
use spec_model::spec::Trigger;
use spectra_cases::making::{Making, formula};
use spectra_judge::findings::report_if;
use spectra_judge::known::Known;
use spectra_judge::reporting::report_faults;
use spectra_resolved::findings::Findings;
use spectra_resolved::spot::Spot;
use spectra_resolved::stand::Stand;
use spectra_resolved::tree::{Regex, Times};
use spectra_trees::faults::TRIGGER_WIDE;
use std::alloc::{AllocError, Global};
use trigger_dfa::{DfaFault, build};

// ---- faults of the parts

/// Reports the faults of an expression's brackets.
#[cycle(judging)]
pub fn report_atoms(findings: &mut Findings, known: &Known<'_, '_>, r: &Regex)
    ensures { found_in findings.new ≡ with_faults (found_in findings.old) (atom_faults (known_data known.now) (regex_data r.now)) }
{
    match r {
        Regex::Atom(t) => report_faults(findings, known, Stand::Atom, t),
        Regex::Cat(rs) => report_each(findings, known, rs),
        Regex::Alt(rs) => report_each(findings, known, rs),
        Regex::Repeat(part, _) => report_atoms(findings, known, part),
    }
}

#[cycle(judging)]
fn report_each(findings: &mut Findings, known: &Known<'_, '_>, rs: &[Regex])
    ensures { found_in findings.new ≡ with_faults (found_in findings.old) (each_atom_faults (known_data known.now) (regexes (map regex_data rs.now))) }
{
    for r in rs {
        report_atoms(findings, known, r);
    }
}

/// Reports a repeat with a wrong number, at the word `trig`.
pub fn report_repeats(findings: &mut Findings, at: Spot, cause: &Regex, effect: &Regex)
    ensures { found_in findings.new ≡ with_faults (found_in findings.old) (repeat_faults at (regex_data cause.now) (regex_data effect.now)) }
{
    let right = counts_well(cause) && counts_well(effect);
    report_if(findings, !right, TRIGGER_WIDE, at);
}

// ---- what a trigger means

// A number of a repeat.
fn count(n: i64) -> u16
    ensures { result ≡ count_of n }
{
    if 0 <= n && n <= MAX_COUNT {
        n as u16
    } else {
        0
    }
}

// An expression with a repeat.
fn repeat(alloc: Global, part: expr::Regex, times: Times) -> Result<expr::Regex, AllocError>
    ensures { IfOk result (λ made. regular made ≡ with_repeats (regular part) (times ∷ [])) }
{
    let most = match times.most {
        Some(most) => Some(count(most)),
        None => None,
    };
    Ok(expr::Regex::Repeat(Box::new(alloc, part)?, count(times.least), most))
}

// An expression with several repeats, one after another.
fn repeats(alloc: Global, part: expr::Regex, times: &[Times]) -> Result<expr::Regex, AllocError>
    ensures { IfOk result (λ made. regular made ≡ with_repeats (regular part) times.now) }
{
    let mut made = part;
    for t in times {
        made = repeat(alloc, made, *t)?;
    }
    Ok(made)
}

// What one side of a trigger means.
#[cycle(sides)]
fn side(by: &Making<'_, '_>, r: &Regex) -> Result<expr::Regex, AllocError>
    requires line { by.now.params ≡ 0 }
    ensures { IfOk result (λ made. regular made ≡ regular_of (known_data by.now.known) (regex_data r.now)) }
{
    match r {
        Regex::Atom(t) => Ok(expr::Regex::Atom(formula(by, t)?)),
        Regex::Cat(rs) => Ok(expr::Regex::Cat(sides(by, rs)?)),
        Regex::Alt(rs) => Ok(expr::Regex::Alt(sides(by, rs)?)),
        Regex::Repeat(part, times) => {
            let made = side(by, part)?;
            repeats(by.alloc, made, times)
        }
    }
}

#[cycle(sides)]
fn sides(by: &Making<'_, '_>, rs: &[Regex]) -> Result<Vec<expr::Regex>, AllocError>
    requires line { by.now.params ≡ 0 }
    ensures { IfOk result (λ made. regulars (map regular made.items) ≡ regulars_of (known_data by.now.known) (regexes (map regex_data rs.now))) }
{
    let mut made = Vec::new(by.alloc);
    for r in rs {
        made.push(side(by, r)?)?;
    }
    Ok(made)
}

// Whether a trigger is within the limits.
fn is_narrow(alloc: Global, trigger: &Trigger) -> Result<bool, AllocError>
    ensures { IfOk result (λ narrow. narrow ≡ is_narrow_lem (trigger_data trigger.now)) }
{
    match build(alloc, trigger) {
        Ok(_) => Ok(true),
        Err(DfaFault::Wide) => Ok(false),
        Err(DfaFault::Memory) => Err(AllocError),
    }
}

/// What a trigger means in whose brackets everything is put in, whether or not it is right: a wrong number of a repeat counts
/// as 0. The error is that memory is short.
pub fn trigger_of(
    alloc: Global,
    known: &Known<'_, '_>,
    cause: &Regex,
    effect: &Regex,
) -> Result<Trigger, AllocError>
    ensures { IfOk result (λ made. trigger_data made ≡ trigger_of_lem (known_data known.now) (regex_data cause.now) (regex_data effect.now)) }
{
    let by = Making {
        alloc,
        known: *known,
        params: 0,
    };
    Ok(Trigger {
        cause: side(&by, cause)?,
        effect: side(&by, effect)?,
    })
}

/// The same, where its repeats are right and it isn't too wide, and none where it isn't so. The error is that memory is short.
pub fn trigger(
    alloc: Global,
    known: &Known<'_, '_>,
    cause: &Regex,
    effect: &Regex,
) -> Result<Option<Trigger>, AllocError>
    ensures { IfOk result (λ made. option_map trigger_data made ≡ meant_by (known_data known.now) (regex_data cause.now) (regex_data effect.now)) }
{
    if !counts_well(cause) || !counts_well(effect) {
        return Ok(None);
    }
    let made = trigger_of(alloc, known, cause, effect)?;
    if is_narrow(alloc, &made)? {
        Ok(Some(made))
    } else {
        Ok(None)
    }
}
