//! Patterns: the faults of their lines and of the whole, and what they mean.

ghost use Rattle.std.specs.Prelude.{◌≡◌, ◌≤◌, ◌++◌, [], true, map, flat_map, option_map, replicate, All, IfOk, OnOk};
ghost use Rattle.spec_model.specs.Views.{formula, domain_data, pattern_data as model_data};
ghost use Rattle.pattern_rows.specs.Patterns.{IsPattern};
ghost use Rattle.spectra_resolved.specs.Findings.{with_faults, first_of_faults};
ghost use Rattle.spectra_resolved.specs.Reports.{found_in};
ghost use Rattle.spectra_resolved.specs.TextViews.{pattern_line_data, pattern_data};
ghost use Rattle.spectra_judge.specs.Kinds.{Truth};
ghost use Rattle.spectra_judge.specs.KindViews.{kind_data, known_data};
ghost use Rattle.spectra_resolved.specs.Views.{resolved_data};
ghost use Rattle.spectra_cases.specs.Formulas.{formula_of as formula_of_lem};
ghost use Rattle.spectra_cases.specs.Sizes.{size_of as size_of_lem};
ghost use Rattle.spectra_cases.specs.SizeViews.{size_data};
ghost use Rattle.spectra_patterns.specs.Patterns.{pattern_known, with_lines, line_faults, lines_faults, domain_of as domain_of_lem, first_in, step_in, goals_in, pattern_of, table_fault as table_fault_lem, table_faults, pattern_faults, meant};
ghost use Rattle.spectra_patterns.specs.SoundPatterns.{unless, is_type_kind, IsSound};

use crate::domains::domain_of;
use pattern_rows::{RowFault, rows};
use spec_model::spec;
use spec_model::value::Domain;
use spectra_cases::making::{Making, formula as formula_of};
use spectra_cases::sizes::{Size, size_of};
use spectra_judge::kind::Kind;
use spectra_judge::known::Known;
use spectra_judge::reporting::report_faults;
use spectra_resolved::findings::{Finding, Findings};
use spectra_resolved::stand::Stand;
use spectra_resolved::text::{Pattern, PatternLine};
use spectra_resolved::tree::Resolved;
use spectra_trees::faults::{PATTERN_OPEN, PATTERN_WIDE};
use std::alloc::{AllocError, Global};

/// The most parameters of a pattern.
const MAX_PARAMS: usize = 8;

// ---- lines

// Reports the faults of a line.
fn report_line(findings: &mut Findings, known: &Known<'_, '_>, line: &PatternLine)
    ensures { found_in findings.new ≡ with_faults (found_in findings.old) (line_faults (known_data known.now) (pattern_line_data line.now)) }
{
    match line {
        PatternLine::Initial(_, t) => report_faults(findings, known, Stand::PatternInitial, t),
        PatternLine::Safety(_, t) => report_faults(findings, known, Stand::PatternSafety, t),
        PatternLine::Recurring(_, t) => report_faults(findings, known, Stand::PatternRecurring, t),
    }
}

// The first of the faults of several lines.
fn first_fault(known: &Known<'_, '_>, lines: &[PatternLine]) -> Option<Finding>
    ensures { result ≡ first_of_faults (flat_map (line_faults (known_data known.now)) (map pattern_line_data lines.now)) }
{
    let mut findings = Findings::new();
    for line in lines {
        report_line(&mut findings, known, line);
    }
    findings.first()
}

// So many parameters, which are truth values.
fn truths<'a>(alloc: Global, params: usize) -> Result<Vec<Kind<'a>>, AllocError>
    ensures { IfOk result (λ made. map kind_data made.items ≡ replicate params Truth) }
{
    let mut made = Vec::new(alloc);
    for _place in 0..params {
        made.push(Kind::Truth)?;
    }
    Ok(made)
}

// What is known of the names in a pattern, whose parameters and own variables have these kinds.
fn known_inside<'s, 'a>(parameters: &'s [Kind<'a>], own: &'s [Kind<'a>]) -> Known<'s, 'a>
    ensures known { known_data result ≡ record { variables = []; system = []; defines = []; predicates = []; parameters = map kind_data parameters.now; own = map kind_data own.now } }
{
    Known {
        variables: &[],
        system: &[],
        defines: &[],
        predicates: &[],
        parameters,
        own,
    }
}

/// The first of the faults of lines of a pattern with so many parameters, whose own variables have these kinds. The error is that
/// memory is short.
pub fn lines_fault(
    alloc: Global,
    own: &[Kind<'_>],
    params: usize,
    lines: &[PatternLine],
) -> Result<Option<Finding>, AllocError>
    ensures { IfOk result (λ first. first ≡ first_of_faults (flat_map (line_faults (pattern_known params (map kind_data own.now))) (map pattern_line_data lines.now))) }
{
    let parameters = truths(alloc, params)?;
    let known = known_inside(&parameters, own);
    Ok(first_fault(&known, lines))
}

/// The nodes and levels of the formula of an expression in a pattern with so many parameters, whose own variables have these
/// kinds. The error is that memory is short.
pub fn size_inside(
    alloc: Global,
    own: &[Kind<'_>],
    params: usize,
    t: &Resolved,
) -> Result<Size, AllocError>
    ensures { IfOk result (λ size. size_data size ≡ size_of_lem (formula_of_lem (pattern_known params (map kind_data own.now)) params (resolved_data t.now))) }
{
    let parameters = truths(alloc, params)?;
    let known = known_inside(&parameters, own);
    size_of(&known, t)
}

// ---- what a pattern means

// Adds the formula of a line to those of its sort.
fn add_line(
    by: &Making<'_, '_>,
    line: &PatternLine,
    made: &mut spec::Pattern,
) -> Result<(), AllocError>
    ensures params { OnOk result (made.new.params ≡ made.old.params) }
    ensures domains { OnOk result (made.new.domains ≡ made.old.domains) }
    ensures first { OnOk result (map formula made.new.first.items ≡ map formula made.old.first.items ++ first_in (known_data by.now.known) by.now.params (pattern_line_data line.now)) }
    ensures step { OnOk result (map formula made.new.step.items ≡ map formula made.old.step.items ++ step_in (known_data by.now.known) by.now.params (pattern_line_data line.now)) }
    ensures goals { OnOk result (map formula made.new.goals.items ≡ map formula made.old.goals.items ++ goals_in (known_data by.now.known) by.now.params (pattern_line_data line.now)) }
{
    match line {
        PatternLine::Initial(_, t) => made.first.push(formula_of(by, t)?)?,
        PatternLine::Safety(_, t) => made.step.push(formula_of(by, t)?)?,
        PatternLine::Recurring(_, t) => made.goals.push(formula_of(by, t)?)?,
    }
    Ok(())
}

// The domains of own variables.
fn domains(alloc: Global, own: &[Kind<'_>]) -> Result<Vec<Domain>, AllocError>
    requires room { All (λ k. is_type_kind 65_536 (kind_data k) ≡ true) own.now }
    ensures { IfOk result (λ made. map domain_data made.items ≡ map domain_of_lem (map kind_data own.now)) }
{
    let mut made = Vec::new(alloc);
    for kind in own {
        made.push(domain_of(alloc, *kind)?)?;
    }
    Ok(made)
}

// The pattern of the specification.
fn made_of(
    alloc: Global,
    own: &[Kind<'_>],
    pattern: &Pattern<'_>,
    lines: &[PatternLine],
) -> Result<spec::Pattern, AllocError>
    requires few { pattern.now.params ≤ 8 }
    requires types { All (λ k. is_type_kind 65_536 (kind_data k) ≡ true) own.now }
    ensures { IfOk result (λ made. model_data made ≡ pattern_of (map kind_data own.now) (with_lines (pattern_data pattern.now) (map pattern_line_data lines.now))) }
{
    let parameters = truths(alloc, pattern.params)?;
    let by = Making {
        alloc,
        known: known_inside(&parameters, own),
        params: pattern.params,
    };
    let mut made = spec::Pattern {
        params: pattern.params as u32,
        domains: domains(alloc, own)?,
        first: Vec::new(alloc),
        step: Vec::new(alloc),
        goals: Vec::new(alloc),
    };
    for line in lines {
        add_line(&by, line, &mut made)?;
    }
    Ok(made)
}

// ---- the whole

// The number of the fault of a pattern that is too wide, or whose lines leave its variables open.
fn table_fault(alloc: Global, made: &spec::Pattern) -> Result<Option<u8>, AllocError>
    requires shaped { IsPattern (model_data made.now) }
    ensures { IfOk result (λ number. number ≡ table_fault_lem (model_data made.now)) }
{
    match rows(alloc, made) {
        Ok(_) => Ok(None),
        Err(RowFault::Open) => Ok(Some(PATTERN_OPEN)),
        Err(RowFault::Wide) => Ok(Some(PATTERN_WIDE)),
        Err(RowFault::Memory) => Err(AllocError),
    }
}

// What a sound pattern means whose lines have no fault. The fault of the whole is reported.
fn whole(
    alloc: Global,
    findings: &mut Findings,
    own: &[Kind<'_>],
    pattern: &Pattern<'_>,
    lines: &[PatternLine],
) -> Result<Option<spec::Pattern>, AllocError>
    requires sound { IsSound (map kind_data own.now) (with_lines (pattern_data pattern.now) (map pattern_line_data lines.now)) }
    requires faultless { lines_faults (map kind_data own.now) (with_lines (pattern_data pattern.now) (map pattern_line_data lines.now)) ≡ [] }
    ensures found { OnOk result (found_in findings.new ≡ with_faults (found_in findings.old) (table_faults pattern.now.name.at (pattern_of (map kind_data own.now) (with_lines (pattern_data pattern.now) (map pattern_line_data lines.now))))) }
    ensures meant { IfOk result (λ made. option_map model_data made ≡ unless (table_fault_lem (pattern_of (map kind_data own.now) (with_lines (pattern_data pattern.now) (map pattern_line_data lines.now)))) (pattern_of (map kind_data own.now) (with_lines (pattern_data pattern.now) (map pattern_line_data lines.now)))) }
{
    if pattern.params > MAX_PARAMS {
        findings.report(PATTERN_WIDE, pattern.name.at);
        return Ok(None);
    }
    let made = made_of(alloc, own, pattern, lines)?;
    match table_fault(alloc, &made)? {
        Some(number) => {
            findings.report(number, pattern.name.at);
            Ok(None)
        }
        None => Ok(Some(made)),
    }
}

/// What a pattern with these lines, in which everything is put in, means, where it has no fault. `own` has the kinds of its own variables; `sound` says that its names and the
/// types of its own variables have no fault, so that it is sound where its lines have none. Its faults are reported. The error is that memory is short.
pub fn pattern(
    alloc: Global,
    findings: &mut Findings,
    sound: bool,
    own: &[Kind<'_>],
    pattern: &Pattern<'_>,
    lines: &[PatternLine],
) -> Result<Option<spec::Pattern>, AllocError>
    requires sound { sound ≡ true → lines_faults (map kind_data own.now) (with_lines (pattern_data pattern.now) (map pattern_line_data lines.now)) ≡ [] → IsSound (map kind_data own.now) (with_lines (pattern_data pattern.now) (map pattern_line_data lines.now)) }
    ensures found { OnOk result (found_in findings.new ≡ with_faults (found_in findings.old) (pattern_faults sound (map kind_data own.now) (with_lines (pattern_data pattern.now) (map pattern_line_data lines.now)))) }
    ensures meant { IfOk result (λ made. option_map model_data made ≡ meant sound (map kind_data own.now) (with_lines (pattern_data pattern.now) (map pattern_line_data lines.now))) }
{
    match lines_fault(alloc, own, pattern.params, lines)? {
        Some(first) => {
            findings.report(first.number, first.at);
            Ok(None)
        }
        None => {
            if sound {
                whole(alloc, findings, own, pattern, lines)
            } else {
                Ok(None)
            }
        }
    }
}
