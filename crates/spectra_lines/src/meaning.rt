//! What lines mean in a specification, in which everything is put in.

ghost use Rattle.std.specs.Prelude.{◌≡◌, ◌++◌, ◌∷◌, [], suc, ℕ, length, map, option_map, string_bytes, IfOk, OnOk};
ghost use Rattle.spec_model.specs.Views.{formula, content_data, line_data as model_line, trigger_data};
ghost use Rattle.spectra_resolved.specs.Views.{resolved_data};
ghost use Rattle.spectra_resolved.specs.TextViews.{body_data, line_data};
ghost use Rattle.spectra_judge.specs.KindViews.{known_data};
ghost use Rattle.spectra_cases.specs.Formulas.{formula_of};
ghost use Rattle.spectra_lines.specs.Meanings.{pattern_number as pattern_number_lem, triggers_in, content_of, statement_of, statements as statements_lem, triggers as triggers_lem};

use spec_model::expr::Expr;
use spec_model::spec;
use spec_model::spec::Trigger;
use spectra_cases::making::{Making, formula as formula_made};
use spectra_judge::known::Known;
use spectra_patterns::triggers::trigger_of;
use spectra_resolved::text::{Body, Line, PatternUse};
use spectra_resolved::tree::Resolved;
use std::alloc::{AllocError, Global};

/// The statements that lines mean, and the triggers among them.
#[derive(Drop)]
pub struct Stated {
    pub lines: Vec<spec::Line>,
    pub triggers: Vec<Trigger>,
}

// A number of 32 bits. No text has one past these.
fn small(number: usize) -> Result<u32, AllocError>
    ensures { IfOk result (λ n. n ≡ number) }
{
    if number > 4_294_967_295 {
        return Err(AllocError);
    }
    Ok(number as u32)
}

// The number of the pattern that is used.
fn pattern_number(used: PatternUse) -> usize
    ensures { result ≡ pattern_number_lem used }
{
    match used {
        PatternUse::Pattern(number) => number,
        PatternUse::Unknown => 0,
        PatternUse::Arity(number) => number,
    }
}

// The formulas of a pattern's arguments.
fn formulas(by: &Making<'_, '_>, ts: &[Resolved]) -> Result<Vec<Expr>, AllocError>
    ensures { IfOk result (λ es. map formula es.items ≡ map (formula_of (known_data by.now.known) by.now.params) (map resolved_data ts.now)) }
{
    let mut es = Vec::new(by.alloc);
    for t in ts {
        es.push(formula_made(by, t)?)?;
    }
    Ok(es)
}

// What a line says, where so many triggers stand before it.
fn content(by: &Making<'_, '_>, triggers: usize, body: &Body) -> Result<spec::Body, AllocError>
    requires line { by.now.params ≡ 0 }
    ensures { IfOk result (λ made. content_data made ≡ content_of (known_data by.now.known) triggers (body_data body.now)) }
{
    match body {
        Body::Initial(t) => Ok(spec::Body::Initial(formula_made(by, t)?)),
        Body::Safety(t) => Ok(spec::Body::Safety(formula_made(by, t)?)),
        Body::Recurring(t) => Ok(spec::Body::Recurring(formula_made(by, t)?)),
        Body::Trigger(_, _, _) => Ok(spec::Body::Trigger(small(triggers)?)),
        Body::Pattern(_, used, arguments) => {
            let number = small(pattern_number(*used))?;
            Ok(spec::Body::Pattern(number, formulas(by, arguments)?))
        }
    }
}

// Puts the trigger that a line is behind others.
fn add_trigger(
    by: &Making<'_, '_>,
    triggers: &mut Vec<Trigger>,
    body: &Body,
) -> Result<(), AllocError>
    ensures { OnOk result (map trigger_data triggers.new.items ≡ map trigger_data triggers.old.items ++ triggers_in (known_data by.now.known) (body_data body.now)) }
{
    match body {
        Body::Trigger(_, cause, effect) => triggers.push(trigger_of(
            by.alloc, &by.known, cause, effect,
        )?)?,
        Body::Initial(_) => {}
        Body::Safety(_) => {}
        Body::Recurring(_) => {}
        Body::Pattern(_, _, _) => {}
    }
    Ok(())
}

// A line's name.
fn named(alloc: Global, name: Option<&str>) -> Result<Option<String>, AllocError>
    ensures { IfOk result (λ made. option_map string_bytes made ≡ option_map (λ text. text.now) name.entry) }
{
    match name {
        Some(text) => Ok(Some(String::from_str(alloc, text)?)),
        None => Ok(None),
    }
}

// Puts the statement that a line means behind others.
fn add_statement(
    by: &Making<'_, '_>,
    stated: &mut Stated,
    line: &Line<'_>,
) -> Result<(), AllocError>
    requires line { by.now.params ≡ 0 }
    ensures lines { OnOk result (map model_line stated.new.lines.items
        ≡ map model_line stated.old.lines.items ++ statement_of (known_data by.now.known) (suc (length stated.old.lines.items)) (length stated.old.triggers.items) (line_data line.now) ∷ []) }
    ensures triggers { OnOk result (map trigger_data stated.new.triggers.items ≡ map trigger_data stated.old.triggers.items ++ triggers_in (known_data by.now.known) (line_data line.now).body) }
{
    let number = small(stated.lines.len())?;
    if number == u32::MAX {
        return Err(AllocError);
    }
    let body = content(by, stated.triggers.len(), &line.body)?;
    let name = named(by.alloc, line.name)?;
    stated.lines.push(spec::Line {
        number: number + 1,
        name,
        role: line.role,
        body,
    })?;
    add_trigger(by, &mut stated.triggers, &line.body)
}

/// The statements that lines mean, numbered from 1, and the triggers among them. The error is that memory is short.
pub fn statements(
    alloc: Global,
    known: &Known<'_, '_>,
    lines: &[Line<'_>],
) -> Result<Stated, AllocError>
    ensures lines { IfOk result (λ stated. map model_line stated.lines.items ≡ statements_lem (known_data known.now) (map line_data lines.now)) }
    ensures triggers { IfOk result (λ stated. map trigger_data stated.triggers.items ≡ triggers_lem (known_data known.now) (map line_data lines.now)) }
{
    let by = Making {
        alloc,
        known: *known,
        params: 0,
    };
    let mut stated = Stated {
        lines: Vec::new(alloc),
        triggers: Vec::new(alloc),
    };
    for line in lines {
        add_statement(&by, &mut stated, line)?;
    }
    Ok(stated)
}
