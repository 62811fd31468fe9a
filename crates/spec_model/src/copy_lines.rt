//! Copies of lines, patterns and triggers, which stand for the same data.

ghost use Rattle.std.specs.Prelude.{◌≡◌, [], ◌∷◌, map, IfOk, string_bytes, option_map};
ghost use Rattle.spec_model.specs.Around.{around};
ghost use Rattle.spec_model.specs.Views.{regular, content_data, line_data, pattern_data, trigger_data, spec_data};

use crate::copy::{copy_domains, copy_expr, copy_exprs, copy_names, copy_vars};
use crate::expr::Regex;
use crate::spec::{Body, Line, Pattern, Spec, Trigger};
use std::alloc::{AllocError, Global};

/// How often a piece is repeated.
#[derive(Clone, Copy)]
struct Times {
    low: u16,
    high: Option<u16>,
}

// A piece with one repeat more around it.
fn repeat(alloc: Global, piece: Regex, times: Times) -> Result<Regex, AllocError>
    ensures { IfOk result (λ made. regular made ≡ around (times ∷ []) (regular piece)) }
{
    Ok(Regex::Repeat(Box::new(alloc, piece)?, times.low, times.high))
}

// A piece with repeats around it, the outermost first.
fn repeated(alloc: Global, piece: Regex, repeats: Vec<Times>) -> Result<Regex, AllocError>
    ensures { IfOk result (λ made. regular made ≡ around repeats.items (regular piece)) }
{
    let mut made = piece;
    let mut left = repeats;
    'repeats: while let Some(times) = left.pop() {
        made = repeat(alloc, made, times)?;
    }
    Ok(made)
}

/// A regular expression that stands for the same one. Repeats around one another are a loop, since they nest as deep as the
/// text is long.
#[cycle(regular_copies)]
pub fn copy_regex(alloc: Global, r: &Regex) -> Result<Regex, AllocError>
    ensures { IfOk result (λ copy. regular copy ≡ regular r.now) }
{
    let mut repeats = Vec::new(alloc);
    let mut part = r;
    'repeats: loop {
        match part {
            Regex::Atom(e) => {
                let piece = Regex::Atom(copy_expr(alloc, e)?);
                return repeated(alloc, piece, repeats);
            }
            Regex::Cat(rs) => {
                let piece = Regex::Cat(copy_regexes(alloc, rs)?);
                return repeated(alloc, piece, repeats);
            }
            Regex::Alt(rs) => {
                let piece = Regex::Alt(copy_regexes(alloc, rs)?);
                return repeated(alloc, piece, repeats);
            }
            Regex::Repeat(inner, low, high) => {
                repeats.push(Times {
                    low: *low,
                    high: *high,
                })?;
                part = inner;
            }
        }
    }
}

/// Regular expressions that stand for the same ones.
#[cycle(regular_copies)]
fn copy_regexes(alloc: Global, rs: &[Regex]) -> Result<Vec<Regex>, AllocError>
    ensures { IfOk result (λ copies. map regular copies.items ≡ map regular rs.now) }
{
    let mut copies = Vec::new(alloc);
    for r in rs {
        copies.push(copy_regex(alloc, r)?)?;
    }
    Ok(copies)
}

/// A body that says the same.
pub fn copy_body(alloc: Global, body: &Body) -> Result<Body, AllocError>
    ensures { IfOk result (λ copy. content_data copy ≡ content_data body.now) }
{
    match body {
        Body::Initial(e) => Ok(Body::Initial(copy_expr(alloc, e)?)),
        Body::Safety(e) => Ok(Body::Safety(copy_expr(alloc, e)?)),
        Body::Recurring(e) => Ok(Body::Recurring(copy_expr(alloc, e)?)),
        Body::Pattern(p, arguments) => Ok(Body::Pattern(*p, copy_exprs(alloc, arguments)?)),
        Body::Trigger(t) => Ok(Body::Trigger(*t)),
    }
}

/// The same name, or none again.
fn copy_name(name: &Option<String>) -> Result<Option<String>, AllocError>
    ensures { IfOk result (λ copy. option_map string_bytes copy ≡ option_map string_bytes name.now) }
{
    match name {
        Some(text) => Ok(Some(text.clone()?)),
        None => Ok(None),
    }
}

/// A line of the same number, name, role and body.
pub fn copy_line(alloc: Global, line: &Line) -> Result<Line, AllocError>
    ensures { IfOk result (λ copy. line_data copy ≡ line_data line.now) }
{
    Ok(Line {
        number: line.number,
        name: copy_name(&line.name)?,
        role: line.role,
        body: copy_body(alloc, &line.body)?,
    })
}

/// A pattern with the same variables and lines.
pub fn copy_pattern(alloc: Global, pattern: &Pattern) -> Result<Pattern, AllocError>
    ensures { IfOk result (λ copy. pattern_data copy ≡ pattern_data pattern.now) }
{
    Ok(Pattern {
        params: pattern.params,
        domains: copy_domains(alloc, &pattern.domains)?,
        first: copy_exprs(alloc, &pattern.first)?,
        step: copy_exprs(alloc, &pattern.step)?,
        goals: copy_exprs(alloc, &pattern.goals)?,
    })
}

/// Patterns with the same variables and lines.
pub fn copy_patterns(alloc: Global, patterns: &[Pattern]) -> Result<Vec<Pattern>, AllocError>
    ensures { IfOk result (λ copies. map pattern_data copies.items ≡ map pattern_data patterns.now) }
{
    let mut copies = Vec::new(alloc);
    for pattern in patterns {
        copies.push(copy_pattern(alloc, pattern)?)?;
    }
    Ok(copies)
}

/// A trigger with the same cause and effect.
pub fn copy_trigger(alloc: Global, trigger: &Trigger) -> Result<Trigger, AllocError>
    ensures { IfOk result (λ copy. trigger_data copy ≡ trigger_data trigger.now) }
{
    Ok(Trigger {
        cause: copy_regex(alloc, &trigger.cause)?,
        effect: copy_regex(alloc, &trigger.effect)?,
    })
}

/// Triggers with the same causes and effects.
pub fn copy_triggers(alloc: Global, triggers: &[Trigger]) -> Result<Vec<Trigger>, AllocError>
    ensures { IfOk result (λ copies. map trigger_data copies.items ≡ map trigger_data triggers.now) }
{
    let mut copies = Vec::new(alloc);
    for trigger in triggers {
        copies.push(copy_trigger(alloc, trigger)?)?;
    }
    Ok(copies)
}

/// The same specification with other lines.
pub fn copy_with_lines(alloc: Global, spec: &Spec, lines: Vec<Line>) -> Result<Spec, AllocError>
    ensures { IfOk result (λ copy. spec_data copy ≡ record (spec_data spec.now) { lines = map line_data lines.items }) }
{
    Ok(Spec {
        names: copy_names(alloc, &spec.names)?,
        vars: copy_vars(alloc, &spec.vars)?,
        patterns: copy_patterns(alloc, &spec.patterns)?,
        triggers: copy_triggers(alloc, &spec.triggers)?,
        lines,
    })
}
