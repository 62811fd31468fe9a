//! Lines in which everything is put in, within the room that is left for their nodes.

ghost use Rattle.std.specs.Prelude.{◌≡◌, map, option_map, Ok, Err, Some, None, true, if◌then◌else◌, IfOk, OnOk, MatchOption};
ghost use Rattle.spectra_resolved.specs.Chained.{regexes, repeated as repeated_lem};
ghost use Rattle.spectra_resolved.specs.Views.{resolved_data, regex_data};
ghost use Rattle.spectra_resolved.specs.TextViews.{body_data, pattern_line_data, line_data};
ghost use Rattle.spectra_elaboration.specs.Putting.{put_in as put_in_lem};
ghost use Rattle.spectra_patterns.specs.Patterns.{line_tree};
ghost use Rattle.spectra_lines.specs.Contents.{brackets_in, brackets_of_each, trees_in, tree_put, regex_put, each_regex_put, body_put, line_put, pattern_line_put};
ghost use Rattle.spectra_lines.specs.Limits.{fits, all_fit, room_behind, is_small};
ghost use Rattle.spectra_lines.specs.Putting.{Puts};
ghost use Rattle.spectra_lines.specs.Lines.{put_trees};
ghost use Rattle.spectra_lines.specs.Views.{facts_data};

use crate::facts::Facts;
use crate::sizes::behind_trees;
use crate::trees::{initial_stand, is_assumption, safety_stand, trees_of};
use spectra_copies::refusal::Refusal;
use spectra_elaboration::putting::put_in;
use spectra_holes::holing::holed;
use spectra_resolved::stand::Stand;
use spectra_resolved::text::{Body, Line, PatternLine};
use spectra_resolved::tree::{Regex, Resolved, Times};
use std::alloc::{AllocError, Global};

// The most nodes, and the most levels, of what is put in.
const MOST_NODES: usize = 2_000_000;

const MOST_LEVELS: usize = 512;

// What was made of an expression, where there was room.
fn made_of(made: Option<Resolved>) -> Result<Resolved, Refusal>
    ensures { MatchOption made (result ≡ Err Refusal.Large) (λ t. result ≡ Ok t) }
{
    match made {
        Some(made) => Ok(made),
        None => Err(Refusal::Large),
    }
}

// An expression with everything put in, as it is written.
fn put_written(alloc: Global, facts: &Facts<'_, '_>, t: &Resolved) -> Result<Resolved, Refusal>
    ensures { Puts (λ made. resolved_data made ≡ put_in_lem (facts_data facts.now).bodies (resolved_data t.now)) (fits (put_in_lem (facts_data facts.now).bodies (resolved_data t.now))) result }
{
    made_of(put_in(alloc, facts.definitions, MOST_NODES, MOST_LEVELS, t)?)
}

// An expression that stands somewhere, with everything put in.
fn put_tree(
    alloc: Global,
    facts: &Facts<'_, '_>,
    stand: Stand,
    t: &Resolved,
) -> Result<Resolved, Refusal>
    ensures { Puts (λ made. resolved_data made ≡ tree_put (facts_data facts.now) stand (resolved_data t.now)) (fits (tree_put (facts_data facts.now) stand (resolved_data t.now))) result }
{
    let written = holed(alloc, &facts.known, stand, t)?;
    put_written(alloc, facts, &written)
}

// ---- regular expressions

// Repeats that are the same.
fn copy_times(alloc: Global, times: &[Times]) -> Result<Vec<Times>, AllocError>
    ensures { IfOk result (λ copies. copies.items ≡ times.now) }
{
    let mut copies = Vec::new(alloc);
    for t in times {
        copies.push(*t)?;
    }
    Ok(copies)
}

#[tactic(auto, using(spectra_resolved::proofs::Trees::repeat_data))]
// A part with repeats behind it.
fn repeated(alloc: Global, part: Regex, times: &[Times]) -> Result<Regex, AllocError>
    ensures { IfOk result (λ made. regex_data made ≡ repeated_lem (regex_data part) times.now) }
{
    let repeats = copy_times(alloc, times)?;
    let part = Box::new(alloc, part)?;
    Ok(Regex::Repeat(part, repeats))
}

// A regular expression in which everything is put in.
#[cycle(putting)]
fn put_regex(alloc: Global, facts: &Facts<'_, '_>, r: &Regex) -> Result<Regex, Refusal>
    ensures { Puts (λ made. regex_data made ≡ regex_put (facts_data facts.now) (regex_data r.now)) (all_fit (brackets_in (regex_put (facts_data facts.now) (regex_data r.now)))) result }
{
    match r {
        Regex::Atom(t) => {
            let made = put_tree(alloc, facts, Stand::Atom, t)?;
            Ok(Regex::Atom(Box::new(alloc, made)?))
        }
        Regex::Cat(rs) => Ok(Regex::Cat(put_regexes(alloc, facts, rs)?)),
        Regex::Alt(rs) => Ok(Regex::Alt(put_regexes(alloc, facts, rs)?)),
        Regex::Repeat(part, times) => {
            let made = put_regex(alloc, facts, part)?;
            let whole = repeated(alloc, made, times)?;
            Ok(whole)
        }
    }
}

#[cycle(putting)]
fn put_regexes(alloc: Global, facts: &Facts<'_, '_>, rs: &[Regex]) -> Result<Vec<Regex>, Refusal>
    ensures { Puts (λ made. regexes (map regex_data made.items) ≡ each_regex_put (facts_data facts.now) (regexes (map regex_data rs.now))) (all_fit (brackets_of_each (each_regex_put (facts_data facts.now) (regexes (map regex_data rs.now))))) result }
{
    let mut made = Vec::new(alloc);
    for r in rs {
        made.push(put_regex(alloc, facts, r)?)?;
    }
    Ok(made)
}

// ---- lines

// The arguments of a pattern.
fn put_arguments(
    alloc: Global,
    facts: &Facts<'_, '_>,
    ts: &[Resolved],
) -> Result<Vec<Resolved>, Refusal>
    ensures { Puts (λ made. map resolved_data made.items ≡ map (tree_put (facts_data facts.now) Stand.Argument) (map resolved_data ts.now)) (all_fit (map (tree_put (facts_data facts.now) Stand.Argument) (map resolved_data ts.now))) result }
{
    let mut made = Vec::new(alloc);
    for t in ts {
        made.push(put_tree(alloc, facts, Stand::Argument, t)?)?;
    }
    Ok(made)
}

// What a line says, with everything put in.
fn put_body(alloc: Global, facts: &Facts<'_, '_>, asm: bool, body: &Body) -> Result<Body, Refusal>
    ensures { Puts (λ made. body_data made ≡ body_put (facts_data facts.now) asm (body_data body.now)) (all_fit (trees_in (body_put (facts_data facts.now) asm (body_data body.now)))) result }
{
    match body {
        Body::Initial(t) => {
            let made = put_tree(alloc, facts, initial_stand(asm), t)?;
            Ok(Body::Initial(made))
        }
        Body::Safety(t) => {
            let made = put_tree(alloc, facts, safety_stand(asm), t)?;
            Ok(Body::Safety(made))
        }
        Body::Recurring(t) => {
            let made = put_tree(alloc, facts, Stand::Recurring, t)?;
            Ok(Body::Recurring(made))
        }
        Body::Trigger(at, cause, effect) => {
            let cause = put_regex(alloc, facts, cause)?;
            let effect = put_regex(alloc, facts, effect)?;
            Ok(Body::Trigger(*at, cause, effect))
        }
        Body::Pattern(at, used, arguments) => {
            let arguments = put_arguments(alloc, facts, arguments)?;
            Ok(Body::Pattern(*at, *used, arguments))
        }
    }
}

// What a line says with everything put in, where there is room for what is put in.
fn body_in_room(
    alloc: Global,
    facts: &Facts<'_, '_>,
    line: &Line<'_>,
) -> Result<Option<Body>, AllocError>
    ensures { IfOk result (λ made. option_map body_data made ≡ (if all_fit (put_trees (facts_data facts.now) (line_data line.now)) then Some (line_put (facts_data facts.now) (line_data line.now)).body else None)) }
{
    match put_body(alloc, facts, is_assumption(line.role), &line.body) {
        Ok(body) => Ok(Some(body)),
        Err(Refusal::Memory) => Err(AllocError),
        Err(Refusal::Large) => Ok(None),
        Err(Refusal::Deep) => Ok(None),
    }
}

// The room that is left behind what a line says, in which everything is put in, where that isn't too large.
fn behind_body(
    alloc: Global,
    facts: &Facts<'_, '_>,
    room: u32,
    body: &Body,
) -> Result<Option<u32>, AllocError>
    ensures { IfOk result (λ left. all_fit (trees_in (body_data body.now)) ≡ true → left ≡ room_behind (facts_data facts.now).known 0 (Some room) (trees_in (body_data body.now))) }
{
    let trees = trees_of(alloc, body)?;
    let left = behind_trees(&facts.known, room, &trees)?;
    Ok(left)
}

/// A line with everything put in, unless it is too large by the room that is left for the nodes of its formulas. It takes the
/// room that it needs, and all where it is too large. The error is that memory is short.
pub fn put_line<'t>(
    alloc: Global,
    facts: &Facts<'_, '_>,
    room: &mut Option<u32>,
    line: &Line<'t>,
) -> Result<Option<Line<'t>>, AllocError>
    ensures room { OnOk result (room.new ≡ room_behind (facts_data facts.now).known 0 room.old (put_trees (facts_data facts.now) (line_data line.now))) }
    ensures made { IfOk result (λ made. option_map line_data made
        ≡ (if is_small (facts_data facts.now).known 0 room.old (put_trees (facts_data facts.now) (line_data line.now)) then Some (line_put (facts_data facts.now) (line_data line.now)) else None)) }
{
    let at_first = match *room {
        Some(left) => left,
        None => return Ok(None),
    };
    *room = None;
    let body = match body_in_room(alloc, facts, line)? {
        Some(body) => body,
        None => return Ok(None),
    };
    *room = behind_body(alloc, facts, at_first, &body)?;
    if room.is_none() {
        return Ok(None);
    }
    Ok(Some(Line {
        at: line.at,
        item: line.item,
        role: line.role,
        name: line.name,
        body,
    }))
}

// ---- lines of patterns

/// A pattern's line with everything put in, where there is room for what is put in.
pub fn put_pattern_line(
    alloc: Global,
    facts: &Facts<'_, '_>,
    line: &PatternLine,
) -> Result<PatternLine, Refusal>
    ensures { Puts (λ made. pattern_line_data made ≡ pattern_line_put (facts_data facts.now) (pattern_line_data line.now)) (fits (line_tree (pattern_line_put (facts_data facts.now) (pattern_line_data line.now)))) result }
{
    match line {
        PatternLine::Initial(at, t) => Ok(PatternLine::Initial(*at, put_written(alloc, facts, t)?)),
        PatternLine::Safety(at, t) => Ok(PatternLine::Safety(*at, put_written(alloc, facts, t)?)),
        PatternLine::Recurring(at, t) => {
            Ok(PatternLine::Recurring(*at, put_written(alloc, facts, t)?))
        }
    }
}
