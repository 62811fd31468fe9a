//! The lines and patterns of a text in text order.

ghost use Rattle.std.specs.Prelude.{◌≡◌, ◌≤◌, ◌++◌, map, take, drop, length, IfOk, OnOk};
ghost use Rattle.spectra_resolved.specs.TextViews.{line_data};
ghost use Rattle.spectra_lines.specs.Parts.{leading as leading_lem, in_text_order as in_text_order_lem, PatternPart};
ghost use Rattle.spectra_lines.specs.Views.{typed_data, part_data};

use spectra_judge::around::comes_before;
use spectra_judge::kind::Kind;
use spectra_resolved::spot::Spot;
use spectra_resolved::text::{Line, Pattern};
use std::alloc::{AllocError, Global};

/// A pattern with the kinds of its own variables. `sound` says that its names and the types of its own variables have no
/// fault.
#[derive(Drop)]
pub struct Typed<'s, 'a, 't> {
    pub sound: bool,
    pub own: Vec<Kind<'a>>,
    pub pattern: &'s Pattern<'t>,
}

/// A line or a pattern of a text.
#[derive(Clone, Copy)]
pub enum Part<'s, 'a, 't> {
    Line(&'s Line<'t>),
    Pattern(&'s Typed<'s, 'a, 't>),
}

// How many of these patterns come before a place.
fn leading(patterns: &[Typed<'_, '_, '_>], at: Spot) -> usize
    ensures within { result ≤ length patterns.now }
    ensures count { result ≡ leading_lem at (map typed_data patterns.now) }
{
    let mut count = 0;
    for typed in patterns {
        if !comes_before(typed.pattern.name.at, at) {
            return count;
        }
        count += 1;
    }
    count
}

// Puts patterns behind other parts.
fn add_patterns<'s, 'a, 't>(
    parts: &mut Vec<Part<'s, 'a, 't>>,
    patterns: &'s [Typed<'s, 'a, 't>],
) -> Result<(), AllocError>
    ensures { OnOk result (map part_data parts.new.items ≡ map part_data parts.old.items ++ map PatternPart (map typed_data patterns.now)) }
{
    for typed in patterns {
        parts.push(Part::Pattern(typed))?;
    }
    Ok(())
}

// Puts those patterns from a number on that come before a place behind other parts, and gives the number of the next one.
fn add_before<'s, 'a, 't>(
    parts: &mut Vec<Part<'s, 'a, 't>>,
    patterns: &'s [Typed<'s, 'a, 't>],
    next: usize,
    at: Spot,
) -> Result<usize, AllocError>
    requires within { next ≤ length patterns.now }
    ensures within { IfOk result (λ n. n ≤ length patterns.now) }
    ensures left { IfOk result (λ n. map typed_data (drop n patterns.now) ≡ drop (leading_lem at (map typed_data (drop next patterns.now))) (map typed_data (drop next patterns.now))) }
    ensures put { OnOk result (map part_data parts.new.items ≡ map part_data parts.old.items
        ++ map PatternPart (take (leading_lem at (map typed_data (drop next patterns.now))) (map typed_data (drop next patterns.now)))) }
{
    let left = &patterns[next..];
    let count = leading(left, at);
    add_patterns(parts, &left[..count])?;
    Ok(next + count)
}

/// The lines and patterns of a text in text order: before each line stand the patterns that come before it. The error is that
/// memory is short.
pub fn in_text_order<'s, 'a, 't>(
    alloc: Global,
    patterns: &'s [Typed<'s, 'a, 't>],
    lines: &'s [Line<'t>],
) -> Result<Vec<Part<'s, 'a, 't>>, AllocError>
    ensures { IfOk result (λ parts. map part_data parts.items ≡ in_text_order_lem (map typed_data patterns.now) (map line_data lines.now)) }
{
    let mut parts = Vec::new(alloc);
    let mut next = 0;
    for line in lines {
        next = add_before(&mut parts, patterns, next, line.at)?;
        parts.push(Part::Line(line))?;
    }
    add_patterns(&mut parts, &patterns[next..])?;
    Ok(parts)
}
