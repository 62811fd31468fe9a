//! The indexes whose cases stand around what is made, in text order.

ghost use Rattle.std.specs.Prelude.{◌≡◌, ◌++◌, map, IfOk, OnOk};
ghost use Rattle.spectra_resolved.specs.Chained.{chained};
ghost use Rattle.spectra_resolved.specs.Views.{resolved_data, link_data, form_data};
ghost use Rattle.spectra_judge.specs.KindViews.{known_data};
ghost use Rattle.spectra_cases.specs.Choices.{choices as choices_lem, form_choices};
ghost use Rattle.spectra_cases.specs.Wholes.{choice_data, front_choices, whole_choices, IsTop};

use crate::readings::{Reading, reading_at};
use spectra_copies::rows::before_row;
use spectra_judge::known::Known;
use spectra_resolved::tree::{Link, Resolved, Shape};
use spectra_trees::tree::BinaryWord;
use std::alloc::{AllocError, Global};

/// An index whose case stands around what is made: under a `next` or not, its array, and the index itself.
#[derive(Clone, Copy)]
pub struct Choice<'s> {
    pub under: bool,
    pub first: usize,
    pub count: usize,
    pub index: &'s Resolved,
}

/// What is made with the cases of its indexes around it: an expression with operators behind it, a comparison of such a one with
/// another expression, or that an expression is a number.
#[derive(Clone, Copy)]
pub enum Whole<'s> {
    Row(&'s Resolved, &'s [Link]),
    Comparison(BinaryWord, &'s Resolved, &'s [Link], &'s Resolved),
    Equation(bool, &'s Resolved, usize),
}

// ---- the indexes whose cases stand around

// An index of an array of so many elements, the first of which has this number.
fn choice_of<'s>(under: bool, first: usize, count: usize, index: &'s Resolved) -> Choice<'s>
    ensures { choice_data result ≡ record { under = under; first = first; count = count; index = resolved_data index.now } }
{
    Choice {
        under,
        first,
        count,
        index,
    }
}

// Adds those of an expression in text order.
#[cycle(gathering)]
fn gather<'s>(
    known: &Known<'_, '_>,
    choices: &mut Vec<Choice<'s>>,
    under: bool,
    t: &'s Resolved,
) -> Result<(), AllocError>
    ensures { OnOk result (map choice_data choices.new.items ≡ map choice_data choices.old.items ++ choices_lem (known_data known.now) (resolved_data t.now) under) }
{
    match t {
        Resolved::Chain(head, links) => gather_row(known, choices, under, head, links),
        Resolved::Node(_, _, shape) => gather_shape(known, choices, under, shape),
    }
}

// Adds those of an expression with operators behind it: of the row at their end.
#[cycle(gathering)]
fn gather_row<'s>(
    known: &Known<'_, '_>,
    choices: &mut Vec<Choice<'s>>,
    under: bool,
    head: &'s Resolved,
    links: &'s [Link],
) -> Result<(), AllocError>
    ensures { OnOk result (map choice_data choices.new.items ≡ map choice_data choices.old.items ++ choices_lem (known_data known.now) (chained (resolved_data head.now) (map link_data links.now)) under) }
{
    let before = before_row(links);
    gather_front(known, choices, under, before, head)?;
    let row = &links[before..];
    for link in row {
        gather(known, choices, under, &link.second)?;
    }
    Ok(())
}

// Adds those of the first operand, where no operator stands before the row.
#[cycle(gathering)]
fn gather_front<'s>(
    known: &Known<'_, '_>,
    choices: &mut Vec<Choice<'s>>,
    under: bool,
    before: usize,
    head: &'s Resolved,
) -> Result<(), AllocError>
    ensures { OnOk result (map choice_data choices.new.items ≡ map choice_data choices.old.items ++ front_choices (known_data known.now) before (resolved_data head.now) under) }
{
    if before == 0 {
        return gather(known, choices, under, head);
    }
    Ok(())
}

// Adds those of what stands at a place.
#[cycle(gathering)]
fn gather_shape<'s>(
    known: &Known<'_, '_>,
    choices: &mut Vec<Choice<'s>>,
    under: bool,
    shape: &'s Shape,
) -> Result<(), AllocError>
    ensures { OnOk result (map choice_data choices.new.items ≡ map choice_data choices.old.items ++ form_choices (known_data known.now) (form_data shape.now) under) }
{
    match shape {
        Shape::Next(t) => gather(known, choices, true, t),
        Shape::Mod(t, _, _) => gather(known, choices, under, t),
        Shape::Index(first, count, index) => match reading_at(known, *first, *count, index)? {
            Reading::Outside => {
                choices.push(choice_of(under, *first, *count, index))?;
                Ok(())
            }
            Reading::One(_) => Ok(()),
            Reading::Here => Ok(()),
        },
        Shape::Leaf(_) => Ok(()),
        Shape::Predicate(_, _) => Ok(()),
        Shape::Misuse(_, _) => Ok(()),
        Shape::Prefix(_, _) => Ok(()),
        Shape::And(_, _) => Ok(()),
        Shape::Or(_, _) => Ok(()),
        Shape::Quantified(_, _, _, _, _, _) => Ok(()),
    }
}

// Those of what is made.
pub fn choices_of<'s>(
    alloc: Global,
    known: &Known<'_, '_>,
    whole: Whole<'s>,
) -> Result<Vec<Choice<'s>>, AllocError>
    ensures { IfOk result (λ choices. map choice_data choices.items ≡ whole_choices (known_data known.now) whole.entry) }
{
    let mut choices = Vec::new(alloc);
    match whole {
        Whole::Row(head, links) => gather_row(known, &mut choices, false, head, links)?,
        Whole::Comparison(_, head, links, second) => {
            gather_row(known, &mut choices, false, head, links)?;
            gather(known, &mut choices, false, second)?;
        }
        Whole::Equation(under, t, _) => gather(known, &mut choices, under, t)?,
    }
    Ok(choices)
}

/// What an expression is outermost: operators, one at least, behind a first operand; or what stands at a place.
#[derive(Clone, Copy)]
pub enum Top<'s> {
    Row(&'s Resolved, &'s [Link]),
    Place(&'s Shape),
}

/// What an expression is outermost.
pub fn top_of<'s>(t: &'s Resolved) -> Top<'s>
    ensures { IsTop (resolved_data t.now) result }
{
    match t {
        Resolved::Chain(head, links) => {
            if links.is_empty() {
                top_of(head)
            } else {
                Top::Row(head, links)
            }
        }
        Resolved::Node(_, _, shape) => Top::Place(shape),
    }
}
