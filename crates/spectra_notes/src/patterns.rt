//! What is known of the names in a pattern.

ghost use Rattle.std.specs.Prelude.{◌≡◌, map, replicate, IfOk};
ghost use Rattle.spectra_resolved.specs.TextViews.{pattern_data, text_data};
ghost use Rattle.spectra_judge.specs.Kinds.{Truth};
ghost use Rattle.spectra_judge.specs.KindViews.{kind_data, known_data};
ghost use Rattle.spectra_notes.specs.TypeKinds.{kind_in, known_by as known_by_lem};
ghost use Rattle.spectra_notes.specs.Notes.{noted};
ghost use Rattle.spectra_notes.specs.NoteViews.{notes_data};

use crate::kinds::kinds_of;
use crate::notes::{Notes, known_in_line, with_parameters};
use spectra_judge::kind::Kind;
use spectra_judge::known::Known;
use spectra_resolved::text::{Pattern, Text};
use std::alloc::{AllocError, Global};

/// The kinds of a pattern's parameters, which are truth values, and of its own variables.
#[derive(Drop)]
pub struct PatternKinds<'a> {
    pub parameters: Vec<Kind<'a>>,
    pub own: Vec<Kind<'a>>,
}

#[tactic(auto, using(spectra_resolved::proofs::Mapped::pushed, std::proofs::lemmas::List::replicate_more))]
// The kinds of so many parameters.
fn truths<'a>(alloc: Global, count: usize) -> Result<Vec<Kind<'a>>, AllocError>
    ensures { IfOk result (λ kinds. map kind_data kinds.items ≡ replicate count Truth) }
{
    let mut kinds = Vec::new(alloc);
    for _place in 0..count {
        kinds.push(Kind::Truth)?;
    }
    Ok(kinds)
}

/// The kinds of a pattern's parameters and own variables. The error is that memory is short.
pub fn pattern_kinds<'a>(
    alloc: Global,
    notes: &Notes<'a>,
    text: &'a Text<'_>,
    pattern: &'a Pattern<'_>,
) -> Result<PatternKinds<'a>, AllocError>
    requires notes { notes_data notes.now ≡ noted (text_data text.now) }
    ensures parameters { IfOk result (λ kinds. map kind_data kinds.parameters.items ≡ replicate pattern.now.params Truth) }
    ensures own { IfOk result (λ kinds. map kind_data kinds.own.items ≡ map (kind_in (text_data text.now)) (pattern_data pattern.now).own) }
{
    let parameters = truths(alloc, pattern.params)?;
    let own = kinds_of(alloc, &notes.kinds.constants, &text.types, &pattern.own)?;
    Ok(PatternKinds { parameters, own })
}

// The same that is known of names, with the own variables around an expression.
fn with_own<'s, 'a>(known: &Known<'s, 'a>, own: &'s [Kind<'a>]) -> Known<'s, 'a>
    ensures known { known_data result ≡ record (known_data known.now) { own = map kind_data own.now } }
{
    Known {
        variables: known.variables,
        system: known.system,
        defines: known.defines,
        predicates: known.predicates,
        parameters: known.parameters,
        own,
    }
}

/// What is known of the names in a pattern, by the kinds of its parameters and own variables.
pub fn known_in_pattern<'s, 'a>(notes: &'s Notes<'a>, kinds: &'s PatternKinds<'a>) -> Known<'s, 'a>
    ensures known { known_data result ≡ known_by_lem (notes_data notes.now).kinds (notes_data notes.now).defines (map kind_data kinds.now.parameters.items) (map kind_data kinds.now.own.items) }
{
    let outside = known_in_line(notes);
    let known = with_parameters(&outside, &kinds.parameters);
    with_own(&known, &kinds.own)
}
