//! Patterns with the kinds of their own variables.

ghost use Rattle.std.specs.Prelude.{◌≡◌, nat_lt, map, IfOk};
ghost use Rattle.std.specs.List.{list_all};
ghost use Rattle.spectra_resolved.specs.TextViews.{text_data, pattern_data};
ghost use Rattle.spectra_judge.specs.PutIn.{has_room as has_room_lem};
ghost use Rattle.spectra_judge.specs.KindViews.{kind_data};
ghost use Rattle.spectra_notes.specs.TypeKinds.{type_kinds as type_kinds_lem};
ghost use Rattle.spectra_notes.specs.NoteViews.{type_kinds_data};
ghost use Rattle.spectra_lines.specs.Views.{typed_data};
ghost use Rattle.spectra_types.specs.Meanings.{typed_pattern, typed_patterns as typed_patterns_lem};

use spectra_judge::kind::Kind;
use spectra_lines::order::Typed;
use spectra_notes::kinds::{TypeKinds, kinds_of};
use spectra_resolved::text::{Pattern, Text};
use std::alloc::{AllocError, Global};

// How many numbers have 16 bits.
const NUMBERS: usize = 65_536;

// Whether the numbers of enum names have 16 bits.
fn are_short(names: &[usize]) -> bool
    ensures { result ≡ list_all (λ n. nat_lt n 65_536) names.now }
{
    for name in names {
        if *name >= NUMBERS {
            return false;
        }
    }
    true
}

// Whether a kind is that of a type whose enum names have such numbers.
fn has_room(kind: Kind<'_>) -> bool
    ensures { result ≡ has_room_lem (kind_data kind.entry) }
{
    match kind {
        Kind::Anything => false,
        Kind::NameOf(names) => are_short(names),
        _ => true,
    }
}

// Whether every kind is.
fn all_have_room(kinds: &[Kind<'_>]) -> bool
    ensures { result ≡ list_all has_room_lem (map kind_data kinds.now) }
{
    for kind in kinds {
        if !has_room(*kind) {
            return false;
        }
    }
    true
}

// A pattern of a text.
fn typed<'s, 't>(
    alloc: Global,
    kinds: &TypeKinds<'_>,
    text: &'s Text<'t>,
    pattern: &'s Pattern<'t>,
) -> Result<Typed<'s, 's, 't>, AllocError>
    requires kinds { type_kinds_data kinds.now ≡ type_kinds_lem (text_data text.now) }
    ensures { IfOk result (λ t. typed_data t ≡ typed_pattern (text_data text.now) (pattern_data pattern.now)) }
{
    let own = kinds_of(alloc, &kinds.constants, &text.types, &pattern.own)?;
    let sound = !pattern.doubled && all_have_room(&own);
    Ok(Typed {
        sound,
        own,
        pattern,
    })
}

#[tactic(auto, using(spectra_resolved::proofs::Mapped::pushed))]
/// The patterns of a text, each with the kinds of its own variables. The error is that memory is short.
pub fn typed_patterns<'s, 't>(
    alloc: Global,
    kinds: &TypeKinds<'_>,
    text: &'s Text<'t>,
) -> Result<Vec<Typed<'s, 's, 't>>, AllocError>
    requires kinds { type_kinds_data kinds.now ≡ type_kinds_lem (text_data text.now) }
    ensures { IfOk result (λ all. map typed_data all.items ≡ typed_patterns_lem (text_data text.now)) }
{
    let mut all = Vec::new(alloc);
    for pattern in &text.patterns {
        all.push(typed(alloc, kinds, text, pattern)?)?;
    }
    Ok(all)
}
