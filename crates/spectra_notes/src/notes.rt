//! Which definitions have a meaning, and the kinds of defines.

ghost use Rattle.std.specs.Prelude.{◌≡◌, ◌<◌, Some, [], map, length, get_or, slice_get, if◌then◌else◌, IfOk};
ghost use Rattle.spectra_bounds.specs.ByUses.{is_on_cycle};
ghost use Rattle.spectra_resolved.specs.Texts.{ResolvedDefinition};
ghost use Rattle.spectra_uses.specs.Cycles.{AreOnCycle};
ghost use Rattle.spectra_uses.specs.Orders.{IsOrderOf};
ghost use Rattle.spectra_resolved.specs.TextViews.{definition_data, text_data};
ghost use Rattle.spectra_judge.specs.KindViews.{kind_data, known_data};
ghost use Rattle.spectra_uses.specs.Uses.{all_uses};
ghost use Rattle.spectra_notes.specs.TypeKinds.{type_kinds as type_kinds_lem, known_by as known_by_lem};
ghost use Rattle.spectra_notes.specs.Notes.{stand_of as stand_of_lem, no_meaning as no_meaning_lem, note_of as note_of_lem, known_inside, noted, known_in_line as known_in_line_lem};
ghost use Rattle.spectra_notes.specs.Bodies.{known_in_body as known_in_body_lem};
ghost use Rattle.spectra_notes.specs.NoteViews.{type_kinds_data, note_data, notes_data};

use crate::kinds::{TypeKinds, type_kinds};
use spectra_judge::judging::judge;
use spectra_judge::kind::Kind;
use spectra_judge::known::Known;
use spectra_resolved::stand::Stand;
use spectra_resolved::text::{Definition, DefinitionWord, Text};
use spectra_uses::order::{Order, order_of};
use std::alloc::{AllocError, Global};

/// All that is known of a text's names: what its types stand for; for each definition the kind of its uses, and whether it has
/// no meaning; and the definitions' order, with those that are used in their own bodies.
#[derive(Drop)]
pub struct Notes<'a> {
    pub kinds: TypeKinds<'a>,
    pub defines: Vec<Kind<'a>>,
    pub holes: Vec<bool>,
    pub order: Order,
}

// What is known of one definition.
#[derive(Clone, Copy)]
struct Note<'a> {
    hole: bool,
    kind: Kind<'a>,
}

/// Where the body of a definition stands.
pub fn stand_of(word: DefinitionWord) -> Stand
    ensures { result ≡ stand_of_lem word }
{
    match word {
        DefinitionWord::Define => Stand::Define,
        DefinitionWord::Predicate => Stand::Predicate,
    }
}

// What is known of the names in a line as it is written: the kinds of variables, and which of them are the system's; those of
// predicates' parameters, and of defines.
fn known_with<'s, 'a>(
    variables: &'s [Kind<'a>],
    system: &'s [bool],
    predicates: &'s [Vec<Kind<'a>>],
    defines: &'s [Kind<'a>],
) -> Known<'s, 'a>
    ensures known { known_data result ≡ record { variables = map kind_data variables.now; system = system.now; defines = map kind_data defines.now; predicates = map (λ ks. map kind_data ks.items) predicates.now; parameters = []; own = [] } }
{
    Known {
        variables,
        system,
        defines,
        predicates,
        parameters: &[],
        own: &[],
    }
}

// The same, where defines have these kinds.
fn known_by<'s, 'a>(kinds: &'s TypeKinds<'a>, defines: &'s [Kind<'a>]) -> Known<'s, 'a>
    ensures known { known_data result ≡ known_by_lem (type_kinds_data kinds.now) (map kind_data defines.now) [] [] }
{
    known_with(&kinds.variables, &kinds.system, &kinds.predicates, defines)
}

/// The same that is known of names, with the parameters around an expression.
pub fn with_parameters<'s, 'a>(known: &Known<'s, 'a>, parameters: &'s [Kind<'a>]) -> Known<'s, 'a>
    ensures known { known_data result ≡ record (known_data known.now) { parameters = map kind_data parameters.now } }
{
    Known {
        variables: known.variables,
        system: known.system,
        defines: known.defines,
        predicates: known.predicates,
        parameters,
        own: known.own,
    }
}

// The kinds of a definition's parameters, by its number.
fn parameters_of<'s, 'a>(predicates: &'s [Vec<Kind<'a>>], number: usize) -> &'s [Kind<'a>]
    ensures { map kind_data result.now ≡ get_or (map (λ ks. map kind_data ks.items) predicates.now) number [] }
{
    if number >= predicates.len() {
        return &[];
    }
    predicates[number].as_slice()
}

// What has no meaning fits everything.
fn no_meaning<'a>() -> Note<'a>
    ensures { note_data result ≡ no_meaning_lem }
{
    Note {
        hole: true,
        kind: Kind::Anything,
    }
}

// What is known of a definition, from what is known of the names in its body.
fn note_of<'a>(known: &Known<'_, 'a>, on_cycle: bool, definition: &Definition<'_>) -> Note<'a>
    ensures { note_data result ≡ (if on_cycle then no_meaning_lem else note_of_lem (known_data known.now) (definition_data definition.now)) }
{
    if on_cycle || definition.doubled {
        return no_meaning();
    }
    let judged = judge(known, stand_of(definition.word), &definition.body);
    match judged.fault {
        Some(_) => no_meaning(),
        None => Note {
            hole: false,
            kind: judged.kind,
        },
    }
}

// What is known of a numbered definition, by the kinds of the defines that it uses.
fn note_at<'a>(
    kinds: &TypeKinds<'a>,
    defines: &[Kind<'a>],
    text: &Text<'_>,
    order: &Order,
    k: usize,
) -> Note<'a>
    requires kinds { type_kinds_data kinds.now ≡ type_kinds_lem (text_data text.now) }
    requires within { k < length text.now.definitions.items }
    requires on_cycle { AreOnCycle (all_uses (text_data text.now).definitions) (length text.now.definitions.items) order.now.on_cycle.items }
    ensures { (d : ResolvedDefinition) → slice_get (text_data text.now).definitions k ≡ Some d → note_data result
        ≡ (if is_on_cycle (all_uses (text_data text.now).definitions) k then no_meaning_lem else note_of_lem (known_inside (text_data text.now) (map kind_data defines.now) d) d) }
{
    let outside = known_by(kinds, defines);
    let parameters = parameters_of(&kinds.predicates, k);
    let known = with_parameters(&outside, parameters);
    let on_cycle = order.on_cycle[k];
    let definition = &text.definitions[k];
    note_of(&known, on_cycle, definition)
}

/// What is known of the names in a line as it is written.
pub fn known_in_line<'s, 'a>(notes: &'s Notes<'a>) -> Known<'s, 'a>
    ensures known { known_data result ≡ known_in_line_lem (notes_data notes.now) }
{
    known_by(&notes.kinds, &notes.defines)
}

/// What is known of the names in the body of a definition as it is written, by its number.
pub fn known_in_body<'s, 'a>(notes: &'s Notes<'a>, number: usize) -> Known<'s, 'a>
    ensures known { known_data result ≡ known_in_body_lem (notes_data notes.now) number }
{
    let outside = known_in_line(notes);
    let parameters = parameters_of(&notes.kinds.predicates, number);
    with_parameters(&outside, parameters)
}

/// All that is known of a text's names. The error is that memory is short.
pub fn notes_of<'a>(alloc: Global, text: &'a Text<'_>) -> Result<Notes<'a>, AllocError>
    ensures noted { IfOk result (λ notes. notes_data notes ≡ noted (text_data text.now)) }
    ensures order { IfOk result (λ notes. IsOrderOf (all_uses (text_data text.now).definitions) (length text.now.definitions.items) notes.order.numbers.items) }
{
    let order = order_of(alloc, &text.definitions)?;
    let kinds = type_kinds(alloc, text, &order)?;
    noted_by(alloc, text, order, kinds)
}

// The same, by what the types stand for.
fn noted_by<'a>(
    alloc: Global,
    text: &'a Text<'_>,
    order: Order,
    kinds: TypeKinds<'a>,
) -> Result<Notes<'a>, AllocError>
    requires order { IsOrderOf (all_uses (text_data text.now).definitions) (length text.now.definitions.items) order.numbers.items }
    requires on_cycle { AreOnCycle (all_uses (text_data text.now).definitions) (length text.now.definitions.items) order.on_cycle.items }
    requires kinds { type_kinds_data kinds ≡ type_kinds_lem (text_data text.now) }
    ensures noted { IfOk result (λ notes. notes_data notes ≡ noted (text_data text.now)) }
    ensures order { IfOk result (λ notes. IsOrderOf (all_uses (text_data text.now).definitions) (length text.now.definitions.items) notes.order.numbers.items) }
{
    let count = text.definitions.len();
    let mut defines = vec![in alloc; Kind::Anything; count]?;
    let mut holes = vec![in alloc; true; count]?;
    for k in &order.numbers {
        let note = note_at(&kinds, &defines, text, &order, *k);
        defines[*k] = note.kind;
        holes[*k] = note.hole;
    }
    Ok(Notes {
        kinds,
        defines,
        holes,
        order,
    })
}
