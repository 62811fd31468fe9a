//! What the types in a text stand for.

ghost use Rattle.std.specs.Prelude.{◌≡◌, map, length, IfOk, ◌++◌, flat_map, replicate, OnOk};
ghost use Rattle.spectra_uses.specs.Cycles.{AreOnCycle};
ghost use Rattle.spectra_uses.specs.Orders.{IsOrderOf};
ghost use Rattle.spectra_resolved.specs.Texts.{ResolvedVariable, ResolvedDefinition};
ghost use Rattle.spectra_resolved.specs.TextViews.{type_data, alias_data, variable_data, definition_data, text_data};
ghost use Rattle.spectra_judge.specs.KindViews.{kind_data};
ghost use Rattle.spectra_uses.specs.Uses.{all_uses};
ghost use Rattle.spectra_bounds.specs.Types.{type_kind as type_kind_lem};
ghost use Rattle.spectra_bounds.specs.TypeViews.{constants_data};
ghost use Rattle.spectra_notes.specs.TypeKinds.{is_of_system as is_of_system_lem, type_kinds as type_kinds_lem};
ghost use Rattle.spectra_notes.specs.NoteViews.{type_kinds_data};

use spec_model::value::Owner;
use spectra_bounds::constants::{Constants, constants_of};
use spectra_bounds::types::type_kind;
use spectra_judge::kind::Kind;
use spectra_resolved::text::{Alias, Definition, Text, TypeUse, Variable};
use spectra_uses::order::Order;
use std::alloc::{AllocError, Global};

/// What bounds have of a text's definitions; the kinds of its variables, and which of them are the system's; and for each
/// definition the kinds of its parameters. All are listed by number.
#[derive(Drop)]
pub struct TypeKinds<'a> {
    pub constants: Constants<'a>,
    pub variables: Vec<Kind<'a>>,
    pub system: Vec<bool>,
    pub predicates: Vec<Vec<Kind<'a>>>,
}

#[tactic(auto, using(spectra_resolved::proofs::Mapped::pushed))]
/// What several types stand for.
pub fn kinds_of<'a>(
    alloc: Global,
    constants: &Constants<'_>,
    types: &'a [Alias<'_>],
    ts: &'a [TypeUse],
) -> Result<Vec<Kind<'a>>, AllocError>
    ensures { IfOk result (λ kinds. map kind_data kinds.items ≡ map (type_kind_lem (constants_data constants.now) (map alias_data types.now)) (map type_data ts.now)) }
{
    let mut kinds = Vec::new(alloc);
    for t in ts {
        kinds.push(type_kind(constants, types, t))?;
    }
    Ok(kinds)
}

// Puts a kind behind others, for each of so many elements.
fn add_kinds<'a>(all: &mut Vec<Kind<'a>>, kind: Kind<'a>, count: usize) -> Result<(), AllocError>
    ensures { OnOk result (map kind_data all.new.items ≡ map kind_data all.old.items ++ replicate count (kind_data kind.entry)) }
{
    for _element in 0..count {
        all.push(kind)?;
    }
    Ok(())
}

// Puts a mark behind others, for each of so many elements.
fn add_marks(all: &mut Vec<bool>, mark: bool, count: usize) -> Result<(), AllocError>
    ensures { OnOk result (all.new.items ≡ all.old.items ++ replicate count mark) }
{
    for _element in 0..count {
        all.push(mark)?;
    }
    Ok(())
}

// What the variables' types stand for, one for each element of an array.
fn variable_kinds<'a>(
    alloc: Global,
    constants: &Constants<'_>,
    types: &'a [Alias<'_>],
    variables: &'a [Variable<'_>],
) -> Result<Vec<Kind<'a>>, AllocError>
    ensures { IfOk result (λ kinds. map kind_data kinds.items
        ≡ flat_map (λ (v : ResolvedVariable). replicate v.count (type_kind_lem (constants_data constants.now) (map alias_data types.now) v.domain)) (map variable_data variables.now)) }
{
    let mut kinds = Vec::new(alloc);
    for variable in variables {
        let kind = type_kind(constants, types, &variable.domain);
        add_kinds(&mut kinds, kind, variable.count)?;
    }
    Ok(kinds)
}

// Whether an owner is the system.
fn is_of_system(owner: Owner) -> bool
    ensures { result ≡ is_of_system_lem owner }
{
    match owner {
        Owner::Sys => true,
        Owner::Env => false,
    }
}

// Which variables are the system's.
fn system(alloc: Global, variables: &[Variable<'_>]) -> Result<Vec<bool>, AllocError>
    ensures { IfOk result (λ all. all.items ≡ flat_map (λ (v : ResolvedVariable). replicate v.count (is_of_system_lem v.owner)) (map variable_data variables.now)) }
{
    let mut all = Vec::new(alloc);
    for variable in variables {
        add_marks(&mut all, is_of_system(variable.owner), variable.count)?;
    }
    Ok(all)
}

#[tactic(auto, using(spectra_resolved::proofs::Mapped::pushed))]
// What the types of each definition's parameters stand for.
fn predicate_kinds<'a>(
    alloc: Global,
    constants: &Constants<'_>,
    types: &'a [Alias<'_>],
    definitions: &'a [Definition<'_>],
) -> Result<Vec<Vec<Kind<'a>>>, AllocError>
    ensures { IfOk result (λ all. map (λ ks. map kind_data ks.items) all.items
        ≡ map (λ (d : ResolvedDefinition). map (type_kind_lem (constants_data constants.now) (map alias_data types.now)) d.params) (map definition_data definitions.now)) }
{
    let mut all = Vec::new(alloc);
    for definition in definitions {
        all.push(kinds_of(alloc, constants, types, &definition.params)?)?;
    }
    Ok(all)
}

/// What the types in a text stand for. `order` is that of its definitions. The error is that memory is short.
pub fn type_kinds<'a>(
    alloc: Global,
    text: &'a Text<'_>,
    order: &Order,
) -> Result<TypeKinds<'a>, AllocError>
    requires order { IsOrderOf (all_uses (text_data text.now).definitions) (length text.now.definitions.items) order.now.numbers.items }
    requires on_cycle { AreOnCycle (all_uses (text_data text.now).definitions) (length text.now.definitions.items) order.now.on_cycle.items }
    ensures { IfOk result (λ kinds. type_kinds_data kinds ≡ type_kinds_lem (text_data text.now)) }
{
    let constants = constants_of(alloc, &text.definitions, order)?;
    let variables = variable_kinds(alloc, &constants, &text.types, &text.variables)?;
    let system = system(alloc, &text.variables)?;
    let predicates = predicate_kinds(alloc, &constants, &text.types, &text.definitions)?;
    Ok(TypeKinds {
        constants,
        variables,
        system,
        predicates,
    })
}
