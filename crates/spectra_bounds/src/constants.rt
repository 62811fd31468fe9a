//! What bounds have of defines.

ghost use Rattle.std.specs.Prelude.{◌≡◌, map, length, if◌then◌else◌, is_some, None, IfOk};
ghost use Rattle.spectra_uses.specs.Cycles.{AreOnCycle};
ghost use Rattle.spectra_uses.specs.Orders.{IsOrderOf};
ghost use Rattle.spectra_resolved.specs.Views.{resolved_data};
ghost use Rattle.spectra_resolved.specs.TextViews.{definition_data};
ghost use Rattle.spectra_judge.specs.KindViews.{kind_data, known_data};
ghost use Rattle.spectra_uses.specs.Uses.{all_uses};
ghost use Rattle.spectra_copies.specs.Numbers.{number_in as number_in_lem};
ghost use Rattle.spectra_bounds.specs.Numbers.{known_constants, no_constant, sound_number as sound_number_lem, constant_of as constant_of_lem, constants as constants_lem};
ghost use Rattle.spectra_bounds.specs.TypeViews.{constant_data, constants_data};

use spectra_copies::numbers::number_in;
use spectra_judge::judging::judge;
use spectra_judge::kind::Kind;
use spectra_judge::known::Known;
use spectra_resolved::findings::Finding;
use spectra_resolved::stand::Stand;
use spectra_resolved::text::Definition;
use spectra_resolved::tree::Resolved;
use spectra_uses::order::Order;
use std::alloc::{AllocError, Global};

/// What bounds have of the definitions, by their numbers: the number of each define that has one and no fault as it is
/// written, and its span.
#[derive(Drop)]
pub struct Constants<'a> {
    pub numbers: Vec<Option<i64>>,
    pub kinds: Vec<Kind<'a>>,
}

/// What they have of one definition.
#[derive(Clone, Copy)]
struct Constant<'a> {
    number: Option<i64>,
    kind: Kind<'a>,
}

// The number of an expression that has no fault.
fn number_if_sound(numbers: &[Option<i64>], fault: Option<Finding>, t: &Resolved) -> Option<i64>
    ensures { result ≡ (if is_some fault then None else number_in_lem numbers.now (resolved_data t.now)) }
{
    match fault {
        Some(_) => None,
        None => number_in(numbers, t),
    }
}

// What is known of the names in an expression that has a number: they are all defines.
fn known<'s, 'a>(kinds: &'s [Kind<'a>]) -> Known<'s, 'a>
    ensures known { known_data result ≡ known_constants (map kind_data kinds.now) }
{
    Known {
        variables: &[],
        system: &[],
        defines: kinds,
        predicates: &[],
        parameters: &[],
        own: &[],
    }
}

impl<'a> Constants<'a> {
    /// The number of an expression that has no fault where it stands, as it is written.
    pub fn sound_number(&self, stand: Stand, t: &Resolved) -> Option<i64>
        ensures { result ≡ sound_number_lem (constants_data self.now) stand (resolved_data t.now) }
    {
        let judged = judge(&known(&self.kinds), stand, t);
        number_if_sound(&self.numbers, judged.fault, t)
    }

    // What there is of a definition with a body, where it isn't used in it.
    fn constant_of(&self, on_cycle: bool, body: &Resolved) -> Constant<'a>
        ensures { constant_data result ≡ (if on_cycle then no_constant else constant_of_lem (constants_data self.now) (resolved_data body.now)) }
    {
        let nothing = Constant {
            number: None,
            kind: Kind::Anything,
        };
        if on_cycle {
            return nothing;
        }
        let judged = judge(&known(&self.kinds), Stand::Define, body);
        match number_if_sound(&self.numbers, judged.fault, body) {
            Some(number) => Constant {
                number: Some(number),
                kind: judged.kind,
            },
            None => nothing,
        }
    }
}

/// What bounds have of a text's definitions, which stand in their order.
pub fn constants_of<'a>(
    alloc: Global,
    definitions: &[Definition<'_>],
    order: &Order,
) -> Result<Constants<'a>, AllocError>
    requires order { IsOrderOf (all_uses (map definition_data definitions.now)) (length definitions.now) order.now.numbers.items }
    requires on_cycle { AreOnCycle (all_uses (map definition_data definitions.now)) (length definitions.now) order.now.on_cycle.items }
    ensures { IfOk result (λ constants. constants_data constants ≡ constants_lem (map definition_data definitions.now)) }
{
    let mut constants = Constants {
        numbers: vec![in alloc; None; definitions.len()]?,
        kinds: vec![in alloc; Kind::Anything; definitions.len()]?,
    };
    for k in &order.numbers {
        let made = constants.constant_of(order.on_cycle[*k], &definitions[*k].body);
        constants.numbers[*k] = made.number;
        constants.kinds[*k] = made.kind;
    }
    Ok(constants)
}
