//! What types stand for, and ranges without numbers.

ghost use Rattle.std.specs.Prelude.{◌≡◌, map, length};
ghost use Rattle.spectra_resolved.specs.Findings.{with_faults};
ghost use Rattle.spectra_resolved.specs.Reports.{found_in};
ghost use Rattle.spectra_resolved.specs.TextViews.{type_data, alias_data};
ghost use Rattle.spectra_judge.specs.KindViews.{kind_data};
ghost use Rattle.spectra_bounds.specs.Types.{is_range as is_range_lem, range_kind as range_kind_lem, meant_within, own_kind as own_kind_lem, type_kind as type_kind_lem, no_range, range_faults};
ghost use Rattle.spectra_bounds.specs.TypeViews.{constants_data};

use crate::constants::Constants;
use spectra_copies::numbers::number_in;
use spectra_judge::findings::report_if;
use spectra_judge::kind::Kind;
use spectra_resolved::findings::Findings;
use spectra_resolved::spot::Spot;
use spectra_resolved::stand::Stand;
use spectra_resolved::text::{Alias, TypeUse};
use spectra_trees::faults::WIDE_INT;

// Whether there are numbers from one to another: one at least, and 4,096 at most.
fn is_range(low: i64, high: i64) -> bool
    ensures { result ≡ is_range_lem low high }
{
    low <= high && high.saturating_sub(low) < 4096
}

// The numbers from one bound to another.
fn range_kind<'a>(low: Option<i64>, high: Option<i64>) -> Kind<'a>
    ensures { kind_data result ≡ range_kind_lem low high }
{
    match (low, high) {
        (Some(low), Some(high)) => {
            if is_range(low, high) {
                Kind::Whole(low, high)
            } else {
                Kind::Anything
            }
        }
        (_, _) => Kind::Anything,
    }
}

// What a type stands for that isn't a name.
fn own_kind<'s>(constants: &Constants<'_>, t: &'s TypeUse) -> Kind<'s>
    ensures { kind_data result ≡ own_kind_lem (constants_data constants.now) (type_data t.now) }
{
    match t {
        TypeUse::Boolean => Kind::Truth,
        TypeUse::Range(_, low, high) => {
            let low = constants.sound_number(Stand::Bound, low);
            let high = constants.sound_number(Stand::Bound, high);
            range_kind(low, high)
        }
        TypeUse::Names(names) => Kind::NameOf(names),
        TypeUse::Named(_) => Kind::Anything,
        TypeUse::Hole => Kind::Anything,
    }
}

#[tactic(auto, using(crate::proofs::Names::no_steps, crate::proofs::Names::no_type, crate::proofs::Names::one_step))]
// What a type stands for, where one name stands for another at most so often.
fn kind_within<'s>(
    steps: usize,
    constants: &Constants<'_>,
    types: &'s [Alias<'_>],
    t: &'s TypeUse,
) -> Kind<'s>
    ensures { kind_data result ≡ own_kind_lem (constants_data constants.now) (meant_within steps (map alias_data types.now) (type_data t.now)) }
{
    let mut left = steps;
    let mut meant = t;
    'names: loop {
        match meant {
            TypeUse::Named(k) => {
                if left == 0 || *k >= types.len() {
                    return Kind::Anything;
                }
                left -= 1;
                meant = &types[*k].body;
            }
            TypeUse::Boolean => return own_kind(constants, meant),
            TypeUse::Range(_, _, _) => return own_kind(constants, meant),
            TypeUse::Names(_) => return own_kind(constants, meant),
            TypeUse::Hole => return own_kind(constants, meant),
        }
    }
}

/// What a type stands for: for anything where it is faulty, where it is a name that goes round, and where a bound uses what
/// is faulty.
pub fn type_kind<'s>(constants: &Constants<'_>, types: &'s [Alias<'_>], t: &'s TypeUse) -> Kind<'s>
    ensures { kind_data result ≡ type_kind_lem (constants_data constants.now) (map alias_data types.now) (type_data t.now) }
{
    kind_within(types.len(), constants, types, t)
}

// Reports two bounds with numbers that are no range.
fn report_no_range(findings: &mut Findings, low: Option<i64>, high: Option<i64>, at: Spot)
    ensures { found_in findings.new ≡ with_faults (found_in findings.old) (no_range low high at) }
{
    match (low, high) {
        (Some(low), Some(high)) => report_if(findings, !is_range(low, high), WIDE_INT, at),
        (_, _) => {}
    }
}

/// Reports a range whose bounds have numbers, but that has no number, or more than 4,096 (14).
pub fn report_range(findings: &mut Findings, constants: &Constants<'_>, t: &TypeUse)
    ensures { found_in findings.new ≡ with_faults (found_in findings.old) (range_faults (constants_data constants.now) (type_data t.now)) }
{
    match t {
        TypeUse::Range(at, low, high) => {
            let low = number_in(&constants.numbers, low);
            let high = number_in(&constants.numbers, high);
            report_no_range(findings, low, high, *at);
        }
        _ => {}
    }
}
