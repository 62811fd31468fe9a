//! What may not stand in an expression, by where it stands, and of which kind it is to be.

ghost use Rattle.std.specs.Prelude.{◌≡◌};
ghost use Rattle.spectra_judge.specs.KindViews.{kind_data};
ghost use Rattle.spectra_judge.specs.Standings.{no_bans as no_bans_lem, bans_of as bans_of_lem, is_wanted as is_wanted_lem};

use crate::kind::{Kind, is_truth, is_whole};
use spectra_resolved::stand::Stand;

/// What may not stand in an expression. Of the last three, two speak of what is read under a `next`, and one of a parameter in
/// the bounds of a quantifier.
#[derive(Clone, Copy)]
pub struct Bans {
    pub next: bool,
    pub past: bool,
    pub variable: bool,
    pub parameter: bool,
    pub system: bool,
    pub shifted_system: bool,
    pub shifted_parameter: bool,
    pub bound_parameter: bool,
}

// Nothing is banned.
fn no_bans() -> Bans
    ensures { result ≡ no_bans_lem }
{
    Bans {
        next: false,
        past: false,
        variable: false,
        parameter: false,
        system: false,
        shifted_system: false,
        shifted_parameter: false,
        bound_parameter: false,
    }
}

/// What may not stand in an expression that stands there.
pub fn bans_of(stand: Stand) -> Bans
    ensures { result ≡ bans_of_lem stand }
{
    let mut bans = no_bans();
    match stand {
        Stand::InitialAssumption => {
            bans.next = true;
            bans.system = true;
        }
        Stand::InitialGuarantee => bans.next = true,
        Stand::SafetyAssumption => bans.shifted_system = true,
        Stand::SafetyGuarantee => {}
        Stand::Recurring => bans.next = true,
        Stand::Atom => bans.next = true,
        Stand::Argument => bans.next = true,
        Stand::Bound => {
            bans.next = true;
            bans.variable = true;
        }
        Stand::PatternInitial => {
            bans.next = true;
            bans.past = true;
            bans.parameter = true;
            bans.bound_parameter = true;
        }
        Stand::PatternSafety => {
            bans.past = true;
            bans.shifted_parameter = true;
            bans.bound_parameter = true;
        }
        Stand::PatternRecurring => {
            bans.next = true;
            bans.past = true;
            bans.bound_parameter = true;
        }
        Stand::Define => {}
        Stand::Predicate => {}
    }
    bans
}

/// Whether an expression that stands there may be of a kind.
pub fn is_wanted(stand: Stand, kind: Kind<'_>) -> bool
    ensures { result ≡ is_wanted_lem stand (kind_data kind.entry) }
{
    match stand {
        Stand::Bound => is_whole(kind),
        Stand::Define => true,
        _ => is_truth(kind),
    }
}
