//! What is known of the names in an expression.

ghost use Rattle.std.specs.Prelude.{◌≡◌, get_or, map};
ghost use Rattle.spectra_judge.specs.Kinds.{Anything};
ghost use Rattle.spectra_judge.specs.KindViews.{kind_data, known_data};
ghost use Rattle.spectra_judge.specs.Known.{is_system as is_system_lem, wanted as wanted_lem};

use crate::kind::Kind;
use crate::standing::Bans;

/// The kinds of variables, of the definitions that are defines, of the parameters of those that are predicates, and of the
/// parameters and own variables around the expression; and which variables are the system's. All are listed by number, and
/// past the end nothing is known.
#[derive(Clone, Copy)]
pub struct Known<'s, 'a> {
    pub variables: &'s [Kind<'a>],
    pub system: &'s [bool],
    pub defines: &'s [Kind<'a>],
    pub predicates: &'s [Vec<Kind<'a>>],
    pub parameters: &'s [Kind<'a>],
    pub own: &'s [Kind<'a>],
}

/// What is known of the names, and what may not stand in the expression.
#[derive(Clone, Copy)]
pub struct Setting<'s, 'a> {
    pub known: Known<'s, 'a>,
    pub bans: Bans,
}

/// The kind at a place, and one that fits everything past the end.
pub fn kind_at<'a>(kinds: &[Kind<'a>], place: usize) -> Kind<'a>
    ensures { kind_data result ≡ get_or (map kind_data kinds.now) place Anything }
{
    if place < kinds.len() {
        kinds[place]
    } else {
        Kind::Anything
    }
}

impl<'s, 'a> Known<'s, 'a> {
    /// Whether a variable is one of the system.
    pub fn is_system(&self, variable: usize) -> bool
        ensures { result ≡ is_system_lem (known_data self.now) variable }
    {
        variable < self.system.len() && self.system[variable]
    }

    /// The kind of a predicate's parameter at a place, where there is a predicate that has one, and else one that fits
    /// everything.
    pub fn wanted(&self, predicate: Option<usize>, place: usize) -> Kind<'a>
        ensures { kind_data result ≡ get_or (wanted_lem (known_data self.now) predicate) place Anything }
    {
        match predicate {
            Some(predicate) => match self.predicates.get(predicate) {
                Some(kinds) => kind_at(kinds, place),
                None => Kind::Anything,
            },
            None => Kind::Anything,
        }
    }
}
