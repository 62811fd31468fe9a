//! What is put in.

ghost use Rattle.std.specs.Prelude.{◌≡◌, option_map};
ghost use Rattle.spectra_resolved.specs.Views.{resolved_data, form_data};
ghost use Rattle.spectra_copies.specs.PartViews.{quantifier_data};
ghost use Rattle.spectra_elaboration.specs.Following.{quantified_of};
ghost use Rattle.spectra_elaboration.specs.Putting.{misuse_hole as misuse_hole_lem, body_of as body_of_lem};
ghost use Rattle.spectra_elaboration.specs.PuttingViews.{bodies_data};

use spectra_copies::parts::{Quantifier, quantifier_of};
use spectra_resolved::tree::{Hole, Misuse, Resolved, Shape};

/// What stands for a misused name.
pub fn misuse_hole(misuse: Misuse) -> Hole
    ensures { result ≡ misuse_hole_lem misuse }
{
    match misuse {
        Misuse::Arity(_) => Hole::Truth,
        Misuse::Unknown => Hole::Anything,
        Misuse::Bare(_) => Hole::Anything,
        Misuse::Called(_) => Hole::Anything,
    }
}

/// The body of a definition that has a meaning.
pub fn body_of<'s>(bodies: &'s [Option<Resolved>], number: usize) -> Option<&'s Resolved>
    ensures { option_map (λ body. resolved_data body.now) result ≡ body_of_lem (bodies_data bodies.now) number }
{
    match bodies.get(number) {
        Some(Some(body)) => Some(body),
        Some(None) => None,
        None => None,
    }
}

/// A quantifier, where an operator is one.
pub fn quantifier_in<'s>(shape: &'s Shape) -> Option<Quantifier<'s>>
    ensures { option_map quantifier_data result ≡ quantified_of (form_data shape.now) }
{
    match shape {
        Shape::Quantified(word, variable, extent, low, high, copies) => {
            Some(quantifier_of(*word, *variable, *extent, low, high, copies))
        }
        Shape::Leaf(_) => None,
        Shape::Predicate(_, _) => None,
        Shape::Misuse(_, _) => None,
        Shape::Next(_) => None,
        Shape::Prefix(_, _) => None,
        Shape::Mod(_, _, _) => None,
        Shape::And(_, _) => None,
        Shape::Or(_, _) => None,
        Shape::Index(_, _, _) => None,
    }
}
