//! The domains of kinds.

ghost use Rattle.std.specs.Prelude.{◌≡◌, true, IfOk, All, ◌<◌, ◌^◌};
ghost use Rattle.spec_model.specs.Views.{domain_data};
ghost use Rattle.spectra_judge.specs.KindViews.{kind_data};
ghost use Rattle.spectra_patterns.specs.Patterns.{domain_of as domain_of_lem};
ghost use Rattle.spectra_patterns.specs.SoundPatterns.{is_type_kind};

use spec_model::value::Domain;
use spectra_judge::kind::Kind;
use std::alloc::{AllocError, Global};

// Names by their numbers.
fn numbers(alloc: Global, names: &[usize]) -> Result<Vec<u16>, AllocError>
    requires room { All (λ n. n < 2 ^ 16) names.now }
    ensures { IfOk result (λ made. made.items ≡ names.now) }
{
    let mut made = Vec::new(alloc);
    for name in names {
        made.push(*name as u16)?;
    }
    Ok(made)
}

#[tactic(auto, using(crate::proofs::Whole::names_room))]
/// The domain of a variable of a kind.
pub fn domain_of(alloc: Global, kind: Kind<'_>) -> Result<Domain, AllocError>
    requires room { is_type_kind 65_536 (kind_data kind) ≡ true }
    ensures { IfOk result (λ made. domain_data made ≡ domain_of_lem (kind_data kind.entry)) }
{
    match kind {
        Kind::Truth => Ok(Domain::Boolean),
        Kind::Whole(lo, hi) => Ok(Domain::Range { lo, hi }),
        Kind::NameOf(names) => Ok(Domain::Names(numbers(alloc, names)?)),
        Kind::SomeWhole => Ok(Domain::Boolean),
        Kind::OneName(_) => Ok(Domain::Boolean),
        Kind::Anything => Ok(Domain::Boolean),
    }
}
