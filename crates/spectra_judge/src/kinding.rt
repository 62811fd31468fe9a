//! The kind of an expression, whatever is wrong with it.

ghost use Rattle.std.specs.Prelude.{◌≡◌, map};
ghost use Rattle.spectra_resolved.specs.Chained.{chained};
ghost use Rattle.spectra_resolved.specs.Views.{resolved_data, link_data, form_data};
ghost use Rattle.spectra_judge.specs.KindViews.{kind_data, known_data};
ghost use Rattle.spectra_judge.specs.Judged.{kind_of as kind_of_lem, form_kind};
ghost use Rattle.spectra_judge.specs.Chains.{chain_kind as chain_kind_lem};

use crate::kind::{Kind, reduced};
use crate::known::{Known, kind_at};
use crate::leaves::{leaf_kind, misuse_kind};
use crate::operators::gives;
use spectra_resolved::tree::{Link, Resolved, Shape};

/// The kind of an expression.
#[cycle(kinding)]
pub fn kind_of<'a>(known: &Known<'_, 'a>, t: &Resolved) -> Kind<'a>
    ensures { kind_data result ≡ kind_of_lem (known_data known.now) (resolved_data t.now) }
{
    match t {
        Resolved::Chain(head, links) => chain_kind(known, head, links),
        Resolved::Node(_, _, shape) => shape_kind(known, shape),
    }
}

// The kind of an expression with operators behind it.
#[cycle(kinding)]
fn chain_kind<'a>(known: &Known<'_, 'a>, head: &Resolved, links: &[Link]) -> Kind<'a>
    ensures { kind_data result ≡ kind_of_lem (known_data known.now) (chained (resolved_data head.now) (map link_data links.now)) }
{
    let first = kind_of(known, head);
    links_kind(known, first, links)
}

// What operators behind a first operand of a kind give.
#[cycle(kinding)]
fn links_kind<'a>(known: &Known<'_, 'a>, first: Kind<'a>, links: &[Link]) -> Kind<'a>
    ensures { kind_data result ≡ chain_kind_lem (known_data known.now) (kind_data first.entry) (map link_data links.now) }
{
    let mut kind = first;
    for link in links {
        let second = kind_of(known, &link.second);
        kind = gives(link.word, kind, second);
    }
    kind
}

// The kind of what stands at a place.
#[cycle(kinding)]
fn shape_kind<'a>(known: &Known<'_, 'a>, shape: &Shape) -> Kind<'a>
    ensures { kind_data result ≡ form_kind (known_data known.now) (form_data shape.now) }
{
    match shape {
        Shape::Leaf(leaf) => leaf_kind(known, *leaf),
        Shape::Predicate(_, _) => Kind::Truth,
        Shape::Misuse(misuse, _) => misuse_kind(*misuse),
        Shape::Next(t) => kind_of(known, t),
        Shape::Prefix(_, _) => Kind::Truth,
        Shape::Mod(_, _, n) => reduced(*n),
        Shape::And(_, _) => Kind::Truth,
        Shape::Or(_, _) => Kind::Truth,
        Shape::Index(array, _, _) => kind_at(known.variables, *array),
        Shape::Quantified(_, _, _, _, _, _) => Kind::Truth,
    }
}
