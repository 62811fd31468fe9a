//! Nodes of trees, and names that are misused.

ghost use Rattle.std.specs.Prelude.{◌≡◌, map, IfOk};
ghost use Rattle.spectra_resolved.specs.Spots.{in_text as in_text_lem};
ghost use Rattle.spectra_resolved.specs.Numbers.{signed as signed_lem};
ghost use Rattle.spectra_resolved.specs.Findings.{with_faults};
ghost use Rattle.spectra_resolved.specs.Reports.{found_in};
ghost use Rattle.spectra_resolved.specs.Resolved.{tree as tree_lem, Form};
ghost use Rattle.spectra_resolved.specs.Chained.{trees as trees_lem, chained};
ghost use Rattle.spectra_resolved.specs.Views.{resolved_data, link_data};
ghost use Rattle.spectra_resolved.specs.Resolving.{index_misuse as index_misuse_lem, fault_of as fault_of_lem};
ghost use Rattle.spectra_resolved.specs.Misused.{own_misuse};

use crate::findings::Findings;
use crate::numbers::signed;
use crate::spot::{Spot, in_text};
use crate::table::Named;
use crate::tree::{Leaf, Link, Misuse, Resolved, Shape};
use spectra_trees::faults::{ARITY, UNKNOWN, WRONG_TYPE};
use std::alloc::{AllocError, Global};

/// The number of a misused name's fault.
pub fn fault_of(misuse: Misuse) -> u8
    ensures { result ≡ fault_of_lem misuse }
{
    match misuse {
        Misuse::Unknown => UNKNOWN,
        Misuse::Arity(_) => ARITY,
        Misuse::Bare(_) => WRONG_TYPE,
        Misuse::Called(_) => WRONG_TYPE,
    }
}

/// How a name is misused that brackets stand behind and that is no array's.
pub fn index_misuse(named: Option<Named>) -> Misuse
    ensures { result ≡ index_misuse_lem named }
{
    match named {
        Some(Named::Leaf(leaf)) => Misuse::Called(leaf),
        Some(Named::Predicate(number, _)) => Misuse::Bare(number),
        _ => Misuse::Unknown,
    }
}

/// A misused name, which is a fault at the name.
pub fn misused(
    findings: &mut Findings,
    first: Spot,
    at: Spot,
    misuse: Misuse,
    arguments: Vec<Resolved>,
) -> Resolved
    ensures tree { resolved_data result ≡ tree_lem first (in_text_lem at) (Form.MisuseOf misuse (trees_lem (map resolved_data arguments.items))) }
    ensures found { found_in findings.new ≡ with_faults (found_in findings.old) (own_misuse at (Form.MisuseOf misuse (trees_lem (map resolved_data arguments.items)))) }
{
    findings.report(fault_of(misuse), at);
    Resolved::Node(first, in_text(at), Shape::Misuse(misuse, arguments))
}

/// A number that a text has.
pub fn numeral(first: Spot, at: Spot, negative: bool, digits: &str) -> Resolved
    ensures { resolved_data result ≡ tree_lem first (in_text_lem at) (Form.LeafOf (Leaf.Number (signed_lem negative digits.now))) }
{
    let number = signed(negative, digits);
    Resolved::Node(first, in_text(at), Shape::Leaf(Leaf::Number(number)))
}

/// The use of a predicate.
pub fn predicate(first: Spot, at: Spot, number: usize, arguments: Vec<Resolved>) -> Resolved
    ensures { resolved_data result ≡ tree_lem first (in_text_lem at) (Form.PredicateOf number (trees_lem (map resolved_data arguments.items))) }
{
    Resolved::Node(first, in_text(at), Shape::Predicate(number, arguments))
}

/// A conjunction.
pub fn conjunction(first: Spot, at: Spot, parts: Vec<Resolved>, operators: Vec<Spot>) -> Resolved
    ensures { resolved_data result ≡ tree_lem first (in_text_lem at) (Form.And (trees_lem (map resolved_data parts.items)) operators.items) }
{
    Resolved::Node(first, in_text(at), Shape::And(parts, operators))
}

/// A disjunction.
pub fn disjunction(first: Spot, at: Spot, parts: Vec<Resolved>, operators: Vec<Spot>) -> Resolved
    ensures { resolved_data result ≡ tree_lem first (in_text_lem at) (Form.Or (trees_lem (map resolved_data parts.items)) operators.items) }
{
    Resolved::Node(first, in_text(at), Shape::Or(parts, operators))
}

#[tactic(auto, using(crate::proofs::Trees::chain_data))]
/// A tree with operators behind it, where there are any.
pub fn chain(alloc: Global, head: Resolved, links: Vec<Link>) -> Result<Resolved, AllocError>
    ensures { IfOk result (λ t. resolved_data t ≡ chained (resolved_data head) (map link_data links.items)) }
{
    if links.is_empty() {
        Ok(head)
    } else {
        Ok(Resolved::Chain(Box::new(alloc, head)?, links))
    }
}
