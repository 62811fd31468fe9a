//! Which definitions use which.

ghost use Rattle.std.specs.Prelude.{◌≡◌, ◌++◌, map, IfOk, OnOk};
ghost use Rattle.spectra_resolved.specs.Chained.{chained, trees};
ghost use Rattle.spectra_resolved.specs.Views.{resolved_data, link_data, form_data};
ghost use Rattle.spectra_resolved.specs.TextViews.{definition_data};
ghost use Rattle.spectra_uses.specs.Uses.{leaf_uses, misuse_uses, uses_in, form_uses, each_uses, all_uses as all_uses_lem};
ghost use Rattle.spectra_uses.specs.Links.{link_uses};

use spectra_resolved::text::Definition;
use spectra_resolved::tree::{Leaf, Link, Misuse, Resolved, Shape};
use std::alloc::{AllocError, Global};

// Adds the definition that a part without parts uses.
fn add_leaf(uses: &mut Vec<usize>, leaf: Leaf) -> Result<(), AllocError>
    ensures { OnOk result (uses.new.items ≡ uses.old.items ++ leaf_uses leaf) }
{
    match leaf {
        Leaf::Define(number) => uses.push(number)?,
        Leaf::Truth(_) => {}
        Leaf::Number(_) => {}
        Leaf::EnumName(_) => {}
        Leaf::Variable(_) => {}
        Leaf::Parameter(_) => {}
        Leaf::Own(_) => {}
        Leaf::Bound(_) => {}
        Leaf::Hole(_) => {}
    }
    Ok(())
}

// Adds the definition that a misused name uses.
fn add_misuse(uses: &mut Vec<usize>, misuse: Misuse) -> Result<(), AllocError>
    ensures { OnOk result (uses.new.items ≡ uses.old.items ++ misuse_uses misuse) }
{
    match misuse {
        Misuse::Unknown => {}
        Misuse::Bare(number) => uses.push(number)?,
        Misuse::Called(leaf) => add_leaf(uses, leaf)?,
        Misuse::Arity(number) => uses.push(number)?,
    }
    Ok(())
}

// Adds the definitions that an expression uses.
#[cycle(using_up)]
fn add(uses: &mut Vec<usize>, t: &Resolved) -> Result<(), AllocError>
    ensures { OnOk result (uses.new.items ≡ uses.old.items ++ uses_in (resolved_data t.now)) }
{
    match t {
        Resolved::Chain(head, links) => add_chain(uses, head, links),
        Resolved::Node(_, _, shape) => add_shape(uses, shape),
    }
}

#[tactic(auto, using(crate::proofs::Used::chained_uses, std::proofs::Common::append_assoc))]
// Adds those of an expression with operators behind it.
#[cycle(using_up)]
fn add_chain(uses: &mut Vec<usize>, head: &Resolved, links: &[Link]) -> Result<(), AllocError>
    ensures { OnOk result (uses.new.items ≡ uses.old.items ++ uses_in (chained (resolved_data head.now) (map link_data links.now))) }
{
    add(uses, head)?;
    add_links(uses, links)
}

// Adds those in the second operands of operators.
#[cycle(using_up)]
fn add_links(uses: &mut Vec<usize>, links: &[Link]) -> Result<(), AllocError>
    ensures { OnOk result (uses.new.items ≡ uses.old.items ++ link_uses (map link_data links.now)) }
{
    for link in links {
        add(uses, &link.second)?;
    }
    Ok(())
}

#[tactic(auto, using(std::proofs::Common::append_assoc))]
// Adds those of a node.
#[cycle(using_up)]
fn add_shape(uses: &mut Vec<usize>, shape: &Shape) -> Result<(), AllocError>
    ensures { OnOk result (uses.new.items ≡ uses.old.items ++ form_uses (form_data shape.now)) }
{
    match shape {
        Shape::Leaf(leaf) => add_leaf(uses, *leaf),
        Shape::Predicate(number, ts) => add_call(uses, Misuse::Bare(*number), ts),
        Shape::Misuse(misuse, ts) => add_call(uses, *misuse, ts),
        Shape::Next(t) => add(uses, t),
        Shape::Prefix(_, t) => add(uses, t),
        Shape::Mod(t, _, _) => add(uses, t),
        Shape::And(ts, _) => add_each(uses, ts),
        Shape::Or(ts, _) => add_each(uses, ts),
        Shape::Index(_, _, t) => add(uses, t),
        Shape::Quantified(_, _, _, low, high, copies) => add_quantified(uses, low, high, copies),
    }
}

#[tactic(auto, using(std::proofs::Common::append_assoc))]
// Adds those of a quantifier: of its bounds, and of its copies.
#[cycle(using_up)]
fn add_quantified(
    uses: &mut Vec<usize>,
    low: &Resolved,
    high: &Resolved,
    copies: &[Resolved],
) -> Result<(), AllocError>
    ensures { OnOk result (uses.new.items ≡ uses.old.items ++ (uses_in (resolved_data low.now) ++ (uses_in (resolved_data high.now) ++ each_uses (trees (map resolved_data copies.now))))) }
{
    add(uses, low)?;
    add(uses, high)?;
    add_each(uses, copies)
}

#[tactic(auto, using(std::proofs::Common::append_assoc))]
// Adds the definition that a name uses, and those of the arguments behind it.
#[cycle(using_up)]
fn add_call(uses: &mut Vec<usize>, misuse: Misuse, ts: &[Resolved]) -> Result<(), AllocError>
    ensures { OnOk result (uses.new.items ≡ uses.old.items ++ (misuse_uses misuse ++ each_uses (trees (map resolved_data ts.now)))) }
{
    add_misuse(uses, misuse)?;
    add_each(uses, ts)
}

#[tactic(auto, using(std::proofs::Common::append_assoc))]
// Adds those of several expressions.
#[cycle(using_up)]
fn add_each(uses: &mut Vec<usize>, ts: &[Resolved]) -> Result<(), AllocError>
    ensures { OnOk result (uses.new.items ≡ uses.old.items ++ each_uses (trees (map resolved_data ts.now))) }
{
    for t in ts {
        add(uses, t)?;
    }
    Ok(())
}

// The definitions that an expression uses, in text order.
fn uses_of(alloc: Global, t: &Resolved) -> Result<Vec<usize>, AllocError>
    ensures { IfOk result (λ uses. uses.items ≡ uses_in (resolved_data t.now)) }
{
    let mut uses = Vec::new(alloc);
    add(&mut uses, t)?;
    Ok(uses)
}

#[tactic(auto, using(spectra_resolved::proofs::Mapped::pushed))]
/// For each definition the numbers of those that its body uses, in text order. A name that is misused is a use all the same.
/// The error is that memory is short.
pub fn all_uses(
    alloc: Global,
    definitions: &[Definition<'_>],
) -> Result<Vec<Vec<usize>>, AllocError>
    ensures { IfOk result (λ all. map (λ uses. uses.items) all.items ≡ all_uses_lem (map definition_data definitions.now)) }
{
    let mut all = Vec::new(alloc);
    for definition in definitions {
        all.push(uses_of(alloc, &definition.body)?)?;
    }
    Ok(all)
}
