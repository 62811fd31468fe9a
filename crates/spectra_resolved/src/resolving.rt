//! The tree of an expression with each name replaced by what it stands for.

ghost use Rattle.std.specs.Prelude.{◌≡◌, false, [], ◌∷◌, ◌++◌, map, IfOk, OnOk};
ghost use Rattle.spectra_trees.specs.Data.{expressions};
ghost use Rattle.spectra_trees.specs.Chains.{is_joined};
ghost use Rattle.spectra_trees.specs.Views.{name_data, expr_data};
ghost use Rattle.spectra_resolved.specs.Spots.{spot_at as spot_at_lem, spot_of as spot_of_lem, in_text as in_text_lem};
ghost use Rattle.spectra_resolved.specs.Findings.{with_faults};
ghost use Rattle.spectra_resolved.specs.Reports.{found_in};
ghost use Rattle.spectra_resolved.specs.Resolved.{tree as tree_lem, Form};
ghost use Rattle.spectra_resolved.specs.Chained.{trees as trees_lem};
ghost use Rattle.spectra_resolved.specs.Views.{resolved_data, link_data};
ghost use Rattle.spectra_resolved.specs.Resolving.{read_form, call_form, index_form, misuses, form_misuses, misuses_of_each};
ghost use Rattle.spectra_resolved.specs.Misused.{own_misuse};
ghost use Rattle.spectra_resolved.specs.LookViews.{look_data};
ghost use Rattle.spectra_resolved.specs.MentionViews.{mention_data};
ghost use Rattle.spectra_resolved.specs.Spots.{mentioned as mentioned_lem};
ghost use Rattle.spectra_resolved.specs.ResolverViews.{resolved_by, resolved_each_by, resolved_inside, quantified_by};

use crate::findings::Findings;
use crate::look::Look;
use crate::naming::{chain, conjunction, disjunction, index_misuse, misused, numeral, predicate};
use crate::numbers::number_of;
use crate::spot::{Mention, Spot, in_text, mentioned, spot_at, spot_of};
use crate::table::Named;
use crate::tree::{Extent, Leaf, Link, Misuse, QuantifierWord, Resolved, Shape};
use spectra_trees::tree::{BinaryWord, ExprForm, ExprTree, Name, Place};
use std::alloc::{AllocError, Global};

/// What expressions are resolved by: what their names stand for, and the number of their file.
#[derive(Clone, Copy)]
pub struct Resolver<'s, 't> {
    pub alloc: Global,
    pub look: Look<'s, 't>,
    pub file: usize,
}

// A name without parentheses.
fn read(resolver: &Resolver<'_, '_>, findings: &mut Findings, first: Spot, name: &Name) -> Resolved
    ensures tree { resolved_data result ≡ tree_lem first (in_text_lem (spot_of_lem resolver.now.file (name_data name.now))) (read_form (look_data resolver.now.look (name_data name.now).text)) }
    ensures found { found_in findings.new ≡ with_faults (found_in findings.old)
        (own_misuse (spot_of_lem resolver.now.file (name_data name.now)) (read_form (look_data resolver.now.look (name_data name.now).text))) }
{
    let at = spot_of(resolver.file, name);
    let none = Vec::new(resolver.alloc);
    match resolver.look.named(name.text.as_str()) {
        Some(Named::Leaf(leaf)) => Resolved::Node(first, in_text(at), Shape::Leaf(leaf)),
        Some(Named::Array(number, _)) => {
            let array = Misuse::Called(Leaf::Variable(number));
            misused(findings, first, at, array, none)
        }
        Some(Named::Predicate(number, _)) => {
            misused(findings, first, at, Misuse::Bare(number), none)
        }
        _ => misused(findings, first, at, Misuse::Unknown, none),
    }
}

#[tactic(auto, using(crate::proofs::Trees::count_of_trees))]
// A name with arguments behind it, whose own faults were found before.
fn called(
    resolver: &Resolver<'_, '_>,
    findings: &mut Findings,
    first: Spot,
    name: &Name,
    arguments: Vec<Resolved>,
) -> Resolved
    ensures tree { resolved_data result ≡ tree_lem first (in_text_lem (spot_of_lem resolver.now.file (name_data name.now)))
        (call_form (look_data resolver.now.look (name_data name.now).text) (trees_lem (map resolved_data arguments.items))) }
    ensures found { found_in findings.new ≡ with_faults (found_in findings.old) (own_misuse (spot_of_lem resolver.now.file (name_data name.now))
        (call_form (look_data resolver.now.look (name_data name.now).text) (trees_lem (map resolved_data arguments.items)))) }
{
    let at = spot_of(resolver.file, name);
    match resolver.look.named(name.text.as_str()) {
        Some(Named::Leaf(leaf)) => misused(findings, first, at, Misuse::Called(leaf), arguments),
        Some(Named::Array(number, _)) => {
            let array = Misuse::Called(Leaf::Variable(number));
            misused(findings, first, at, array, arguments)
        }
        Some(Named::Predicate(number, arity)) => {
            if arguments.len() == arity {
                predicate(first, at, number, arguments)
            } else {
                misused(findings, first, at, Misuse::Arity(number), arguments)
            }
        }
        _ => misused(findings, first, at, Misuse::Unknown, arguments),
    }
}

// A name with what stands in the brackets behind it, whose own faults were found before.
fn indexed(
    resolver: &Resolver<'_, '_>,
    findings: &mut Findings,
    first: Spot,
    name: &Name,
    index: Resolved,
) -> Result<Resolved, AllocError>
    ensures tree { IfOk result (λ t. resolved_data t ≡ tree_lem first (in_text_lem (spot_of_lem resolver.now.file (name_data name.now)))
        (index_form (look_data resolver.now.look (name_data name.now).text) (resolved_data index))) }
    ensures found { OnOk result (found_in findings.new ≡ with_faults (found_in findings.old) (own_misuse (spot_of_lem resolver.now.file (name_data name.now))
        (index_form (look_data resolver.now.look (name_data name.now).text) (resolved_data index)))) }
{
    let at = spot_of(resolver.file, name);
    match resolver.look.named(name.text.as_str()) {
        Some(Named::Array(number, count)) => {
            let index = Box::new(resolver.alloc, index)?;
            let shape = Shape::Index(number, count, index);
            Ok(Resolved::Node(first, in_text(at), shape))
        }
        named => {
            let misuse = index_misuse(named);
            let arguments = vec![in resolver.alloc; index]?;
            Ok(misused(findings, first, at, misuse, arguments))
        }
    }
}

// The variables of the quantifiers around the body of one more.
fn quantified_inside<'e>(
    resolver: &'e Resolver<'_, '_>,
    name: &'e Name,
) -> Result<Vec<Mention<'e>>, AllocError>
    ensures { IfOk result (λ all. map mention_data all.items ≡ map mention_data resolver.now.look.quantified.now ++ mentioned_lem resolver.now.file (name_data name.now) ∷ []) }
{
    let around = resolver.look.quantified;
    let mut all = Vec::new(resolver.alloc);
    for variable in around {
        all.push(*variable)?;
    }
    all.push(mentioned(resolver.file, name))?;
    Ok(all)
}

// The places of operators.
fn spots(resolver: &Resolver<'_, '_>, operators: &[Place]) -> Result<Vec<Spot>, AllocError>
    ensures { IfOk result (λ spots. spots.items ≡ map (spot_at_lem resolver.now.file) operators.now) }
{
    let file = resolver.file;
    operators
        .iter()
        .map(|at| spot_at(file, *at))
        .collect(resolver.alloc)
}

/// The tree of an expression. Each misused name is reported.
#[cycle(resolving)]
pub fn tree(
    resolver: &Resolver<'_, '_>,
    findings: &mut Findings,
    e: &ExprTree,
) -> Result<Resolved, AllocError>
    ensures tree { IfOk result (λ t. resolved_data t ≡ resolved_by resolver.now (expr_data e.now)) }
    ensures found { OnOk result (found_in findings.new ≡ with_faults (found_in findings.old) (misuses (resolved_by resolver.now (expr_data e.now)))) }
{
    let mut links = Vec::new(resolver.alloc);
    let mut head = e;
    'chain: while let ExprForm::Binary(word, a, b) = &head.form {
        links.push(link(resolver, findings, head, *word, b)?)?;
        head = a;
    }
    links.reverse();
    let node = node(resolver, findings, head)?;
    chain(resolver.alloc, node, links)
}

// An operator with its second operand.
#[cycle(resolving)]
fn link(
    resolver: &Resolver<'_, '_>,
    findings: &mut Findings,
    whole: &ExprTree,
    word: BinaryWord,
    second: &ExprTree,
) -> Result<Link, AllocError>
    ensures link { IfOk result (λ l. link_data l ≡ record {
      first = spot_at_lem resolver.now.file whole.now.first;
      at = in_text_lem (spot_at_lem resolver.now.file whole.now.at);
      word = word;
      second = resolved_by resolver.now (expr_data second.now);
    }) }
    ensures found { OnOk result (found_in findings.new ≡ with_faults (found_in findings.old) (misuses (resolved_by resolver.now (expr_data second.now)))) }
{
    Ok(Link {
        first: spot_at(resolver.file, whole.first),
        at: in_text(spot_at(resolver.file, whole.at)),
        word,
        second: tree(resolver, findings, second)?,
    })
}

// The tree of an expression that is no operator between two operands.
#[cycle(resolving)]
fn node(
    resolver: &Resolver<'_, '_>,
    findings: &mut Findings,
    e: &ExprTree,
) -> Result<Resolved, AllocError>
    requires alone { is_joined (expr_data e.now) ≡ false }
    ensures tree { IfOk result (λ t. resolved_data t ≡ resolved_by resolver.now (expr_data e.now)) }
    ensures found { OnOk result (found_in findings.new ≡ with_faults (found_in findings.old) (misuses (resolved_by resolver.now (expr_data e.now)))) }
{
    let first = spot_at(resolver.file, e.first);
    let at = spot_at(resolver.file, e.at);
    match &e.form {
        ExprForm::True => Ok(Resolved::Node(first, in_text(at), Shape::Leaf(Leaf::Truth(true)))),
        ExprForm::False => Ok(Resolved::Node(first, in_text(at), Shape::Leaf(Leaf::Truth(false)))),
        ExprForm::Number(negative, digits) => Ok(numeral(first, at, *negative, digits.as_str())),
        ExprForm::Read(name) => Ok(read(resolver, findings, first, name)),
        ExprForm::Call(name, es) => {
            let arguments = trees(resolver, findings, es)?;
            Ok(called(resolver, findings, first, name, arguments))
        }
        ExprForm::Next(a) => {
            let part = Box::new(resolver.alloc, tree(resolver, findings, a)?)?;
            Ok(Resolved::Node(first, in_text(at), Shape::Next(part)))
        }
        ExprForm::Prefix(word, a) => {
            let part = Box::new(resolver.alloc, tree(resolver, findings, a)?)?;
            Ok(Resolved::Node(first, in_text(at), Shape::Prefix(*word, part)))
        }
        ExprForm::Binary(_, _, _) => unreachable!(),
        ExprForm::Mod(a, number, digits) => {
            let part = Box::new(resolver.alloc, tree(resolver, findings, a)?)?;
            let number_at = spot_at(resolver.file, *number);
            let number = number_of(digits.as_str());
            Ok(Resolved::Node(first, in_text(at), Shape::Mod(part, number_at, number)))
        }
        ExprForm::And(es, ops) => all_of(resolver, findings, first, at, es, ops),
        ExprForm::Or(es, ops) => any_of(resolver, findings, first, at, es, ops),
        ExprForm::Index(name, e) => index(resolver, findings, first, name, e),
        ExprForm::ForAll(name, low, high, body) => {
            let word = QuantifierWord::ForAll;
            quantified(resolver, findings, e, word, name, low, high, body)
        }
        ExprForm::Exists(name, low, high, body) => {
            let word = QuantifierWord::Exists;
            quantified(resolver, findings, e, word, name, low, high, body)
        }
    }
}

// A conjunction.
#[cycle(resolving)]
fn all_of(
    resolver: &Resolver<'_, '_>,
    findings: &mut Findings,
    first: Spot,
    at: Spot,
    es: &[ExprTree],
    ops: &[Place],
) -> Result<Resolved, AllocError>
    ensures tree { IfOk result (λ t. resolved_data t ≡ tree_lem first (in_text_lem at) (Form.And (resolved_each_by resolver.now (expressions (map expr_data es.now))) (map (spot_at_lem resolver.now.file) ops.now))) }
    ensures found { OnOk result (found_in findings.new ≡ with_faults (found_in findings.old) (misuses_of_each (resolved_each_by resolver.now (expressions (map expr_data es.now))))) }
{
    let parts = trees(resolver, findings, es)?;
    let operators = spots(resolver, ops)?;
    Ok(conjunction(first, at, parts, operators))
}

// A disjunction.
#[cycle(resolving)]
fn any_of(
    resolver: &Resolver<'_, '_>,
    findings: &mut Findings,
    first: Spot,
    at: Spot,
    es: &[ExprTree],
    ops: &[Place],
) -> Result<Resolved, AllocError>
    ensures tree { IfOk result (λ t. resolved_data t ≡ tree_lem first (in_text_lem at) (Form.Or (resolved_each_by resolver.now (expressions (map expr_data es.now))) (map (spot_at_lem resolver.now.file) ops.now))) }
    ensures found { OnOk result (found_in findings.new ≡ with_faults (found_in findings.old) (misuses_of_each (resolved_each_by resolver.now (expressions (map expr_data es.now))))) }
{
    let parts = trees(resolver, findings, es)?;
    let operators = spots(resolver, ops)?;
    Ok(disjunction(first, at, parts, operators))
}

// A name with an index behind it.
#[cycle(resolving)]
fn index(
    resolver: &Resolver<'_, '_>,
    findings: &mut Findings,
    first: Spot,
    name: &Name,
    e: &ExprTree,
) -> Result<Resolved, AllocError>
    ensures tree { IfOk result (λ t. resolved_data t ≡ tree_lem first (in_text_lem (spot_of_lem resolver.now.file (name_data name.now)))
        (index_form (look_data resolver.now.look (name_data name.now).text) (resolved_by resolver.now (expr_data e.now)))) }
    ensures found { OnOk result (found_in findings.new ≡ with_faults (found_in findings.old) (form_misuses (spot_of_lem resolver.now.file (name_data name.now))
        (index_form (look_data resolver.now.look (name_data name.now).text) (resolved_by resolver.now (expr_data e.now))))) }
{
    let made = tree(resolver, findings, e)?;
    indexed(resolver, findings, first, name, made)
}

#[tactic(auto, using(crate::proofs::First::with_faults_append))]
// A quantifier, which isn't written out yet.
#[cycle(resolving)]
fn quantified(
    resolver: &Resolver<'_, '_>,
    findings: &mut Findings,
    whole: &ExprTree,
    word: QuantifierWord,
    name: &Name,
    low: &ExprTree,
    high: &ExprTree,
    body: &ExprTree,
) -> Result<Resolved, AllocError>
    ensures tree { IfOk result (λ t. resolved_data t ≡ tree_lem (spot_at_lem resolver.now.file whole.now.first) (in_text_lem (spot_at_lem resolver.now.file whole.now.at))
        (quantified_by resolver.now word (name_data name.now) (expr_data low.now) (expr_data high.now) (expr_data body.now))) }
    ensures found { OnOk result (found_in findings.new ≡ with_faults (found_in findings.old)
        (form_misuses (spot_at_lem resolver.now.file whole.now.at) (quantified_by resolver.now word (name_data name.now) (expr_data low.now) (expr_data high.now) (expr_data body.now)))) }
{
    let low = Box::new(resolver.alloc, tree(resolver, findings, low)?)?;
    let high = Box::new(resolver.alloc, tree(resolver, findings, high)?)?;
    let body = inside(resolver, findings, name, body)?;
    let copies = vec![in resolver.alloc; body]?;
    let variable = spot_of(resolver.file, name);
    let shape = Shape::Quantified(word, variable, Extent::Open, low, high, copies);
    let first = spot_at(resolver.file, whole.first);
    let at = spot_at(resolver.file, whole.at);
    Ok(Resolved::Node(first, in_text(at), shape))
}

// The body of a quantifier, in which its variable hides what is outside.
#[cycle(resolving)]
fn inside(
    resolver: &Resolver<'_, '_>,
    findings: &mut Findings,
    name: &Name,
    body: &ExprTree,
) -> Result<Resolved, AllocError>
    ensures tree { IfOk result (λ t. resolved_data t ≡ resolved_inside resolver.now (name_data name.now) (expr_data body.now)) }
    ensures found { OnOk result (found_in findings.new ≡ with_faults (found_in findings.old) (misuses (resolved_inside resolver.now (name_data name.now) (expr_data body.now)))) }
{
    let variables = quantified_inside(&*resolver, &*name)?;
    let around = match resolver.look.around {
        Some(table) => Some(&*table),
        None => None,
    };
    let look = Look {
        scope: &*resolver.look.scope,
        around,
        sight: resolver.look.sight,
        quantified: variables.as_slice(),
    };
    let within = Resolver {
        alloc: resolver.alloc,
        look,
        file: resolver.file,
    };
    tree(&within, findings, body)
}

/// The trees of several expressions. Each misused name is reported.
#[tactic(auto, using(crate::proofs::First::with_faults_append))]
#[cycle(resolving)]
pub fn trees(
    resolver: &Resolver<'_, '_>,
    findings: &mut Findings,
    es: &[ExprTree],
) -> Result<Vec<Resolved>, AllocError>
    ensures trees { IfOk result (λ ts. trees_lem (map resolved_data ts.items) ≡ resolved_each_by resolver.now (expressions (map expr_data es.now))) }
    ensures found { OnOk result (found_in findings.new ≡ with_faults (found_in findings.old) (misuses_of_each (resolved_each_by resolver.now (expressions (map expr_data es.now))))) }
{
    let mut made = Vec::with_capacity(resolver.alloc, es.len())?;
    for e in es {
        made.push(tree(resolver, findings, e)?)?;
    }
    Ok(made)
}
