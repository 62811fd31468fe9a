//! One walk over an expression, which gives its kind and reports its faults.

ghost use Rattle.std.specs.Prelude.{◌≡◌, ℕ, ◌∷◌, ◌++◌, map, drop};
ghost use Rattle.spectra_resolved.specs.Resolved.{Form};
ghost use Rattle.spectra_resolved.specs.Chained.{chained, trees};
ghost use Rattle.spectra_resolved.specs.Views.{resolved_data, link_data, form_data};
ghost use Rattle.spectra_resolved.specs.Findings.{with_faults};
ghost use Rattle.spectra_resolved.specs.Reports.{found_in};
ghost use Rattle.spectra_judge.specs.Kinds.{Truth, is_truth as is_truth_lem, is_whole as is_whole_lem, can_equal as can_equal_lem, reduced as reduced_lem};
ghost use Rattle.spectra_judge.specs.KindViews.{kind_data, setting_data};
ghost use Rattle.spectra_judge.specs.Operators.{gives as gives_lem};
ghost use Rattle.spectra_judge.specs.Known.{wanted};
ghost use Rattle.spectra_judge.specs.Findings.{fault_if};
ghost use Rattle.spectra_judge.specs.Around.{in_bound as in_bound_lem};
ghost use Rattle.spectra_judge.specs.Judged.{kind_of, form_kind, wrong, first_of as first_of_lem, faults, form_faults, is_wrong as is_wrong_lem, operand_faults, bound_faults, copy_faults, argument_faults};
ghost use Rattle.spectra_judge.specs.OpenedViews.{opened_at};
ghost use Rattle.spectra_judge.specs.Chains.{opened as opened_lem, link_faults, chain_kind, chain_faults};

use crate::around::{Around, in_bound, under_next, within};
use crate::chains::{Opened, first_of, opened_in, operator_at};
use crate::findings::report_if;
use crate::kind::{Kind, can_equal, is_truth, is_whole, reduced};
use crate::known::{Setting, kind_at};
use crate::leaves::{
    is_wrong, leaf_kind, misuse_kind, report_binary, report_index, report_leaf, report_misuse,
    report_remainder, report_wrong,
};
use crate::misplaced::{report_next, report_operator};
use crate::operators::{gives, is_past, is_past_prefix};
use spectra_resolved::findings::Findings;
use spectra_resolved::spot::{Mark, Spot};
use spectra_resolved::tree::{Extent, Link, Resolved, Shape};
use spectra_trees::faults::WIDE_INT;
use spectra_trees::tree::PrefixWord;

/// The kind of an expression, whose faults are reported.
#[cycle(walking)]
pub fn walk<'a>(
    findings: &mut Findings,
    setting: &Setting<'_, 'a>,
    around: Around,
    tree: &Resolved,
) -> Kind<'a>
    ensures kind { kind_data result ≡ kind_of (setting_data setting.now).known (resolved_data tree.now) }
    ensures found { found_in findings.new ≡ with_faults (found_in findings.old) (faults (setting_data setting.now) around (resolved_data tree.now)) }
{
    match tree {
        Resolved::Chain(head, links) => walk_chain(findings, setting, around, head, links),
        Resolved::Node(_, at, shape) => walk_shape(findings, setting, around, *at, shape),
    }
}

// The kind of an expression that stands at a place.
#[cycle(walking)]
#[inline(never)]
fn walk_shape<'a>(
    findings: &mut Findings,
    setting: &Setting<'_, 'a>,
    around: Around,
    at: Mark,
    shape: &Shape,
) -> Kind<'a>
    ensures kind { kind_data result ≡ form_kind (setting_data setting.now).known (form_data shape.now) }
    ensures found { found_in findings.new ≡ with_faults (found_in findings.old) (form_faults (setting_data setting.now) around at (form_data shape.now)) }
{
    match shape {
        Shape::Leaf(leaf) => {
            report_leaf(findings, setting, around, at, *leaf);
            leaf_kind(&setting.known, *leaf)
        }
        Shape::Predicate(number, ts) => {
            walk_arguments(findings, setting, around, Some(*number), ts);
            Kind::Truth
        }
        Shape::Misuse(misuse, ts) => {
            report_misuse(findings, setting, around, at, *misuse);
            walk_arguments(findings, setting, around, None, ts);
            misuse_kind(*misuse)
        }
        Shape::Next(t) => {
            report_next(findings, setting, around, at);
            walk(findings, setting, under_next(at, around), t)
        }
        Shape::Prefix(word, t) => walk_prefix(findings, setting, around, at, *word, t),
        Shape::Mod(t, number_at, n) => {
            walk_remainder(findings, setting, around, at, t, *number_at, *n)
        }
        Shape::And(ts, operators) => walk_operands(
            findings, setting, around, at.spot, ts, operators,
        ),
        Shape::Or(ts, operators) => walk_operands(
            findings, setting, around, at.spot, ts, operators,
        ),
        Shape::Index(array, count, t) => {
            walk_index(findings, setting, around, at, *array, *count, t)
        }
        Shape::Quantified(_, _, extent, low, high, copies) => {
            walk_quantified(findings, setting, around, at, *extent, low, high, copies)
        }
    }
}

#[tactic(auto, using(spectra_resolved::proofs::First::with_faults_append))]
// The kind of what an operator before its operand gives.
#[cycle(walking)]
#[inline(never)]
fn walk_prefix<'a>(
    findings: &mut Findings,
    setting: &Setting<'_, 'a>,
    around: Around,
    at: Mark,
    word: PrefixWord,
    t: &Resolved,
) -> Kind<'a>
    ensures kind { kind_data result ≡ Truth }
    ensures found { found_in findings.new ≡ with_faults (found_in findings.old) (form_faults (setting_data setting.now) around at (Form.Prefix word (resolved_data t.now))) }
{
    let past = is_past_prefix(word);
    report_operator(findings, setting, past, around.next, at);
    let inner = within(past, at, around);
    let kind = walk(findings, setting, inner, t);
    report_wrong(findings, is_truth(kind), at.spot);
    Kind::Truth
}

#[tactic(auto, using(spectra_resolved::proofs::First::with_faults_append))]
// The kind of a remainder.
#[cycle(walking)]
#[inline(never)]
fn walk_remainder<'a>(
    findings: &mut Findings,
    setting: &Setting<'_, 'a>,
    around: Around,
    at: Mark,
    t: &Resolved,
    number_at: Spot,
    n: i64,
) -> Kind<'a>
    ensures kind { kind_data result ≡ reduced_lem n }
    ensures found { found_in findings.new ≡ with_faults (found_in findings.old) (form_faults (setting_data setting.now) around at (Form.Mod (resolved_data t.now) number_at n)) }
{
    let kind = walk(findings, setting, around, t);
    report_remainder(findings, kind, at.spot, number_at, n);
    reduced(n)
}

#[tactic(auto, using(spectra_resolved::proofs::First::with_faults_append))]
// The kind of an array's element.
#[cycle(walking)]
#[inline(never)]
fn walk_index<'a>(
    findings: &mut Findings,
    setting: &Setting<'_, 'a>,
    around: Around,
    at: Mark,
    array: usize,
    count: usize,
    t: &Resolved,
) -> Kind<'a>
    ensures kind { kind_data result ≡ form_kind (setting_data setting.now).known (Form.Index array count (resolved_data t.now)) }
    ensures found { found_in findings.new ≡ with_faults (found_in findings.old) (form_faults (setting_data setting.now) around at (Form.Index array count (resolved_data t.now))) }
{
    let kind = walk(findings, setting, around, t);
    report_index(
        findings,
        setting,
        around,
        at,
        array,
        count,
        kind,
        first_of(t),
    );
    kind_at(setting.known.variables, array)
}

#[tactic(auto, using(spectra_resolved::proofs::First::with_faults_append))]
// A bound of a quantifier that stands at a place.
#[cycle(walking)]
#[inline(never)]
fn walk_bound(
    findings: &mut Findings,
    setting: &Setting<'_, '_>,
    around: Around,
    at: Mark,
    t: &Resolved,
)
    ensures { found_in findings.new ≡ with_faults (found_in findings.old) (faults (setting_data setting.now) (in_bound_lem at around) (resolved_data t.now)
        ++ wrong (is_whole_lem (kind_of (setting_data setting.now).known (resolved_data t.now))) (first_of_lem (resolved_data t.now))) }
{
    let kind = walk(findings, setting, in_bound(at, around), t);
    report_wrong(findings, is_whole(kind), first_of(t));
}

#[tactic(auto, using(spectra_resolved::proofs::First::with_faults_append))]
// Both bounds of a quantifier.
#[cycle(walking)]
#[inline(never)]
fn walk_bounds(
    findings: &mut Findings,
    setting: &Setting<'_, '_>,
    around: Around,
    at: Mark,
    low: &Resolved,
    high: &Resolved,
)
    ensures { found_in findings.new ≡ with_faults (found_in findings.old) (bound_faults (setting_data setting.now) around at (resolved_data low.now) (resolved_data high.now)) }
{
    walk_bound(findings, setting, around, at, low);
    walk_bound(findings, setting, around, at, high);
}

#[tactic(auto, using(spectra_resolved::proofs::First::with_faults_append))]
// The kind of a quantifier.
#[cycle(walking)]
#[inline(never)]
fn walk_quantified<'a>(
    findings: &mut Findings,
    setting: &Setting<'_, 'a>,
    around: Around,
    at: Mark,
    extent: Extent,
    low: &Resolved,
    high: &Resolved,
    copies: &[Resolved],
) -> Kind<'a>
    ensures kind { kind_data result ≡ Truth }
    ensures found { found_in findings.new ≡ with_faults (found_in findings.old) (bound_faults (setting_data setting.now) around at (resolved_data low.now) (resolved_data high.now)
        ++ (fault_if (is_wrong_lem extent) WIDE_INT at.spot ++ copy_faults (setting_data setting.now) around (trees (map resolved_data copies.now)))) }
{
    walk_bounds(findings, setting, around, at, low, high);
    report_if(findings, is_wrong(extent), WIDE_INT, at.spot);
    walk_copies(findings, setting, around, copies);
    Kind::Truth
}

// The copies of a quantifier's body.
#[cycle(walking)]
#[inline(never)]
fn walk_copies(
    findings: &mut Findings,
    setting: &Setting<'_, '_>,
    around: Around,
    copies: &[Resolved],
)
    ensures { found_in findings.new ≡ with_faults (found_in findings.old) (copy_faults (setting_data setting.now) around (trees (map resolved_data copies.now))) }
{
    for t in copies {
        walk_copy(findings, setting, around, t);
    }
}

#[tactic(auto, using(spectra_resolved::proofs::First::with_faults_append))]
// One of them.
#[cycle(walking)]
fn walk_copy(findings: &mut Findings, setting: &Setting<'_, '_>, around: Around, t: &Resolved)
    ensures { found_in findings.new ≡ with_faults (found_in findings.old) (faults (setting_data setting.now) around (resolved_data t.now)
        ++ wrong (is_truth_lem (kind_of (setting_data setting.now).known (resolved_data t.now))) (first_of_lem (resolved_data t.now))) }
{
    let kind = walk(findings, setting, around, t);
    report_wrong(findings, is_truth(kind), first_of(t));
}

// The kind of a chain of operators behind their first operand.
#[cycle(walking)]
#[inline(never)]
fn walk_chain<'a>(
    findings: &mut Findings,
    setting: &Setting<'_, 'a>,
    around: Around,
    head: &Resolved,
    links: &[Link],
) -> Kind<'a>
    ensures kind { kind_data result ≡ kind_of (setting_data setting.now).known (chained (resolved_data head.now) (map link_data links.now)) }
    ensures found { found_in findings.new ≡ with_faults (found_in findings.old) (faults (setting_data setting.now) around (chained (resolved_data head.now) (map link_data links.now))) }
{
    let opened = opened_in(links);
    let mut kind = walk(findings, setting, opened.at(around, 0), head);
    let mut place = 0;
    for link in links {
        let inner = opened.at(around, place);
        kind = walk_link(findings, setting, inner, around.next, kind, link);
        place += 1;
    }
    kind
}

#[tactic(auto, using(spectra_resolved::proofs::First::with_faults_append))]
// The kind of what an operator gives, whose first operand has a kind. `next` is the one around the operator.
#[cycle(walking)]
fn walk_link<'a>(
    findings: &mut Findings,
    setting: &Setting<'_, 'a>,
    inner: Around,
    next: Option<Mark>,
    kind: Kind<'a>,
    link: &Link,
) -> Kind<'a>
    ensures kind { kind_data result ≡ gives_lem (link_data link.now).word (kind_data kind.entry) (kind_of (setting_data setting.now).known (link_data link.now).second) }
    ensures found { found_in findings.new ≡ with_faults (found_in findings.old) (link_faults (setting_data setting.now) inner next (kind_data kind.entry) (link_data link.now)) }
{
    report_operator(findings, setting, is_past(link.word), next, link.at);
    let second = walk(findings, setting, inner, &link.second);
    report_binary(findings, link.word, kind, second, link.at.spot);
    gives(link.word, kind, second)
}

// The operands of a conjunction or disjunction, with the operators between them.
#[cycle(walking)]
#[inline(never)]
fn walk_operands<'a>(
    findings: &mut Findings,
    setting: &Setting<'_, 'a>,
    around: Around,
    at: Spot,
    ts: &[Resolved],
    operators: &[Spot],
) -> Kind<'a>
    ensures kind { kind_data result ≡ Truth }
    ensures found { found_in findings.new ≡ with_faults (found_in findings.old) (operand_faults (setting_data setting.now) around at (at ∷ operators.now) (trees (map resolved_data ts.now))) }
{
    let mut place = 0;
    for t in ts {
        let operator = operator_at(at, operators, place);
        walk_operand(findings, setting, around, operator, t);
        place += 1;
    }
    Kind::Truth
}

#[tactic(auto, using(spectra_resolved::proofs::First::with_faults_append))]
// An operand with its operator.
#[cycle(walking)]
fn walk_operand(
    findings: &mut Findings,
    setting: &Setting<'_, '_>,
    around: Around,
    operator: Spot,
    t: &Resolved,
)
    ensures { found_in findings.new ≡ with_faults (found_in findings.old) (faults (setting_data setting.now) around (resolved_data t.now)
        ++ wrong (is_truth_lem (kind_of (setting_data setting.now).known (resolved_data t.now))) operator) }
{
    let kind = walk(findings, setting, around, t);
    report_wrong(findings, is_truth(kind), operator);
}

// Arguments, for the parameters of a predicate where there is one.
#[cycle(walking)]
#[inline(never)]
fn walk_arguments(
    findings: &mut Findings,
    setting: &Setting<'_, '_>,
    around: Around,
    predicate: Option<usize>,
    ts: &[Resolved],
)
    ensures { found_in findings.new ≡ with_faults (found_in findings.old) (argument_faults (setting_data setting.now) around (wanted (setting_data setting.now).known predicate) (trees (map resolved_data ts.now))) }
{
    let mut place = 0;
    for t in ts {
        let parameter = setting.known.wanted(predicate, place);
        walk_argument(findings, setting, around, parameter, t);
        place += 1;
    }
}

#[tactic(auto, using(spectra_resolved::proofs::First::with_faults_append))]
// An argument for a parameter of a kind.
#[cycle(walking)]
fn walk_argument(
    findings: &mut Findings,
    setting: &Setting<'_, '_>,
    around: Around,
    parameter: Kind<'_>,
    t: &Resolved,
)
    ensures { found_in findings.new ≡ with_faults (found_in findings.old) (faults (setting_data setting.now) around (resolved_data t.now)
        ++ wrong (can_equal_lem (kind_data parameter.entry) (kind_of (setting_data setting.now).known (resolved_data t.now))) (first_of_lem (resolved_data t.now))) }
{
    let kind = walk(findings, setting, around, t);
    report_wrong(findings, can_equal(parameter, kind), first_of(t));
}
