//! The kinds and faults of single parts of an expression.

ghost use Rattle.std.specs.Prelude.{◌≡◌};
ghost use Rattle.spectra_resolved.specs.Findings.{with_faults};
ghost use Rattle.spectra_resolved.specs.Reports.{found_in};
ghost use Rattle.spectra_judge.specs.KindViews.{kind_data, known_data, setting_data};
ghost use Rattle.spectra_judge.specs.Judged.{hole_kind as hole_kind_lem, leaf_kind as leaf_kind_lem, misuse_kind as misuse_kind_lem, wrong, wide, binary_faults, remainder_faults, is_wrong as is_wrong_lem, index_faults, leaf_faults, misuse_faults};

use crate::around::Around;
use crate::findings::report_if;
use crate::kind::{Kind, is_outside, is_whole, is_wide, reduced};
use crate::known::{Known, Setting, kind_at};
use crate::misplaced::{report_own, report_parameter, report_variable};
use crate::operators::{gives, takes};
use spectra_resolved::findings::Findings;
use spectra_resolved::naming::fault_of;
use spectra_resolved::spot::{Mark, Spot};
use spectra_resolved::tree::{Extent, Hole, Leaf, Misuse};
use spectra_trees::faults::{OUT_OF_BOUNDS, WIDE_INT, WRONG_TYPE};
use spectra_trees::tree::BinaryWord;

// What fits where a hole is.
fn hole_kind<'a>(hole: Hole) -> Kind<'a>
    ensures { kind_data result ≡ hole_kind_lem hole }
{
    match hole {
        Hole::Anything => Kind::Anything,
        Hole::Truth => Kind::Truth,
    }
}

/// The kind of a tree without parts.
#[inline(never)]
pub fn leaf_kind<'a>(known: &Known<'_, 'a>, leaf: Leaf) -> Kind<'a>
    ensures { kind_data result ≡ leaf_kind_lem (known_data known.now) leaf }
{
    match leaf {
        Leaf::Truth(_) => Kind::Truth,
        Leaf::Number(z) => Kind::Whole(z, z),
        Leaf::EnumName(n) => Kind::OneName(n),
        Leaf::Variable(k) => kind_at(known.variables, k),
        Leaf::Parameter(k) => kind_at(known.parameters, k),
        Leaf::Own(k) => kind_at(known.own, k),
        Leaf::Define(k) => kind_at(known.defines, k),
        Leaf::Bound(_) => Kind::SomeWhole,
        Leaf::Hole(hole) => hole_kind(hole),
    }
}

/// Whether a quantifier's bounds have numbers, but no range of them.
pub fn is_wrong(extent: Extent) -> bool
    ensures { result ≡ is_wrong_lem extent }
{
    match extent {
        Extent::Wrong => true,
        Extent::Open | Extent::Right => false,
    }
}

/// What a misused name fits.
pub fn misuse_kind<'a>(misuse: Misuse) -> Kind<'a>
    ensures { kind_data result ≡ misuse_kind_lem misuse }
{
    match misuse {
        Misuse::Arity(_) => Kind::Truth,
        Misuse::Unknown => Kind::Anything,
        Misuse::Bare(_) => Kind::Anything,
        Misuse::Called(_) => Kind::Anything,
    }
}

/// Reports an operand or argument of the wrong kind.
#[inline(never)]
pub fn report_wrong(findings: &mut Findings, right: bool, at: Spot)
    ensures { found_in findings.new ≡ with_faults (found_in findings.old) (wrong right at) }
{
    report_if(findings, !right, WRONG_TYPE, at);
}

// Reports a span that is too wide.
fn report_wide(findings: &mut Findings, kind: Kind<'_>, at: Spot)
    ensures { found_in findings.new ≡ with_faults (found_in findings.old) (wide (kind_data kind.entry) at) }
{
    report_if(findings, is_wide(kind), WIDE_INT, at);
}

#[tactic(auto, using(spectra_resolved::proofs::First::with_faults_append))]
/// Reports what is wrong with the operands of an operator, and with what it gives.
#[inline(never)]
pub fn report_binary(findings: &mut Findings, word: BinaryWord, a: Kind<'_>, b: Kind<'_>, at: Spot)
    ensures { found_in findings.new ≡ with_faults (found_in findings.old) (binary_faults word (kind_data a.entry) (kind_data b.entry) at) }
{
    report_wrong(findings, takes(word, a, b), at);
    report_wide(findings, gives(word, a, b), at);
}

#[tactic(auto, using(spectra_resolved::proofs::First::with_faults_append))]
/// Reports what is wrong with a remainder by `n`, of an operand of a kind.
#[inline(never)]
pub fn report_remainder(
    findings: &mut Findings,
    kind: Kind<'_>,
    operator: Spot,
    number_at: Spot,
    n: i64,
)
    ensures { found_in findings.new ≡ with_faults (found_in findings.old) (remainder_faults (kind_data kind.entry) operator number_at n) }
{
    report_wrong(findings, is_whole(kind), operator);
    report_if(findings, n <= 0, WIDE_INT, number_at);
    report_wide(findings, reduced(n), operator);
}

#[tactic(auto, using(spectra_resolved::proofs::First::with_faults_append))]
/// Reports what is wrong with an index of a kind, whose first token stands at `first`, behind the name of an array of so many
/// elements, of which this is the first one.
#[inline(never)]
pub fn report_index(
    findings: &mut Findings,
    setting: &Setting<'_, '_>,
    around: Around,
    at: Mark,
    array: usize,
    count: usize,
    kind: Kind<'_>,
    first: Spot,
)
    ensures { found_in findings.new ≡ with_faults (found_in findings.old) (index_faults (setting_data setting.now) around at array count (kind_data kind.entry) first) }
{
    let system = setting.known.is_system(array);
    report_variable(findings, setting, around, at, system);
    report_wrong(findings, is_whole(kind), first);
    report_if(findings, is_outside(count, kind), OUT_OF_BOUNDS, at.spot);
}

/// Reports what is wrong with a tree without parts.
#[inline(never)]
pub fn report_leaf(
    findings: &mut Findings,
    setting: &Setting<'_, '_>,
    around: Around,
    at: Mark,
    leaf: Leaf,
)
    ensures { found_in findings.new ≡ with_faults (found_in findings.old) (leaf_faults (setting_data setting.now) around at leaf) }
{
    match leaf {
        Leaf::Number(z) => report_wide(findings, Kind::Whole(z, z), at.spot),
        Leaf::Variable(k) => {
            let system = setting.known.is_system(k);
            report_variable(findings, setting, around, at, system);
        }
        Leaf::Parameter(_) => report_parameter(findings, setting, around, at),
        Leaf::Own(_) => report_own(findings, setting, around, at),
        Leaf::Truth(_) => {}
        Leaf::EnumName(_) => {}
        Leaf::Define(_) => {}
        Leaf::Bound(_) => {}
        Leaf::Hole(_) => {}
    }
}

/// Reports a misused name, and what is wrong with what it reads.
#[inline(never)]
pub fn report_misuse(
    findings: &mut Findings,
    setting: &Setting<'_, '_>,
    around: Around,
    at: Mark,
    misuse: Misuse,
)
    ensures { found_in findings.new ≡ with_faults (found_in findings.old) (misuse_faults (setting_data setting.now) around at misuse) }
{
    findings.report(fault_of(misuse), at.spot);
    match misuse {
        Misuse::Called(leaf) => report_leaf(findings, setting, around, at, leaf),
        Misuse::Unknown => {}
        Misuse::Bare(_) => {}
        Misuse::Arity(_) => {}
    }
}
