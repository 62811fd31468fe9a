//! Regular expressions with each name replaced by what it stands for.

ghost use Rattle.std.specs.Prelude.{◌≡◌, false, map, IfOk, OnOk};
ghost use Rattle.spectra_trees.specs.Data as written;
ghost use Rattle.spectra_trees.specs.Views.{repeat_data, regex_data as tree_regex};
ghost use Rattle.spectra_resolved.specs.Findings.{with_faults};
ghost use Rattle.spectra_resolved.specs.Reports.{found_in};
ghost use Rattle.spectra_resolved.specs.Chained.{repeated, regexes as regexes_lem};
ghost use Rattle.spectra_resolved.specs.Views.{regex_data};
ghost use Rattle.spectra_resolved.specs.Regexes.{times_of as times_of_lem, regex_misuses, misuses_of_regexes};
ghost use Rattle.spectra_resolved.specs.Repeats.{is_repeat};
ghost use Rattle.spectra_resolved.specs.ResolverViews.{regex_by, regexes_by};

use crate::findings::Findings;
use crate::numbers::number_of;
use crate::resolving::{Resolver, tree};
use crate::tree::{Regex, Times};
use spectra_trees::tree::{RegexTree, RepeatTree};
use std::alloc::{AllocError, Global};

// How often a part is repeated.
fn times_of(repeat: &RepeatTree) -> Times
    ensures { result ≡ times_of_lem (repeat_data repeat.now) }
{
    let (least, most) = match repeat {
        RepeatTree::Star => (0, None),
        RepeatTree::Plus => (1, None),
        RepeatTree::Optional => (0, Some(1)),
        RepeatTree::Exactly(n) => (number_of(n.as_str()), Some(number_of(n.as_str()))),
        RepeatTree::Between(n, m) => (number_of(n.as_str()), Some(number_of(m.as_str()))),
    };
    Times { least, most }
}

#[tactic(auto, using(crate::proofs::Trees::repeat_data))]
// A part with repeats behind it, where there are any.
fn repeat(alloc: Global, part: Regex, times: Vec<Times>) -> Result<Regex, AllocError>
    ensures { IfOk result (λ r. regex_data r ≡ repeated (regex_data part) times.items) }
{
    if times.is_empty() {
        Ok(part)
    } else {
        Ok(Regex::Repeat(Box::new(alloc, part)?, times))
    }
}

/// A regular expression. Each misused name in its atoms is reported.
#[cycle(regexes)]
pub fn regex(
    resolver: &Resolver<'_, '_>,
    findings: &mut Findings,
    r: &RegexTree,
) -> Result<Regex, AllocError>
    ensures regex { IfOk result (λ made. regex_data made ≡ regex_by resolver.now (tree_regex r.now)) }
    ensures found { OnOk result (found_in findings.new ≡ with_faults (found_in findings.old) (regex_misuses (regex_by resolver.now (tree_regex r.now)))) }
{
    let mut times = Vec::new(resolver.alloc);
    let mut part = r;
    'repeats: while let RegexTree::Repeat(inner, repeat) = part {
        times.push(times_of(repeat))?;
        part = inner;
    }
    times.reverse();
    let made = part_of(resolver, findings, part)?;
    repeat(resolver.alloc, made, times)
}

// A regular expression that is no repeat.
#[cycle(regexes)]
fn part_of(
    resolver: &Resolver<'_, '_>,
    findings: &mut Findings,
    r: &RegexTree,
) -> Result<Regex, AllocError>
    requires alone { is_repeat (tree_regex r.now) ≡ false }
    ensures regex { IfOk result (λ made. regex_data made ≡ regex_by resolver.now (tree_regex r.now)) }
    ensures found { OnOk result (found_in findings.new ≡ with_faults (found_in findings.old) (regex_misuses (regex_by resolver.now (tree_regex r.now)))) }
{
    match r {
        RegexTree::Atom(e) => {
            let atom = tree(resolver, findings, e)?;
            Ok(Regex::Atom(Box::new(resolver.alloc, atom)?))
        }
        RegexTree::Cat(rs) => Ok(Regex::Cat(regexes(resolver, findings, rs)?)),
        RegexTree::Alt(rs) => Ok(Regex::Alt(regexes(resolver, findings, rs)?)),
        RegexTree::Repeat(_, _) => unreachable!(),
    }
}

// Several regular expressions.
#[tactic(auto, using(crate::proofs::First::with_faults_append))]
#[cycle(regexes)]
fn regexes(
    resolver: &Resolver<'_, '_>,
    findings: &mut Findings,
    rs: &[RegexTree],
) -> Result<Vec<Regex>, AllocError>
    ensures regexes { IfOk result (λ made. regexes_lem (map regex_data made.items) ≡ regexes_by resolver.now (written.regexes (map tree_regex rs.now))) }
    ensures found { OnOk result (found_in findings.new ≡ with_faults (found_in findings.old) (misuses_of_regexes (regexes_by resolver.now (written.regexes (map tree_regex rs.now))))) }
{
    let mut made = Vec::with_capacity(resolver.alloc, rs.len())?;
    for r in rs {
        made.push(regex(resolver, findings, r)?)?;
    }
    Ok(made)
}
