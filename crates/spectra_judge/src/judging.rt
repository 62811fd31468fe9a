//! The judge.

ghost use Rattle.std.specs.Prelude.{◌≡◌};
ghost use Rattle.spectra_resolved.specs.Views.{resolved_data};
ghost use Rattle.spectra_resolved.specs.Findings.{first_of_faults};
ghost use Rattle.spectra_judge.specs.KindViews.{kind_data, known_data};
ghost use Rattle.spectra_judge.specs.Judged.{kind_of, faults_of};

use crate::around::nothing_open;
use crate::chains::first_of;
use crate::kind::Kind;
use crate::known::{Known, Setting};
use crate::leaves::report_wrong;
use crate::standing::{bans_of, is_wanted};
use crate::walking::walk;
use spectra_resolved::findings::{Finding, Findings};
use spectra_resolved::stand::Stand;
use spectra_resolved::tree::Resolved;

/// The kind of an expression, and the first of its faults where it has one.
#[derive(Clone, Copy)]
pub struct Judged<'a> {
    pub kind: Kind<'a>,
    pub fault: Option<Finding>,
}

#[tactic(auto, using(spectra_resolved::proofs::First::with_faults_append))]
/// The kind of an expression that stands somewhere, and the first of its faults, also of misused names: the one at the least place, and
/// of several there the one with the smallest number. It takes no memory.
pub fn judge<'a>(known: &Known<'_, 'a>, stand: Stand, tree: &Resolved) -> Judged<'a>
    ensures kind { kind_data result.kind ≡ kind_of (known_data known.now) (resolved_data tree.now) }
    ensures fault { result.fault ≡ first_of_faults (faults_of (known_data known.now) stand (resolved_data tree.now)) }
{
    let mut findings = Findings::new();
    let setting = Setting {
        known: *known,
        bans: bans_of(stand),
    };
    let kind = walk(&mut findings, &setting, nothing_open(), tree);
    report_wrong(&mut findings, is_wanted(stand, kind), first_of(tree));
    Judged {
        kind,
        fault: findings.first(),
    }
}
