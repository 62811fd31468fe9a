//! The diagrams of bounds on numbers in bits.

ghost use Rattle.std.specs.Prelude.{◌≡◌, ◌+◌, ◌<◌, ◌≤◌, ◌^◌, not, false};
ghost use Rattle.bdd_store.specs.State.{IsRoot};
ghost use Rattle.bdd_ops.specs.Functions.{joined, join_of};
ghost use Rattle.bdd_bits.specs.Contents.{function_at};
ghost use Rattle.bit_compile.specs.Making.{Makes, digit};
ghost use Rattle.bit_compile.specs.CaseRoots.{is_all};
ghost use Rattle.bit_compile.specs.Bounds.{is_below};

use crate::folds::{Fold, join_root};
use crate::named::digit_root;
use crate::numbers::power;
use crate::steps::constant;
use bdd_bits::{Diagrams, Root};
use regions::Halt;

/// How a bit that is false goes together with the bits after it, where the bound's digit is this one.
fn fold_at(high: bool) -> Fold
    ensures { is_all result ≡ not high }
{
    if high { Fold::Some } else { Fold::All }
}

/// The diagram that is true where a level's bit is false, or the rest is true; where the bound's digit is false, where both are.
fn low_with(diagrams: &mut Diagrams, level: u32, high: bool, rest: &Root) -> Result<Root, Halt>
    requires below { level < diagrams.old.state.table.levels }
    requires kept { IsRoot diagrams.old.state rest.now }
    ensures { Makes diagrams.old diagrams.new result (joined (join_of (not high)) (digit level false) (function_at diagrams.old rest.now)) }
{
    let bit = digit_root(diagrams, level, false)?;
    let whole = join_root(diagrams, fold_at(high), &bit, rest);
    diagrams.release(bit);
    whole
}

/// The diagram that is true where the number in the bits from a level on is below `n`.
pub fn number_below(diagrams: &mut Diagrams, level: u32, width: u32, n: usize) -> Result<Root, Halt>
    requires narrow { width ≤ 64 }
    requires few { level + width < 2 ^ 32 }
    requires below { level + width ≤ diagrams.old.state.table.levels }
    ensures { Makes diagrams.old diagrams.new result (is_below level width n) }
{
    if width == 0 {
        return constant(diagrams, 0 < n);
    }
    let half = power(width - 1);
    let high = half <= n;
    let left = if high { n - half } else { n };
    let rest = number_below(diagrams, level + 1, width - 1, left)?;
    let whole = low_with(diagrams, level, high, &rest);
    diagrams.release(rest);
    whole
}
