//! Which levels a diagram reads: it reads none of a list exactly where taking them out leaves the diagram as it is.

ghost use Rattle.std.specs.Prelude.{◌≡◌, ◌⊎◌, ◌||◌, ◌++◌, ℕ, true, false, IsTrue, IfOk, OnOk};
ghost use Rattle.spec_model.specs.Diagrams.{exists_over};
ghost use Rattle.bdd_store.specs.State.{IsRoot, diagram_of};
ghost use Rattle.bdd_ops.specs.Functions.{is_among, join_of};
ghost use Rattle.bdd_ops.specs.Reading.{Ignores};
ghost use Rattle.bdd_bits.specs.Contents.{function_at};
ghost use Rattle.bdd_bits.specs.Orders.{levels_of};
ghost use Rattle.bdd_ops.specs.Steps.{IsUnfinished, IsQuantifiedPart};
ghost use Rattle.bit_compile.specs.Making.{MakesOnce};
ghost use Rattle.bdd_products.specs.Products.{LeavesRoots, IgnoresAll};

use bdd_bits::{Diagrams, Root};
use bit_compile::steps::told;
use regions::Halt;

/// The diagram that is true where some values at `levels` make `a` true.
fn exists(diagrams: &mut Diagrams, a: &Root, levels: &[u32]) -> Result<Root, Halt>
    requires { IsRoot diagrams.old.state a.now }
    ensures { MakesOnce diagrams.old diagrams.new result (exists_over levels.now (function_at diagrams.old a.now))
        (IsUnfinished (join_of false) (IsQuantifiedPart (join_of false) (levels_of diagrams.old.order levels.now) (diagram_of diagrams.old.state a.now))) }
{
    told(diagrams.exists(a, levels))
}

/// Whether a diagram reads none of these levels.
pub fn ignores(diagrams: &mut Diagrams, line: &Root, levels: &[u32]) -> Result<bool, Halt>
    requires { IsRoot diagrams.old.state line.now }
    ensures ignored { IfOk result (λ b. IsTrue b → IgnoresAll levels.now (function_at diagrams.old line.now)) }
    ensures leaves { LeavesRoots diagrams.old diagrams.new result }
{
    let rest = exists(diagrams, line, levels)?;
    let same = diagrams.equal(&rest, line);
    diagrams.release(rest);
    Ok(same)
}

/// Adds all levels of a list.
pub fn add_all(levels: &mut Vec<u32>, more: &[u32]) -> Result<(), Halt>
    ensures added { OnOk result (levels.new.items ≡ levels.old.items ++ more.now) }
    ensures memory { result ≡ Err Halt.Budget → ⊥ }
{
    match levels.extend_from_slice(more) {
        Ok(()) => Ok(()),
        Err(_) => Err(Halt::Memory),
    }
}

/// Adds each of the levels to those that a diagram reads or to those that it doesn't. Halves of a list are looked at only
/// where the whole has some that are read.
pub fn part_levels(
    diagrams: &mut Diagrams,
    line: &Root,
    levels: &[u32],
    own: &mut Vec<u32>,
    ignored: &mut Vec<u32>,
) -> Result<(), Halt>
    requires { IsRoot diagrams.old.state line.now }
    ensures parted { OnOk result ((m : ℕ) → (is_among m own.new.items || is_among m ignored.new.items) ≡
        ((is_among m own.old.items || is_among m ignored.old.items) || is_among m levels.now)) }
    ensures ignored { OnOk result ((m : ℕ) → is_among m ignored.new.items ≡ true →
        (is_among m ignored.old.items ≡ true) ⊎ Ignores m (function_at diagrams.old line.now)) }
    ensures leaves { LeavesRoots diagrams.old diagrams.new result }
{
    let free = ignores(diagrams, line, levels)?;
    if free {
        return add_all(ignored, levels);
    }
    if levels.len() < 2 {
        return add_all(own, levels);
    }
    let (front, back) = levels.split_at(levels.len() / 2);
    part_levels(diagrams, line, front, own, ignored)?;
    part_levels(diagrams, line, back, own, ignored)
}
