//! Further operations, whose refusals are told as halts.

ghost use Rattle.std.specs.Prelude.{false};
ghost use Rattle.spec_model.specs.Diagrams.{ite, and_exists_over, shifted};
ghost use Rattle.bdd_store.specs.State.{IsRoot, diagram_of};
ghost use Rattle.bdd_ops.specs.Functions.{join_of};
ghost use Rattle.bdd_bits.specs.Contents.{function_at};
ghost use Rattle.bdd_ops.specs.Steps.{IsChoiceOfParts, IsUnfinished, IsRelatedPart, IsShiftedPart};
ghost use Rattle.bdd_bits.specs.Calls.{RisesOver};
ghost use Rattle.bdd_bits.specs.Orders.{levels_of, moved_levels};
ghost use Rattle.bit_compile.specs.Making.{MakesOnce};

use bdd_bits::{Diagrams, Root};
use bit_compile::steps::told;
use regions::Halt;

/// The diagram that is `b` where `a` is true, and else `c`.
pub fn ite(diagrams: &mut Diagrams, a: &Root, b: &Root, c: &Root) -> Result<Root, Halt>
    requires a_kept { IsRoot diagrams.old.state a.now }
    requires b_kept { IsRoot diagrams.old.state b.now }
    requires c_kept { IsRoot diagrams.old.state c.now }
    ensures { MakesOnce diagrams.old diagrams.new result (ite (function_at diagrams.old a.now) (function_at diagrams.old b.now) (function_at diagrams.old c.now)) (IsChoiceOfParts (diagram_of diagrams.old.state a.now) (diagram_of diagrams.old.state b.now) (diagram_of diagrams.old.state c.now)) }
{
    told(diagrams.ite(a, b, c))
}

/// The diagram that is true where some values at `levels` make both true.
pub fn and_exists(diagrams: &mut Diagrams, a: &Root, b: &Root, levels: &[u32]) -> Result<Root, Halt>
    requires a_kept { IsRoot diagrams.old.state a.now }
    requires b_kept { IsRoot diagrams.old.state b.now }
    ensures { MakesOnce diagrams.old diagrams.new result (and_exists_over levels.now (function_at diagrams.old a.now) (function_at diagrams.old b.now)) (IsUnfinished (join_of false) (IsRelatedPart (levels_of diagrams.old.order levels.now) (diagram_of diagrams.old.state a.now) (diagram_of diagrams.old.state b.now))) }
{
    told(diagrams.and_exists(a, b, levels))
}

/// The diagram that reads at level `to[k]` what `a` reads at level `k`.
pub fn shift(diagrams: &mut Diagrams, a: &Root, to: &[u32]) -> Result<Root, Halt>
    requires kept { IsRoot diagrams.old.state a.now }
    requires rising { RisesOver diagrams.old.state.table.levels diagrams.old.order to.now (function_at diagrams.old a.now) }
    ensures { MakesOnce diagrams.old diagrams.new result (shifted to.now (function_at diagrams.old a.now)) (IsShiftedPart (moved_levels diagrams.old.order to.now) (diagram_of diagrams.old.state a.now)) }
{
    told(diagrams.shift(a, to))
}
