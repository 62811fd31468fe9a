//! Single operations, and what fills the budget where one is refused.

ghost use Rattle.std.specs.Prelude.{◌<◌};
ghost use Rattle.spec_model.specs.Diagrams.{ite};
ghost use Rattle.bdd_store.specs.State.{IsRoot};
ghost use Rattle.bdd_ops.specs.Contents.{function_at};
ghost use Rattle.bdd_reorder.specs.Rearranged.{NoFunction, IsBit};
ghost use Rattle.bdd_reorder.specs.Making.{MakesOne, branched};

use bdd_ops::{Diagrams, Root, StoreFault};

/// The diagram that is true where the level's bit is.
fn var(diagrams: &mut Diagrams, level: u32) -> Result<Root, StoreFault>
    requires { level < diagrams.old.state.table.levels }
    ensures { MakesOne diagrams.old diagrams.new result (λ s. s level) NoFunction }
{
    diagrams.var(level)
}

/// The diagram that is `b` where `a` is true, and else `c`.
fn ite(diagrams: &mut Diagrams, a: &Root, b: &Root, c: &Root) -> Result<Root, StoreFault>
    requires a_kept { IsRoot diagrams.old.state a.now }
    requires b_kept { IsRoot diagrams.old.state b.now }
    requires c_kept { IsRoot diagrams.old.state c.now }
    ensures { MakesOne diagrams.old diagrams.new result (ite (function_at diagrams.old a.now) (function_at diagrams.old b.now) (function_at diagrams.old c.now)) NoFunction }
{
    diagrams.ite(a, b, c)
}

/// The diagram that is `high` where the level's bit is true, and else `low`. The two may read that level and earlier ones.
pub fn branch(
    diagrams: &mut Diagrams,
    level: u32,
    low: &Root,
    high: &Root,
) -> Result<Root, StoreFault>
    requires level { level < diagrams.old.state.table.levels }
    requires low_kept { IsRoot diagrams.old.state low.now }
    requires high_kept { IsRoot diagrams.old.state high.now }
    ensures { MakesOne diagrams.old diagrams.new result (branched level (function_at diagrams.old low.now) (function_at diagrams.old high.now)) (IsBit level) }
{
    let bit = var(diagrams, level)?;
    let made = ite(diagrams, &bit, high, low);
    diagrams.release(bit);
    made
}
