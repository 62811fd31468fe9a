//! Single operations, whose refusals are told as halts.
//!
//! Contract (`MakesOnce`): a root of the operation, or a refusal that leaves what is kept. `Budget` comes only where the
//! store holds exactly its budget of nodes, each a constant, a part of a kept root or of an unfinished result.

ghost use Rattle.std.specs.Prelude.{◌≡◌, ◌<◌, true, false, Err};
ghost use Rattle.spec_model.specs.Diagrams.{value};
ghost use Rattle.bdd_store.specs.State.{IsRoot, diagram_of};
ghost use Rattle.bdd_ops.specs.Functions.{joined, join_of};
ghost use Rattle.bdd_bits.specs.Contents.{function_at};
ghost use Rattle.bdd_bits.specs.Orders.{level_of};
ghost use Rattle.bdd_ops.specs.Steps.{IsJoinOfParts};
ghost use Rattle.bdd_ops.specs.Calls.{negated, IsNegatedPart};
ghost use Rattle.bit_compile.specs.Making.{halted, Makes, MakesOnce};

use bdd_bits::{Diagrams, Root, StoreFault};
use regions::Halt;

/// A store's refusal as a halt.
pub fn told(made: Result<Root, StoreFault>) -> Result<Root, Halt>
    ensures { result ≡ halted made }
{
    match made {
        Ok(root) => Ok(root),
        Err(StoreFault::Full) => Err(Halt::Budget),
        Err(StoreFault::Memory) => Err(Halt::Memory),
    }
}

/// A constant. It takes no node.
#[inline(never)]
pub fn constant(diagrams: &mut Diagrams, value: bool) -> Result<Root, Halt>
    ensures made { Makes diagrams.old diagrams.new result (λ s. value) }
    ensures never { result ≡ Err Halt.Budget → ⊥ }
{
    told(diagrams.constant(value))
}

/// A second root of the same diagram. It takes no node.
pub fn keep(diagrams: &mut Diagrams, a: &Root) -> Result<Root, Halt>
    requires { IsRoot diagrams.old.state a.now }
    ensures made { Makes diagrams.old diagrams.new result (function_at diagrams.old a.now) }
    ensures never { result ≡ Err Halt.Budget → ⊥ }
{
    told(diagrams.keep(a))
}

/// The diagram that is true where both are.
pub fn and(diagrams: &mut Diagrams, a: &Root, b: &Root) -> Result<Root, Halt>
    requires a_kept { IsRoot diagrams.old.state a.now }
    requires b_kept { IsRoot diagrams.old.state b.now }
    ensures { MakesOnce diagrams.old diagrams.new result (joined (join_of true) (function_at diagrams.old a.now) (function_at diagrams.old b.now)) (IsJoinOfParts (join_of true) (diagram_of diagrams.old.state a.now) (diagram_of diagrams.old.state b.now)) }
{
    told(diagrams.and(a, b))
}

/// The diagram that is true where one of them is.
#[inline(never)]
pub fn or(diagrams: &mut Diagrams, a: &Root, b: &Root) -> Result<Root, Halt>
    requires a_kept { IsRoot diagrams.old.state a.now }
    requires b_kept { IsRoot diagrams.old.state b.now }
    ensures { MakesOnce diagrams.old diagrams.new result (joined (join_of false) (function_at diagrams.old a.now) (function_at diagrams.old b.now)) (IsJoinOfParts (join_of false) (diagram_of diagrams.old.state a.now) (diagram_of diagrams.old.state b.now)) }
{
    told(diagrams.or(a, b))
}

/// The diagram that is true where `a` is false.
#[inline(never)]
pub fn not(diagrams: &mut Diagrams, a: &Root) -> Result<Root, Halt>
    requires { IsRoot diagrams.old.state a.now }
    ensures { MakesOnce diagrams.old diagrams.new result (negated (function_at diagrams.old a.now)) (IsNegatedPart (diagram_of diagrams.old.state a.now)) }
{
    told(diagrams.not(a))
}

/// The diagram that is true where the level's bit is.
pub fn var(diagrams: &mut Diagrams, level: u32) -> Result<Root, Halt>
    requires { level < diagrams.old.state.table.levels }
    ensures { MakesOnce diagrams.old diagrams.new result (λ s. s level) (λ made. value made ≡ (λ s. s (level_of diagrams.old.order level))) }
{
    told(diagrams.var(level))
}
