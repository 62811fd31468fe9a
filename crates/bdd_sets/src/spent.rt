//! Operations that take their arguments: each is given back, whether or not the result is made.
//!
//! What a call leaves is told from the time before its arguments were made: against that time the result is all that is
//! new, and after a refusal nothing is.

ghost use Rattle.std.specs.Prelude.{◌≡◌, ◌<◌, true, Ok, Err, IfOk, IfErr};
ghost use Rattle.spec_model.specs.Diagrams.{Function, ite, and_exists_over, shifted};
ghost use Rattle.bdd_store.specs.State.{IsRoot, roots_at};
ghost use Rattle.bdd_ops.specs.Functions.{joined, join_of};
ghost use Rattle.bdd_bits.specs.Contents.{Contents, function_at};
ghost use Rattle.bdd_ops.specs.Calls.{negated};
ghost use Rattle.bdd_bits.specs.Calls.{RisesOver};
ghost use Rattle.bit_compile.specs.Making.{Makes};
ghost use Rattle.bdd_sets.specs.Members.{AreRoots, all_true, functions_at, IsThis, IsEither, IsBesideAll};
ghost use Rattle.bit_compile.specs.Crowding.{HasCause};
ghost use Rattle.bdd_sets.specs.NamedMoves.{IsFirstOfAll};

use crate::steps::{and_exists, ite, shift};
use bdd_bits::{Diagrams, Root};
use bit_compile::steps::{and, not, told};
use regions::Halt;

/// The diagram that is true where both are. The first is given back.
pub fn and_spent(diagrams: &mut Diagrams, a: Root, b: &Root) -> Result<Root, Halt>
    requires a_kept { IsRoot diagrams.old.state a }
    requires b_kept { IsRoot diagrams.old.state b.now }
    ensures made { (base : Contents) (f : Function) → Makes base diagrams.old (Ok a) f → Makes base diagrams.new result (joined (join_of true) f (function_at diagrams.old b.now)) }
    ensures cause { (base : Contents) (f : Function) → Makes base diagrams.old (Ok a) f → HasCause base diagrams.new result (IsThis f) }
{
    let whole = and(diagrams, &a, b);
    diagrams.release(a);
    whole
}

/// The diagram that is true where both are. Both are given back.
pub fn join_spent(diagrams: &mut Diagrams, a: Root, b: Root) -> Result<Root, Halt>
    requires a_kept { IsRoot diagrams.old.state a }
    requires b_kept { IsRoot diagrams.old.state b }
    requires apart { a ≡ b → 1 < roots_at diagrams.old.state a }
    ensures made { (base mid : Contents) (f g : Function) → Makes base mid (Ok a) f → Makes mid diagrams.old (Ok b) g → Makes base diagrams.new result (joined (join_of true) f g) }
    ensures cause { (base mid : Contents) (f g : Function) → Makes base mid (Ok a) f → Makes mid diagrams.old (Ok b) g → HasCause base diagrams.new result (IsEither f g) }
{
    let whole = and(diagrams, &a, &b);
    diagrams.release(b);
    diagrams.release(a);
    whole
}

/// The diagram that is true where some values at `levels` make both true. Both are given back.
pub fn exists_spent(diagrams: &mut Diagrams, a: Root, b: Root, levels: &[u32]) -> Result<Root, Halt>
    requires a_kept { IsRoot diagrams.old.state a }
    requires b_kept { IsRoot diagrams.old.state b }
    requires apart { a ≡ b → 1 < roots_at diagrams.old.state a }
    ensures made { (base mid : Contents) (f g : Function) → Makes base mid (Ok a) f → Makes mid diagrams.old (Ok b) g → Makes base diagrams.new result (and_exists_over levels.now f g) }
    ensures cause { (base mid : Contents) (f g : Function) → Makes base mid (Ok a) f → Makes mid diagrams.old (Ok b) g → HasCause base diagrams.new result (IsEither f g) }
{
    let whole = and_exists(diagrams, &a, &b, levels);
    diagrams.release(b);
    diagrams.release(a);
    whole
}

/// The diagram that is true where `a` is false. It is given back.
pub fn not_spent(diagrams: &mut Diagrams, a: Root) -> Result<Root, Halt>
    requires { IsRoot diagrams.old.state a }
    ensures made { (base : Contents) (f : Function) → Makes base diagrams.old (Ok a) f → Makes base diagrams.new result (negated f) }
    ensures cause { (base : Contents) (f : Function) → Makes base diagrams.old (Ok a) f → HasCause base diagrams.new result (IsThis f) }
{
    let other = not(diagrams, &a);
    diagrams.release(a);
    other
}

/// The diagram that is `b` where `a` is true, and else `c`. The first is given back.
pub fn ite_spent(diagrams: &mut Diagrams, a: Root, b: &Root, c: &Root) -> Result<Root, Halt>
    requires a_kept { IsRoot diagrams.old.state a }
    requires b_kept { IsRoot diagrams.old.state b.now }
    requires c_kept { IsRoot diagrams.old.state c.now }
    ensures made { (base : Contents) (f : Function) → Makes base diagrams.old (Ok a) f → Makes base diagrams.new result (ite f (function_at diagrams.old b.now) (function_at diagrams.old c.now)) }
    ensures cause { (base : Contents) (f : Function) → Makes base diagrams.old (Ok a) f → HasCause base diagrams.new result (IsThis f) }
{
    let whole = ite(diagrams, &a, b, c);
    diagrams.release(a);
    whole
}

/// The diagram that reads at level `to[k]` what `a` reads at level `k`. The latter is given back.
pub fn shift_spent(diagrams: &mut Diagrams, a: Root, to: &[u32]) -> Result<Root, Halt>
    requires kept { IsRoot diagrams.old.state a }
    requires rising { RisesOver diagrams.old.state.table.levels diagrams.old.order to.now (function_at diagrams.old a) }
    ensures made { (base : Contents) (f : Function) → Makes base diagrams.old (Ok a) f → Makes base diagrams.new result (shifted to.now f) }
    ensures cause { (base : Contents) (f : Function) → Makes base diagrams.old (Ok a) f → HasCause base diagrams.new result (IsThis f) }
{
    let moved = shift(diagrams, &a, to);
    diagrams.release(a);
    moved
}

/// The conjunction of several diagrams, joined in their order.
pub fn all_of(diagrams: &mut Diagrams, members: &[Root]) -> Result<Root, Halt>
    requires { AreRoots diagrams.old members.now }
    ensures made { Makes diagrams.old diagrams.new result (all_true (functions_at diagrams.old members.now)) }
    ensures cause { HasCause diagrams.old diagrams.new result (IsFirstOfAll (functions_at diagrams.old members.now)) }
{
    let mut whole = told(diagrams.constant(true))?;
    for member in members {
        whole = and_spent(diagrams, whole, member)?;
    }
    Ok(whole)
}

/// A diagram that is held, and the conjunction of several others. Where that isn't made, the first is given back.
pub fn beside(diagrams: &mut Diagrams, held: Root, members: &[Root]) -> Result<(Root, Root), Halt>
    requires kept { IsRoot diagrams.old.state held }
    requires members { AreRoots diagrams.old members.now }
    ensures same { IfOk result (λ p. p.0 ≡ held) }
    ensures made { IfOk result (λ p. Makes diagrams.old diagrams.new (Ok p.1) (all_true (functions_at diagrams.old members.now))) }
    ensures refused { IfErr result (λ halt. (base : Contents) (f : Function) → Makes base diagrams.old (Ok held) f → Makes base diagrams.new (Err halt) f) }
    ensures cause { (base : Contents) (f : Function) → Makes base diagrams.old (Ok held) f → HasCause base diagrams.new result (IsBesideAll f (functions_at diagrams.old members.now)) }
{
    match all_of(diagrams, members) {
        Ok(all) => Ok((held, all)),
        Err(halt) => {
            diagrams.release(held);
            Err(halt)
        }
    }
}
