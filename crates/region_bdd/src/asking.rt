//! Where some legal first input keeps the system out of a set, and whether there is such an input.

ghost use Rattle.std.specs.Prelude.{◌≡◌, ◌↔◌, Err, IfOk, IfErr, IsTrue};
ghost use Rattle.spec_model.specs.Diagrams.{Function, shifted};
ghost use Rattle.bdd_store.specs.State.{IsRoot, AddsRoot};
ghost use Rattle.bdd_bits.specs.Contents.{Contents, function_at};
ghost use Rattle.bdd_ops.specs.Calls.{negated};
ghost use Rattle.bdd_bits.specs.Calls.{SameNodes, RisesOver};
ghost use Rattle.bit_compile.specs.Making.{Makes};
ghost use Rattle.bit_compile.specs.Crowding.{HasCause};
ghost use Rattle.bdd_sets.specs.NamedGame.{IsOfStep, IsOfRest};
ghost use Rattle.bdd_sets.specs.Members.{AreMembers, move_functions, avoiding, lists_at};
ghost use Rattle.region_bdd.specs.Asking.{Answers};

use crate::own::Own;
use bdd_bits::{Diagrams, Root};
use bdd_sets::moves::{NextLevels, avoided};
use bdd_sets::spent::not_spent;
use bdd_sets::steps::shift;
use regions::Halt;

/// Where some legal first input has no legal first output into a set.
pub fn avoiding_set(
    diagrams: &mut Diagrams,
    t: &Root,
    own: &Own,
    levels: &NextLevels,
) -> Result<Root, Halt>
    requires t { IsRoot diagrams.old.state t.now }
    requires first { AreMembers diagrams.old own.now.first }
    requires rising { let old = diagrams.old in
        RisesOver old.state.table.levels old.order levels.now.to.items (function_at old t.now) }
    ensures made { let old = diagrams.old in
        let next = shifted levels.now.to.items (function_at old t.now) in
        Makes old diagrams.new result
        (avoiding (move_functions old own.now.first) levels.now.reply.items
        levels.now.all.items next) }
    ensures cause { let old = diagrams.old in
        HasCause old diagrams.new result (IsOfStep (lists_at old own.now.first) levels.now (shifted levels.now.to.items (function_at old t.now))) }
{
    let target = shift(diagrams, t, &levels.to)?;
    avoided(diagrams, target, &own.first, levels)
}

/// Where some legal first input has no legal first output out of a set.
pub fn avoiding_rest(
    diagrams: &mut Diagrams,
    t: &Root,
    own: &Own,
    levels: &NextLevels,
) -> Result<Root, Halt>
    requires t { IsRoot diagrams.old.state t.now }
    requires first { AreMembers diagrams.old own.now.first }
    requires rising { let old = diagrams.old in
        RisesOver old.state.table.levels old.order levels.now.to.items (function_at old t.now) }
    ensures made { let old = diagrams.old in
        let next = shifted levels.now.to.items (function_at old t.now) in
        Makes old diagrams.new result
        (avoiding (move_functions old own.now.first) levels.now.reply.items
        levels.now.all.items (negated next)) }
    ensures cause { let old = diagrams.old in
        HasCause old diagrams.new result (IsOfRest (lists_at old own.now.first) levels.now (shifted levels.now.to.items (function_at old t.now))) }
{
    let next = shift(diagrams, t, &levels.to)?;
    let target = not_spent(diagrams, next)?;
    avoided(diagrams, target, &own.first, levels)
}

/// Whether a diagram is that of no state. It is given back.
fn is_nothing(diagrams: &mut Diagrams, root: Root, nothing: &Root) -> bool
    requires root { IsRoot diagrams.old.state root }
    requires nothing { IsRoot diagrams.old.state nothing.now }
    ensures answer { let old = diagrams.old in
        IsTrue result ↔ function_at old root ≡ function_at old nothing.now }
    ensures released { AddsRoot diagrams.new.state diagrams.old.state root }
    ensures nodes { SameNodes diagrams.old diagrams.new }
{
    let same = diagrams.equal(&root, nothing);
    diagrams.release(root);
    same
}

/// Whether a diagram that was asked for is that of no state. It is given back.
pub fn is_empty(
    diagrams: &mut Diagrams,
    made: Result<Root, Halt>,
    nothing: &Root,
) -> Result<bool, Halt>
    requires made { IfOk made (λ r. IsRoot diagrams.old.state r) }
    requires nothing { IsRoot diagrams.old.state nothing.now }
    ensures answers { (base : Contents) (f : Function) → Makes base diagrams.old made f →
        IsRoot base.state nothing.now → Answers base diagrams.new result (f ≡ function_at base nothing.now) }
    ensures handed { IfErr result (λ halt. (made ≡ Err halt) × (diagrams.new ≡ diagrams.old)) }
{
    match made {
        Ok(root) => Ok(is_nothing(diagrams, root, nothing)),
        Err(halt) => Err(halt),
    }
}

/// Whether a diagram that was asked for is not that of no state. It is given back.
pub fn is_not_empty(
    diagrams: &mut Diagrams,
    made: Result<Root, Halt>,
    nothing: &Root,
) -> Result<bool, Halt>
    requires made { IfOk made (λ r. IsRoot diagrams.old.state r) }
    requires nothing { IsRoot diagrams.old.state nothing.now }
    ensures answers { (base : Contents) (f : Function) → Makes base diagrams.old made f →
        IsRoot base.state nothing.now → Answers base diagrams.new result (f ≡ function_at base nothing.now → ⊥) }
    ensures handed { IfErr result (λ halt. (made ≡ Err halt) × (diagrams.new ≡ diagrams.old)) }
{
    match made {
        Ok(root) => Ok(!is_nothing(diagrams, root, nothing)),
        Err(halt) => Err(halt),
    }
}
