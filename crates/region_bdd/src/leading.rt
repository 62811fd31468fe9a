//! A set with where every legal output leads into it.

ghost use Rattle.std.specs.Prelude.{◌≡◌, Ok, Err};
ghost use Rattle.spec_model.specs.Diagrams.{Function, shifted};
ghost use Rattle.bdd_store.specs.State.{IsRoot};
ghost use Rattle.bdd_bits.specs.Contents.{Contents, function_at};
ghost use Rattle.bdd_bits.specs.Calls.{RisesOver};
ghost use Rattle.bit_compile.specs.Making.{Makes};
ghost use Rattle.bit_compile.specs.Crowding.{HasCause};
ghost use Rattle.bdd_sets.specs.NamedGame.{IsOfRest};
ghost use Rattle.bdd_sets.specs.Members.{AreMembers, move_functions, lists_at};
ghost use Rattle.region_bdd.specs.Leading.{leading_in, MakesTwo};

use bdd_bits::{Diagrams, Root};
use bdd_sets::moves::{Members, NextLevels, kept_out};
use bdd_sets::spent::not_spent;
use bdd_sets::steps::shift;
use bit_compile::steps::keep;
use regions::Halt;

/// Where every legal output leads into a set.
fn leading(
    diagrams: &mut Diagrams,
    t: &Root,
    members: &Members,
    levels: &NextLevels,
) -> Result<Root, Halt>
    requires t { IsRoot diagrams.old.state t.now }
    requires members { AreMembers diagrams.old members.now }
    requires rising { let old = diagrams.old in
        RisesOver old.state.table.levels old.order levels.now.to.items (function_at old t.now) }
    ensures made { let old = diagrams.old in
        let set = function_at old t.now in
        Makes old diagrams.new result (leading_in (move_functions old members.now) levels.now set) }
    ensures cause { let old = diagrams.old in
        HasCause old diagrams.new result (IsOfRest (lists_at old members.now) levels.now (shifted levels.now.to.items (function_at old t.now))) }
{
    let next = shift(diagrams, t, &levels.to)?;
    let target = not_spent(diagrams, next)?;
    kept_out(diagrams, target, members, levels)
}

/// A second root of a diagram besides one that was made, which is given back where there is none.
fn beside_made(diagrams: &mut Diagrams, t: &Root, made: Root) -> Result<(Root, Root), Halt>
    requires t { IsRoot diagrams.old.state t.now }
    requires made { IsRoot diagrams.old.state made }
    ensures made { (base : Contents) (h : Function) → Makes base diagrams.old (Ok made) h →
        IsRoot base.state t.now → MakesTwo base diagrams.new result (function_at base t.now) h }
    ensures never { result ≡ Err Halt.Budget → ⊥ }
{
    match keep(diagrams, t) {
        Ok(root) => Ok((root, made)),
        Err(halt) => {
            diagrams.release(made);
            Err(halt)
        }
    }
}

/// A second root of a set, and where every legal output leads into it.
pub fn with_leading(
    diagrams: &mut Diagrams,
    t: &Root,
    members: &Members,
    levels: &NextLevels,
) -> Result<(Root, Root), Halt>
    requires t { IsRoot diagrams.old.state t.now }
    requires members { AreMembers diagrams.old members.now }
    requires rising { let old = diagrams.old in
        RisesOver old.state.table.levels old.order levels.now.to.items (function_at old t.now) }
    ensures made { let old = diagrams.old in
        let set = function_at old t.now in
        let leads = leading_in (move_functions old members.now) levels.now set in
        MakesTwo old diagrams.new result set leads }
    ensures cause { let old = diagrams.old in
        HasCause old diagrams.new result (IsOfRest (lists_at old members.now) levels.now (shifted levels.now.to.items (function_at old t.now))) }
{
    let leads = leading(diagrams, t, members, levels)?;
    beside_made(diagrams, t, leads)
}
