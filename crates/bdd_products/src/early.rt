//! What players force, the early way first. Where it finds the store full, all that it made is given back, and the plain way
//! is tried, whose refusal alone is answered. Where lines are grouped, which is under no declared order, its own refusal is
//! answered, and nothing is told of it.

ghost use Rattle.std.specs.Prelude.{◌≡◌, ◌≤◌, ◌+◌, ℕ, true, false, Ok};
ghost use Rattle.spec_model.specs.Diagrams.{Function, ite, shifted};
ghost use Rattle.bdd_store.specs.State.{IsRoot, roots_at};
ghost use Rattle.bdd_ops.specs.Functions.{joined, join_of};
ghost use Rattle.bdd_bits.specs.Contents.{Contents, function_at};
ghost use Rattle.bdd_ops.specs.Calls.{negated};
ghost use Rattle.bdd_bits.specs.Calls.{KeepsRoots, SameNodes, RisesOver};
ghost use Rattle.bit_compile.specs.Making.{Makes};
ghost use Rattle.bit_compile.specs.Crowding.{HasCause};
ghost use Rattle.bdd_sets.specs.declared.moves.NextLevels.{NextLevels};
ghost use Rattle.bdd_sets.specs.Members.{MoveFunctions, AreMembers, move_functions, avoiding, lists_at};
ghost use Rattle.bdd_sets.specs.NamedMoves.{IsOfAvoiding};
ghost use Rattle.bdd_sets.specs.NamedGame.{IsOfStep, IsOfRest};
ghost use Rattle.bdd_products.specs.Early.{IsEarly, FitsEarly, AreLinesOf, AreEarlyRoots, AreRootsOfEarly, roots_of_products, roots_of_early, is_grouped};

use crate::product::{Product, taken_out};
use bdd_bits::{Diagrams, Root};
use bdd_sets::forcing::StepRoots;
use bdd_sets::moves::{Members, NextLevels, avoided as avoided_plainly};
use bdd_sets::spent::{and_spent, ite_spent, not_spent};
use bdd_sets::steps::shift;
use bit_compile::steps::keep;
use regions::Halt;
use std::alloc::Global;

/// The lines of moves as products. They have to be given back.
pub struct Early {
    /// The legal outputs and the update, out of which the next bits of outputs and hidden tables are taken.
    pub replies: Product,
    /// The legal inputs, out of which all next bits are taken.
    pub inputs: Product,
    /// Whether the lines are grouped.
    pub grouped: bool,
}

impl Early {
    /// The products of a game's lines, in groups if they are asked for, or none where one is refused.
    pub fn make(
        diagrams: &mut Diagrams,
        alloc: Global,
        members: &Members,
        levels: &NextLevels,
        grouped: bool,
    ) -> Option<Early>
        requires { AreMembers diagrams.old members.now }
        ensures fits { FitsEarly (move_functions diagrams.old members.now) levels.now diagrams.new result }
        ensures lines { grouped ≡ false → AreLinesOf (lists_at diagrams.old members.now) diagrams.new result }
        ensures plain { grouped ≡ false → is_grouped result ≡ false }
        ensures added { (n : ℕ) → roots_at diagrams.new.state n ≡ roots_at diagrams.old.state n + roots_of_early n result }
        ensures keeps { KeepsRoots diagrams.old diagrams.new }
    {
        let made = Product::make(
            diagrams,
            alloc,
            &members.outputs,
            &members.update,
            &levels.reply,
            grouped,
        );
        let Ok(replies) = made else {
            return None;
        };
        match Product::make(diagrams, alloc, &members.inputs, &[], &levels.all, grouped) {
            Ok(inputs) => Some(Early {
                replies,
                inputs,
                grouped,
            }),
            Err(_) => {
                replies.release(diagrams);
                None
            }
        }
    }
}

/// Gives products back, if there are any.
pub fn release_early(diagrams: &mut Diagrams, early: Option<Early>)
    requires { (n : ℕ) → roots_of_early n early ≤ roots_at diagrams.old.state n }
    ensures released { (n : ℕ) → roots_at diagrams.old.state n ≡ roots_at diagrams.new.state n + roots_of_early n early }
    ensures nodes { SameNodes diagrams.old diagrams.new }
{
    if let Some(early) = early {
        let Early {
            replies,
            inputs,
            grouped: _,
        } = early;
        replies.release(diagrams);
        inputs.release(diagrams);
    }
}

/// Where some legal input has no legal output into the target, by products.
fn avoided_early(diagrams: &mut Diagrams, target: &Root, early: &Early) -> Result<Root, Halt>
    requires target { IsRoot diagrams.old.state target.now }
    requires kept { AreEarlyRoots diagrams.old early.now }
    requires fits { (m : MoveFunctions) × (levels : NextLevels) × IsEarly m levels diagrams.old early.now }
    ensures { (m : MoveFunctions) (levels : NextLevels) → IsEarly m levels diagrams.old early.now →
        Makes diagrams.old diagrams.new result (avoiding m levels.reply.items levels.all.items (function_at diagrams.old target.now)) }
{
    let begun = keep(diagrams, target)?;
    let reached = taken_out(diagrams, begun, &early.replies)?;
    let out = not_spent(diagrams, reached)?;
    taken_out(diagrams, out, &early.inputs)
}

/// The same by products first. Where that finds the store full, the plain way, unless the lines are grouped: whoever had
/// them grouped begins anew without. The target is given back.
fn avoided_first(
    diagrams: &mut Diagrams,
    target: Root,
    members: &Members,
    levels: &NextLevels,
    early: &Early,
) -> Result<Root, Halt>
    requires target { (base : Contents) × (f : Function) × Makes base diagrams.old (Ok target) f × AreMembers base members.now }
    requires kept { AreEarlyRoots diagrams.old early.now }
    requires fits { IsEarly (move_functions diagrams.old members.now) levels.now diagrams.old early.now }
    ensures made { (base : Contents) (f : Function) → Makes base diagrams.old (Ok target) f → AreMembers base members.now →
        Makes base diagrams.new result (avoiding (move_functions base members.now) levels.now.reply.items levels.now.all.items f) }
    ensures cause { early.now.grouped ≡ false → (base : Contents) (f : Function) → Makes base diagrams.old (Ok target) f → AreMembers base members.now →
        HasCause base diagrams.new result (IsOfAvoiding (lists_at base members.now) levels.now.reply.items f) }
{
    match avoided_early(diagrams, &target, early) {
        Ok(made) => {
            diagrams.release(target);
            Ok(made)
        }
        Err(Halt::Memory) => {
            diagrams.release(target);
            Err(Halt::Memory)
        }
        Err(Halt::Budget) => {
            if early.grouped {
                diagrams.release(target);
                return Err(Halt::Budget);
            }
            avoided_plainly(diagrams, target, members, levels)
        }
    }
}

/// Where some legal input has no legal output into the target, which is given back.
pub fn avoided(
    diagrams: &mut Diagrams,
    target: Root,
    members: &Members,
    levels: &NextLevels,
    early: &Option<Early>,
) -> Result<Root, Halt>
    requires target { (base : Contents) × (f : Function) × Makes base diagrams.old (Ok target) f × AreMembers base members.now }
    requires kept { AreRootsOfEarly diagrams.old early.now }
    requires fits { FitsEarly (move_functions diagrams.old members.now) levels.now diagrams.old early.now }
    ensures made { (base : Contents) (f : Function) → Makes base diagrams.old (Ok target) f → AreMembers base members.now →
        Makes base diagrams.new result (avoiding (move_functions base members.now) levels.now.reply.items levels.now.all.items f) }
    ensures cause { is_grouped early.now ≡ false → (base : Contents) (f : Function) → Makes base diagrams.old (Ok target) f → AreMembers base members.now →
        HasCause base diagrams.new result (IsOfAvoiding (lists_at base members.now) levels.now.reply.items f) }
{
    match early {
        Some(early) => avoided_first(diagrams, target, members, levels, early),
        None => avoided_plainly(diagrams, target, members, levels),
    }
}

/// The states from which every legal next input has a legal output that leads into `t`.
pub fn system_states(
    diagrams: &mut Diagrams,
    t: &Root,
    roots: &StepRoots,
    levels: &NextLevels,
    early: &Option<Early>,
) -> Result<Root, Halt>
    requires t { IsRoot diagrams.old.state t.now }
    requires nothing { IsRoot diagrams.old.state roots.now.nothing }
    requires proper { IsRoot diagrams.old.state roots.now.proper }
    requires later { AreMembers diagrams.old roots.now.later }
    requires kept { AreRootsOfEarly diagrams.old early.now }
    requires fits { FitsEarly (move_functions diagrams.old roots.now.later) levels.now diagrams.old early.now }
    requires rising { RisesOver diagrams.old.state.table.levels diagrams.old.order levels.now.to.items (function_at diagrams.old t.now) }
    ensures cause { let old = diagrams.old in
        is_grouped early.now ≡ false → HasCause old diagrams.new result (IsOfStep (lists_at old roots.now.later) levels.now (shifted levels.now.to.items (function_at old t.now))) }
    ensures made { let old = diagrams.old in
        Makes old diagrams.new result (ite (avoiding (move_functions old roots.now.later) levels.now.reply.items levels.now.all.items (shifted levels.now.to.items (function_at old t.now))) (function_at old roots.now.nothing) (function_at old roots.now.proper)) }
{
    let target = shift(diagrams, t, &levels.to)?;
    let out = avoided(diagrams, target, &roots.later, levels, early)?;
    ite_spent(diagrams, out, &roots.nothing, &roots.proper)
}

/// The states from which some legal next input leads into `t` under every legal output.
pub fn environment_states(
    diagrams: &mut Diagrams,
    t: &Root,
    roots: &StepRoots,
    levels: &NextLevels,
    early: &Option<Early>,
) -> Result<Root, Halt>
    requires t { IsRoot diagrams.old.state t.now }
    requires proper { IsRoot diagrams.old.state roots.now.proper }
    requires later { AreMembers diagrams.old roots.now.later }
    requires kept { AreRootsOfEarly diagrams.old early.now }
    requires fits { FitsEarly (move_functions diagrams.old roots.now.later) levels.now diagrams.old early.now }
    requires rising { RisesOver diagrams.old.state.table.levels diagrams.old.order levels.now.to.items (function_at diagrams.old t.now) }
    ensures cause { let old = diagrams.old in
        is_grouped early.now ≡ false → HasCause old diagrams.new result (IsOfRest (lists_at old roots.now.later) levels.now (shifted levels.now.to.items (function_at old t.now))) }
    ensures made { let old = diagrams.old in
        Makes old diagrams.new result (joined (join_of true) (avoiding (move_functions old roots.now.later) levels.now.reply.items levels.now.all.items (negated (shifted levels.now.to.items (function_at old t.now)))) (function_at old roots.now.proper)) }
{
    let next = shift(diagrams, t, &levels.to)?;
    let target = not_spent(diagrams, next)?;
    let out = avoided(diagrams, target, &roots.later, levels, early)?;
    and_spent(diagrams, out, &roots.proper)
}
