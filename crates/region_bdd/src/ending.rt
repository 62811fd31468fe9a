//! What is kept is given back where an object is let go.

ghost use Rattle.std.specs.Prelude.{◌≡◌, ◌≤◌, ◌+◌, ℕ};
ghost use Rattle.bdd_store.specs.State.{roots_at};
ghost use Rattle.bdd_bits.specs.Calls.{SameNodes};
ghost use Rattle.bdd_sets.specs.LineScenes.{roots_of_members};
ghost use Rattle.region_bdd.specs.Slots.{roots_of_slot, roots_of_slots};
ghost use Rattle.region_bdd.specs.Object.{roots_of_own};

use crate::giving_back::give_back;
use crate::own::Own;
use crate::slots::{Slot, Slots};
use bdd_bits::Diagrams;
use bdd_products::early::release_early;
use bdd_sets::forcing::StepRoots;
use bdd_sets::lists::release_list;
use bdd_sets::moves::Members;

/// Gives back each root of members.
pub fn release_members(diagrams: &mut Diagrams, members: Members)
    requires { (n : ℕ) → roots_of_members n members ≤ roots_at diagrams.old.state n }
    ensures released { (n : ℕ) → roots_at diagrams.old.state n ≡ roots_at diagrams.new.state n + roots_of_members n members }
    ensures nodes { SameNodes diagrams.old diagrams.new }
{
    let Members {
        inputs,
        outputs,
        update,
    } = members;
    release_list(diagrams, inputs);
    release_list(diagrams, outputs);
    release_list(diagrams, update);
}

/// Gives back each root that an object keeps for itself.
pub fn release_own(diagrams: &mut Diagrams, own: Own)
    requires { (n : ℕ) → roots_of_own n own ≤ roots_at diagrams.old.state n }
    ensures { (n : ℕ) → roots_at diagrams.old.state n ≡ roots_at diagrams.new.state n + roots_of_own n own }
{
    let Own {
        step,
        assume,
        goals,
        first,
        early,
    } = own;
    let StepRoots {
        nothing,
        proper,
        later,
    } = step;
    diagrams.release(nothing);
    diagrams.release(proper);
    release_list(diagrams, assume);
    release_list(diagrams, goals);
    release_members(diagrams, first);
    release_members(diagrams, later);
    release_early(diagrams, early);
}

/// Gives back each root of a slot.
fn release_slot(diagrams: &mut Diagrams, slot: Slot)
    requires { (n : ℕ) → roots_of_slot n slot ≤ roots_at diagrams.old.state n }
    ensures { (n : ℕ) → roots_at diagrams.old.state n ≡ roots_at diagrams.new.state n + roots_of_slot n slot }
{
    match slot {
        Slot::Free(_) => {}
        Slot::Taken(content) => give_back(diagrams, content),
        Slot::Spent(content) => give_back(diagrams, content),
    }
}

/// Gives back each root of slots.
pub fn release_slots(diagrams: &mut Diagrams, slots: Slots)
    requires { (n : ℕ) → roots_of_slots n slots.slots.items ≤ roots_at diagrams.old.state n }
    ensures { (n : ℕ) → roots_at diagrams.old.state n ≡ roots_at diagrams.new.state n + roots_of_slots n slots.slots.items }
{
    let Slots {
        slots: mut held,
        free: _,
    } = slots;
    while let Some(slot) = held.pop() {
        release_slot(diagrams, slot);
    }
    held.destroy_empty();
}
