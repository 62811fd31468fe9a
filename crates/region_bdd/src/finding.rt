//! What a search for a first move asks for and what it fixes.

ghost use Rattle.std.specs.Prelude.{◌≡◌, ◌<◌, ◌≤◌, ◌↔◌, length, IsTrue};
ghost use Rattle.spec_model.specs.declared.value.Value.{Value};
ghost use Rattle.game_values.specs.declared.seen.At.{At};
ghost use Rattle.bdd_store.specs.State.{IsRoot};
ghost use Rattle.bit_compile.specs.Domains.{level_count};
ghost use Rattle.bdd_sets.specs.Members.{AreMembers};
ghost use Rattle.bdd_search.specs.Parts.{ArePart, AreFixed, AllowsValues, KeepsOtherBits};
ghost use Rattle.bdd_products.specs.Early.{AreEarlyRoots, AreRootsOfEarly};
ghost use Rattle.region_bdd.specs.Leading.{members_at};
ghost use Rattle.region_bdd.specs.Room.{member_count, line_count, early_count};
ghost use Rattle.region_bdd.specs.Finding.{outputs_asked, products_asked, outputs_sought, inputs_asked, AsksFor, AreStateAt, AreStateFixed, AllowsState, IsMoveFixed};

use crate::own::Own;
use bdd_bits::{Conjunction, Diagrams, Root};
use bdd_products::early::Early;
use bdd_search::{fit, fix, loosen};
use bdd_sets::moves::Members;
use bit_compile::Codes;
use game_values::seen::At;
use regions::When;
use spec_model::value::Value;

/// Asks for legal outputs that lead into the target, by the members of the moves.
fn ask_members(all: &mut Conjunction, diagrams: &Diagrams, members: &Members, target: &Root)
    requires members { AreMembers diagrams.now members.now }
    requires target { IsRoot diagrams.now.state target.now }
    requires room { member_count members.now < all.old.most }
    ensures { AsksFor all.old all.new (outputs_asked members.now target.now) }
{
    all.clear();
    diagrams.include_all(&members.inputs, all);
    diagrams.include_all(&members.outputs, all);
    diagrams.include_all(&members.update, all);
    diagrams.include(target, all);
}

/// The same by the products of these members, which are fewer.
fn ask_products(all: &mut Conjunction, diagrams: &Diagrams, early: &Early, target: &Root)
    requires early { AreEarlyRoots diagrams.now early.now }
    requires target { IsRoot diagrams.now.state target.now }
    requires room { line_count early.now < all.old.most }
    ensures { AsksFor all.old all.new (products_asked early.now target.now) }
{
    all.clear();
    diagrams.include_all(&early.inputs.lines, all);
    diagrams.include_all(&early.replies.lines, all);
    diagrams.include(target, all);
}

/// Asks for legal outputs that lead into the target.
pub fn ask_outputs(all: &mut Conjunction, diagrams: &Diagrams, own: &Own, when: When, target: &Root)
    requires members { AreMembers diagrams.now (members_at own.now when) }
    requires early { AreRootsOfEarly diagrams.now own.now.early }
    requires target { IsRoot diagrams.now.state target.now }
    requires room { member_count (members_at own.now when) < all.old.most }
    requires early_room { early_count own.now.early < all.old.most }
    ensures { AsksFor all.old all.new (outputs_sought own.now when target.now) }
{
    match when {
        When::First => ask_members(all, diagrams, &own.first, target),
        When::Later => match &own.early {
            None => ask_members(all, diagrams, &own.step.later, target),
            Some(early) => ask_products(all, diagrams, early, target),
        },
    }
}

/// Asks for legal inputs all of whose legal outputs lead into a set, where `leads` is true of these.
pub fn ask_inputs(all: &mut Conjunction, diagrams: &Diagrams, members: &Members, leads: &Root)
    requires members { AreMembers diagrams.now members.now }
    requires leads { IsRoot diagrams.now.state leads.now }
    requires room { member_count members.now < all.old.most }
    ensures { AsksFor all.old all.new (inputs_asked members.now leads.now) }
{
    all.clear();
    diagrams.include_all(&members.inputs, all);
    diagrams.include(leads, all);
}

/// Fixes the present bits of the state before a later move, and no others. False where the values are no state's.
pub fn fix_before(codes: &Codes, when: When, state: &[Value], fixed: &mut [Option<bool>]) -> bool
    requires room { length fixed.old ≡ level_count codes.now }
    ensures answer { IsTrue result ↔ AreStateAt codes.now when state.now }
    ensures fixes { IsTrue result → AreStateFixed codes.now when state.now fixed.new }
    ensures allows { IsTrue result → AllowsState codes.now when state.now fixed.new }
{
    loosen(fixed);
    match when {
        When::First => true,
        When::Later => {
            let end = codes.count();
            if !fit(codes, 0, end, state) {
                return false;
            }
            fix(codes, At::Now, 0, end, state, fixed);
            true
        }
    }
}

/// Fixes besides the next bits of the values of the slots from slot `from` up to slot `end`. False where the values are
/// not theirs.
fn fix_next(
    codes: &Codes,
    from: usize,
    end: usize,
    values: &[Value],
    fixed: &mut [Option<bool>],
) -> bool
    requires within { (from ≤ end) × (end ≤ length codes.now) }
    requires room { length fixed.old ≡ level_count codes.now }
    ensures answer { IsTrue result ↔ ArePart codes.now from end values.now }
    ensures fixes { IsTrue result → AreFixed codes.now At.Next from values.now fixed.new }
    ensures keeps { IsTrue result → KeepsOtherBits codes.now At.Next fixed.old fixed.new }
    ensures allows { IsTrue result →
        AllowsValues codes.now At.Next from values.now fixed.old fixed.new }
{
    if !fit(codes, from, end, values) {
        return false;
    }
    fix(codes, At::Next, from, end, values, fixed);
    true
}

/// Fixes the state before a later move and the values of the slots from slot `from` up to slot `end` after it, and no
/// others. False where the values are no state's, or not those of the slots.
pub fn fix_move(
    codes: &Codes,
    when: When,
    state: &[Value],
    from: usize,
    end: usize,
    values: &[Value],
    fixed: &mut [Option<bool>],
) -> bool
    requires rising { from ≤ end }
    requires known { end ≤ length codes.now }
    requires room { length fixed.old ≡ level_count codes.now }
    ensures answer { IsTrue result ↔
        (AreStateAt codes.now when state.now × ArePart codes.now from end values.now) }
    ensures fixes { IsTrue result → IsMoveFixed codes.now when state.now from values.now fixed.new }
{
    fix_before(codes, when, state, fixed) && fix_next(codes, from, end, values, fixed)
}
