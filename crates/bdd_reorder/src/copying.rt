//! Diagrams copied into another store.

ghost use Rattle.std.specs.Prelude.{◌≡◌, ◌<◌, ◌≤◌, ◌+◌, [], ℕ, Err};
ghost use Rattle.spec_model.specs.Diagrams.{branch, IsReduced};
ghost use Rattle.bdd_store.specs.State.{IsRoot, roots_at, diagram_of, SameRoots};
ghost use Rattle.bdd_ops.specs.Calls.{KeepsRoots};
ghost use Rattle.bdd_reorder.specs.Keeping.{times_in, AreRoots};
ghost use Rattle.bdd_reorder.specs.Making.{MakesCopy, MakesCopies, diagrams_at};
ghost use Rattle.bdd_reorder.specs.Crowding.{IsCrowdedSince};
ghost use Rattle.bdd_reorder.specs.Rearranged.{IsOfPart};
ghost use Rattle.bdd_reorder.specs.Copying.{FitsLevels, CanCopy, CopiesPart};

use crate::frames::Frame;
use crate::memo::Memo;
use crate::parts::part;
use bdd_ops::{Diagrams, Root, StoreFault};
use std::alloc::Global;

/// The copy of one diagram. What its parts needed is given back.
fn one(
    from: &mut Diagrams,
    to: &mut Diagrams,
    levels: &[u32],
    truth: &Root,
    memo: &mut Memo,
    frames: &mut Vec<Frame>,
    a: &Root,
) -> Result<Root, StoreFault>
    requires ready { CanCopy from.old to.old levels.now truth.now memo.old.copies.items }
    requires empty { (memo.old.copies.items ≡ []) × (frames.old.items ≡ []) }
    requires kept { IsRoot from.old.state a.now }
    ensures copied { MakesCopy to.old to.new result levels.now (diagram_of from.old.state a.now) }
    ensures empty { (memo.new.copies.items ≡ []) × (frames.new.items ≡ []) }
    ensures from_table { from.new.state.table ≡ from.old.state.table }
    ensures from_roots { SameRoots from.old.state from.new.state }
{
    let made = part(from, to, levels, truth, memo, frames, a);
    memo.clear(to);
    made
}

/// Gives all roots back.
pub fn release_all(diagrams: &mut Diagrams, mut roots: Vec<Root>)
    requires { (n : ℕ) → times_in n roots.items ≤ roots_at diagrams.old.state n }
    ensures released { (n : ℕ) → roots_at diagrams.old.state n ≡ roots_at diagrams.new.state n + times_in n roots.items }
    ensures table { diagrams.new.state.table ≡ diagrams.old.state.table }
{
    while let Some(root) = roots.pop() {
        diagrams.release(root);
    }
    roots.destroy_empty();
}

/// The copies of all diagrams, one after the other.
fn each(
    alloc: Global,
    from: &mut Diagrams,
    to: &mut Diagrams,
    levels: &[u32],
    truth: &Root,
    memo: &mut Memo,
    roots: &[Root],
) -> Result<Vec<Root>, StoreFault>
    requires ready { CanCopy from.old to.old levels.now truth.now memo.old.copies.items }
    requires empty { memo.old.copies.items ≡ [] }
    requires kept { AreRoots from.old.state roots.now }
    ensures copied { MakesCopies to.old to.new result levels.now (diagrams_at from.old roots.now) }
    ensures empty { memo.new.copies.items ≡ [] }
    ensures from_table { from.new.state.table ≡ from.old.state.table }
    ensures from_roots { SameRoots from.old.state from.new.state }
{
    let mut copies = Vec::with_capacity(alloc, roots.len())?;
    let mut frames = Vec::new(alloc);
    for root in roots {
        match one(from, to, levels, truth, memo, &mut frames, root) {
            Ok(copy) => copies.push_reserved(copy),
            Err(fault) => {
                frames.destroy_empty();
                release_all(to, copies);
                return Err(fault);
            }
        }
    }
    frames.destroy_empty();
    Ok(copies)
}

/// Copies diagrams into another store: level k becomes `levels[k]`. Each copy is a root more there, and of `from` none is
/// kept more.
pub fn copy(
    alloc: Global,
    from: &mut Diagrams,
    roots: &[Root],
    to: &mut Diagrams,
    levels: &[u32],
) -> Result<Vec<Root>, StoreFault>
    requires kept { AreRoots from.old.state roots.now }
    requires fits { FitsLevels from.old to.old levels.now }
    ensures copied { MakesCopies to.old to.new result levels.now (diagrams_at from.old roots.now) }
    ensures from_keeps { KeepsRoots from.old from.new }
    ensures from_roots { SameRoots from.old.state from.new.state }
{
    let truth = from.constant(true)?;
    let mut memo = Memo {
        copies: Vec::new(alloc),
        places: Vec::new(alloc),
    };
    let made = each(alloc, from, to, levels, &truth, &mut memo, roots);
    from.release(truth);
    let Memo { copies, places: _ } = memo;
    copies.destroy_empty();
    made
}
