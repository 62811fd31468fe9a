//! How many parts diagrams have.

ghost use Rattle.std.specs.Prelude.{◌≡◌, ◌≤◌, ◌+◌, ◌*◌, ◌++◌, [], ◌∷◌, ℕ, List, IfOk, OnOk};
ghost use Rattle.spec_model.specs.Diagrams.{Diagram};
ghost use Rattle.bdd_store.specs.State.{IsRoot, roots_at, diagram_of, SameRoots};
ghost use Rattle.bdd_reorder.specs.Keeping.{times_in, AreRoots};
ghost use Rattle.bdd_reorder.specs.Making.{diagrams_at};
ghost use Rattle.bdd_reorder.specs.Copying.{size_of};
ghost use Rattle.bdd_reorder.specs.Counting.{HaveParts};
ghost use Rattle.bdd_reorder.specs.Searching.{IsSearched, turns_over};

use crate::copying::release_all;
use crate::found::Found;
use bdd_ops::{Diagrams, OutOfMemory, Root, Split, StoreFault};
use std::alloc::{AllocError, Global};

/// Finds a diagram's own node, unless it is a constant. The two parts of a new one have to be looked at later.
fn look(
    from: &mut Diagrams,
    found: &mut Found,
    waiting: &mut Vec<Root>,
    a: &Root,
) -> Result<(), StoreFault>
    requires { IsRoot from.old.state a.now }
    ensures searched { OnOk result ((ds : List Diagram) → IsSearched from.old.state.table ds found.old (waiting.old.items ++ a.now ∷ []) → IsSearched from.old.state.table ds found.new waiting.new.items) }
    ensures fewer { OnOk result (turns_over from.old.state.table waiting.new.items ≤ turns_over from.old.state.table waiting.old.items + 2 * size_of (diagram_of from.old.state a.now)) }
    ensures table { from.new.state.table ≡ from.old.state.table }
    ensures roots { (n : ℕ) → roots_at from.new.state n + times_in n waiting.old.items ≡ roots_at from.old.state n + times_in n waiting.new.items }
{
    let number = from.number(a);
    if found.has(number) {
        return Ok(());
    }
    waiting.reserve(2)?;
    let Some(split) = from.split(a)? else {
        return Ok(());
    };
    let Split {
        level: _,
        low,
        high,
    } = split;
    waiting.push_reserved(high);
    waiting.push_reserved(low);
    found.add(number)?;
    Ok(())
}

/// Looks at what waits, until nothing does.
fn look_on(
    from: &mut Diagrams,
    found: &mut Found,
    waiting: &mut Vec<Root>,
) -> Result<(), StoreFault>
    requires { (n : ℕ) → times_in n waiting.old.items ≤ roots_at from.old.state n }
    ensures searched { OnOk result ((ds : List Diagram) → IsSearched from.old.state.table ds found.old waiting.old.items → IsSearched from.old.state.table ds found.new []) }
    ensures table { from.new.state.table ≡ from.old.state.table }
    ensures roots { (n : ℕ) → roots_at from.new.state n + times_in n waiting.old.items ≡ roots_at from.old.state n + times_in n waiting.new.items }
{
    while let Some(root) = waiting.pop() {
        let looked = look(from, found, waiting, &root);
        from.release(root);
        looked?;
    }
    Ok(())
}

/// Looks at each of several diagrams.
fn look_at(
    from: &mut Diagrams,
    found: &mut Found,
    waiting: &mut Vec<Root>,
    roots: &[Root],
) -> Result<(), StoreFault>
    requires kept { AreRoots from.old.state roots.now }
    requires empty { (found.old ≡ []) × (waiting.old.items ≡ []) }
    ensures searched { OnOk result (IsSearched from.old.state.table (diagrams_at from.old roots.now) found.new waiting.new.items) }
    ensures table { from.new.state.table ≡ from.old.state.table }
    ensures roots { (n : ℕ) → roots_at from.new.state n ≡ roots_at from.old.state n + times_in n waiting.new.items }
{
    for root in roots {
        look(from, found, waiting, root)?;
    }
    Ok(())
}

/// Finds the parts of several diagrams.
fn find(
    from: &mut Diagrams,
    found: &mut Found,
    waiting: &mut Vec<Root>,
    roots: &[Root],
) -> Result<(), StoreFault>
    requires kept { AreRoots from.old.state roots.now }
    requires empty { (found.old ≡ []) × (waiting.old.items ≡ []) }
    ensures searched { OnOk result (IsSearched from.old.state.table (diagrams_at from.old roots.now) found.new []) }
    ensures table { from.new.state.table ≡ from.old.state.table }
    ensures roots { (n : ℕ) → roots_at from.new.state n ≡ roots_at from.old.state n + times_in n waiting.new.items }
{
    look_at(from, found, waiting, roots)?;
    look_on(from, found, waiting)
}

/// How many different parts the diagrams have together, both constants always counted.
pub fn count(alloc: Global, from: &mut Diagrams, roots: &[Root]) -> Result<u32, OutOfMemory>
    requires { AreRoots from.old.state roots.now }
    ensures counted { IfOk result (λ n. HaveParts (diagrams_at from.old roots.now) n) }
    ensures table { from.new.state.table ≡ from.old.state.table }
    ensures roots { SameRoots from.old.state from.new.state }
{
    let mut found = Found::new(alloc);
    let mut waiting = Vec::new(alloc);
    let looked = find(from, &mut found, &mut waiting, roots);
    release_all(from, waiting);
    match looked {
        Ok(()) => found.and_two(),
        Err(_) => Err(AllocError),
    }
}
