//! Stores that are full, and roots that are kept.

ghost use Rattle.std.specs.Prelude.{◌≡◌, ◌<◌};
ghost use Rattle.bdd_store.specs.State.{IsRoot, SameRoots};

use bdd_store::{Root, Store, StoreFault};
use std::test::Fail;

/// Why the level's diagram was refused, and `None` if it was made: its root is given back.
fn refusal(store: &mut Store, level: u32) -> Option<StoreFault>
    requires { level < store.old.table.levels }
    ensures roots { SameRoots store.old store.new }
    ensures levels { store.new.table.levels ≡ store.old.table.levels }
    ensures stack { store.new.stack ≡ store.old.stack }
{
    match store.var(level) {
        Ok(root) => {
            store.release(root);
            None
        }
        Err(fault) => Some(fault),
    }
}

/// Whether a second root is of the same node: it is given back.
fn is_kept_twice(store: &mut Store, root: &Root) -> bool
    requires { IsRoot store.old root.now }
    ensures roots { SameRoots store.old store.new }
    ensures stack { store.new.stack ≡ store.old.stack }
{
    let Ok(again) = store.keep(root) else {
        return false;
    };
    let same = store.roots() == 2 && store.edge(&again).0 == 2;
    store.release(again);
    same
}

#[test]
fn a_full_store_has_room_after_a_reclaim(rt: HostRuntime) -> Result<(), Fail> {
    let mut store = Store::make(rt.alloc(), 2, 3)?;
    let first = store.var(0)?;
    assert_eq!(rt; refusal(&mut store, 1), Some(StoreFault::Full));
    assert_eq!(rt; store.nodes(), 3);
    store.release(first);
    store.reclaim();
    assert_eq!(rt; store.nodes(), 2);
    let second = store.var(1)?;
    assert_eq!(rt; store.nodes(), 3);
    store.release(second);
    Ok(())
}

#[test]
fn a_full_store_frees_what_no_root_reaches(rt: HostRuntime) -> Result<(), Fail> {
    let mut store = Store::make(rt.alloc(), 2, 3)?;
    let first = store.var(0)?;
    store.release(first);
    let second = store.var(1)?;
    assert_eq!(rt; store.nodes(), 3);
    store.release(second);
    Ok(())
}

#[test]
fn a_full_store_keeps_what_its_stack_holds(rt: HostRuntime) -> Result<(), Fail> {
    let mut store = Store::make(rt.alloc(), 2, 3)?;
    let first = store.var(0).expect(&rt, "a bit");
    let edge = store.edge(&first);
    store.push(edge).expect(&rt, "a place");
    store.release(first);
    assert_eq!(rt; refusal(&mut store, 1), Some(StoreFault::Full));
    assert_eq!(rt; store.pop(), Some(edge));
    assert_eq!(rt; refusal(&mut store, 1), None);
    Ok(())
}

#[test]
fn what_was_pushed_last_comes_off_first(rt: HostRuntime) -> Result<(), Fail> {
    let mut store = Store::make(rt.alloc(), 2, 8)?;
    assert_eq!(rt; store.pop(), None);
    let (low, high) = (store.fixed(false), store.fixed(true));
    store.push(low)?;
    store.push(high)?;
    assert_eq!(rt; store.pop(), Some(high));
    assert_eq!(rt; store.pop(), Some(low));
    assert_eq!(rt; store.pop(), None);
    Ok(())
}

#[test]
fn an_answer_is_there_until_it_is_forgotten(rt: HostRuntime) -> Result<(), Fail> {
    let mut store = Store::make(rt.alloc(), 2, 8)?;
    let (low, high) = (store.fixed(false), store.fixed(true));
    store.remember(1, low, high, low, high);
    assert_eq!(rt; store.recall(1, low, high, low), Some(high));
    store.forget();
    assert_eq!(rt; store.recall(1, low, high, low), None);
    let root = store.hold(high)?;
    assert_eq!(rt; store.edge(&root), high);
    store.release(root);
    Ok(())
}

#[test]
fn a_root_is_kept_until_it_is_released(rt: HostRuntime) -> Result<(), Fail> {
    let mut store = Store::make(rt.alloc(), 2, 8)?;
    let root = store.var(1)?;
    assert!(rt; is_kept_twice(&mut store, &root));
    store.reclaim();
    assert_eq!(rt; store.nodes(), 3);
    assert_eq!(rt; store.roots(), 1);
    store.release(root);
    store.reclaim();
    assert_eq!(rt; store.nodes(), 2);
    assert_eq!(rt; store.roots(), 0);
    Ok(())
}
