//! Nodes that are swept, and nodes that are found again.

ghost use Rattle.std.specs.Prelude.{◌≡◌, ◌<◌};
ghost use Rattle.node_table.specs.Table.{IsSound};

use node_table::{NodeFault, Nodes};
use std::test::Fail;

/// The node that looks at one level's bit.
fn bit(table: &mut Nodes, level: u32) -> Result<u32, NodeFault>
    requires sound { IsSound table.old }
    requires below { level < table.old.levels }
    ensures sound { IsSound table.new }
    ensures levels { table.new.levels ≡ table.old.levels }
{
    table.find_or_add(level, 0, 1)
}

#[test]
fn a_sweep_leaves_what_is_marked_and_makes_room(rt: HostRuntime) -> Result<(), Fail> {
    let mut table = Nodes::make(rt.alloc(), 2, 4)?;
    let below = table.find_or_add(1, 0, 1)?;
    let above = table.find_or_add(0, 0, below)?;
    assert_eq!(rt; table.find_or_add(1, 1, 0), Err(NodeFault::Full));
    table.mark(below);
    table.sweep();
    assert_eq!(rt; table.count(), 3);
    assert_eq!(rt; table.live(), [true, true, true, false].as_slice());
    let other = table.find_or_add(1, 1, 0)?;
    assert_eq!(rt; other, above);
    assert_eq!(rt; table.find_or_add(1, 0, 1), Ok(below));
    table.sweep();
    assert_eq!(rt; table.count(), 2);
    Ok(())
}

#[test]
fn many_nodes_are_found_again_after_the_slots_grew(rt: HostRuntime) -> Result<(), Fail> {
    let mut table = Nodes::make(rt.alloc(), 3000, 3002)?;
    for level in 0..3000 {
        bit(&mut table, level)?;
    }
    assert_eq!(rt; table.count(), 3002);
    let mut found = 0u32;
    for level in 0..3000 {
        if bit(&mut table, level) == Ok(level + 2) {
            found = found.saturating_add(1);
        }
    }
    assert_eq!(rt; found, 3000);
    Ok(())
}
