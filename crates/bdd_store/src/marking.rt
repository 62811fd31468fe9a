//! Marking what is held: what kept roots reach, and what the work stack and arguments reach.

ghost use Rattle.std.specs.Prelude.{◌<◌, ◌≤◌, ◌^◌, ℕ, length, slice_index};
ghost use Rattle.std.specs.List.{Contains};
ghost use Rattle.node_table.specs.Table.{IsSound, IsLive};
ghost use Rattle.bdd_store.specs.Kept.{MarksAll};

use node_table::Nodes;

/// Marks all that kept roots reach.
pub fn mark_kept(nodes: &mut Nodes, kept: &[u32])
    requires sound { IsSound nodes.old }
    requires small { length kept.now ≤ 2 ^ 32 }
    requires live { (n : ℕ) → 0 < slice_index kept.now n → IsLive nodes.old n }
    ensures marks { MarksAll nodes.old nodes.new (λ n. 0 < slice_index kept.now n) }
    ensures sound { IsSound nodes.new }
{
    for n in 0..kept.len() {
        if kept[n] > 0 {
            nodes.mark(n as u32);
        }
    }
}

/// Marks all that these nodes reach.
pub fn mark_entries(nodes: &mut Nodes, entries: &[u32])
    requires sound { IsSound nodes.old }
    requires live { (n : ℕ) → Contains entries.now n → IsLive nodes.old n }
    ensures marks { MarksAll nodes.old nodes.new (λ n. Contains entries.now n) }
    ensures sound { IsSound nodes.new }
{
    for &n in entries {
        nodes.mark(n);
    }
}
