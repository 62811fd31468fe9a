//! Writing the unique table's index anew, over the nodes that are live.

ghost use Rattle.std.specs.Prelude.{◌≡◌, ◌+◌, ◌*◌, ◌^◌, ◌<◌, ◌≤◌, length, slice_index, slice_index_or, ℕ, ◌≢◌, count_by, true, false, OnOk, OnErr, IfOk, vec_len};
ghost use Rattle.node_table.specs.Index.{used, node_of, EndsAt, IsIndexOf, IsApart, IsFlagged};

use crate::OutOfMemory;
use crate::index::probe;
use crate::node::Node;

/// Empties the slots.
fn clear(slots: &mut Vec<u32>)
    ensures empty { (k : ℕ) → slice_index slots.new.items k ≡ 0 }
    ensures size { vec_len slots.new ≡ vec_len slots.old }
{
    for slot in 0..slots.len() {
        slots[slot] = 0;
    }
}

/// Names exactly the live nodes, the constants left out.
pub fn rebuild(slots: &mut Vec<u32>, nodes: &[Node], live: &[bool])
    requires flagged { IsFlagged nodes.now live.now }
    requires apart { IsApart nodes.now live.now }
    requires small { length nodes.now < 2 ^ 32 }
    requires room { count_by (λ b. b) live.now ≤ vec_len slots.old }
    ensures index { IsIndexOf slots.new.items nodes.now live.now }
    ensures used { used slots.new.items + 2 ≡ count_by (λ b. b) live.now }
    ensures size { vec_len slots.new ≡ vec_len slots.old }
{
    clear(slots);
    for n in 2..nodes.len() {
        if live[n] {
            let at = probe(slots, nodes, nodes[n]);
            slots[at] = n as u32;
        }
    }
}

/// The slot for the number of a new node, whose search ended at the empty slot `at`: that slot, or, where a quarter of the
/// slots are used, the one in twice as many. `count` is the number of live nodes. Want of memory changes nothing.
pub fn room_for(
    slots: &mut Vec<u32>,
    nodes: &[Node],
    live: &[bool],
    count: u32,
    node: Node,
    at: usize,
) -> Result<usize, OutOfMemory>
    requires flagged { IsFlagged nodes.now live.now }
    requires apart { IsApart nodes.now live.now }
    requires small { length nodes.now < 2 ^ 32 }
    requires counted { count ≡ count_by (λ b. b) live.now }
    requires room { count ≤ vec_len slots.old }
    requires index { IsIndexOf slots.old.items nodes.now live.now }
    requires used { used slots.old.items + 2 ≡ count }
    requires within { at < vec_len slots.old }
    requires ends { EndsAt slots.old.items nodes.now node at }
    requires empty { slice_index slots.old.items at ≡ 0 }
    requires absent { (n : ℕ) → 2 ≤ n → slice_index_or live.now n false ≡ true → node_of nodes.now n ≢ node }
    ensures ends { IfOk result (λ there. (there < vec_len slots.new) × EndsAt slots.new.items nodes.now node there × (slice_index slots.new.items there ≡ 0)) }
    ensures room { OnOk result (count + 1 ≤ vec_len slots.new) }
    ensures index { IsIndexOf slots.new.items nodes.now live.now }
    ensures used { used slots.new.items + 2 ≡ count }
    ensures unchanged { OnErr result (slots.new.items ≡ slots.old.items) }
{
    if count as usize + 1 <= slots.len() / 4 {
        return Ok(at);
    }
    let size = slots.len();
    slots.resize(size * 2, 0)?;
    rebuild(slots, nodes, live);
    Ok(probe(slots, nodes, node))
}
