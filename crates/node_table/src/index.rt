//! The unique table's index: slots in which the search for a node looks first where its newer part has a place for it, and then
//! goes from one to the next until it meets it.

ghost use Rattle.std.specs.Prelude.{◌≡◌, ◌<◌, length, slice_index, ℕ, false, IsTrue};
ghost use Rattle.node_table.specs.Index.{near_of, start_of, used, EndsAt, HasEnded, IsPassed};

use crate::node::Node;

/// The slot where the search for a node looks first: it stands near those of other nodes over parts that were made as late,
/// so a search among what was made last stays within memory that is at hand.
fn near(node: Node, size: usize) -> usize
    requires { 0 < size }
    ensures value { result ≡ near_of node size }
    ensures within { result < size }
{
    let (older, newer) = if node.low < node.high {
        (node.low, node.high)
    } else {
        (node.high, node.low)
    };
    let other = u64::from(older).wrapping_mul(0x9e37_79b9_7f4a_7c15);
    let level = u64::from(node.level).wrapping_mul(0xd6e8_feb8_6659_fd93);
    let mixed = other.wrapping_add(level) >> 54;
    (mixed + 4 * u64::from(newer)) as usize & (size - 1)
}

/// The slot where the search for a node goes on.
fn start(node: Node, size: usize) -> usize
    requires { 0 < size }
    ensures value { result ≡ start_of node size }
    ensures within { result < size }
{
    let high = u64::from(node.high).wrapping_mul(0x9e37_79b9_7f4a_7c15);
    let level = u64::from(node.level).wrapping_mul(0xd6e8_feb8_6659_fd93);
    let mixed = high.wrapping_add(level) >> 32;
    (mixed + 4 * u64::from(node.low)) as usize & (size - 1)
}

/// Whether the search for a node ends at a slot: it is empty, or names the node.
fn ends(slots: &[u32], nodes: &[Node], node: Node, at: usize) -> bool
    requires within { at < length slots.now }
    requires named { (k : ℕ) → slice_index slots.now k < length nodes.now }
    ensures ends { IsTrue result → HasEnded slots.now nodes.now node at }
    ensures passed { result ≡ false → IsPassed nodes.now node (slice_index slots.now at) }
{
    let named = slots[at];
    named == 0 || nodes[named as usize] == node
}

/// The slot that names the node, or the empty one in which its number would be found.
pub fn probe(slots: &[u32], nodes: &[Node], node: Node) -> usize
    requires room { used slots.now < length slots.now }
    requires named { (k : ℕ) → slice_index slots.now k < length nodes.now }
    ensures within { result < length slots.now }
    ensures ends { EndsAt slots.now nodes.now node result }
{
    let first = near(node, slots.len());
    if ends(slots, nodes, node, first) {
        return first;
    }
    let mut at = start(node, slots.len());
    for steps in 0..slots.len() {
        if ends(slots, nodes, node, at) {
            return at;
        }
        at += 1;
        if at == slots.len() {
            at = 0;
        }
    }
    unreachable!()
}
