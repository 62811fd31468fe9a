//! The columns of the table: a node, whether it is live and whether it is marked, for each place.

ghost use Rattle.std.specs.Prelude.{◌≡◌, ◌+◌, ◌^◌, ◌<◌, ◌≤◌, ◌||◌, ℕ, length, slice_index_or, count_by, true, false, IsTrue, OnOk, OnErr, vec_len};
ghost use Rattle.std.specs.Prelude.{nat_lt};
ghost use Rattle.node_table.specs.Index.{Settles};

use crate::OutOfMemory;
use crate::node::Node;

/// The first place from `from` on that is free, or the number of places.
pub fn first_free(live: &[bool], from: usize) -> usize
    requires within { from ≤ length live.now }
    requires taken { (n : ℕ) → n < from → IsTrue (slice_index_or live.now n false) }
    ensures within { result ≤ length live.now }
    ensures taken { (n : ℕ) → n < result → IsTrue (slice_index_or live.now n false) }
    ensures free { slice_index_or live.now result false ≡ false }
{
    let mut n = from;
    while n < live.len() && live[n] {
        n += 1;
    }
    n
}

/// Puts a node at the free place `n`, or behind the last one. Want of memory changes nothing.
pub fn settle(
    nodes: &mut Vec<Node>,
    live: &mut Vec<bool>,
    marked: &mut Vec<bool>,
    n: usize,
    node: Node,
) -> Result<(), OutOfMemory>
    requires within { n ≤ vec_len nodes.old }
    requires flags { vec_len live.old ≡ vec_len nodes.old }
    requires marks { vec_len marked.old ≡ vec_len nodes.old }
    requires free { slice_index_or live.old.items n false ≡ false }
    ensures settled { OnOk result (Settles nodes.old.items nodes.new.items live.old.items live.new.items marked.old.items marked.new.items n node) }
    ensures unchanged { OnErr result ((nodes.new.items ≡ nodes.old.items) × (live.new.items ≡ live.old.items) × (marked.new.items ≡ marked.old.items)) }
{
    if n < nodes.len() {
        nodes[n] = node;
        live[n] = true;
        return Ok(());
    }
    nodes.reserve(1)?;
    live.reserve(1)?;
    marked.reserve(1)?;
    nodes.push(node)?;
    live.push(true)?;
    marked.push(false)?;
    Ok(())
}

/// Makes the marks, with the constants, the flags of what is live, and takes the marks away. It answers how many nodes
/// are live then.
pub fn drop_unmarked(live: &mut Vec<bool>, marked: &mut Vec<bool>) -> u32
    requires marks { vec_len marked.old ≡ vec_len live.old }
    requires constants { 2 ≤ vec_len live.old }
    requires small { vec_len live.old < 2 ^ 32 }
    ensures live { (n : ℕ) → slice_index_or live.new.items n false ≡ (nat_lt n 2 || slice_index_or marked.old.items n false) }
    ensures marked { (n : ℕ) → slice_index_or marked.new.items n false ≡ false }
    ensures flags { vec_len live.new ≡ vec_len live.old }
    ensures marks { vec_len marked.new ≡ vec_len live.old }
    ensures count { result ≡ count_by (λ b. b) live.new.items }
{
    let mut count = 0;
    for n in 0..live.len() {
        let stays = n < 2 || marked[n];
        live[n] = stays;
        marked[n] = false;
        if stays {
            count += 1;
        }
    }
    count
}
