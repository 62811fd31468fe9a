//! Marking what a node reaches, with no memory taken.

ghost use Rattle.std.specs.Prelude.{◌≡◌, ◌<◌, ◌≤◌, ℕ, ◌⊎◌, false, true, length, slice_index_or, MatchOption};
ghost use Rattle.node_table.specs.Table.{Table};
ghost use Rattle.node_table.specs.Index.{node_of, with_columns, IsMarkable, IsMarkedFrom, HasPartsMarked, IsUnmarkedPart};

use crate::node::Node;

/// A part of a node that isn't marked, if there is one.
fn unmarked_part(nodes: &[Node], marked: &[bool], n: u32) -> Option<u32>
    requires within { n < length nodes.now }
    requires low { 2 ≤ n → (node_of nodes.now n).low < length marked.now }
    requires high { 2 ≤ n → (node_of nodes.now n).high < length marked.now }
    ensures { MatchOption result (HasPartsMarked nodes.now marked.now n) (IsUnmarkedPart nodes.now marked.now n) }
{
    if n < 2 {
        return None;
    }
    let node = nodes[n as usize];
    if !marked[node.low as usize] {
        return Some(node.low);
    }
    if !marked[node.high as usize] {
        return Some(node.high);
    }
    None
}

/// Marks an unmarked node and all that it reaches, each node behind its parts. `way` holds the nodes that lead from it
/// to the one that is looked at; it has a place for each level, and one for a constant.
pub fn mark_from(nodes: &[Node], marked: &mut [bool], way: &mut [u32], n: u32)
    requires { (t : Table) × IsMarkable (with_columns t nodes.now marked.old) n (length way.old) }
    ensures { (t : Table) → IsMarkable (with_columns t nodes.now marked.old) n (length way.old) → IsMarkedFrom (with_columns t nodes.now marked.old) (with_columns t nodes.now marked.new) n }
{
    way[0] = n;
    let mut depth = 1;
    while depth > 0 {
        let at = way[depth - 1];
        match unmarked_part(nodes, marked, at) {
            Some(part) => {
                way[depth] = part;
                depth += 1;
            }
            None => {
                marked[at as usize] = true;
                depth -= 1;
            }
        }
    }
}
