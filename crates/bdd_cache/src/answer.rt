ghost use Rattle.std.specs.Prelude.{◌↔◌, IsTrue};
ghost use Rattle.bdd_cache.specs.Kept.{IsLive, HasLiveNodes};

/// One answer: operation `op` on the nodes `a`, `b` and `c` gives the node `r`. An operation of fewer nodes has the
/// constant 0 in their places.
#[derive(Clone, Copy, PartialEq, Eq)]
pub struct Answer {
    pub op: u32,
    pub a: u32,
    pub b: u32,
    pub c: u32,
    pub r: u32,
}

/// What a cell holds that no answer is in: operations have numbers from 1 on.
pub const NONE: Answer = Answer {
    op: 0,
    a: 0,
    b: 0,
    c: 0,
    r: 0,
};

/// Whether the node has a flag that is true.
fn is_live(live: &[bool], node: u32) -> bool
    ensures { IsTrue result ↔ IsLive live.now node }
{
    let place = node as usize;
    place < live.len() && live[place]
}

/// Whether all of the answer's nodes are live.
pub fn has_live_nodes(live: &[bool], answer: Answer) -> bool
    ensures { IsTrue result ↔ HasLiveNodes live.now answer }
{
    is_live(live, answer.a)
        && is_live(live, answer.b)
        && is_live(live, answer.c)
        && is_live(live, answer.r)
}
