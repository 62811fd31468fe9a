//! The layers by a plain program: a set is a word with a bit for each state, and each equation is turned until nothing
//! changes. A state's number has a bit for each variable, in declared order, from the lowest bit up.

ghost use Rattle.std.specs.Prelude.{◌≤◌};

/// The games of the tests, as `GAMES` has their texts.
#[derive(Clone, Copy)]
pub enum Name {
    Foretold,
    Blocked,
    Crossed,
    Granted,
    Spent,
}

/// What the layers are: the first `n` words, M, and whether the environment forces the first state into the last.
#[derive(Drop)]
pub struct Plain {
    pub layers: [u64; 64],
    pub n: u64,
    pub m: u64,
    pub wins: bool,
}

// ---- the games

pub fn bit(s: u32, v: u32) -> bool {
    (s >> (v % 32)) & 1 == 1
}

pub fn variables(name: Name) -> usize
    ensures { result ≤ 6 }
{
    match name {
        Name::Crossed => 3,
        Name::Spent => 6,
        _ => 2,
    }
}

pub fn is_state(name: Name, s: u32) -> bool {
    match name {
        Name::Crossed => s < 8,
        Name::Spent => s < 64,
        _ => s < 4,
    }
}

fn input_of(name: Name, s: u32) -> u32 {
    match name {
        Name::Crossed => s % 4,
        Name::Spent => s % 8,
        _ => s % 2,
    }
}

fn takes_input(name: Name, x: u32) -> bool {
    match name {
        Name::Crossed => x < 3,
        Name::Spent => x == 0 || x == 1 || x == 2 || x == 4,
        _ => x < 2,
    }
}

fn takes_output(name: Name, before: u32, now: u32) -> bool {
    match name {
        Name::Foretold => bit(before, 1) == bit(now, 0),
        Name::Spent => {
            let p = bit(before, 4) && !bit(now, 4);
            let q = bit(before, 5) && !bit(now, 5);
            let rises = bit(now, 4) && !bit(before, 4) || bit(now, 5) && !bit(before, 5);
            !rises && (!bit(now, 3) || p || q)
        }
        _ => takes_first(name, now),
    }
}

fn takes_first(name: Name, now: u32) -> bool {
    match name {
        Name::Blocked => bit(now, 0) || !bit(now, 1),
        Name::Granted => bit(now, 1) || !bit(now, 0),
        Name::Crossed => !bit(now, 2),
        _ => true,
    }
}

fn misses(name: Name, j: u32, s: u32) -> bool {
    match name {
        Name::Foretold => false,
        Name::Crossed => !bit(s, 2),
        Name::Spent => !bit(s, if j == 0 { 3 } else { 5 }),
        _ => !bit(s, 1),
    }
}

fn assumes(name: Name, i: u32, s: u32) -> bool {
    match name {
        Name::Crossed | Name::Spent => bit(s, i),
        _ => true,
    }
}

fn assumptions(name: Name) -> u32 {
    match name {
        Name::Crossed => 2,
        Name::Spent => 3,
        _ => 1,
    }
}

// ---- the sets

fn has(t: u64, s: u32) -> bool {
    (t >> (s % 64)) & 1 == 1
}

/// Whether the input is legal and each of its outputs leads into `t`; `None` before the first position.
fn leads(name: Name, before: Option<u32>, x: u32, t: u64) -> bool {
    for s in 0..64u32 {
        if is_state(name, s) && input_of(name, s) == x && !has(t, s) {
            let legal = match before {
                Some(b) => takes_output(name, b, s),
                None => takes_first(name, s),
            };
            if legal {
                return false;
            }
        }
    }
    takes_input(name, x)
}

fn is_forced(name: Name, before: Option<u32>, t: u64) -> bool {
    for x in 0..8u32 {
        if leads(name, before, x, t) {
            return true;
        }
    }
    false
}

fn forced(name: Name, t: u64) -> u64 {
    let mut found = 0u64;
    for s in 0..64u32 {
        if is_state(name, s) && is_forced(name, Some(s), t) {
            found |= 1u64 << s;
        }
    }
    found
}

fn missed(name: Name, j: u32) -> u64 {
    let mut found = 0u64;
    for s in 0..64u32 {
        if is_state(name, s) && misses(name, j, s) {
            found |= 1u64 << s;
        }
    }
    found
}

fn assumed(name: Name, i: u32) -> u64 {
    let mut found = 0u64;
    for s in 0..64u32 {
        if is_state(name, s) && assumes(name, i, s) {
            found |= 1u64 << s;
        }
    }
    found
}

// ---- the equations

/// The last iterate for an assumption, and its rank.
fn delayed(name: Name, cover: u64, i: u32) -> (u64, u64) {
    let mut t = 0u64;
    for r in 0..64u64 {
        let next = (forced(name, t) | assumed(name, i)) & cover;
        if next == t {
            return (t, r);
        }
        t = next;
    }
    (t, 64)
}

/// The value that follows `y`, and the ranks together.
fn turned(name: Name, base: u64, y: u64) -> (u64, u64) {
    let cover = forced(name, y) & base;
    let mut met = u64::MAX;
    let mut ranks = 0u64;
    for i in 0..assumptions(name) {
        let (t, r) = delayed(name, cover, i);
        met &= t;
        ranks = ranks.wrapping_add(r);
    }
    (met, ranks)
}

fn hold(name: Name, base: u64) -> (u64, u64) {
    let mut y = u64::MAX;
    let mut ranks = 0;
    for _ in 0..66u32 {
        let (next, more) = turned(name, base, y);
        ranks = more;
        if next == y {
            return (y, ranks);
        }
        y = next;
    }
    (y, ranks)
}

/// The layer above one, and the most ranks of its holds.
fn above(name: Name, lower: u64) -> (u64, u64) {
    let ready = forced(name, lower);
    let (first, ranks) = hold(name, missed(name, 0) | ready);
    let (second, more) = hold(name, missed(name, 1) | ready);
    (first | second, ranks.max(more))
}

/// The layers up to the last, how many there are, the most ranks of a hold, and the last.
fn climbed(name: Name, layers: &mut [u64; 64]) -> (u64, u64, u64) {
    let mut z = 0u64;
    let mut most = 0u64;
    for a in 0..64usize {
        let (next, ranks) = above(name, z);
        if next == z {
            return (a as u64, most, z);
        }
        layers[a] = next;
        z = next;
        most = most.max(ranks);
    }
    (64, most, z)
}

pub fn solved(name: Name) -> Plain {
    let mut layers = [0u64; 64];
    let (n, most, last) = climbed(name, &mut layers);
    Plain {
        layers,
        n,
        m: most.wrapping_add(1),
        wins: is_forced(name, None, last),
    }
}

/// One of the layers, from 0 on.
pub fn layer(plain: &Plain, a: usize) -> u64 {
    if a < 64 { plain.layers[a] } else { 0 }
}
