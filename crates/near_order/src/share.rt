//! How near two slots are: by the lines that both of them stand in.

/// What a line of two slots weighs. A line of more weighs less for each two of them, since it ties each the less.
const LINE: u64 = 55_440;

/// What a line of so many slots weighs.
pub fn weight(slots: usize) -> u64 {
    if slots < 3 {
        LINE
    } else {
        (LINE / (slots as u64 - 1)).max(1)
    }
}

/// A part of a whole.
#[derive(Clone, Copy)]
pub struct Share {
    pub part: u64,
    pub whole: u64,
}

/// No part of anything.
pub const NOTHING: Share = Share { part: 0, whole: 1 };

impl Share {
    /// What two slots share of the lines of that one of them which has more, by weight.
    pub fn of(both: u64, one: u64, other: u64) -> Share {
        Share {
            part: both,
            whole: one.max(other),
        }
    }

    /// Whether this is more than the other.
    pub fn is_more(&self, other: &Share) -> bool {
        self.part.wrapping_mul(other.whole) > other.part.wrapping_mul(self.whole)
    }
}
