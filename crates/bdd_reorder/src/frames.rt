//! Parts that are being copied, each of which waits for the copy of one of its two parts.

ghost use Rattle.std.specs.Prelude.{◌≡◌, ◌≤◌, ◌+◌, ℕ};
ghost use Rattle.bdd_store.specs.State.{roots_at};
ghost use Rattle.bdd_reorder.specs.Frames.{both_at, low_at, waited_by};

use bdd_ops::{Diagrams, Root, Split, StoreFault};

/// A part that is split: its number where it is copied from, and the copy of its low part once that is made. It waits for
/// that, and then for the copy of its high part.
pub struct Frame {
    pub number: u32,
    pub split: Split,
    pub low_copy: Option<Root>,
}

/// What comes next.
pub enum Turn {
    /// The frame asks for the copy that it waits for.
    Asks(Frame),
    /// The copy that was asked for last, or why there is none.
    Answer(Result<Root, StoreFault>),
}

impl Frame {
    /// The part whose copy it waits for.
    pub fn waited(&self) -> &Root
        ensures { result.now ≡ waited_by self.now }
    {
        match self.low_copy {
            None => &self.split.low,
            Some(_) => &self.split.high,
        }
    }
}

/// Gives both parts back.
pub fn end_split(from: &mut Diagrams, split: Split)
    requires { (n : ℕ) → both_at n split ≤ roots_at from.old.state n }
    ensures released { (n : ℕ) → roots_at from.old.state n ≡ roots_at from.new.state n + both_at n split }
    ensures table { from.new.state.table ≡ from.old.state.table }
{
    let Split {
        level: _,
        low,
        high,
    } = split;
    from.release(high);
    from.release(low);
}

/// Gives a copy back, if there is one.
fn end_copy(to: &mut Diagrams, copy: Option<Root>)
    requires { (n : ℕ) → low_at n copy ≤ roots_at to.old.state n }
    ensures released { (n : ℕ) → roots_at to.old.state n ≡ roots_at to.new.state n + low_at n copy }
    ensures table { to.new.state.table ≡ to.old.state.table }
{
    match copy {
        None => {}
        Some(root) => to.release(root),
    }
}

/// Gives back what a frame keeps in both stores.
pub fn end_frame(from: &mut Diagrams, to: &mut Diagrams, frame: Frame)
    requires parts { (n : ℕ) → both_at n frame.split ≤ roots_at from.old.state n }
    requires copy { (n : ℕ) → low_at n frame.low_copy ≤ roots_at to.old.state n }
    ensures from_released { (n : ℕ) → roots_at from.old.state n ≡ roots_at from.new.state n + both_at n frame.split }
    ensures from_table { from.new.state.table ≡ from.old.state.table }
    ensures to_released { (n : ℕ) → roots_at to.old.state n ≡ roots_at to.new.state n + low_at n frame.low_copy }
    ensures to_table { to.new.state.table ≡ to.old.state.table }
{
    let Frame {
        number: _,
        split,
        low_copy,
    } = frame;
    end_split(from, split);
    end_copy(to, low_copy);
}
