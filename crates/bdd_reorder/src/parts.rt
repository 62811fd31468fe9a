//! The copy of a diagram, part by part, by a loop over frames.

ghost use Rattle.std.specs.Prelude.{◌≡◌, ◌<◌, ◌≤◌, ◌+◌, ◌++◌, [], ◌∷◌, ℕ, List, Some, None, Err};
ghost use Rattle.spec_model.specs.Diagrams.{IsReduced};
ghost use Rattle.bdd_store.specs.State.{IsRoot, roots_at, diagram_of, SameRoots};
ghost use Rattle.bdd_reorder.specs.declared.frames.Frame.{Frame};
ghost use Rattle.bdd_reorder.specs.Keeping.{one_at, made_at};
ghost use Rattle.bdd_reorder.specs.Crowding.{IsCrowdedSince};
ghost use Rattle.bdd_reorder.specs.Rearranged.{IsOfPart};
ghost use Rattle.bdd_reorder.specs.Copying.{FitsLevels, CanCopy, CopiesPart};
ghost use Rattle.bdd_reorder.specs.Frames.{both_at, low_at, turns_of};
ghost use Rattle.bdd_reorder.specs.Turns.{Origin, IsCopying, IsTurn, Replies, Joins, turns_left, own_turns};

use crate::frames::{Frame, Turn, end_frame, end_split};
use crate::memo::Memo;
use crate::steps::branch;
use bdd_ops::{Diagrams, Root, StoreFault};

/// The copy of a part that is remembered or a constant. Another part is split.
fn reply(from: &mut Diagrams, to: &mut Diagrams, truth: &Root, memo: &Memo, a: &Root) -> Turn
    requires ready { (levels : List ℕ) × CanCopy from.old to.old levels truth.now memo.now.copies.items }
    requires kept { IsRoot from.old.state a.now }
    ensures replies { (levels : List ℕ) → CanCopy from.old to.old levels truth.now memo.now.copies.items → Replies from.old from.new to.old to.new levels a.now result }
    ensures table { from.new.state.table ≡ from.old.state.table }
{
    let number = from.number(a);
    if let Some(place) = memo.find(number) {
        return Turn::Answer(to.keep(&memo.copies[place].root));
    }
    match from.split(a) {
        Err(fault) => Turn::Answer(Err(fault)),
        Ok(None) => Turn::Answer(to.constant(from.equal(a, truth))),
        Ok(Some(split)) => Turn::Asks(Frame {
            number,
            split,
            low_copy: None,
        }),
    }
}

/// The branch of two copies, which are given back.
fn join(to: &mut Diagrams, level: u32, low: Root, high: Root) -> Result<Root, StoreFault>
    requires level { level < to.old.state.table.levels }
    requires kept { (n : ℕ) → one_at n low + one_at n high ≤ roots_at to.old.state n }
    ensures { Joins to.old to.new level low high result }
{
    let made = branch(to, level, &low, &high);
    to.release(high);
    to.release(low);
    made
}

/// Gives a frame the copy that it waited for, or tells why there is none.
fn hand(
    from: &mut Diagrams,
    to: &mut Diagrams,
    levels: &[u32],
    memo: &mut Memo,
    frame: Frame,
    made: Result<Root, StoreFault>,
) -> Turn
    requires fits { FitsLevels from.old to.old levels.now }
    requires level { frame.split.level < from.old.state.table.levels }
    requires parts { (n : ℕ) → both_at n frame.split ≤ roots_at from.old.state n }
    requires copies { (n : ℕ) → low_at n frame.low_copy + made_at n made ≤ roots_at to.old.state n }
    ensures copying { (o : Origin) (frames : List Frame) → o.levels ≡ levels.now → IsCopying o from.old to.old memo.old.copies.items (frames ++ frame ∷ []) (Some made) → IsTurn o from.new to.new memo.new.copies.items frames result }
    ensures fewer { own_turns from.old.state.table result < turns_of from.old.state.table frame }
{
    let root = match made {
        Ok(root) => root,
        Err(fault) => {
            end_frame(from, to, frame);
            return Turn::Answer(Err(fault));
        }
    };
    let Frame {
        number,
        split,
        low_copy,
    } = frame;
    let Some(low) = low_copy else {
        return Turn::Asks(Frame {
            number,
            split,
            low_copy: Some(root),
        });
    };
    let joined = join(to, levels[split.level as usize], low, root);
    end_split(from, split);
    Turn::Answer(memo.remember(to, number, joined))
}

/// Asks for the copy that a frame waits for, and hands it over if it is there. Where the part that is asked for is split, the
/// frame waits with the others, if there is memory for it.
fn ask(
    from: &mut Diagrams,
    to: &mut Diagrams,
    levels: &[u32],
    truth: &Root,
    memo: &mut Memo,
    frames: &mut Vec<Frame>,
    frame: Frame,
) -> Turn
    requires ready { CanCopy from.old to.old levels.now truth.now memo.old.copies.items }
    requires level { frame.split.level < from.old.state.table.levels }
    requires parts { (n : ℕ) → both_at n frame.split ≤ roots_at from.old.state n }
    requires copy { (n : ℕ) → low_at n frame.low_copy ≤ roots_at to.old.state n }
    ensures copying { (o : Origin) → o.levels ≡ levels.now → IsCopying o from.old to.old memo.old.copies.items (frames.old.items ++ frame ∷ []) None → IsTurn o from.new to.new memo.new.copies.items frames.new.items result }
    ensures fewer { turns_left from.old.state.table frames.new.items result < turns_left from.old.state.table frames.old.items (Turn.Asks frame) }
{
    if frames.reserve(1).is_err() {
        end_frame(from, to, frame);
        return Turn::Answer(Err(StoreFault::Memory));
    }
    match reply(from, to, truth, memo, frame.waited()) {
        Turn::Answer(made) => hand(from, to, levels, memo, frame, made),
        Turn::Asks(next) => {
            frames.push_reserved(frame);
            Turn::Asks(next)
        }
    }
}

/// The copy of a part. The frames are a buffer.
pub fn part(
    from: &mut Diagrams,
    to: &mut Diagrams,
    levels: &[u32],
    truth: &Root,
    memo: &mut Memo,
    frames: &mut Vec<Frame>,
    a: &Root,
) -> Result<Root, StoreFault>
    requires ready { CanCopy from.old to.old levels.now truth.now memo.old.copies.items }
    requires empty { frames.old.items ≡ [] }
    requires kept { IsRoot from.old.state a.now }
    ensures copied { CopiesPart from.old.state.table to.old to.new levels.now (diagram_of from.old.state a.now) memo.old.copies.items memo.new.copies.items result }
    ensures full { result ≡ Err StoreFault.Full → IsReduced (diagram_of from.old.state a.now) × ((level : ℕ) × IsCrowdedSince to.old.state to.new.state.table (IsOfPart levels.now (diagram_of from.old.state a.now) level)) }
    ensures empty { frames.new.items ≡ [] }
    ensures from_table { from.new.state.table ≡ from.old.state.table }
    ensures from_roots { SameRoots from.old.state from.new.state }
{
    let mut turn = reply(from, to, truth, memo, a);
    loop {
        turn = match turn {
            Turn::Asks(frame) => ask(from, to, levels, truth, memo, frames, frame),
            Turn::Answer(made) => {
                let Some(frame) = frames.pop() else {
                    return made;
                };
                hand(from, to, levels, memo, frame, made)
            }
        };
    }
}
