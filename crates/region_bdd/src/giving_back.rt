//! The diagrams of a slot that is freed are given back.

ghost use Rattle.std.specs.Prelude.{◌≡◌, ◌≤◌, ◌+◌, ℕ};
ghost use Rattle.bdd_store.specs.State.{roots_at};
ghost use Rattle.bdd_bits.specs.Calls.{SameNodes};
ghost use Rattle.region_bdd.specs.Slots.{roots_within};

use crate::slots::Content;
use bdd_bits::Diagrams;

/// Gives back each root of a content.
pub fn give_back(diagrams: &mut Diagrams, content: Content)
    requires { (n : ℕ) → roots_within n content ≤ roots_at diagrams.old.state n }
    ensures back { (n : ℕ) → roots_at diagrams.old.state n ≡ roots_at diagrams.new.state n + roots_within n content }
    ensures nodes { SameNodes diagrams.old diagrams.new }
{
    match content {
        Content::Region(root) => diagrams.release(root),
        Content::Outputs(_, root) => diagrams.release(root),
        Content::Inputs(_, root, leads) => {
            diagrams.release(root);
            diagrams.release(leads);
        }
    }
}
