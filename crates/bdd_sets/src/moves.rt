//! Where inputs avoid a set, the plain way: what is held between operations are the target, the conjunctions of lines and
//! what a player can force, and nothing else.

ghost use Rattle.std.specs.Prelude.{Ok};
ghost use Rattle.spec_model.specs.Diagrams.{Function};
ghost use Rattle.bdd_bits.specs.Contents.{Contents};
ghost use Rattle.bdd_ops.specs.Calls.{negated};
ghost use Rattle.bit_compile.specs.Making.{Makes};
ghost use Rattle.bdd_sets.specs.Members.{AreMembers, move_functions, reply_of, avoiding, lists_at};
ghost use Rattle.bit_compile.specs.Crowding.{HasCause};
ghost use Rattle.bdd_sets.specs.NamedMoves.{IsOfAvoiding};

use crate::spent::{beside, exists_spent, join_spent, not_spent};
use bdd_bits::{Diagrams, Root};
use regions::Halt;

/// The lines of the first moves or of later ones, each as its diagram. Inputs and outputs have, after their lines, the
/// next states; the update has a diagram for each hidden table, and the inputs have these too, since a line that is
/// judged when inputs come may read a hidden value.
pub struct Members {
    pub inputs: Vec<Root>,
    pub outputs: Vec<Root>,
    pub update: Vec<Root>,
}

/// The levels of next bits, rising strictly in the first two lists.
#[derive(Drop)]
pub struct NextLevels {
    /// All of them.
    pub all: Vec<u32>,
    /// Those of the hidden tables and of the outputs.
    pub reply: Vec<u32>,
    /// For each level, the next one of the same bit.
    pub to: Vec<u32>,
}

/// Where some legal output leads into the target, which is given back.
fn replies(
    diagrams: &mut Diagrams,
    target: Root,
    members: &Members,
    levels: &NextLevels,
) -> Result<Root, Halt>
    requires { (base : Contents) × (f : Function) × Makes base diagrams.old (Ok target) f × AreMembers base members.now }
    ensures made { (base : Contents) (f : Function) → Makes base diagrams.old (Ok target) f → AreMembers base members.now → Makes base diagrams.new result (reply_of (move_functions base members.now) levels.now.reply.items f) }
    ensures cause { (base : Contents) (f : Function) → Makes base diagrams.old (Ok target) f → AreMembers base members.now → HasCause base diagrams.new result (IsOfAvoiding (lists_at base members.now) levels.now.reply.items f) }
{
    let (target, legal) = beside(diagrams, target, &members.outputs)?;
    let reached = join_spent(diagrams, target, legal)?;
    let (reached, update) = beside(diagrams, reached, &members.update)?;
    exists_spent(diagrams, reached, update, &levels.reply)
}

/// Where no legal output leads into the target, which is given back.
pub fn kept_out(
    diagrams: &mut Diagrams,
    target: Root,
    members: &Members,
    levels: &NextLevels,
) -> Result<Root, Halt>
    requires { (base : Contents) × (f : Function) × Makes base diagrams.old (Ok target) f × AreMembers base members.now }
    ensures made { (base : Contents) (f : Function) → Makes base diagrams.old (Ok target) f → AreMembers base members.now → Makes base diagrams.new result (negated (reply_of (move_functions base members.now) levels.now.reply.items f)) }
    ensures cause { (base : Contents) (f : Function) → Makes base diagrams.old (Ok target) f → AreMembers base members.now → HasCause base diagrams.new result (IsOfAvoiding (lists_at base members.now) levels.now.reply.items f) }
{
    let leads = replies(diagrams, target, members, levels)?;
    not_spent(diagrams, leads)
}

/// Where some legal input has no legal output into the target, which is given back.
pub fn avoided(
    diagrams: &mut Diagrams,
    target: Root,
    members: &Members,
    levels: &NextLevels,
) -> Result<Root, Halt>
    requires { (base : Contents) × (f : Function) × Makes base diagrams.old (Ok target) f × AreMembers base members.now }
    ensures made { (base : Contents) (f : Function) → Makes base diagrams.old (Ok target) f → AreMembers base members.now → Makes base diagrams.new result (avoiding (move_functions base members.now) levels.now.reply.items levels.now.all.items f) }
    ensures cause { (base : Contents) (f : Function) → Makes base diagrams.old (Ok target) f → AreMembers base members.now → HasCause base diagrams.new result (IsOfAvoiding (lists_at base members.now) levels.now.reply.items f) }
{
    let out = kept_out(diagrams, target, members, levels)?;
    let (out, legal) = beside(diagrams, out, &members.inputs)?;
    exists_spent(diagrams, out, legal, &levels.all)
}
