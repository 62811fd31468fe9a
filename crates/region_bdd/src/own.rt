//! The diagrams that an object keeps for itself, and why its budget ran out.

ghost use Rattle.std.specs.Prelude.{◌≡◌, ◌<◌, length, slice_index};
ghost use Rattle.regions.specs.Rules.{number_of};
ghost use Rattle.region_bdd.specs.Goals.{goal_roots};
ghost use Rattle.region_bdd.specs.Leading.{members_at};

use bdd_bits::Root;
use bdd_products::early::Early;
use bdd_sets::forcing::StepRoots;
use bdd_sets::moves::Members;
use regions::{Recur, When};

/// What the object keeps from its making on: sets of the game's own formulas.
pub struct Own {
    /// No state and all states, at the present bits, and the lines of later moves.
    pub step: StepRoots,
    /// Where each recurring assumption holds.
    pub assume: Vec<Root>,
    /// Where each recurring guarantee holds.
    pub goals: Vec<Root>,
    /// The lines of the first moves, at the next bits.
    pub first: Members,
    /// The lines of later moves as products, if there was room.
    pub early: Option<Early>,
}

/// A call that may be refused for want of budget.
#[derive(Clone, Copy, PartialEq, Eq)]
pub enum Asked {
    All,
    NoStates,
    Copy,
    And,
    Or,
    Not,
    Holding,
    PreSys,
    PreEnv,
    OutMoves(When),
    InMoves(When),
    StartSys,
    StartEnv,
}

/// The call that was refused, and the slots of its arguments.
#[derive(Clone, Copy, PartialEq, Eq)]
pub struct Refused {
    pub asked: Asked,
    pub first: Option<usize>,
    pub second: Option<usize>,
}

impl Asked {
    /// That this call was refused, and the slots of its arguments.
    pub fn of(self, first: Option<usize>, second: Option<usize>) -> Refused
        ensures { result ≡ record { asked = self; first = first; second = second } }
    {
        Refused {
            asked: self,
            first,
            second,
        }
    }
}

impl Own {
    /// The diagram of a recurring goal.
    pub fn goal(&self, what: Recur) -> &Root
        requires { number_of what < length (goal_roots self.now what) }
        ensures { slice_index (goal_roots self.now what) (number_of what) ≡ result.now }
    {
        match what {
            Recur::Assumption(k) => &self.assume[k],
            Recur::Guarantee(k) => &self.goals[k],
        }
    }
    /// The lines of the first moves, or of later ones.
    pub fn members(&self, when: When) -> &Members
        ensures { result.now ≡ members_at self.now when }
    {
        match when {
            When::First => &self.first,
            When::Later => &self.step.later,
        }
    }
}
