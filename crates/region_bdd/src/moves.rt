//! Moves into regions.

ghost use Rattle.std.specs.Prelude.{◌≡◌, [], ◌∷◌, None, IfOk, IfErr};
ghost use Rattle.regions.specs.Kept.{States, Move, Outputs, Inputs, OutMoves, InMoves, HasRegion, HasMove, Makes, Halts, Spends, IsSameGame};
ghost use Rattle.region_bdd.specs.Seen.{seen};

use crate::giving_back::give_back;
use crate::keeping::{settle_inputs, settle_outputs};
use crate::leading::with_leading;
use crate::object::RegionBdd;
use crate::own::Asked;
use crate::slots::{BddMove, BddRegion};
use bdd_sets::steps::shift;
use regions::{Halt, When};

impl RegionBdd {
    /// The legal outputs that lead into `t`, after each state and legal input.
    pub fn out_moves(&mut self, when: When, t: &BddRegion) -> Result<BddMove, Halt>
        requires free { (seen self.old).jam ≡ None }
        requires t { HasRegion (seen self.old) t.now }
        ensures made { let k = seen self.old in
            IfOk result (λ m. Makes k (seen self.new) (Move m) (Outputs when (k.set t.now))) }
        ensures halted { let k = seen self.old in
            IfErr result (Halts k (seen self.new) (OutMoves when) (States (k.set t.now) ∷ [])) }
        ensures keeps { IsSameGame (seen self.old) (seen self.new) }
    {
        let Ok(()) = self.slots.room() else {
            return Err(Halt::Memory);
        };
        let made = shift(&mut self.diagrams, self.slots.region(t), &self.levels.to);
        let why = Asked::OutMoves(when).of(Some(t.slot), None);
        settle_outputs(&mut self.slots, &mut self.refused, made, when, why)
    }

    /// The legal inputs all of whose legal outputs lead into `t`, after each state.
    pub fn in_moves(&mut self, when: When, t: &BddRegion) -> Result<BddMove, Halt>
        requires free { (seen self.old).jam ≡ None }
        requires t { HasRegion (seen self.old) t.now }
        ensures made { let k = seen self.old in
            IfOk result (λ m. Makes k (seen self.new) (Move m) (Inputs when (k.set t.now))) }
        ensures halted { let k = seen self.old in
            IfErr result (Halts k (seen self.new) (InMoves when) (States (k.set t.now) ∷ [])) }
        ensures keeps { IsSameGame (seen self.old) (seen self.new) }
    {
        let Ok(()) = self.slots.room() else {
            return Err(Halt::Memory);
        };
        let made = with_leading(
            &mut self.diagrams,
            self.slots.region(t),
            self.own.members(when),
            &self.levels,
        );
        let why = Asked::InMoves(when).of(Some(t.slot), None);
        settle_inputs(&mut self.slots, &mut self.refused, made, when, why)
    }

    /// Takes moves out of what is held. After the budget ran out their diagrams stay, since the object tells of them.
    pub fn spend_move(&mut self, m: BddMove)
        requires { HasMove (seen self.old) m }
        ensures spends { Spends (seen self.old) (seen self.new) (Move m) }
        ensures keeps { IsSameGame (seen self.old) (seen self.new) }
    {
        let BddMove { slot } = m;
        if self.refused.is_some() {
            self.slots.spend(slot);
            return;
        }
        let content = self.slots.free(slot);
        give_back(&mut self.diagrams, content);
    }
}
