//! `RegionBdd` as regions.

ghost use Rattle.spec_model.specs.GameViews.{game_data};
ghost use Rattle.region_bdd.specs.Object.{kept_of};
ghost use Rattle.region_bdd.specs.TraitLaws.{exact_object, proper_object, closed_game};

use crate::object::RegionBdd;
use crate::slots::{BddMove, BddRegion};
use regions::{Halt, Recur, Regions, When};
use spec_model::game::Game;
use spec_model::value::Value;

impl Regions for RegionBdd {
    type R = BddRegion;

    type Move = BddMove;

    ghost kept = { λ g. kept_of (game_data g.game) g.diagrams g.slots.slots.items g.refused };

    ghost exact = { λ g. exact_object (game_data g.game) g.diagrams g.slots.slots.items g.refused };

    ghost proper = { λ g r held. proper_object (game_data g.game) g.diagrams g.slots.slots.items g.refused r };

    ghost closed = { λ g. closed_game (game_data g.game) g.whole.made };

    fn game(&self) -> &Game {
        &self.game
    }

    fn all(&mut self) -> Result<BddRegion, Halt> {
        self.all()
    }

    fn none(&mut self) -> Result<BddRegion, Halt> {
        self.none()
    }

    fn copy(&mut self, a: &BddRegion) -> Result<BddRegion, Halt> {
        self.copy(a)
    }

    fn and(&mut self, a: &BddRegion, b: &BddRegion) -> Result<BddRegion, Halt> {
        self.and(a, b)
    }

    fn or(&mut self, a: &BddRegion, b: &BddRegion) -> Result<BddRegion, Halt> {
        self.or(a, b)
    }

    fn not(&mut self, a: &BddRegion) -> Result<BddRegion, Halt> {
        self.not(a)
    }

    fn holding(&mut self, what: Recur) -> Result<BddRegion, Halt> {
        self.holding(what)
    }

    fn pre_sys(&mut self, t: &BddRegion) -> Result<BddRegion, Halt> {
        self.pre_sys(t)
    }

    fn pre_env(&mut self, t: &BddRegion) -> Result<BddRegion, Halt> {
        self.pre_env(t)
    }

    fn out_moves(&mut self, when: When, t: &BddRegion) -> Result<BddMove, Halt> {
        self.out_moves(when, t)
    }

    fn in_moves(&mut self, when: When, t: &BddRegion) -> Result<BddMove, Halt> {
        self.in_moves(when, t)
    }

    fn start_sys(&mut self, t: &BddRegion) -> Result<bool, Halt> {
        self.start_sys(t)
    }

    fn start_env(&mut self, t: &BddRegion) -> Result<bool, Halt> {
        self.start_env(t)
    }

    fn same(&self, a: &BddRegion, b: &BddRegion) -> bool {
        self.same(a, b)
    }

    fn has(&mut self, a: &BddRegion, state: &[Value]) -> bool {
        self.has(a, state)
    }

    fn first_out(
        &mut self,
        m: &BddMove,
        state: &[Value],
        input: &[Value],
        out: &mut [Value],
    ) -> bool {
        self.first_out(m, state, input, out)
    }

    fn first_in(&mut self, m: &BddMove, state: &[Value], input: &mut [Value]) -> bool {
        self.first_in(m, state, input)
    }

    fn spend(&mut self, a: BddRegion) {
        self.spend(a)
    }

    fn spend_move(&mut self, m: BddMove) {
        self.spend_move(m)
    }
}
