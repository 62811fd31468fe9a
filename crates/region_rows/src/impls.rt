//! `RegionRows` as regions.

ghost use Rattle.spec_model.specs.GameViews.{game_data};
ghost use Rattle.region_rows.specs.Slots.{kept_in};
ghost use Rattle.region_rows.specs.TraitLaws.{exact_rows, proper_rows, closed_rows};

use crate::moves::{environment_forces, environment_row, system_forces, system_row};
use crate::row;
use crate::rows::RegionRows;
use crate::slots::{RowMove, RowRegion};
use regions::{Halt, Recur, Regions, When};
use spec_model::game::Game;
use spec_model::value::Value;

impl Regions for RegionRows {
    type R = RowRegion;

    type Move = RowMove;

    ghost kept = { λ g. kept_in (game_data g.numbered.game) g.slots.slots.items };

    ghost exact = { λ g. exact_rows (game_data g.numbered.game) g.slots.slots.items };

    ghost proper = { λ g r held. proper_rows (game_data g.numbered.game) g.slots.slots.items r };

    ghost closed = { λ g. closed_rows (game_data g.numbered.game) g.numbered.made };

    fn game(&self) -> &Game {
        &self.numbered.game
    }

    fn all(&mut self) -> Result<RowRegion, Halt> {
        let Ok(row) = row::filled(self.alloc, true, self.numbered.count()) else {
            return Err(Halt::Memory);
        };
        match self.slots.keep_region(row) {
            Ok(region) => Ok(region),
            Err(_) => Err(Halt::Memory),
        }
    }

    fn none(&mut self) -> Result<RowRegion, Halt> {
        let Ok(row) = row::filled(self.alloc, false, self.numbered.count()) else {
            return Err(Halt::Memory);
        };
        match self.slots.keep_region(row) {
            Ok(region) => Ok(region),
            Err(_) => Err(Halt::Memory),
        }
    }

    fn copy(&mut self, a: &RowRegion) -> Result<RowRegion, Halt> {
        let Ok(row) = row::copied(self.alloc, self.slots.row(a), self.numbered.count()) else {
            return Err(Halt::Memory);
        };
        match self.slots.keep_region(row) {
            Ok(region) => Ok(region),
            Err(_) => Err(Halt::Memory),
        }
    }

    fn and(&mut self, a: &RowRegion, b: &RowRegion) -> Result<RowRegion, Halt> {
        let Ok(row) = row::both(
            self.alloc,
            self.slots.row(a),
            self.slots.row(b),
            self.numbered.count(),
        ) else {
            return Err(Halt::Memory);
        };
        match self.slots.keep_region(row) {
            Ok(region) => Ok(region),
            Err(_) => Err(Halt::Memory),
        }
    }

    fn or(&mut self, a: &RowRegion, b: &RowRegion) -> Result<RowRegion, Halt> {
        let Ok(row) = row::either(
            self.alloc,
            self.slots.row(a),
            self.slots.row(b),
            self.numbered.count(),
        ) else {
            return Err(Halt::Memory);
        };
        match self.slots.keep_region(row) {
            Ok(region) => Ok(region),
            Err(_) => Err(Halt::Memory),
        }
    }

    fn not(&mut self, a: &RowRegion) -> Result<RowRegion, Halt> {
        let Ok(row) = row::rest(self.alloc, self.slots.row(a), self.numbered.count()) else {
            return Err(Halt::Memory);
        };
        match self.slots.keep_region(row) {
            Ok(region) => Ok(region),
            Err(_) => Err(Halt::Memory),
        }
    }

    fn holding(&mut self, what: Recur) -> Result<RowRegion, Halt> {
        let Ok(row) = self.goal_row(what) else {
            return Err(Halt::Memory);
        };
        match self.slots.keep_region(row) {
            Ok(region) => Ok(region),
            Err(_) => Err(Halt::Memory),
        }
    }

    fn pre_sys(&mut self, t: &RowRegion) -> Result<RowRegion, Halt> {
        let Ok(row) = system_row(self.alloc, &self.later, self.slots.row(t)) else {
            return Err(Halt::Memory);
        };
        match self.slots.keep_region(row) {
            Ok(region) => Ok(region),
            Err(_) => Err(Halt::Memory),
        }
    }

    fn pre_env(&mut self, t: &RowRegion) -> Result<RowRegion, Halt> {
        let Ok(row) = environment_row(self.alloc, &self.later, self.slots.row(t)) else {
            return Err(Halt::Memory);
        };
        match self.slots.keep_region(row) {
            Ok(region) => Ok(region),
            Err(_) => Err(Halt::Memory),
        }
    }

    fn out_moves(&mut self, when: When, t: &RowRegion) -> Result<RowMove, Halt> {
        let Ok(row) = row::copied(self.alloc, self.slots.row(t), self.numbered.count()) else {
            return Err(Halt::Memory);
        };
        match self.slots.keep_outputs(when, row) {
            Ok(moves) => Ok(moves),
            Err(_) => Err(Halt::Memory),
        }
    }

    fn in_moves(&mut self, when: When, t: &RowRegion) -> Result<RowMove, Halt> {
        let Ok(row) = row::copied(self.alloc, self.slots.row(t), self.numbered.count()) else {
            return Err(Halt::Memory);
        };
        match self.slots.keep_inputs(when, row) {
            Ok(moves) => Ok(moves),
            Err(_) => Err(Halt::Memory),
        }
    }

    fn start_sys(&mut self, t: &RowRegion) -> Result<bool, Halt> {
        Ok(system_forces(&self.first, self.slots.row(t)))
    }

    fn start_env(&mut self, t: &RowRegion) -> Result<bool, Halt> {
        Ok(environment_forces(&self.first, self.slots.row(t)))
    }

    fn same(&self, a: &RowRegion, b: &RowRegion) -> bool {
        row::equal(self.slots.row(a), self.slots.row(b), self.numbered.count())
    }

    fn has(&mut self, a: &RowRegion, state: &[Value]) -> bool {
        match self.numbered.number_of(state) {
            Some(k) => self.slots.row(a).has(k),
            None => false,
        }
    }

    fn first_out(
        &mut self,
        m: &RowMove,
        state: &[Value],
        input: &[Value],
        out: &mut [Value],
    ) -> bool {
        self.find_output(m, state, input, out)
    }

    fn first_in(&mut self, m: &RowMove, state: &[Value], input: &mut [Value]) -> bool {
        self.find_input(m, state, input)
    }

    fn spend(&mut self, a: RowRegion) {
        let RowRegion { slot } = a;
        self.slots.free(slot);
    }

    fn spend_move(&mut self, m: RowMove) {
        let RowMove { slot } = m;
        self.slots.free(slot);
    }
}
