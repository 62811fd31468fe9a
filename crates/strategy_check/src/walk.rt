//! All that is met from the start on.

ghost use Rattle.std.specs.Prelude.{◌≡◌, ◌<◌, ◌≤◌, ◌++◌, ℕ, [], ◌∷◌, List, length, map, slice_get, Option, Some, None, IfOk, IfErr, OnOk, IsTrue};
ghost use Rattle.std.specs.List.{AllByRecursion};
ghost use Rattle.spec_model.specs.Rules.{Run};
ghost use Rattle.spec_model.specs.Games.{GameData, inputs_of};
ghost use Rattle.spec_model.specs.GameViews.{game_data};
ghost use Rattle.spec_model.specs.Steps.{Before, is_input};
ghost use Rattle.spec_model.specs.Sets.{StateSet};
ghost use Rattle.gr1_law.specs.Layers.{LayerSets};
ghost use Rattle.gr1_law.specs.Choice.{Memory};
ghost use Rattle.controller.specs.Objects.{HoldsTheSame};
ghost use Rattle.strategy_check.specs.Seats.{seats_of, CountsUp};
ghost use Rattle.strategy_check.specs.Walks.{HasMetNone, IsFrom, IsWalk, AreTooMany};
ghost use Rattle.strategy_check.specs.Nodes.{seat_numbered, with_number, Leads, AddsRow, IsWalkedTo};

use crate::moving::{Room, choose};
use crate::seats::Seats;
use controller::Controller;
use regions::Regions;
use spec_model::game::Game;
use spec_model::value::Value;
use std::alloc::{AllocError, Global};
use strategy_tables::TableFault;

/// The seats that were met, and room for a move.
#[derive(Drop)]
pub struct Walk {
    pub alloc: Global,
    pub seats: Seats,
    pub room: Room,
}

/// One number more, where there is one.
fn add_number(row: &mut Vec<u32>, number: Option<u32>) -> Result<(), AllocError>
    ensures { OnOk result (row.new.items ≡ with_number row.old.items number) }
{
    if let Some(number) = number {
        row.push(number)?;
    }
    Ok(())
}

/// One row more.
fn add_row(rows: &mut Vec<Vec<u32>>, row: Vec<u32>) -> Result<(), AllocError>
    ensures { OnOk result (map (λ row. row.items) rows.new.items ≡ map (λ row. row.items) rows.old.items ++ row.items ∷ []) }
{
    rows.push(row)?;
    Ok(())
}

impl Walk {
    /// Nothing is met. `AllocError`: no memory was given.
    pub fn make(alloc: Global, game: &Game) -> Result<Walk, AllocError>
        ensures { IfOk result (λ w. HasMetNone (game_data game.now) w) }
    {
        let room = Room::make(alloc, game)?;
        Ok(Walk {
            alloc,
            seats: Seats::new(alloc),
            room,
        })
    }

    /// The number of the seat that the choice after an input leads to, from a seat or from the start. There is none where the
    /// input isn't legal. `Limit`: too many seats are met. `Memory`: none was given.
    fn lead<G: Regions>(
        &mut self,
        play: &mut Controller<G>,
        from: Option<usize>,
        input: &[Value],
    ) -> Result<Option<u32>, TableFault>
        requires walk { (g : GameData) × (z : StateSet) × (l : LayerSets) × IsWalk G.kept play.old self.old g z l × IsTrue (is_input g input.now) }
        requires from { (n : ℕ) → from ≡ Some n → n < length (seats_of self.old.seats) }
        ensures walks { (g : GameData) (z : StateSet) (l : LayerSets) → IsWalk G.kept play.old self.old g z l → IsWalk G.kept play.new self.new g z l }
        ensures leads { IfOk result (λ o. (g : GameData) (z : StateSet) (l : LayerSets) → IsWalk G.kept play.old self.old g z l → (h : Run) (b : Before) (m : Memory) → IsFrom g l (seat_numbered (seats_of self.old.seats) from) h b m → Leads g l (seats_of self.old.seats) (seats_of self.new.seats) b m input.now o) }
        ensures limit { IfErr result (λ f. f ≡ TableFault.Limit → (g : GameData) (z : StateSet) (l : LayerSets) → IsWalk G.kept play.old self.old g z l → AreTooMany g l) }
        ensures keeps { HoldsTheSame G.kept play.old play.new }
    {
        let start = self.seats.seat(from);
        match choose(play, &mut self.room, start, input) {
            None => Ok(None),
            Some(spot) => {
                let number = self.seats.number(self.alloc, &self.room.state, spot)?;
                Ok(Some(number))
            }
        }
    }

    /// The numbers of the seats to which the choices after the legal ones of some inputs lead, in order.
    pub fn row<G: Regions>(
        &mut self,
        play: &mut Controller<G>,
        inputs: &[Vec<Value>],
        from: Option<usize>,
    ) -> Result<Vec<u32>, TableFault>
        requires walk { (g : GameData) × (z : StateSet) × (l : LayerSets) × IsWalk G.kept play.old self.old g z l × AllByRecursion (λ x. IsTrue (is_input g x)) (map (λ x. x.items) inputs.now) }
        requires from { (n : ℕ) → from ≡ Some n → n < length (seats_of self.old.seats) }
        ensures walks { (g : GameData) (z : StateSet) (l : LayerSets) → IsWalk G.kept play.old self.old g z l → IsWalk G.kept play.new self.new g z l }
        ensures row { IfOk result (λ row. (g : GameData) (z : StateSet) (l : LayerSets) → IsWalk G.kept play.old self.old g z l → (h : Run) (b : Before) (m : Memory) → IsFrom g l (seat_numbered (seats_of self.old.seats) from) h b m → AddsRow g l (seats_of self.old.seats) (seats_of self.new.seats) b m (map (λ x. x.items) inputs.now) row.items) }
        ensures limit { IfErr result (λ f. f ≡ TableFault.Limit → (g : GameData) (z : StateSet) (l : LayerSets) → IsWalk G.kept play.old self.old g z l → AreTooMany g l) }
        ensures keeps { HoldsTheSame G.kept play.old play.new }
    {
        let mut row = Vec::new(self.alloc);
        for input in inputs {
            let number = self.lead(play, from, input)?;
            add_number(&mut row, number)?;
        }
        Ok(row)
    }

    /// A row for each seat, those that are met on the way included. All inputs are given.
    pub fn rows<G: Regions>(
        &mut self,
        play: &mut Controller<G>,
        inputs: &[Vec<Value>],
    ) -> Result<Vec<Vec<u32>>, TableFault>
        requires walk { (g : GameData) × (z : StateSet) × (l : LayerSets) × IsWalk G.kept play.old self.old g z l × (map (λ x. x.items) inputs.now ≡ inputs_of g) }
        ensures walks { (g : GameData) (z : StateSet) (l : LayerSets) → IsWalk G.kept play.old self.old g z l → IsWalk G.kept play.new self.new g z l }
        ensures rows { IfOk result (λ rows. (g : GameData) (z : StateSet) (l : LayerSets) → IsWalk G.kept play.old self.old g z l → map (λ x. x.items) inputs.now ≡ inputs_of g → IsWalkedTo g l (seats_of self.old.seats) (seats_of self.new.seats) (map (λ row. row.items) rows.items)) }
        ensures limit { IfErr result (λ f. f ≡ TableFault.Limit → (g : GameData) (z : StateSet) (l : LayerSets) → IsWalk G.kept play.old self.old g z l → AreTooMany g l) }
        ensures keeps { HoldsTheSame G.kept play.old play.new }
    {
        let mut rows = Vec::new(self.alloc);
        while rows.len() < self.seats.met.len() {
            let row = self.row(play, inputs, Some(rows.len()))?;
            add_row(&mut rows, row)?;
        }
        Ok(rows)
    }
}
