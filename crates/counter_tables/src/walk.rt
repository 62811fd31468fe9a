//! All that is met from the start on.

ghost use Rattle.std.specs.Prelude.{◌≡◌, ◌<◌, ◌++◌, ℕ, [], ◌∷◌, length, map, Some, IfOk, IfErr, OnOk, IsTrue};
ghost use Rattle.std.specs.List.{AllByRecursion};
ghost use Rattle.spec_model.specs.Games.{GameData, outputs_of};
ghost use Rattle.spec_model.specs.GameViews.{game_data};
ghost use Rattle.spec_model.specs.Steps.{is_output};
ghost use Rattle.gr1_law.specs.EnvLayers.{EnvLayerSets};
ghost use Rattle.counterstrategy.specs.Objects.{HoldsTheSame};
ghost use Rattle.counter_tables.specs.Seats.{seats_of};
ghost use Rattle.counter_tables.specs.Walks.{Ending, IsFrom, HasMetNone, IsWalk, AreTooMany};
ghost use Rattle.counter_tables.specs.Nodes.{seat_numbered, Leads, AddsOne, AddsRow, IsWalkedTo};

use crate::moving::{Room, follow};
use crate::seats::Seats;
use counterstrategy::Counterstrategy;
use regions::Regions;
use spec_model::game::Game;
use spec_model::value::Value;
use std::alloc::{AllocError, Global};
use strategy_tables::TableFault;

/// The seats that were met, and room for a move.
#[derive(Drop)]
pub struct Walk {
    pub alloc: Global,
    pub seats: Seats,
    pub room: Room,
}

/// One number more.
fn add_number(row: &mut Vec<u32>, number: u32) -> Result<(), AllocError>
    ensures { OnOk result (row.new.items ≡ row.old.items ++ number ∷ []) }
{
    row.push(number)?;
    Ok(())
}

/// One row more.
fn add_row(rows: &mut Vec<Vec<u32>>, row: Vec<u32>) -> Result<(), AllocError>
    ensures { OnOk result (map (λ row. row.items) rows.new.items ≡ map (λ row. row.items) rows.old.items ++ row.items ∷ []) }
{
    rows.push(row)?;
    Ok(())
}

impl Walk {
    /// Nothing is met. `AllocError`: no memory was given.
    pub fn make(alloc: Global, game: &Game) -> Result<Walk, AllocError>
        ensures { IfOk result (λ w. HasMetNone (game_data game.now) w) }
    {
        let room = Room::make(alloc, game)?;
        Ok(Walk {
            alloc,
            seats: Seats::new(alloc),
            room,
        })
    }

    /// The number of the seat that an output leads to, from a seat or from the start. There is none where the output isn't
    /// legal. `Limit`: too many seats are met. `Memory`: none was given.
    fn lead<G: Regions>(
        &mut self,
        play: &mut Counterstrategy<G>,
        from: Option<usize>,
        output: &[Value],
    ) -> Result<Option<u32>, TableFault>
        requires walk { (g : GameData) × (e : EnvLayerSets) × IsWalk G.kept play.old self.old g e × IsTrue (is_output g output.now) }
        requires from { (n : ℕ) → from ≡ Some n → n < length (seats_of self.old.seats) }
        ensures walks { (g : GameData) (e : EnvLayerSets) → IsWalk G.kept play.old self.old g e → IsWalk G.kept play.new self.new g e }
        ensures leads { IfOk result (λ o. (g : GameData) (e : EnvLayerSets) → IsWalk G.kept play.old self.old g e → (p : Ending) → IsFrom g e (seat_numbered (seats_of self.old.seats) from) p → Leads g e (seats_of self.old.seats) (seats_of self.new.seats) p output.now o) }
        ensures limit { IfErr result (λ f. f ≡ TableFault.Limit → (g : GameData) (e : EnvLayerSets) → IsWalk G.kept play.old self.old g e → AreTooMany g e) }
        ensures keeps { HoldsTheSame G.kept play.old play.new }
    {
        let start = self.seats.seat(from);
        match follow(play, &mut self.room, start, output) {
            None => Ok(None),
            Some(spot) => {
                let number = self
                    .seats
                    .number(self.alloc, &self.room.state, spot, &self.room.input)?;
                Ok(Some(number))
            }
        }
    }

    /// One output more: where it is legal, the number of the seat that it leads to is added to the row.
    fn add<G: Regions>(
        &mut self,
        play: &mut Counterstrategy<G>,
        from: Option<usize>,
        output: &[Value],
        row: &mut Vec<u32>,
    ) -> Result<(), TableFault>
        requires walk { (g : GameData) × (e : EnvLayerSets) × IsWalk G.kept play.old self.old g e × IsTrue (is_output g output.now) }
        requires from { (n : ℕ) → from ≡ Some n → n < length (seats_of self.old.seats) }
        ensures walks { (g : GameData) (e : EnvLayerSets) → IsWalk G.kept play.old self.old g e → IsWalk G.kept play.new self.new g e }
        ensures adds { OnOk result ((g : GameData) (e : EnvLayerSets) → IsWalk G.kept play.old self.old g e → (p : Ending) → IsFrom g e (seat_numbered (seats_of self.old.seats) from) p → AddsOne g e (seats_of self.old.seats) (seats_of self.new.seats) p output.now row.old.items row.new.items) }
        ensures limit { IfErr result (λ f. f ≡ TableFault.Limit → (g : GameData) (e : EnvLayerSets) → IsWalk G.kept play.old self.old g e → AreTooMany g e) }
        ensures keeps { HoldsTheSame G.kept play.old play.new }
    {
        let led = self.lead(play, from, output)?;
        match led {
            None => Ok(()),
            Some(number) => {
                add_number(row, number)?;
                Ok(())
            }
        }
    }

    /// The numbers of the seats to which the legal ones of some outputs lead, in order.
    pub fn row<G: Regions>(
        &mut self,
        play: &mut Counterstrategy<G>,
        outputs: &[Vec<Value>],
        from: Option<usize>,
    ) -> Result<Vec<u32>, TableFault>
        requires walk { (g : GameData) × (e : EnvLayerSets) × IsWalk G.kept play.old self.old g e × AllByRecursion (λ y. IsTrue (is_output g y)) (map (λ y. y.items) outputs.now) }
        requires from { (n : ℕ) → from ≡ Some n → n < length (seats_of self.old.seats) }
        ensures walks { (g : GameData) (e : EnvLayerSets) → IsWalk G.kept play.old self.old g e → IsWalk G.kept play.new self.new g e }
        ensures row { IfOk result (λ row. (g : GameData) (e : EnvLayerSets) → IsWalk G.kept play.old self.old g e → (p : Ending) → IsFrom g e (seat_numbered (seats_of self.old.seats) from) p → AddsRow g e (seats_of self.old.seats) (seats_of self.new.seats) p (map (λ y. y.items) outputs.now) row.items) }
        ensures limit { IfErr result (λ f. f ≡ TableFault.Limit → (g : GameData) (e : EnvLayerSets) → IsWalk G.kept play.old self.old g e → AreTooMany g e) }
        ensures keeps { HoldsTheSame G.kept play.old play.new }
    {
        let mut row = Vec::new(self.alloc);
        for output in outputs {
            self.add(play, from, output, &mut row)?;
        }
        Ok(row)
    }

    /// A row for each seat, those that are met on the way included. All outputs are given.
    pub fn rows<G: Regions>(
        &mut self,
        play: &mut Counterstrategy<G>,
        outputs: &[Vec<Value>],
    ) -> Result<Vec<Vec<u32>>, TableFault>
        requires walk { (g : GameData) × (e : EnvLayerSets) × IsWalk G.kept play.old self.old g e × (map (λ y. y.items) outputs.now ≡ outputs_of g) }
        ensures walks { (g : GameData) (e : EnvLayerSets) → IsWalk G.kept play.old self.old g e → IsWalk G.kept play.new self.new g e }
        ensures rows { IfOk result (λ rows. (g : GameData) (e : EnvLayerSets) → IsWalk G.kept play.old self.old g e → map (λ y. y.items) outputs.now ≡ outputs_of g → IsWalkedTo g e (seats_of self.old.seats) (seats_of self.new.seats) (map (λ row. row.items) rows.items)) }
        ensures limit { IfErr result (λ f. f ≡ TableFault.Limit → (g : GameData) (e : EnvLayerSets) → IsWalk G.kept play.old self.old g e → AreTooMany g e) }
        ensures keeps { HoldsTheSame G.kept play.old play.new }
    {
        let mut rows = Vec::new(self.alloc);
        while rows.len() < self.seats.met.len() {
            let n = rows.len();
            let row = self.row(play, outputs, Some(n))?;
            add_row(&mut rows, row)?;
        }
        Ok(rows)
    }
}
