//! The audit of a run. Only `Audit::make` takes memory.
//!
//! The values of the positions that wait for a check are kept as they come. A check writes them as columns of codes, works out
//! on planes after how many moves a line is broken first, and has those moves gone past and the others judged. The first
//! position that waits is always judged: its move begins at a position that was checked before.

ghost use Rattle.std.specs.Prelude.{◌≡◌, ◌↔◌, ◌<◌, ◌+◌, ◌++◌, true, [], ◌∷◌, length, None, is_none, IfOk};
ghost use Rattle.spec_model.specs.GameViews.{game_data};
ghost use Rattle.spec_model.specs.GameRules.{rules_of_game};
ghost use Rattle.spec_model.specs.Rules.{Position, Run};
ghost use Rattle.spec_model.specs.Plays.{IsPlay};
ghost use Rattle.spec_model.specs.Games.{GameData};
ghost use Rattle.spec_model.specs.WellMade.{WellMade};
ghost use Rattle.trace_planes.specs.Audits.{Stands, IsPosition, OfEachRun, game_of, room_of};
ghost use Rattle.trace_planes.specs.GameFindings.{first_finding};

use crate::finding::Finding;
use crate::passing::{clear_rows, judge_rows};
use crate::plain::Plain;
use crate::workspace::Workspace;
use spec_model::game::Game;
use spec_model::value::Value;
use std::alloc::{AllocError, Global};

/// How many positions can be pushed before a check.
const ROOM: usize = 4_096;

/// Judges the positions of a run.
#[derive(Drop)]
pub struct Audit {
    plain: Plain,
    /// The values of the positions that wait, one behind the other.
    rows: Vec<Value>,
    /// How many values a position has.
    width: usize,
    /// How many positions can be pushed before the next check.
    room: usize,
    /// How many positions were pushed.
    pushed: u64,
    work: Workspace,
}

impl Audit {
    /// An audit into which nothing was pushed. `AllocError`: no memory was given.
    pub fn make(alloc: Global, game: Game) -> Result<Audit, AllocError>
        requires made { WellMade (game_data game) }
        ensures begins { IfOk result (λ a. Stands a (game_data game) []) }
        ensures room { IfOk result (λ a. room_of a ≡ 4096) }
    {
        let width = game.vars.len();
        let Some(cells) = width.checked_mul(ROOM) else {
            return Err(AllocError);
        };
        let work = Workspace::make(alloc, &game)?;
        Ok(Audit {
            plain: Plain::make(alloc, game)?,
            rows: Vec::with_capacity(alloc, cells)?,
            width,
            room: ROOM,
            pushed: 0,
            work,
        })
    }

    /// How many positions can be pushed before the next check. It takes no memory.
    pub fn room(&self) -> usize
        ensures { result ≡ room_of self.now }
    {
        self.room
    }

    /// Takes the next position: the values of its inputs, and then of its outputs. It takes no memory.
    pub fn push(&mut self, state: &[Value])
        requires stands { (g : GameData) × (h : Run) × Stands self.old g h × (length h < 18446744073709551615) }
        requires room { 0 < room_of self.old }
        requires position { (p : Position) × IsPosition (game_of self.old) p state.now }
        ensures pushed { OfEachRun self.old (λ g h. (p : Position) → IsPosition g p state.now → Stands self.new g (h ++ p ∷ [])) }
        ensures room { room_of self.new + 1 ≡ room_of self.old }
    {
        self.rows.extend_from_slice(state).unwrap();
        self.pushed += 1;
        self.room -= 1;
    }

    /// The first line that a position breaks, and which position. After a Some nothing more may be pushed. It takes no memory.
    pub fn check(&mut self) -> Option<Finding>
        requires stands { (g : GameData) × (h : Run) × Stands self.old g h }
        ensures first { OfEachRun self.old (λ g h. result ≡ first_finding g h) }
        ensures legal { OfEachRun self.old (λ g h. (is_none result ≡ true) ↔ IsPlay (rules_of_game g) h) }
        ensures goes_on { OfEachRun self.old (λ g h. result ≡ None → Stands self.new g h) }
        ensures room { room_of self.new ≡ 4096 }
    {
        let count = ROOM - self.room;
        let clear = clear_rows(
            &self.plain.judge,
            &self.rows,
            self.width,
            count,
            &mut self.work,
        );
        judge_rows(&mut self.plain, &self.rows, self.width, count, clear);
        self.rows.clear();
        self.room = ROOM;
        self.plain.found
    }
}
