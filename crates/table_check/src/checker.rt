//! A table as it is checked, and its rows.

ghost use Rattle.std.specs.Prelude.{◌≡◌, map, Some, None, IfOk, OnOk, IsTrue};
ghost use Rattle.spec_model.specs.Games.{inputs_of, outputs_of};
ghost use Rattle.spec_model.specs.Steps.{is_state, is_input};
ghost use Rattle.strategy_tables.specs.Tables.{system_row, environment_row};
ghost use Rattle.strategy_tables.specs.Views.{node_data};
ghost use Rattle.table_check.specs.Turns.{HasRoom, IsReadBefore};
ghost use Rattle.table_check.specs.Nodes.{IsChecker, game_in, nodes_in};

use crate::held::Held;
use crate::judges::Judges;
use crate::room::Room;
use crate::rows::{is_environment_row, is_system_row};
use crate::turn::Turn;
use spec_model::value::Value;
use std::alloc::AllocError;
use strategy_tables::Node;

/// The nodes of a table, with what holds at each, and all moves that rows are compared with: the inputs for a system's table,
/// the outputs for an environment's.
#[derive(Drop)]
pub struct Checker<'a> {
    pub judges: &'a Judges,
    pub moves: &'a [Vec<Value>],
    pub nodes: &'a [Node],
    pub held: &'a [Held],
}

impl<'a> Checker<'a> {
    /// Whether a row of the first nodes is a system's.
    pub fn begins_system(&self, room: &Room, row: &[u32]) -> bool
        requires checker { IsChecker self.now }
        requires moves { map (λ x. x.items) self.now.moves.now ≡ inputs_of (game_in self.now) }
        requires first { IsReadBefore (game_in self.now) None room.now }
        ensures { result ≡ system_row (game_in self.now) (nodes_in self.now) None row.now }
    {
        let turn = Turn {
            judges: self.judges,
            nodes: self.nodes,
            before: None,
            room,
        };
        is_system_row(&turn, self.moves, row)
    }

    /// Whether a row of the first nodes is an environment's, after its first input.
    pub fn begins_environment(&self, room: &Room, reply: &[Value], row: &[u32]) -> bool
        requires checker { IsChecker self.now }
        requires moves { map (λ y. y.items) self.now.moves.now ≡ outputs_of (game_in self.now) }
        requires first { IsReadBefore (game_in self.now) None room.now }
        requires reply { IsTrue (is_input (game_in self.now) reply.now) }
        ensures { result ≡ environment_row (game_in self.now) (nodes_in self.now) None reply.now row.now }
    {
        let turn = Turn {
            judges: self.judges,
            nodes: self.nodes,
            before: None,
            room,
        };
        is_environment_row(&turn, reply, self.moves, row)
    }

    /// Whether a node's row is a system's. The room is written over. `AllocError`: no memory was given.
    pub fn follows_system(&self, v: &Node, room: &mut Room) -> Result<bool, AllocError>
        requires checker { IsChecker self.now }
        requires moves { map (λ x. x.items) self.now.moves.now ≡ inputs_of (game_in self.now) }
        requires state { IsTrue (is_state (game_in self.now) (node_data v.now).state) }
        requires room { HasRoom (game_in self.now) room.old }
        ensures row { IfOk result (λ b. b ≡ system_row (game_in self.now) (nodes_in self.now) (Some (node_data v.now).state) (node_data v.now).next) }
        ensures room { OnOk result (HasRoom (game_in self.now) room.new) }
    {
        room.read(&self.judges.game, v)?;
        let turn = Turn {
            judges: self.judges,
            nodes: self.nodes,
            before: Some(v),
            room: &*room,
        };
        Ok(is_system_row(&turn, self.moves, &v.next))
    }

    /// Whether a node's row is an environment's, after the node's reply. The room is written over. `AllocError`: no memory was
    /// given.
    pub fn follows_environment(&self, v: &Node, room: &mut Room) -> Result<bool, AllocError>
        requires checker { IsChecker self.now }
        requires moves { map (λ y. y.items) self.now.moves.now ≡ outputs_of (game_in self.now) }
        requires state { IsTrue (is_state (game_in self.now) (node_data v.now).state) }
        requires reply { IsTrue (is_input (game_in self.now) (node_data v.now).reply) }
        requires room { HasRoom (game_in self.now) room.old }
        ensures row { IfOk result (λ b. b ≡ environment_row (game_in self.now) (nodes_in self.now) (Some (node_data v.now).state) (node_data v.now).reply (node_data v.now).next) }
        ensures room { OnOk result (HasRoom (game_in self.now) room.new) }
    {
        room.read(&self.judges.game, v)?;
        let turn = Turn {
            judges: self.judges,
            nodes: self.nodes,
            before: Some(v),
            room: &*room,
        };
        Ok(is_environment_row(&turn, &v.reply, self.moves, &v.next))
    }
}
