//! The rules of a system's table, in their order.

ghost use Rattle.std.specs.Prelude.{◌≡◌, map, IfOk, OnOk, IsTrue};
ghost use Rattle.spec_model.specs.Games.{inputs_of};
ghost use Rattle.spec_model.specs.Steps.{is_state};
ghost use Rattle.strategy_tables.specs.Rules.{rule_2, system_checks_from, system_checks, first_flaw};
ghost use Rattle.strategy_tables.specs.Views.{node_data};
ghost use Rattle.table_check.specs.Ends.{end_of};
ghost use Rattle.table_check.specs.Turns.{HasRoom};
ghost use Rattle.table_check.specs.Nodes.{IsChecker, game_in, nodes_in, held_at, system_rule_at};

use crate::checker::Checker;
use crate::checking::{CheckEnd, last_end};
use crate::held::Held;
use crate::moves::is_numbered;
use crate::room::Room;
use std::alloc::{AllocError, Global};
use strategy_tables::Node;

impl<'a> Checker<'a> {
    fn is_ranked(&self, v: &Node) -> bool
        ensures { result ≡ rule_2 (game_in self.now) (node_data v.now) }
    {
        is_numbered(&self.judges.game, v) && v.rank >= 1
    }

    /// The first of a node's rules that fails.
    fn system_rule(&self, v: &Node, held: Held, room: &mut Room) -> Result<Option<u8>, AllocError>
        requires checker { IsChecker self.now }
        requires moves { map (λ x. x.items) self.now.moves.now ≡ inputs_of (game_in self.now) }
        requires state { IsTrue (is_state (game_in self.now) (node_data v.now).state) }
        requires held { held ≡ held_at (game_in self.now) (node_data v.now) }
        requires room { HasRoom (game_in self.now) room.old }
        ensures rule { IfOk result (λ r. r ≡ system_rule_at (game_in self.now) (nodes_in self.now) (node_data v.now)) }
        ensures room { OnOk result (HasRoom (game_in self.now) room.new) }
    {
        if !self.is_ranked(v) {
            return Ok(Some(2));
        }
        if !self.follows_system(v, room)? {
            return Ok(Some(3));
        }
        if !self.each_moves_on(v, held) {
            return Ok(Some(4));
        }
        Ok(None)
    }

    /// The first flaw at a node.
    fn system_nodes(&self, room: &mut Room) -> Result<CheckEnd, AllocError>
        requires checker { IsChecker self.now }
        requires moves { map (λ x. x.items) self.now.moves.now ≡ inputs_of (game_in self.now) }
        requires room { HasRoom (game_in self.now) room.old }
        ensures { IfOk result (λ end. end ≡ end_of (first_flaw (system_checks_from (game_in self.now) (nodes_in self.now) 0 (nodes_in self.now)))) }
    {
        for i in 0..self.nodes.len() {
            let v = &self.nodes[i];
            if let Some(rule) = self.system_rule(v, self.held[i], room)? {
                return Ok(CheckEnd::Flaw {
                    rule,
                    node: i as u32,
                });
            }
        }
        Ok(CheckEnd::Sound)
    }

    /// How the check of a system's table ends.
    pub fn system_end(&self, alloc: Global, k: u64, first: &[u32]) -> Result<CheckEnd, AllocError>
        requires checker { IsChecker self.now }
        requires moves { map (λ x. x.items) self.now.moves.now ≡ inputs_of (game_in self.now) }
        ensures { IfOk result (λ end. end ≡ end_of (first_flaw (system_checks (game_in self.now) (record { k = k; first = first.now; nodes = nodes_in self.now })))) }
    {
        let mut room = Room::make(alloc, &self.judges.game)?;
        if !self.begins_system(&room, first) {
            return Ok(CheckEnd::Flaw { rule: 1, node: 0 });
        }
        match self.system_nodes(&mut room)? {
            CheckEnd::Sound => Ok(last_end(self.k_suffices(alloc, k)?, 5)),
            found => Ok(found),
        }
    }
}
