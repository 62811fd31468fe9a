//! The rules of an environment's table, in their order.

ghost use Rattle.std.specs.Prelude.{◌≡◌, IfOk, OnOk, IsTrue};
ghost use Rattle.spec_model.specs.Steps.{is_state, is_input};
ghost use Rattle.strategy_tables.specs.Rules.{rule_7, environment_checks_from, environment_checks, first_flaw};
ghost use Rattle.strategy_tables.specs.Views.{node_data};
ghost use Rattle.table_check.specs.Ends.{end_of};
ghost use Rattle.table_check.specs.Turns.{HasRoom};
ghost use Rattle.table_check.specs.Nodes.{IsChecker, IsClaim, game_in, nodes_in, claimed, held_at, environment_rule_at};

use crate::checker::Checker;
use crate::checking::{CheckEnd, last_end};
use crate::held::Held;
use crate::moves::is_numbered;
use crate::room::Room;
use spec_model::value::Value;
use std::alloc::{AllocError, Global};
use strategy_tables::Node;

/// What an environment's table says beside its nodes.
#[derive(Drop)]
pub struct Claim<'a> {
    pub n: u64,
    pub m: u64,
    pub reply: &'a [Value],
    pub first: &'a [u32],
}

impl<'a> Checker<'a> {
    fn is_layered(&self, claim: &Claim, v: &Node) -> bool
        ensures { result ≡ rule_7 (game_in self.now) (claimed self.now claim.now) (node_data v.now) }
    {
        v.layer >= 1 && v.layer <= claim.n && is_numbered(&self.judges.game, v)
    }

    /// The first of a node's rules that fails.
    fn environment_rule(
        &self,
        claim: &Claim,
        v: &Node,
        held: Held,
        room: &mut Room,
    ) -> Result<Option<u8>, AllocError>
        requires checker { IsClaim self.now claim.now }
        requires state { IsTrue (is_state (game_in self.now) (node_data v.now).state) }
        requires reply { IsTrue (is_input (game_in self.now) (node_data v.now).reply) }
        requires held { held ≡ held_at (game_in self.now) (node_data v.now) }
        requires room { HasRoom (game_in self.now) room.old }
        ensures rule { IfOk result (λ r. r ≡ environment_rule_at (game_in self.now) (claimed self.now claim.now) (node_data v.now)) }
        ensures room { OnOk result (HasRoom (game_in self.now) room.new) }
    {
        if !self.is_layered(claim, v) {
            return Ok(Some(7));
        }
        if !self.follows_environment(v, room)? {
            return Ok(Some(8));
        }
        if !self.each_denies_on(v, held) {
            return Ok(Some(9));
        }
        Ok(None)
    }

    /// The first flaw at a node.
    fn environment_nodes(&self, claim: &Claim, room: &mut Room) -> Result<CheckEnd, AllocError>
        requires checker { IsClaim self.now claim.now }
        requires room { HasRoom (game_in self.now) room.old }
        ensures { let t = claimed self.now claim.now in IfOk result (λ end. end ≡ end_of (first_flaw (environment_checks_from (game_in self.now) t 0 t.nodes))) }
    {
        for i in 0..self.nodes.len() {
            let v = &self.nodes[i];
            if let Some(rule) = self.environment_rule(claim, v, self.held[i], room)? {
                return Ok(CheckEnd::Flaw {
                    rule,
                    node: i as u32,
                });
            }
        }
        Ok(CheckEnd::Sound)
    }

    /// How the check of an environment's table ends.
    pub fn environment_end(&self, alloc: Global, claim: &Claim) -> Result<CheckEnd, AllocError>
        requires { IsClaim self.now claim.now }
        ensures { IfOk result (λ end. end ≡ end_of (first_flaw (environment_checks (game_in self.now) (claimed self.now claim.now)))) }
    {
        let mut room = Room::make(alloc, &self.judges.game)?;
        if !self.begins_environment(&room, claim.reply, claim.first) {
            return Ok(CheckEnd::Flaw { rule: 6, node: 0 });
        }
        match self.environment_nodes(claim, &mut room)? {
            CheckEnd::Sound => Ok(last_end(self.m_suffices(alloc, claim.m)?, 10)),
            found => Ok(found),
        }
    }
}
