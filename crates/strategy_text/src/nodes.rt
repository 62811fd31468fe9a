//! JSON as nodes of tables.

ghost use Rattle.std.specs.Prelude.{map};
ghost use Rattle.serde_json.specs.View.{view};
ghost use Rattle.strategy_tables.specs.Views.{node_data};
ghost use Rattle.strategy_text.specs.Reading.{all_read, plain_node_of, node_of, nodes_of, nodes_at as nodes_at_lem};
ghost use Rattle.strategy_text.specs.Views.{IsRead, reader_names, reader_game};

use crate::fault::ReadRefusal;
use crate::kind::Kind;
use crate::parts::{count_at, has_members, list_at, small_at, smalls_at};
use crate::reader::Reader;
use serde_json::Value as Json;
use spec_model::value::Owner;
use std::alloc::Global;
use strategy_tables::Node;

const MOST_NODES: usize = 1024;

impl Reader<'_> {
    // What nodes of both kinds tell.
    fn plain_node(&self, alloc: Global, json: &Json) -> Result<Node, ReadRefusal>
        ensures { IsRead node_data (plain_node_of (reader_names self.now) (reader_game self.now) (view json.now)) result }
    {
        let asm = small_at("asm", json)?;
        let goal = small_at("goal", json)?;
        let hidden = self.hidden_at(alloc, "hidden", json)?;
        let input = self.values_at(alloc, Owner::Env, "in", json)?;
        let next = smalls_at(alloc, "next", json)?;
        let output = self.values_at(alloc, Owner::Sys, "out", json)?;
        let rank = count_at("rank", json)?;
        let reply = Vec::new(alloc);
        Ok(Node {
            hidden,
            input,
            output,
            asm,
            goal,
            rank,
            layer: 0,
            reply,
            next,
        })
    }

    // A node of an environment's table.
    fn replying_node(&self, alloc: Global, json: &Json) -> Result<Node, ReadRefusal>
        ensures { IsRead node_data (node_of (reader_names self.now) (reader_game self.now) Kind.Counterstrategy (view json.now)) result }
    {
        if !has_members(9, json) {
            return Err(ReadRefusal::Shape);
        }
        let node = self.plain_node(alloc, json)?;
        let layer = count_at("layer", json)?;
        let reply = self.values_at(alloc, Owner::Env, "move", json)?;
        Ok(Node {
            layer,
            reply,
            ..node
        })
    }

    fn node(&self, alloc: Global, kind: Kind, json: &Json) -> Result<Node, ReadRefusal>
        ensures { IsRead node_data (node_of (reader_names self.now) (reader_game self.now) kind (view json.now)) result }
    {
        match kind {
            Kind::Controller => {
                if !has_members(7, json) {
                    return Err(ReadRefusal::Shape);
                }
                self.plain_node(alloc, json)
            }
            Kind::Counterstrategy => self.replying_node(alloc, json),
        }
    }

    // Each of a list is a node.
    fn each_node(&self, alloc: Global, kind: Kind, list: &[Json]) -> Result<Vec<Node>, ReadRefusal>
        ensures { IsRead (λ nodes. map node_data nodes.items) (all_read (node_of (reader_names self.now) (reader_game self.now) kind) (map view list.now)) result }
    {
        let mut nodes = Vec::new(alloc);
        for json in list {
            nodes.push(self.node(alloc, kind, json)?)?;
        }
        Ok(nodes)
    }

    fn nodes(&self, alloc: Global, kind: Kind, list: &[Json]) -> Result<Vec<Node>, ReadRefusal>
        ensures { IsRead (λ nodes. map node_data nodes.items) (nodes_of (reader_names self.now) (reader_game self.now) kind (map view list.now)) result }
    {
        if list.len() > MOST_NODES {
            return Err(ReadRefusal::Shape);
        }
        self.each_node(alloc, kind, list)
    }

    /// The list of nodes at a key, at most 1,024.
    pub fn nodes_at(
        &self,
        alloc: Global,
        kind: Kind,
        key: &str,
        json: &Json,
    ) -> Result<Vec<Node>, ReadRefusal>
        ensures { IsRead (λ nodes. map node_data nodes.items) (nodes_at_lem (reader_names self.now) (reader_game self.now) kind key.now (view json.now)) result }
    {
        let list = list_at(key, json)?;
        self.nodes(alloc, kind, list)
    }
}
