//! Tables as JSON, and as texts.

ghost use Rattle.std.specs.Prelude.{◌≡◌, ◌≤◌, ◌<◌, ◌^◌, map, length, string_bytes, Some, IfOk, IsErrOf, All};
ghost use Rattle.game_play.specs.Sights.{cell_in};
ghost use Rattle.hidden_game.specs.GameOf.{game_of};
ghost use Rattle.serde_json.specs.View.{view, members_view};
ghost use Rattle.spec_model.specs.Views.{spec_data};
ghost use Rattle.spec_model.specs.WellTyped.{WellTyped};
ghost use Rattle.strategy_tables.specs.Views.{node_data, table_data};
ghost use Rattle.strategy_tables.specs.Games.{IsTableOf, OfSystem, OfEnvironment};
ghost use Rattle.strategy_text.specs.Laws.{AreSmall, HasSmallNumbers, FitsProgram};
ghost use Rattle.strategy_text.specs.Reading.{table_in};
ghost use Rattle.strategy_text.specs.Written.{count_json, counts_json, value_json, values_json, plain_members, replying_members, node_json, nodes_json, system_json, environment_json, table_json, table_text, most_bytes};

use crate::kind::Kind;
use crate::names::name_text;
use serde_json::{Map, Value as Json, put};
use spec_model::spec::Spec;
use spec_model::value::Value;
use std::alloc::{AllocError, Global};
use strategy_tables::{Node, Table, TableFault};

/// How many bytes the text of a table may have.
pub const MOST_BYTES: usize = 16_777_216;

// ---- parts

// A number of 32 bits.
fn small_number(n: u32) -> Json
    ensures json { view result ≡ count_json n }
    ensures small { n < 2 ^ 32 }
{
    Json::from(n)
}

fn small_numbers(alloc: Global, numbers: &[u32]) -> Result<Json, AllocError>
    ensures json { IfOk result (λ json. view json ≡ counts_json numbers.now) }
    ensures small { IfOk result (λ _. AreSmall numbers.now) }
{
    let mut list = Vec::new(alloc);
    for &n in numbers {
        list.push(Json::from(n))?;
    }
    Ok(Json::Array(list))
}

// The number of a hidden value.
fn cell(value: Value) -> u64
    ensures { result ≡ cell_in value }
{
    match value {
        Value::Int(z) => if z < 0 { 0 } else { z as u64 },
        _ => 0,
    }
}

fn cells(alloc: Global, hidden: &[Value]) -> Result<Json, AllocError>
    ensures { IfOk result (λ json. view json ≡ counts_json (map cell_in hidden.now)) }
{
    let mut list = Vec::new(alloc);
    for &value in hidden {
        list.push(Json::from(cell(value)))?;
    }
    Ok(Json::Array(list))
}

fn one_value(alloc: Global, names: &[String], value: Value) -> Result<Json, AllocError>
    ensures { IfOk result (λ json. view json ≡ value_json (map string_bytes names.now) value) }
{
    match value {
        Value::Bool(b) => Ok(Json::from(b)),
        Value::Int(z) => Ok(Json::from(z)),
        Value::Name(n) => Json::try_from_str(alloc, name_text(names, n)),
    }
}

fn values(alloc: Global, names: &[String], values: &[Value]) -> Result<Json, AllocError>
    ensures { IfOk result (λ json. view json ≡ values_json (map string_bytes names.now) values.now) }
{
    let mut list = Vec::new(alloc);
    for &value in values {
        list.push(one_value(alloc, names, value)?)?;
    }
    Ok(Json::Array(list))
}

// ---- nodes

// What the nodes of both kinds tell.
fn plain(alloc: Global, names: &[String], node: &Node) -> Result<Map<String, Json>, AllocError>
    ensures members { IfOk result (λ members. members_view members.entries ≡ plain_members (map string_bytes names.now) (node_data node.now)) }
    ensures small { IfOk result (λ _. HasSmallNumbers (node_data node.now)) }
{
    let hidden = cells(alloc, &node.hidden)?;
    let input = values(alloc, names, &node.input)?;
    let next = small_numbers(alloc, &node.next)?;
    let output = values(alloc, names, &node.output)?;
    let mut members = Map::new(alloc);
    put(&mut members, alloc, "asm", small_number(node.asm))?;
    put(&mut members, alloc, "goal", small_number(node.goal))?;
    put(&mut members, alloc, "hidden", hidden)?;
    put(&mut members, alloc, "in", input)?;
    put(&mut members, alloc, "next", next)?;
    put(&mut members, alloc, "out", output)?;
    put(&mut members, alloc, "rank", Json::from(node.rank))?;
    Ok(members)
}

// The layer and the reply besides.
fn replying(alloc: Global, names: &[String], node: &Node) -> Result<Map<String, Json>, AllocError>
    ensures members { IfOk result (λ members. members_view members.entries ≡ replying_members (map string_bytes names.now) (node_data node.now)) }
    ensures small { IfOk result (λ _. HasSmallNumbers (node_data node.now)) }
{
    let reply = values(alloc, names, &node.reply)?;
    let mut members = plain(alloc, names, node)?;
    put(&mut members, alloc, "layer", Json::from(node.layer))?;
    put(&mut members, alloc, "move", reply)?;
    Ok(members)
}

fn one_node(alloc: Global, names: &[String], kind: Kind, node: &Node) -> Result<Json, AllocError>
    ensures json { IfOk result (λ json. view json ≡ node_json (map string_bytes names.now) kind (node_data node.now)) }
    ensures small { IfOk result (λ _. HasSmallNumbers (node_data node.now)) }
{
    match kind {
        Kind::Controller => Ok(Json::Object(plain(alloc, names, node)?)),
        Kind::Counterstrategy => Ok(Json::Object(replying(alloc, names, node)?)),
    }
}

fn every_node(
    alloc: Global,
    names: &[String],
    kind: Kind,
    nodes: &[Node],
) -> Result<Json, AllocError>
    ensures json { IfOk result (λ json. view json ≡ nodes_json (map string_bytes names.now) kind (map node_data nodes.now)) }
    ensures small { IfOk result (λ _. All HasSmallNumbers (map node_data nodes.now)) }
{
    let mut list = Vec::new(alloc);
    for node in nodes {
        list.push(one_node(alloc, names, kind, node)?)?;
    }
    Ok(Json::Array(list))
}

// ---- tables

fn system(
    alloc: Global,
    names: &[String],
    k: u64,
    first: &[u32],
    nodes: &[Node],
) -> Result<Json, AllocError>
    ensures json { IfOk result (λ json. view json ≡ system_json (map string_bytes names.now) (record { k = k; first = first.now; nodes = map node_data nodes.now })) }
    ensures small { IfOk result (λ _. AreSmall first.now × All HasSmallNumbers (map node_data nodes.now)) }
{
    let list = small_numbers(alloc, first)?;
    let kind = Json::try_from_str(alloc, "controller")?;
    let every = every_node(alloc, names, Kind::Controller, nodes)?;
    let mut members = Map::new(alloc);
    put(&mut members, alloc, "first", list)?;
    put(&mut members, alloc, "k", Json::from(k))?;
    put(&mut members, alloc, "kind", kind)?;
    put(&mut members, alloc, "nodes", every)?;
    Ok(Json::Object(members))
}

fn environment(
    alloc: Global,
    names: &[String],
    n: u64,
    m: u64,
    reply: &[Value],
    first: &[u32],
    nodes: &[Node],
) -> Result<Json, AllocError>
    ensures json { IfOk result (λ json. view json ≡ environment_json (map string_bytes names.now) (record { n = n; m = m; reply = reply.now; first = first.now; nodes = map node_data nodes.now })) }
    ensures small { IfOk result (λ _. AreSmall first.now × All HasSmallNumbers (map node_data nodes.now)) }
{
    let list = small_numbers(alloc, first)?;
    let kind = Json::try_from_str(alloc, "counterstrategy")?;
    let answer = values(alloc, names, reply)?;
    let every = every_node(alloc, names, Kind::Counterstrategy, nodes)?;
    let mut members = Map::new(alloc);
    put(&mut members, alloc, "first", list)?;
    put(&mut members, alloc, "kind", kind)?;
    put(&mut members, alloc, "m", Json::from(m))?;
    put(&mut members, alloc, "move", answer)?;
    put(&mut members, alloc, "n", Json::from(n))?;
    put(&mut members, alloc, "nodes", every)?;
    Ok(Json::Object(members))
}

fn json_of(alloc: Global, names: &[String], table: &Table) -> Result<Json, AllocError>
    ensures json { IfOk result (λ json. view json ≡ table_json (map string_bytes names.now) (table_data table.now)) }
    ensures small { IfOk result (λ _. FitsProgram (table_data table.now)) }
{
    match table {
        Table::System { k, first, nodes } => system(alloc, names, *k, first, nodes),
        Table::Environment {
            n,
            m,
            reply,
            first,
            nodes,
        } => environment(alloc, names, *n, *m, reply, first, nodes),
    }
}

/// The text of a table that was made or read for the specification: compact JSON, keys rising, without a line feed. `Limit`: it
/// would have more than 16,777,216 bytes. `Memory`: none was given.
pub fn text(alloc: Global, spec: &Spec, table: &Table) -> Result<String, TableFault>
    requires typed { WellTyped (spec_data spec.now) }
    requires table { IsTableOf (game_of (spec_data spec.now)) (table_data table.now) }
    ensures exact { IfOk result (λ text. string_bytes text ≡ table_text (spec_data spec.now) (table_data table.now)) }
    ensures few { IfOk result (λ text. length (string_bytes text) ≤ most_bytes) }
    ensures limit { IsErrOf result TableFault.Limit → most_bytes < length (table_text (spec_data spec.now) (table_data table.now)) }
    ensures reads_back { IfOk result (λ text. table_in (spec_data spec.now) (string_bytes text) ≡ Some (table_data table.now)) }
{
    let json = json_of(alloc, &spec.names, table)?;
    let text = json.to_string(alloc)?;
    if text.as_str().len() > MOST_BYTES {
        return Err(TableFault::Limit);
    }
    Ok(text)
}
