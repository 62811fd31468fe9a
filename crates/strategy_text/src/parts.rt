//! The parts of JSON that tables are made of.

ghost use Rattle.std.specs.Prelude.{◌≡◌, map, option_map};
ghost use Rattle.serde_json.specs.View.{view};
ghost use Rattle.game_play.specs.Sights.{cell_in};
ghost use Rattle.strategy_text.specs.Reading.{all_read, count_below, small_of, has_members as has_members_lem, count_at as count_at_lem, small_at as small_at_lem, list_at as list_at_lem, smalls_at as smalls_at_lem, kind_of};
ghost use Rattle.strategy_text.specs.Views.{IsRead};

use crate::fault::ReadRefusal;
use crate::kind::Kind;
use serde_json::Value as Json;
use spec_model::value::Value;
use std::alloc::Global;

/// Whether it is an object with so many members.
pub fn has_members(n: usize, json: &Json) -> bool
    ensures { result ≡ has_members_lem n (view json.now) }
{
    match json.as_object() {
        Some(members) => members.len() == n,
        None => false,
    }
}

/// The whole number at a key.
pub fn count_at(key: &str, json: &Json) -> Result<u64, ReadRefusal>
    ensures { IsRead (λ n. n) (count_at_lem key.now (view json.now)) result }
{
    let Some(found) = json.get(key) else {
        return Err(ReadRefusal::Shape);
    };
    found.as_u64().ok_or(ReadRefusal::Shape)
}

// A whole number of 32 bits.
fn small(json: &Json) -> Option<u32>
    ensures { result ≡ small_of (view json.now) }
{
    let n = json.as_u64()?;
    if n < 1 << 32 { Some(n as u32) } else { None }
}

/// The whole number of 32 bits at a key.
pub fn small_at(key: &str, json: &Json) -> Result<u32, ReadRefusal>
    ensures { IsRead (λ n. n) (small_at_lem key.now (view json.now)) result }
{
    let Some(found) = json.get(key) else {
        return Err(ReadRefusal::Shape);
    };
    small(found).ok_or(ReadRefusal::Shape)
}

/// The list at a key.
pub fn list_at<'j>(key: &str, json: &'j Json) -> Result<&'j [Json], ReadRefusal>
    ensures { IsRead (λ list. map view list.now) (list_at_lem key.now (view json.now)) result }
{
    let Some(found) = json.get(key) else {
        return Err(ReadRefusal::Shape);
    };
    let Some(list) = found.as_array() else {
        return Err(ReadRefusal::Shape);
    };
    Ok(list)
}

// Each of a list is a whole number of 32 bits.
fn smalls(alloc: Global, list: &[Json]) -> Result<Vec<u32>, ReadRefusal>
    ensures { IsRead (λ numbers. numbers.items) (all_read small_of (map view list.now)) result }
{
    let mut numbers = Vec::new(alloc);
    for json in list {
        let Some(n) = small(json) else {
            return Err(ReadRefusal::Shape);
        };
        numbers.push(n)?;
    }
    Ok(numbers)
}

/// The list of whole numbers of 32 bits at a key.
pub fn smalls_at(alloc: Global, key: &str, json: &Json) -> Result<Vec<u32>, ReadRefusal>
    ensures { IsRead (λ numbers. numbers.items) (smalls_at_lem key.now (view json.now)) result }
{
    let list = list_at(key, json)?;
    smalls(alloc, list)
}

/// The value of a hidden table with so many values.
pub fn cell(values: u16, json: &Json) -> Option<Value>
    ensures { option_map cell_in result ≡ count_below values (view json.now) }
{
    let n = json.as_u64()?;
    if n < u64::from(values) {
        Some(Value::Int(n as i64))
    } else {
        None
    }
}

/// The kind of a table.
pub fn kind_in(json: &Json) -> Result<Kind, ReadRefusal>
    ensures { IsRead (λ kind. kind) (kind_of (view json.now)) result }
{
    let Some(found) = json.get("kind") else {
        return Err(ReadRefusal::Shape);
    };
    let Some(text) = found.as_str() else {
        return Err(ReadRefusal::Shape);
    };
    if text == "controller" {
        return Ok(Kind::Controller);
    }
    if text == "counterstrategy" {
        return Ok(Kind::Counterstrategy);
    }
    Err(ReadRefusal::Shape)
}
