//! What is read with, and the lists of values that are read.

ghost use Rattle.std.specs.Prelude.{◌≡◌, map};
ghost use Rattle.game_play.specs.Sights.{cell_in};
ghost use Rattle.serde_json.specs.View.{view};
ghost use Rattle.spec_model.specs.Moves.{is_of};
ghost use Rattle.strategy_text.specs.Reading.{values_of, values_at as values_at_lem, hidden_of, hidden_at as hidden_at_lem};
ghost use Rattle.strategy_text.specs.Views.{IsRead, reader_names, reader_game};

use crate::fault::ReadRefusal;
use crate::parts::{cell, list_at};
use crate::values::value_in;
use serde_json::Value as Json;
use spec_model::game::Game;
use spec_model::value::{Owner, Value};
use std::alloc::Global;

/// The enum names and the game of a specification.
#[derive(Drop)]
pub struct Reader<'a> {
    pub names: &'a [String],
    pub game: &'a Game,
}

fn is_owned(owner: Owner, of: Owner) -> bool
    ensures { result ≡ is_of of owner }
{
    owner == of
}

impl Reader<'_> {
    // A value for each of the owner's variables.
    fn values(&self, alloc: Global, owner: Owner, list: &[Json]) -> Result<Vec<Value>, ReadRefusal>
        ensures { IsRead (λ values. values.items) (values_of (reader_names self.now) (reader_game self.now) owner (map view list.now)) result }
    {
        let mut values = Vec::new(alloc);
        for var in &self.game.vars {
            if is_owned(var.owner, owner) {
                let at = values.len();
                if list.len() <= at {
                    return Err(ReadRefusal::Shape);
                }
                let Some(value) = value_in(self.names, &var.domain, &list[at]) else {
                    return Err(ReadRefusal::Shape);
                };
                values.push(value)?;
            }
        }
        if values.len() < list.len() {
            return Err(ReadRefusal::Shape);
        }
        Ok(values)
    }

    /// The list of values at a key, one for each of the owner's variables.
    pub fn values_at(
        &self,
        alloc: Global,
        owner: Owner,
        key: &str,
        json: &Json,
    ) -> Result<Vec<Value>, ReadRefusal>
        ensures { IsRead (λ values. values.items) (values_at_lem (reader_names self.now) (reader_game self.now) owner key.now (view json.now)) result }
    {
        let list = list_at(key, json)?;
        self.values(alloc, owner, list)
    }

    // A value for each hidden table.
    fn hidden(&self, alloc: Global, list: &[Json]) -> Result<Vec<Value>, ReadRefusal>
        ensures { IsRead (λ cells. map cell_in cells.items) (hidden_of (reader_game self.now) (map view list.now)) result }
    {
        let tables = self.game.hidden.as_slice();
        if list.len() != tables.len() {
            return Err(ReadRefusal::Shape);
        }
        let mut cells = Vec::new(alloc);
        for (i, table) in tables.iter().enumerate() {
            let Some(value) = cell(table.values, &list[i]) else {
                return Err(ReadRefusal::Shape);
            };
            cells.push(value)?;
        }
        Ok(cells)
    }

    /// The list of hidden values at a key.
    pub fn hidden_at(
        &self,
        alloc: Global,
        key: &str,
        json: &Json,
    ) -> Result<Vec<Value>, ReadRefusal>
        ensures { IsRead (λ cells. map cell_in cells.items) (hidden_at_lem (reader_game self.now) key.now (view json.now)) result }
    {
        let list = list_at(key, json)?;
        self.hidden(alloc, list)
    }
}
