//! Texts as tables.

ghost use Rattle.std.specs.Prelude.{◌≡◌, Some, None, IfOk, IsErrOf};
ghost use Rattle.hidden_game.specs.GameOf.{game_of};
ghost use Rattle.serde_json.specs.View.{view};
ghost use Rattle.spec_model.specs.Views.{spec_data};
ghost use Rattle.spec_model.specs.WellTyped.{WellTyped};
ghost use Rattle.strategy_tables.specs.Views.{table_data};
ghost use Rattle.strategy_tables.specs.Games.{IsTableOf};
ghost use Rattle.strategy_text.specs.Reading.{json_in as json_in_lem, table_of_kind, table_of, table_in};
ghost use Rattle.strategy_text.specs.Views.{IsRead, reader_names, reader_game};

use crate::fault::ReadRefusal;
use crate::kind::Kind;
use crate::parts::{count_at, has_members, kind_in, smalls_at};
use crate::reader::Reader;
use crate::writing::MOST_BYTES;
use hidden_game::expand;
use serde_json::Value as Json;
use spec_model::spec::Spec;
use spec_model::value::Owner;
use std::alloc::Global;
use strategy_tables::Table;

impl Reader<'_> {
    fn system(&self, alloc: Global, json: &Json) -> Result<Table, ReadRefusal>
        ensures { IsRead table_data (table_of_kind (reader_names self.now) (reader_game self.now) Kind.Controller (view json.now)) result }
    {
        if !has_members(4, json) {
            return Err(ReadRefusal::Shape);
        }
        let first = smalls_at(alloc, "first", json)?;
        let k = count_at("k", json)?;
        let nodes = self.nodes_at(alloc, Kind::Controller, "nodes", json)?;
        Ok(Table::System { k, first, nodes })
    }

    fn environment(&self, alloc: Global, json: &Json) -> Result<Table, ReadRefusal>
        ensures { IsRead table_data (table_of_kind (reader_names self.now) (reader_game self.now) Kind.Counterstrategy (view json.now)) result }
    {
        if !has_members(6, json) {
            return Err(ReadRefusal::Shape);
        }
        let first = smalls_at(alloc, "first", json)?;
        let m = count_at("m", json)?;
        let reply = self.values_at(alloc, Owner::Env, "move", json)?;
        let n = count_at("n", json)?;
        let nodes = self.nodes_at(alloc, Kind::Counterstrategy, "nodes", json)?;
        Ok(Table::Environment {
            n,
            m,
            reply,
            first,
            nodes,
        })
    }

    fn table(&self, alloc: Global, json: &Json) -> Result<Table, ReadRefusal>
        ensures { IsRead table_data (table_of (reader_names self.now) (reader_game self.now) (view json.now)) result }
    {
        match kind_in(json)? {
            Kind::Controller => self.system(alloc, json),
            Kind::Counterstrategy => self.environment(alloc, json),
        }
    }
}

fn json_in(alloc: Global, bytes: &[u8]) -> Result<Json, ReadRefusal>
    ensures { IsRead view (json_in_lem bytes.now) result }
{
    match Json::from_slice(alloc, bytes) {
        Ok(json) => Ok(json),
        Err(error) => {
            if error.is_memory() {
                return Err(ReadRefusal::Memory);
            }
            Err(ReadRefusal::Shape)
        }
    }
}

/// The table of the specification that a text is. `Shape`: it is none, or it has more than 16,777,216 bytes. `Memory`: none was
/// given.
pub fn read(alloc: Global, spec: &Spec, bytes: &[u8]) -> Result<Table, ReadRefusal>
    requires typed { WellTyped (spec_data spec.now) }
    ensures exact { IfOk result (λ table. table_in (spec_data spec.now) bytes.now ≡ Some (table_data table)) }
    ensures shape { IsErrOf result ReadRefusal.Shape → table_in (spec_data spec.now) bytes.now ≡ None }
    ensures table { IfOk result (λ table. IsTableOf (game_of (spec_data spec.now)) (table_data table)) }
{
    if bytes.len() > MOST_BYTES {
        return Err(ReadRefusal::Shape);
    }
    let game = expand(alloc, spec)?;
    let json = json_in(alloc, bytes)?;
    let reader = Reader {
        names: &spec.names,
        game: &game,
    };
    reader.table(alloc, &json)
}
