//! The table of the strategy that wins: it is made, and its text is written.

ghost use Rattle.std.specs.Prelude.{◌≡◌, Some};
ghost use Rattle.spec_model.specs.Views.{spec_data};
ghost use Rattle.spec_model.specs.WellTyped.{WellTyped};
ghost use Rattle.strategy_tables.specs.Views.{table_data};
ghost use Rattle.strategy_tables.specs.Games.{IsTableOf};
ghost use Rattle.hidden_game.specs.GameOf.{game_of};
ghost use Rattle.controller.specs.Objects as controllers;
ghost use Rattle.counterstrategy.specs.Objects as counters;
ghost use Rattle.strategy_check.specs.Systems.{IsPlayOf};
ghost use Rattle.counter_tables.specs.Environments.{IsCounterplayOf};
ghost use Rattle.spectra_talks.specs.Endings.{Ending};
ghost use Rattle.spectra_talks.specs.Offered.{OverOutput};
ghost use Rattle.spectra_talks.specs.Verifying.{of_table};
ghost use Rattle.spectra_talks.specs.Exporting.{Exports, HasLongText, ExportsSystem, ExportsEnvironment};

use crate::saying::{say_exported, say_size_limit};
use crate::status::Status;
use controller::Controller;
use counter_tables::environment_table;
use counterstrategy::Counterstrategy;
use regions::Regions;
use sp_outside::Sink;
use spec_model::spec::Spec;
use std::alloc::Global;
use strategy_check::system_table;
use strategy_tables::{Table, TableFault};
use strategy_text::text;

// Writes the text of a table that meets its rules.
fn write_table<O: Sink>(alloc: Global, spec: &Spec, table: &Table, output: &mut O) -> Status
    requires typed { WellTyped (spec_data spec.now) }
    requires table { IsTableOf (game_of (spec_data spec.now)) (table_data table.now) }
    ensures { (says : Ending) → of_table (spec_data spec.now) (Some (table_data table.now)) ≡ says →
        OverOutput O.written O.faults output.old output.new (λ before after. Exports (spec_data spec.now) says (HasLongText (spec_data spec.now) says) before after result) }
{
    match text(alloc, spec, table) {
        Ok(written) => say_exported(written, output),
        Err(TableFault::Limit) => say_size_limit(output),
        Err(TableFault::Memory) => Status::Memory,
    }
}

// Makes the table of the system's strategy, and writes it.
fn write_system<G: Regions, O: Sink>(
    alloc: Global,
    spec: &Spec,
    k: u64,
    play: &mut Controller<G>,
    output: &mut O,
) -> Status
    requires typed { WellTyped (spec_data spec.now) }
    requires play { IsPlayOf G.kept (spec_data spec.now) k play.old }
    ensures exports { OverOutput O.written O.faults output.old output.new (λ before after. ExportsSystem (spec_data spec.now) k before after result) }
    ensures stands { controllers.Stands G.kept play.new }
{
    match system_table(alloc, spec, k, play) {
        Ok(table) => write_table(alloc, spec, &table, output),
        Err(TableFault::Limit) => say_size_limit(output),
        Err(TableFault::Memory) => Status::Memory,
    }
}

/// Writes the table of the system's strategy for a specification that it wins with k.
pub fn export_system<G: Regions + Drop, O: Sink>(
    alloc: Global,
    spec: &Spec,
    k: u64,
    play: Controller<G>,
    output: &mut O,
) -> Status
    requires typed { WellTyped (spec_data spec.now) }
    requires play { IsPlayOf G.kept (spec_data spec.now) k play }
    ensures { OverOutput O.written O.faults output.old output.new (λ before after. ExportsSystem (spec_data spec.now) k before after result) }
{
    let mut play = play;
    let status = write_system(alloc, spec, k, &mut play, output);
    let _g = play.close();
    status
}

// Makes the table of the environment's strategy, and writes it.
fn write_environment<G: Regions, O: Sink>(
    alloc: Global,
    spec: &Spec,
    n: u64,
    m: u64,
    play: &mut Counterstrategy<G>,
    output: &mut O,
) -> Status
    requires typed { WellTyped (spec_data spec.now) }
    requires play { IsCounterplayOf G.kept (spec_data spec.now) n m play.old }
    ensures exports { OverOutput O.written O.faults output.old output.new (λ before after. ExportsEnvironment (spec_data spec.now) n m before after result) }
    ensures stands { counters.Stands G.kept play.new }
{
    match environment_table(alloc, spec, n, m, play) {
        Ok(table) => write_table(alloc, spec, &table, output),
        Err(TableFault::Limit) => say_size_limit(output),
        Err(TableFault::Memory) => Status::Memory,
    }
}

/// Writes the table of the environment's strategy for a specification that it wins with n and m.
pub fn export_environment<G: Regions + Drop, O: Sink>(
    alloc: Global,
    spec: &Spec,
    n: u64,
    m: u64,
    play: Counterstrategy<G>,
    output: &mut O,
) -> Status
    requires typed { WellTyped (spec_data spec.now) }
    requires play { IsCounterplayOf G.kept (spec_data spec.now) n m play }
    ensures { OverOutput O.written O.faults output.old output.new (λ before after. ExportsEnvironment (spec_data spec.now) n m before after result) }
{
    let mut play = play;
    let status = write_environment(alloc, spec, n, m, &mut play, output);
    let _g = play.close();
    status
}
