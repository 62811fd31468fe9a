//! A check of a table: the input is taken as a table, and whether it wins is told.

ghost use Rattle.std.specs.Prelude.{◌≡◌, Some};
ghost use Rattle.spec_model.specs.Views.{spec_data};
ghost use Rattle.spec_model.specs.WellTyped.{WellTyped};
ghost use Rattle.hidden_game.specs.GameOf.{game_of};
ghost use Rattle.strategy_tables.specs.Views.{table_data};
ghost use Rattle.strategy_tables.specs.Games.{IsTableOf};
ghost use Rattle.spectra_talks.specs.Streams.{moments};
ghost use Rattle.spectra_talks.specs.Offered.{IsSaid};
ghost use Rattle.spectra_talks.specs.Verifying.{verified, checked, of_table, verify_ending, Verifies};

use crate::laws::what_is_verified_wins;
use crate::saying::{
    say_input_fault, say_not_verified, say_size_limit, say_table_refused, say_verified_environment,
    say_verified_system,
};
use crate::status::Status;
use sp_outside::{InputFault, Sink, Source, read_input};
use spec_model::spec::Spec;
use std::alloc::Global;
use strategy_tables::Table;
use strategy_text::{ReadRefusal, read};
use table_check::{CheckEnd, check};

/// The most bytes that are taken of the input: one more than a table may have.
pub const MOST_TAKEN: usize = 16_777_217;

// Says that a table wins, with the numbers that it claims.
fn say_verified<O: Sink>(alloc: Global, table: &Table, output: &mut O) -> Status
    ensures { IsSaid O.written O.faults (verified (table_data table.now)) output.old output.new result }
{
    match table {
        Table::System { k, .. } => say_verified_system(alloc, *k, output),
        Table::Environment { n, m, .. } => say_verified_environment(alloc, *n, *m, output),
    }
}

// Says how the check of a table ended.
fn say_end<O: Sink>(alloc: Global, table: &Table, end: CheckEnd, output: &mut O) -> Status
    ensures { IsSaid O.written O.faults (checked (table_data table.now) end) output.old output.new result }
{
    match end {
        CheckEnd::Sound => say_verified(alloc, table, output),
        CheckEnd::Flaw { rule, node } => say_not_verified(alloc, rule, node, output),
        CheckEnd::Limit => say_size_limit(output),
    }
}

// Checks a table of a specification, and says how that ended.
fn verify_table<O: Sink>(alloc: Global, spec: &Spec, table: &Table, output: &mut O) -> Status
    requires typed { WellTyped (spec_data spec.now) }
    requires table { IsTableOf (game_of (spec_data spec.now)) (table_data table.now) }
    ensures { IsSaid O.written O.faults (of_table (spec_data spec.now) (Some (table_data table.now))) output.old output.new result }
{
    match check(alloc, spec, table) {
        Ok(end) => say_end(alloc, table, end, output),
        Err(_) => Status::Memory,
    }
}

// Checks bytes as a table of a specification, and says how that ended.
fn verify_bytes<O: Sink>(alloc: Global, spec: &Spec, bytes: &[u8], output: &mut O) -> Status
    requires typed { WellTyped (spec_data spec.now) }
    ensures { IsSaid O.written O.faults (verify_ending (spec_data spec.now) bytes.now) output.old output.new result }
{
    match read(alloc, spec, bytes) {
        Ok(table) => verify_table(alloc, spec, &table, output),
        Err(ReadRefusal::Shape) => say_table_refused(output),
        Err(ReadRefusal::Memory) => Status::Memory,
    }
}

/// Takes the input as a table of a well-typed specification, checks it, and says how that ended. No specification is solved.
pub fn verify<I: Source, O: Sink>(
    alloc: Global,
    spec: &Spec,
    input: &mut I,
    output: &mut O,
) -> Status
    requires typed { WellTyped (spec_data spec.now) }
    ensures { let at = moments I.left O.written I.reads I.faults O.faults in
        Verifies (spec_data spec.now) (at input.old output.old) (at input.new output.new) result }
{
    what_is_verified_wins();
    match read_input(alloc, input, MOST_TAKEN) {
        Ok(bytes) => verify_bytes(alloc, spec, &bytes, output),
        Err(InputFault::Input) => say_input_fault(output),
        Err(InputFault::Memory) => Status::Memory,
    }
}
