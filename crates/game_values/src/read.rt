//! What a state gives to expressions, and the hidden values that follow it.

ghost use Rattle.std.specs.Prelude.{◌≡◌, true, false, map, get_or, IfOk, OnOk, [], not};
ghost use Rattle.std.specs.List.{list_all};
ghost use Rattle.spec_model.specs.Views.{variable_data};
ghost use Rattle.spec_model.specs.GameViews.{hidden_data};
ghost use Rattle.spec_model.specs.Values.{is_assignment};
ghost use Rattle.spec_model.specs.Moves.{is_env, domains_of, value_among};
ghost use Rattle.spec_model.specs.Games.{read_table, read_tables, nothing_read};
ghost use Rattle.spec_model.specs.Steps.{are_hidden_values};
ghost use Rattle.spec_model.specs.WellMade.{is_domain, are_tables};
ghost use Rattle.game_values.specs.Readouts.{readout_data};
ghost use Rattle.game_values.specs.Moments.{moment_data, reading_of, reading_in, values_at};

use crate::cells::{bit_in, number_in};
use crate::eval::cell;
use crate::moments::{Moment, Moments};
use crate::values::value_or;
use spec_model::game::Hidden;
use spec_model::value::{Owner, Value, Var};
use spec_model::variables::{count_inputs, count_outputs};
use std::alloc::{AllocError, Global};

/// The value of a variable, where these are the moves.
pub fn variable(vars: &[Var], input: &[Value], output: &[Value], k: usize) -> Value
    ensures { result ≡ value_among (map variable_data vars.now) (record { input = input.now; output = output.now }) k }
{
    if k < vars.len() {
        let v = &vars[k];
        match v.owner {
            Owner::Env => value_or(input, count_inputs(&vars[..k])),
            Owner::Sys => value_or(output, count_outputs(&vars[..k])),
        }
    } else {
        Value::Bool(false)
    }
}

/// The values of all variables, in declared order.
pub fn declared(
    alloc: Global,
    vars: &[Var],
    input: &[Value],
    output: &[Value],
) -> Result<Vec<Value>, AllocError>
    ensures { IfOk result (λ all. all.items ≡ values_at (map variable_data vars.now) (record { input = input.now; output = output.now })) }
{
    let mut all = Vec::new(alloc);
    for k in 0..vars.len() {
        all.push(variable(vars, input, output, k))?;
    }
    Ok(all)
}

/// The entry of each truth table at a cell.
fn entries_at(alloc: Global, tables: &[Vec<bool>], cell: usize) -> Result<Vec<bool>, AllocError>
    ensures { IfOk result (λ es. es.items ≡ map (λ table. get_or table cell false) (map (λ t. t.items) tables.now)) }
{
    let mut entries = Vec::new(alloc);
    for table in tables {
        entries.push(bit_in(table, cell))?;
    }
    Ok(entries)
}

/// What a state gives to expressions, and the hidden values that follow it.
#[derive(Drop)]
pub struct Readout {
    pub moment: Moment,
    pub next: Vec<u16>,
}

/// Reads a table at its cell.
fn add_table(alloc: Global, out: &mut Readout, h: &Hidden, cell: usize) -> Result<(), AllocError>
    ensures read { OnOk result (readout_data out.new ≡ read_table (readout_data out.old) (hidden_data h.now) cell) }
    ensures values { out.new.moment.values ≡ out.old.moment.values }
{
    let entries = entries_at(alloc, &h.tables, cell)?;
    out.moment.entries.push(entries)?;
    out.next.push(number_in(&h.next, cell))?;
    Ok(())
}

/// A moment alone.
fn moment_alone(moment: &Moment) -> Moments<'_>
    ensures { reading_in result ≡ reading_of (moment_data moment.now) (moment_data moment.now) }
{
    Moments {
        here: moment,
        next: moment,
    }
}

/// Reads the tables in order, each at its value and at the letter of the present and of the tables before it.
pub fn read(
    alloc: Global,
    vars: &[Var],
    hidden: &[Hidden],
    numbers: &[u16],
    input: &[Value],
    output: &[Value],
) -> Result<Readout, AllocError>
    requires domains { list_all (λ v. is_domain v.domain) (map variable_data vars.now) ≡ true }
    requires tables { are_tables (record { domains = map (λ v. v.domain) (map variable_data vars.now); tables = [] }) (map hidden_data hidden.now) ≡ true }
    requires numbers { are_hidden_values (map hidden_data hidden.now) numbers.now ≡ true }
    requires input { is_assignment (domains_of is_env (map variable_data vars.now)) input.now ≡ true }
    requires output { is_assignment (domains_of (λ o. not (is_env o)) (map variable_data vars.now)) output.now ≡ true }
    ensures values { IfOk result (λ r. r.moment.values.items ≡ values_at (map variable_data vars.now) (record { input = input.now; output = output.now })) }
    ensures read { IfOk result (λ r. readout_data r ≡ read_tables (map variable_data vars.now) (record { input = input.now; output = output.now }) nothing_read (map hidden_data hidden.now) numbers.now) }
{
    let values = declared(alloc, vars, input, output)?;
    let mut out = Readout {
        moment: Moment {
            values,
            entries: Vec::new(alloc),
        },
        next: Vec::new(alloc),
    };
    for k in 0..hidden.len() {
        let h = &hidden[k];
        let at = cell(h, numbers[k], &moment_alone(&out.moment));
        add_table(alloc, &mut out, h, at)?;
    }
    Ok(out)
}
