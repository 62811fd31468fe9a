//! What is said of the order of a specification's variables.

ghost use Rattle.std.specs.Prelude.{◌≤◌};
ghost use Rattle.spec_model.specs.Views.{spec_data};
ghost use Rattle.spec_model.specs.WellTyped.{WellTyped};
ghost use Rattle.command_words.specs.declared.words.Command.TheVariants as commands;
ghost use Rattle.spectra_talks.specs.Offered.{IsSaid, OverOutput};
ghost use Rattle.spectra_top.specs.Top.{Decides, order_ending};

use sp_outside::Sink;
use spec_model::spec::Spec;
use spec_order::{OrderFault, OrderReport, order_of};
use spectra_talks::saying::{
    say_better_order, say_no_better_order, say_node_budget, say_size_limit,
};
use spectra_talks::status::Status;
use std::alloc::Global;

// Says what was found.
fn say_report<O: Sink>(alloc: Global, spec: &Spec, report: &OrderReport, output: &mut O) -> Status
    ensures { IsSaid O.written O.faults (order_ending (spec_data spec.now) report.now.nodes report.now.better) output.old output.new result }
{
    match &report.better {
        Some(better) => say_better_order(
            alloc,
            &spec.vars,
            report.nodes,
            &better.order,
            better.nodes,
            output,
        ),
        None => say_no_better_order(alloc, report.nodes, output),
    }
}

/// `order`: says how large the diagrams of the lines are, and a better order of the variables where one is found.
pub fn serve_order<O: Sink>(alloc: Global, spec: &Spec, nodes: u32, output: &mut O) -> Status
    requires typed { WellTyped (spec_data spec.now) }
    requires budget { 2 ≤ nodes }
    ensures { OverOutput O.written O.faults output.old output.new (λ before after. Decides commands.Order nodes (spec_data spec.now) before after result) }
{
    match order_of(alloc, spec, nodes) {
        Ok(report) => say_report(alloc, spec, &report, output),
        Err(OrderFault::Limit) => say_size_limit(output),
        Err(OrderFault::Budget) => say_node_budget(alloc, nodes, output),
        Err(OrderFault::Memory) => Status::Memory,
    }
}
