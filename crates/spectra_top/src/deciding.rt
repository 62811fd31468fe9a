//! What is done with a specification, by the command.

ghost use Rattle.std.specs.Prelude.{◌≤◌};
ghost use Rattle.spec_model.specs.Views.{spec_data};
ghost use Rattle.spec_model.specs.WellTyped.{WellTyped};
ghost use Rattle.spec_model.specs.Room.{HasRoomForOne};
ghost use Rattle.solve.specs.Winners.{IsWonByEnvironment};
ghost use Rattle.command_words.specs.declared.words.Command.TheVariants as commands;
ghost use Rattle.spectra_talks.specs.Streams.{moments};
ghost use Rattle.spectra_talks.specs.Offered.{OverOutput};
ghost use Rattle.spectra_top.specs.Top.{Decides};
ghost use Rattle.spectra_top.specs.Saying.{SaysNoVerdict};

use crate::ordering::serve_order;
use command_words::{Command, Request};
use regions::Halt;
use solve::{
    Numbers, Opposition, Separation, Verdict, core_of_lost, separated, whole_numbers,
    whole_opposition, whole_verdict,
};
use sp_outside::{Sink, Source};
use spec_model::spec::Spec;
use spectra_talks::auditing::audit;
use spectra_talks::countering::counter;
use spectra_talks::exporting::{export_environment, export_system};
use spectra_talks::holding::hold;
use spectra_talks::hosting::host;
use spectra_talks::saying::{
    say_core, say_node_budget, say_not_separated, say_realizable, say_realizable_instead,
    say_separated, say_unrealizable,
};
use spectra_talks::status::Status;
use spectra_talks::verifying::verify;
use std::alloc::Global;

// Says why there is no verdict, where that is a line.
fn say_no_verdict<O: Sink>(alloc: Global, nodes: u32, halt: Halt, output: &mut O) -> Status
    ensures { OverOutput O.written O.faults output.old output.new (λ before after. SaysNoVerdict halt nodes before after result) }
{
    match halt {
        Halt::Budget => say_node_budget(alloc, nodes, output),
        Halt::Memory => Status::Memory,
    }
}

// `synth`: says who wins.
fn serve_synth<O: Sink>(alloc: Global, spec: &Spec, nodes: u32, output: &mut O) -> Status
    requires typed { WellTyped (spec_data spec.now) }
    requires budget { 2 ≤ nodes }
    ensures { OverOutput O.written O.faults output.old output.new (λ before after. Decides commands.Synth nodes (spec_data spec.now) before after result) }
{
    match whole_numbers(alloc, spec, nodes) {
        Ok(Numbers::Realizable { k }) => say_realizable(alloc, k, output),
        Ok(Numbers::Unrealizable { n, m }) => say_unrealizable(alloc, n, m, output),
        Err(halt) => say_no_verdict(alloc, nodes, halt, output),
    }
}

// `run`: holds a session where the system wins.
fn serve_run<I: Source, O: Sink>(
    alloc: Global,
    spec: &Spec,
    nodes: u32,
    input: &mut I,
    output: &mut O,
) -> Status
    requires typed { WellTyped (spec_data spec.now) }
    requires budget { 2 ≤ nodes }
    ensures { let at = moments I.left O.written I.reads I.faults O.faults in
        Decides commands.Run nodes (spec_data spec.now) (at input.old output.old) (at input.new output.new) result }
{
    match whole_verdict(alloc, spec, nodes) {
        Ok(Verdict::Realizable { k, play }) => hold(alloc, spec, k, play, input, output),
        Ok(Verdict::Unrealizable { n, m, play }) => {
            let _g = play.close();
            say_unrealizable(alloc, n, m, output)
        }
        Err(halt) => say_no_verdict(alloc, nodes, halt, output),
    }
}

// `many`: serves many sessions where the system wins.
fn serve_many<I: Source, O: Sink>(
    alloc: Global,
    spec: &Spec,
    nodes: u32,
    input: &mut I,
    output: &mut O,
) -> Status
    requires typed { WellTyped (spec_data spec.now) }
    requires budget { 2 ≤ nodes }
    ensures { let at = moments I.left O.written I.reads I.faults O.faults in
        Decides commands.Many nodes (spec_data spec.now) (at input.old output.old) (at input.new output.new) result }
{
    match whole_verdict(alloc, spec, nodes) {
        Ok(Verdict::Realizable { k, play }) => host(alloc, spec, k, play, input, output),
        Ok(Verdict::Unrealizable { n, m, play }) => {
            let _g = play.close();
            say_unrealizable(alloc, n, m, output)
        }
        Err(halt) => say_no_verdict(alloc, nodes, halt, output),
    }
}

// `counter`: holds a session where the environment wins.
fn serve_counter<I: Source, O: Sink>(
    alloc: Global,
    spec: &Spec,
    nodes: u32,
    input: &mut I,
    output: &mut O,
) -> Status
    requires typed { WellTyped (spec_data spec.now) }
    requires budget { 2 ≤ nodes }
    ensures { let at = moments I.left O.written I.reads I.faults O.faults in
        Decides commands.Counter nodes (spec_data spec.now) (at input.old output.old) (at input.new output.new) result }
{
    match whole_opposition(alloc, spec, nodes) {
        Ok(Opposition::Realizable { k }) => say_realizable_instead(alloc, k, output),
        Ok(Opposition::Unrealizable { n, m, play }) => {
            counter(alloc, spec, n, m, play, input, output)
        }
        Err(halt) => say_no_verdict(alloc, nodes, halt, output),
    }
}

// `export`: writes the table of the strategy of the side that wins.
fn serve_export<O: Sink>(alloc: Global, spec: &Spec, nodes: u32, output: &mut O) -> Status
    requires typed { WellTyped (spec_data spec.now) }
    requires budget { 2 ≤ nodes }
    ensures { OverOutput O.written O.faults output.old output.new (λ before after. Decides commands.Export nodes (spec_data spec.now) before after result) }
{
    match whole_verdict(alloc, spec, nodes) {
        Ok(Verdict::Realizable { k, play }) => export_system(alloc, spec, k, play, output),
        Ok(Verdict::Unrealizable { n, m, play }) => {
            export_environment(alloc, spec, n, m, play, output)
        }
        Err(halt) => say_no_verdict(alloc, nodes, halt, output),
    }
}

// Says which guarantees are the reason why the environment wins, with N and M.
fn serve_lost_core<O: Sink>(
    alloc: Global,
    spec: &Spec,
    nodes: u32,
    n: u64,
    m: u64,
    output: &mut O,
) -> Status
    requires typed { WellTyped (spec_data spec.now) }
    requires budget { 2 ≤ nodes }
    requires lost { IsWonByEnvironment (spec_data spec.now) n m }
    ensures { OverOutput O.written O.faults output.old output.new (λ before after. Decides commands.Core nodes (spec_data spec.now) before after result) }
{
    match core_of_lost(alloc, spec, nodes) {
        Ok(core) => say_core(alloc, n, m, &core, output),
        Err(halt) => say_no_verdict(alloc, nodes, halt, output),
    }
}

// `core`: says who wins, and where the environment does, because of which guarantees. The core is found before a line is
// written.
fn serve_core<O: Sink>(alloc: Global, spec: &Spec, nodes: u32, output: &mut O) -> Status
    requires typed { WellTyped (spec_data spec.now) }
    requires budget { 2 ≤ nodes }
    ensures { OverOutput O.written O.faults output.old output.new (λ before after. Decides commands.Core nodes (spec_data spec.now) before after result) }
{
    match whole_numbers(alloc, spec, nodes) {
        Ok(Numbers::Realizable { k }) => say_realizable_instead(alloc, k, output),
        Ok(Numbers::Unrealizable { n, m }) => serve_lost_core(alloc, spec, nodes, n, m, output),
        Err(halt) => say_no_verdict(alloc, nodes, halt, output),
    }
}

// `separate`: says who wins where the one guarantee can never be met.
fn serve_separate<O: Sink>(alloc: Global, spec: &Spec, nodes: u32, output: &mut O) -> Status
    requires typed { WellTyped (spec_data spec.now) }
    requires room { HasRoomForOne (spec_data spec.now) }
    requires budget { 2 ≤ nodes }
    ensures { OverOutput O.written O.faults output.old output.new (λ before after. Decides commands.Separate nodes (spec_data spec.now) before after result) }
{
    match separated(alloc, spec, nodes) {
        Ok(Separation::Separated { n, m }) => say_separated(alloc, n, m, output),
        Ok(Separation::Forced { k }) => say_not_separated(alloc, k, output),
        Err(halt) => say_no_verdict(alloc, nodes, halt, output),
    }
}

/// Does what the command wants with a well-typed specification.
pub fn serve_specification<I: Source, O: Sink>(
    alloc: Global,
    request: Request<'_>,
    spec: &Spec,
    input: &mut I,
    output: &mut O,
) -> Status
    requires typed { WellTyped (spec_data spec.now) }
    requires room { HasRoomForOne (spec_data spec.now) }
    requires budget { 2 ≤ request.nodes }
    ensures { let at = moments I.left O.written I.reads I.faults O.faults in
        Decides request.entry.command request.entry.nodes (spec_data spec.now) (at input.old output.old) (at input.new output.new) result }
{
    let nodes = request.nodes;
    match request.command {
        Command::Synth => serve_synth(alloc, spec, nodes, output),
        Command::Run => serve_run(alloc, spec, nodes, input, output),
        Command::Many => serve_many(alloc, spec, nodes, input, output),
        Command::Order => serve_order(alloc, spec, nodes, output),
        Command::Core => serve_core(alloc, spec, nodes, output),
        Command::Separate => serve_separate(alloc, spec, nodes, output),
        Command::Counter => serve_counter(alloc, spec, nodes, input, output),
        Command::Audit => audit(alloc, spec, input, output),
        Command::Export => serve_export(alloc, spec, nodes, output),
        Command::Verify => verify(alloc, spec, input, output),
    }
}
