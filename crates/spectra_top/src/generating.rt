//! What is done for an arbiter of so many clients.

ghost use Rattle.std.specs.Prelude.{◌≡◌, ◌≤◌};
ghost use Rattle.sp_outside.specs.Causes.{Rose};
ghost use Rattle.sp_outside.specs.Files.{told_file};
ghost use Rattle.spec_gen.specs.Arbiter.{arbiter_text};
ghost use Rattle.command_words.specs.declared.words.Command.TheVariants as commands;
ghost use Rattle.spectra_talks.specs.Streams.{moments};
ghost use Rattle.spectra_top.specs.Top.{Heads, ServesText, ServesArbiter, arbiter_name};

use crate::serving::serve_text;
use command_words::{Command, Request};
use sp_outside::{Shelf, Sink, Source, write_line};
use spec_gen::arbiter;
use spectra_talks::saying::arbiter_line;
use spectra_talks::status::Status;
use std::alloc::Global;

// Writes a line, and below it what `synth` writes for the text of an arbiter.
fn serve_below<F: Shelf, I: Source, O: Sink>(
    alloc: Global,
    nodes: u32,
    line: &[u8],
    text: &[u8],
    shelf: &mut F,
    input: &mut I,
    output: &mut O,
) -> Status
    requires budget { 2 ≤ nodes }
    ensures serves { let at = moments I.left O.written I.reads I.faults O.faults in
        Heads line.now (λ before after. ServesText commands.Synth nodes (told_file (F.holds shelf.old)) (Rose (F.faults shelf.old) (F.faults shelf.new)) arbiter_name before after text.now)
        (at input.old output.old) (at input.new output.new) result }
    ensures keeps { F.holds shelf.new ≡ F.holds shelf.old }
{
    let request = Request {
        command: Command::Synth,
        file: "arbiter",
        nodes,
    };
    match write_line(output, line) {
        Ok(()) => serve_text(alloc, request, text, shelf, input, output),
        Err(_) => Status::OutputFault,
    }
}

// Does what is asked for with the text of an arbiter.
fn serve_arbiter_text<F: Shelf, I: Source, O: Sink>(
    alloc: Global,
    clients: u32,
    nodes: u32,
    text: &[u8],
    shelf: &mut F,
    input: &mut I,
    output: &mut O,
) -> Status
    requires budget { 2 ≤ nodes }
    requires text { text.now ≡ arbiter_text clients }
    ensures serves { let at = moments I.left O.written I.reads I.faults O.faults in
        ServesArbiter (told_file (F.holds shelf.old)) (Rose (F.faults shelf.old) (F.faults shelf.new)) clients nodes (at input.old output.old) (at input.new output.new) result }
    ensures keeps { F.holds shelf.new ≡ F.holds shelf.old }
{
    match arbiter_line(alloc, clients) {
        Ok(line) => serve_below(alloc, nodes, line.as_bytes(), text, shelf, input, output),
        Err(_) => Status::Memory,
    }
}

/// Writes which arbiter it is, and below it the verdict on its text.
pub fn serve_arbiter<F: Shelf, I: Source, O: Sink>(
    alloc: Global,
    clients: u32,
    nodes: u32,
    shelf: &mut F,
    input: &mut I,
    output: &mut O,
) -> Status
    requires budget { 2 ≤ nodes }
    ensures serves { let at = moments I.left O.written I.reads I.faults O.faults in
        ServesArbiter (told_file (F.holds shelf.old)) (Rose (F.faults shelf.old) (F.faults shelf.new)) clients nodes (at input.old output.old) (at input.new output.new) result }
    ensures keeps { F.holds shelf.new ≡ F.holds shelf.old }
{
    match arbiter(alloc, clients) {
        Ok(text) => serve_arbiter_text(alloc, clients, nodes, &text, shelf, input, output),
        Err(_) => Status::Memory,
    }
}
