//! The top call: from words, files and streams to a status.

ghost use Rattle.std.specs.Prelude.{◌≡◌, map, string_bytes};
ghost use Rattle.sp_outside.specs.Causes.{Rose};
ghost use Rattle.spectra_talks.specs.Streams.{moments};
ghost use Rattle.spectra_top.specs.Top.{ServesWords, DecidesWhatReads, DecidesArbiters, Refuses, IsCaused};

use crate::generating::serve_arbiter;
use crate::serving::serve_file;
use command_words::{Task, asked};
use sp_outside::{Shelf, Sink, Source};
use spectra_talks::saying::say_usage;
use spectra_talks::status::Status;
use std::alloc::Global;

/// All that the program does. The words are those of the command line, the program's own name first.
///
/// `synth` writes one line: the verdict, or why there is none. `run` writes the same and, where the system wins, answers
/// each line of the input by one line. `many` writes the same and, where the system wins, answers each line for the session whose
/// number it begins with. `counter` writes the same and, where the environment wins, counters each line of the
/// input by a note and an input. `core` writes the verdict and, where the environment wins, the lines of a core. `separate`
/// writes who wins where the one guarantee can never be met. `audit` writes whether each line of the input, as a position,
/// is legal. `export` writes the table of the strategy of the side that wins. `verify` writes whether the input is a table that
/// wins, and with which numbers. `order` writes how many parts the diagrams of the lines have, and an order of the variables
/// under which there are fewer, if moving one at a time finds one. A file is read first, and then each file that it imports, in
/// order; the first that isn't there, or is refused, is told. `gen` writes which arbiter it is, and then as `synth` for its text.
///
/// The status says how it ended; `Budget`: the nodes ran out; `ShelfFault`: the shelf failed; `InputFault`: the input failed;
/// `OutputFault`: the output failed, and a front of what is due is written; `TableRefused`: the input is no table; `SizeLimit`: a
/// table passes a limit, or `order` is asked for more than 32 variables; `Memory`: none was given, nothing is read but by
/// `verify`, and nothing is written but, by `gen`, its first line.
pub fn spectra<F: Shelf, I: Source, O: Sink>(
    alloc: Global,
    words: &[String],
    shelf: &mut F,
    input: &mut I,
    output: &mut O,
) -> Status
    // What is read and written, and the status, are those that the words and the files ask for.
    ensures serves { let at = moments I.left O.written I.reads I.faults O.faults in
        ServesWords (map string_bytes words.now) (F.holds shelf.old) (Rose (F.faults shelf.old) (F.faults shelf.new)) (at input.old output.old) (at input.new output.new) result }

    // A text that means a specification, with the files that it imports, gets the decision of that specification; it means no
    // other, by `laws::no_text_means_two_specifications`.
    ensures decides { let at = moments I.left O.written I.reads I.faults O.faults in
        DecidesWhatReads (map string_bytes words.now) (F.holds shelf.old) (Rose (F.faults shelf.old) (F.faults shelf.new)) (at input.old output.old) (at input.new output.new) result }

    // So does the text of an arbiter, which imports nothing.
    ensures generates { let at = moments I.left O.written I.reads I.faults O.faults in
        DecidesArbiters (map string_bytes words.now) (at input.old output.old) (at input.new output.new) result }

    // Words that are no command get their status, and so do names of no file, which the main file may be or may import, and
    // texts that are refused.
    ensures refuses { Refuses (map string_bytes words.now) (F.holds shelf.old) result }

    ensures causes { let at = moments I.left O.written I.reads I.faults O.faults in
        IsCaused (map string_bytes words.now) (Rose (F.faults shelf.old) (F.faults shelf.new)) (at input.old output.old) (at input.new output.new) result }
    ensures keeps { F.holds shelf.new ≡ F.holds shelf.old }
{
    match asked(alloc, words) {
        Ok(Some(Task::OfFile(request))) => serve_file(alloc, request, shelf, input, output),
        Ok(Some(Task::OfArbiter { clients, nodes })) => {
            serve_arbiter(alloc, clients, nodes, shelf, input, output)
        }
        Ok(None) => say_usage(output),
        Err(_) => Status::Memory,
    }
}
