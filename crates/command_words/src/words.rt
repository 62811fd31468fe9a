//! What the words ask for.

ghost use Rattle.std.specs.Prelude.{◌≡◌, ℕ, List, map, string_bytes, IfOk, IfSome, IfNone, MatchOption, Some, option_map};
ghost use Rattle.command_words.specs.Commands.{Asks, AsksArbiter, AskNothing, arbiter_word, word_of};
ghost use Rattle.command_words.specs.Tasks.{AskFor};
ghost use Rattle.command_words.specs.Matching.{AreMatched};

use crate::OutOfMemory;
use crate::matching::{Matched, matched_words};
use crate::numbers::{budget_of, clients_of};
use std::alloc::Global;

/// What the program is asked to do with a specification.
#[derive(Clone, Copy, Debug, PartialEq, Eq)]
pub enum Command {
    /// To write the verdict.
    Synth,
    /// To write the verdict and, where the system wins, to answer the lines of the input.
    Run,
    /// To write the verdict and, where the system wins, to answer the lines of many sessions.
    Many,
    /// To write how large the diagrams of the lines are, and a better order of the variables where one is found.
    Order,
    /// To write the verdict and, where the environment wins, the guarantees of an unrealizable core.
    Core,
    /// To write whether the assumptions keep the system from a guarantee that can never be met.
    Separate,
    /// To write the verdict and, where the environment wins, to counter the lines of the input.
    Counter,
    /// To read a log and to write whether each position of it is legal.
    Audit,
    /// To write the table of the strategy that wins.
    Export,
    /// To read a table and to write whether it wins.
    Verify,
}

/// A command, the name of the file that it is for, and the most nodes that may be held at a time.
#[derive(Clone, Copy, Debug, PartialEq, Eq)]
pub struct Request<'w> {
    pub command: Command,
    pub file: &'w str,
    pub nodes: u32,
}

/// What the program is asked to do.
#[derive(Clone, Copy, Debug, PartialEq, Eq)]
pub enum Task<'w> {
    /// A command for a file.
    OfFile(Request<'w>),
    /// `gen`: to write the verdict on an arbiter of so many clients.
    OfArbiter { clients: u32, nodes: u32 },
}

// The command of a word.
fn command_of(word: &str) -> Option<Command>
    ensures { MatchOption result ((command : Command) → ¬ (word.now ≡ word_of command)) (λ command. word.now ≡ word_of command) }
{
    match word {
        "synth" => Some(Command::Synth),
        "run" => Some(Command::Run),
        "many" => Some(Command::Many),
        "order" => Some(Command::Order),
        "core" => Some(Command::Core),
        "separate" => Some(Command::Separate),
        "counter" => Some(Command::Counter),
        "audit" => Some(Command::Audit),
        "export" => Some(Command::Export),
        "verify" => Some(Command::Verify),
        _ => None,
    }
}

// The request of the matched words, if their command is for a file.
fn request_of<'w>(matched: Matched<'w>) -> Option<Request<'w>>
    ensures { (words : List (List ℕ)) → AreMatched words matched.entry → MatchOption result
        ((command : Command) (file : List ℕ) (nodes : ℕ) → ¬ (Asks words command file nodes))
        (λ r. Asks words r.command r.file.now r.nodes) }
{
    let command = command_of(matched.command?)?;
    let file = matched.file?;
    let nodes = budget_of(matched.nodes)?;
    Some(Request {
        command,
        file,
        nodes,
    })
}

// The task of the matched words, whose command is `gen`.
fn arbiter_of<'w>(matched: Matched<'w>) -> Option<Task<'w>>
    requires { option_map (λ w. w.now) matched.command ≡ Some arbiter_word }
    ensures { (words : List (List ℕ)) → AreMatched words matched.entry → MatchOption result
        ((clients nodes : ℕ) → ¬ (AsksArbiter words clients nodes))
        (AskFor words) }
{
    let clients = clients_of(matched.file?)?;
    let nodes = budget_of(matched.nodes)?;
    Some(Task::OfArbiter { clients, nodes })
}

// What the matched words ask for.
fn task_of<'w>(matched: Matched<'w>) -> Option<Task<'w>>
    ensures { (words : List (List ℕ)) → AreMatched words matched.entry → MatchOption result (AskNothing words) (AskFor words) }
{
    match matched.command {
        Some("gen") => arbiter_of(matched),
        _ => Some(Task::OfFile(request_of(matched)?)),
    }
}

/// What the words ask for, or none where they are no command. `OutOfMemory`: none was given.
pub fn asked<'w>(alloc: Global, words: &'w [String]) -> Result<Option<Task<'w>>, OutOfMemory>
    // What a task holds is what the words ask for.
    ensures asks { IfOk result (λ answer. IfSome answer (AskFor (map string_bytes words.entry.now))) }

    // And there is none only where the words are no command.
    ensures nothing { IfOk result (λ answer. IfNone answer (AskNothing (map string_bytes words.entry.now))) }
{
    match matched_words(alloc, words)? {
        Some(matched) => Ok(task_of(matched)),
        None => Ok(None),
    }
}
