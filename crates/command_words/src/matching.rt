//! What `clap` makes of the words.

ghost use Rattle.std.specs.Prelude.{◌≡◌, map, string_bytes, IfOk, MatchOption, option_map};
ghost use Rattle.clap.specs.Words.{app_of, first_of, found_of, rows_of, matches_of};
ghost use Rattle.command_words.specs.Commands.{simple_command, HasMatches};
ghost use Rattle.command_words.specs.Matching.{AreMatched};

use crate::OutOfMemory;
use clap::error::ErrorKind;
use clap::{Arg, ArgMatches, Command};
use std::alloc::Global;

/// The words that `clap` has matched with COMMAND, FILE and N.
#[derive(Clone, Copy)]
pub struct Matched<'w> {
    pub command: Option<&'w str>,
    pub file: Option<&'w str>,
    pub nodes: Option<&'w str>,
}

// `spectra COMMAND FILE [--nodes N]`
fn make_command<'w>(alloc: Global) -> Result<Command<'w>, OutOfMemory>
    ensures { IfOk result (λ c. app_of c ≡ simple_command) }
{
    let command = Arg::new(alloc, "COMMAND").required(true);
    let file = Arg::new(alloc, "FILE").required(true);
    let nodes = Arg::new(alloc, "nodes").long("nodes");
    let with_command = Command::new(alloc, "spectra").arg(command)?;
    let with_file = with_command.arg(file)?;
    with_file.arg(nodes)
}

// The matches that `clap` has for the words, if it has any.
#[tactic(auto, unfolding(crate::specs::Commands::HasMatches))]
fn matches_for<'w>(
    alloc: Global,
    words: &'w [String],
) -> Result<Option<ArgMatches<'w>>, OutOfMemory>
    ensures { IfOk result (λ answer. MatchOption answer
        (¬ (HasMatches (map string_bytes words.entry.now)))
        (λ m. HasMatches (map string_bytes words.entry.now)
        × (rows_of (found_of m) ≡ matches_of simple_command (map string_bytes words.entry.now)))) }
{
    let command = make_command(alloc)?;
    match command.try_get_matches_from(words) {
        Ok(matches) => Ok(Some(matches)),
        Err(error) => match error.kind() {
            ErrorKind::OutOfMemory => Err(OutOfMemory),
            _ => Ok(None),
        },
    }
}

// The word that the matches have under a name.
fn word<'w>(matches: &ArgMatches<'w>, name: &str) -> Option<&'w str>
    ensures { option_map (λ w. w.now) result ≡ first_of name.now (rows_of (found_of matches.now)) }
{
    matches.get_str(name)
}

/// The words that `clap` has matched, or none where it has no matches.
#[tactic(auto, unfolding(crate::specs::Commands::matched))]
pub fn matched_words<'w>(
    alloc: Global,
    words: &'w [String],
) -> Result<Option<Matched<'w>>, OutOfMemory>
    ensures { IfOk result (λ answer. MatchOption answer (¬ (HasMatches (map string_bytes words.entry.now)))
        (AreMatched (map string_bytes words.entry.now))) }
{
    let Some(matches) = matches_for(alloc, words)? else {
        return Ok(None);
    };
    Ok(Some(Matched {
        command: word(&matches, "COMMAND"),
        file: word(&matches, "FILE"),
        nodes: word(&matches, "nodes"),
    }))
}
