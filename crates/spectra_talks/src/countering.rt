//! A session of the environment's side: the verdict line, the talk, and the last line.

ghost use Rattle.std.specs.Prelude.{◌≡◌, ◌⊎◌, IfOk, string_bytes};
ghost use Rattle.spec_model.specs.Syntax.{Specification};
ghost use Rattle.spec_model.specs.Views.{spec_data};
ghost use Rattle.counterstrategy.specs.Objects.{IsFresh, Stands};
ghost use Rattle.session_lines.specs.Views.{AreFor, AreUnread};
ghost use Rattle.session.specs.Counters.{shifts_of, denials_of, IsCounterOf, HasPlayedNothing};
ghost use Rattle.spectra_talks.specs.Endings.{line_of, unrealizable};
ghost use Rattle.spectra_talks.specs.Streams.{moments, WantsMemory};
ghost use Rattle.spectra_talks.specs.Sessions.{Counters};

use crate::closing::close_counter;
use crate::holding::MOST_POSITIONS;
use crate::saying::unrealizable_line;
use crate::status::Status;
use counterstrategy::Counterstrategy;
use regions::Regions;
use session::{Lines, counter_lines};
use sp_outside::{OutOfMemory, Sink, Source, write_line};
use spec_model::spec::Spec;
use std::alloc::Global;

/// What a session writes first, and the room for all that it reads and writes.
#[derive(Drop)]
struct Room {
    verdict: String,
    lines: Lines,
}

// The room for a session, so that no later call wants memory.
fn room_for(alloc: Global, spec: &Spec, n: u64, m: u64) -> Result<Room, OutOfMemory>
    ensures verdict { IfOk result (λ r. string_bytes r.verdict ≡ line_of (unrealizable n m)) }
    ensures for_spec { IfOk result (λ r. AreFor r.lines (spec_data spec.now)) }
    ensures unread { IfOk result (λ r. AreUnread r.lines) }
{
    Ok(Room {
        verdict: unrealizable_line(alloc, n, m)?,
        lines: Lines::make(alloc, spec)?,
    })
}

// Writes the verdict line, talks, and writes the last line.
fn exchange<G: Regions, I: Source, O: Sink>(
    verdict: &str,
    lines: &mut Lines,
    play: &mut Counterstrategy<G>,
    input: &mut I,
    output: &mut O,
) -> Status
    requires verdict { verdict.now ≡ line_of (unrealizable (shifts_of play.old) (denials_of G.kept play.old)) }
    requires unread { AreUnread lines.old }
    requires fresh { IsFresh play.old × HasPlayedNothing G.kept play.old }
    requires stands { Stands G.kept play.old }
    requires one_specification { (s : Specification) × AreFor lines.old s × IsCounterOf G.kept play.old s }
    ensures holds { let at = moments I.left O.written I.reads I.faults O.faults in
        (s : Specification) → AreFor lines.old s → IsCounterOf G.kept play.old s → Counters s (shifts_of play.old) (denials_of G.kept play.old) (at input.old output.old) (at input.new output.new) result }
    ensures stands { Stands G.kept play.new }
{
    match write_line(output, verdict.as_bytes()) {
        Ok(()) => {
            let end = counter_lines(lines, play, input, output, MOST_POSITIONS);
            close_counter(lines, end, output)
        }
        Err(_) => Status::OutputFault,
    }
}

// Holds a session for which all the room is taken.
fn held<G: Regions + Drop, I: Source, O: Sink>(
    room: Room,
    play: Counterstrategy<G>,
    input: &mut I,
    output: &mut O,
) -> Status
    requires verdict { string_bytes room.verdict ≡ line_of (unrealizable (shifts_of play) (denials_of G.kept play)) }
    requires unread { AreUnread room.lines }
    requires fresh { IsFresh play × HasPlayedNothing G.kept play }
    requires stands { Stands G.kept play }
    requires one_specification { (s : Specification) × AreFor room.lines s × IsCounterOf G.kept play s }
    ensures { let at = moments I.left O.written I.reads I.faults O.faults in
        (s : Specification) → AreFor room.lines s → IsCounterOf G.kept play s → Counters s (shifts_of play) (denials_of G.kept play) (at input.old output.old) (at input.new output.new) result }
{
    let Room { verdict, mut lines } = room;
    let mut play = play;
    let status = exchange(&verdict, &mut lines, &mut play, input, output);
    let _g = play.close();
    status
}

/// Holds the session of a specification by the environment's strategy, which has given no input, and says how it ended. All
/// the room is taken before the verdict line is written.
pub fn counter<G: Regions + Drop, I: Source, O: Sink>(
    alloc: Global,
    spec: &Spec,
    n: u64,
    m: u64,
    play: Counterstrategy<G>,
    input: &mut I,
    output: &mut O,
) -> Status
    requires fresh { IsFresh play × HasPlayedNothing G.kept play }
    requires stands { Stands G.kept play }
    requires plays { IsCounterOf G.kept play (spec_data spec.now) }
    requires shifts { n ≡ shifts_of play }
    requires denials { m ≡ denials_of G.kept play }
    ensures holds { let at = moments I.left O.written I.reads I.faults O.faults in
        Counters (spec_data spec.now) n m (at input.old output.old) (at input.new output.new) result ⊎ WantsMemory (at input.old output.old) (at input.new output.new) result }
{
    match room_for(alloc, spec, n, m) {
        Ok(room) => held(room, play, input, output),
        Err(_) => {
            let _g = play.close();
            Status::Memory
        }
    }
}
