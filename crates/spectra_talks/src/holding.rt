//! A session: the verdict line, the talk, and the last line.

ghost use Rattle.std.specs.Prelude.{◌≡◌, ◌⊎◌, IfOk, string_bytes};
ghost use Rattle.spec_model.specs.Syntax.{Specification};
ghost use Rattle.spec_model.specs.Views.{spec_data};
ghost use Rattle.controller.specs.Objects.{IsFresh, Stands};
ghost use Rattle.session_lines.specs.Views.{AreFor, AreUnread};
ghost use Rattle.session.specs.Strategies.{rounds_of, IsOf};
ghost use Rattle.spectra_talks.specs.Endings.{line_of, realizable};
ghost use Rattle.spectra_talks.specs.Streams.{moments, WantsMemory};
ghost use Rattle.spectra_talks.specs.Sessions.{Holds};

use crate::closing::close;
use crate::saying::realizable_line;
use crate::status::Status;
use controller::Controller;
use regions::Regions;
use session::{Lines, run_lines};
use sp_outside::{OutOfMemory, Sink, Source, write_line};
use spec_model::spec::Spec;
use std::alloc::Global;

/// How many positions a session may have.
pub const MOST_POSITIONS: u64 = 1_000_000_000;

/// What a session writes first, and the room for all that it reads and writes.
#[derive(Drop)]
struct Room {
    verdict: String,
    lines: Lines,
}

// The room for a session, so that no later call wants memory.
fn room_for(alloc: Global, spec: &Spec, k: u64) -> Result<Room, OutOfMemory>
    ensures verdict { IfOk result (λ r. string_bytes r.verdict ≡ line_of (realizable k)) }
    ensures for_spec { IfOk result (λ r. AreFor r.lines (spec_data spec.now)) }
    ensures unread { IfOk result (λ r. AreUnread r.lines) }
{
    Ok(Room {
        verdict: realizable_line(alloc, k)?,
        lines: Lines::make(alloc, spec)?,
    })
}

// Writes the verdict line, talks, and writes the last line.
fn exchange<G: Regions, I: Source, O: Sink>(
    verdict: &str,
    lines: &mut Lines,
    play: &mut Controller<G>,
    input: &mut I,
    output: &mut O,
) -> Status
    requires verdict { verdict.now ≡ line_of (realizable (rounds_of play.old)) }
    requires unread { AreUnread lines.old }
    requires fresh { IsFresh play.old }
    requires stands { Stands G.kept play.old }
    requires one_specification { (s : Specification) × AreFor lines.old s × IsOf G.kept play.old s }
    ensures holds { let at = moments I.left O.written I.reads I.faults O.faults in
        (s : Specification) → AreFor lines.old s → IsOf G.kept play.old s → Holds s (rounds_of play.old) (at input.old output.old) (at input.new output.new) result }
    ensures stands { Stands G.kept play.new }
{
    match write_line(output, verdict.as_bytes()) {
        Ok(()) => {
            let end = run_lines(lines, play, input, output, MOST_POSITIONS);
            close(lines, end, output)
        }
        Err(_) => Status::OutputFault,
    }
}

// Holds a session for which all the room is taken.
fn held<G: Regions + Drop, I: Source, O: Sink>(
    room: Room,
    play: Controller<G>,
    input: &mut I,
    output: &mut O,
) -> Status
    requires verdict { string_bytes room.verdict ≡ line_of (realizable (rounds_of play)) }
    requires unread { AreUnread room.lines }
    requires fresh { IsFresh play }
    requires stands { Stands G.kept play }
    requires one_specification { (s : Specification) × AreFor room.lines s × IsOf G.kept play s }
    ensures { let at = moments I.left O.written I.reads I.faults O.faults in
        (s : Specification) → AreFor room.lines s → IsOf G.kept play s → Holds s (rounds_of play) (at input.old output.old) (at input.new output.new) result }
{
    let Room { verdict, mut lines } = room;
    let mut play = play;
    let status = exchange(&verdict, &mut lines, &mut play, input, output);
    let _g = play.close();
    status
}

/// Holds the session of a specification by the system's strategy, which has made no move, and says how it ended. All the room
/// is taken before the verdict line is written.
pub fn hold<G: Regions + Drop, I: Source, O: Sink>(
    alloc: Global,
    spec: &Spec,
    k: u64,
    play: Controller<G>,
    input: &mut I,
    output: &mut O,
) -> Status
    requires fresh { IsFresh play }
    requires stands { Stands G.kept play }
    requires plays { IsOf G.kept play (spec_data spec.now) }
    requires rounds { k ≡ rounds_of play }
    ensures holds { let at = moments I.left O.written I.reads I.faults O.faults in
        Holds (spec_data spec.now) k (at input.old output.old) (at input.new output.new) result ⊎ WantsMemory (at input.old output.old) (at input.new output.new) result }
{
    match room_for(alloc, spec, k) {
        Ok(room) => held(room, play, input, output),
        Err(_) => {
            let _g = play.close();
            Status::Memory
        }
    }
}
