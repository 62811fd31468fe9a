//! Many sessions on one input: the verdict line, the talk, and the last line.

ghost use Rattle.std.specs.Prelude.{◌≡◌, ◌⊎◌, IfOk, string_bytes};
ghost use Rattle.spec_model.specs.Syntax.{Specification};
ghost use Rattle.spec_model.specs.Views.{spec_data};
ghost use Rattle.spec_model.specs.WellTyped.{WellTyped};
ghost use Rattle.strategy_parts.specs.Counts.{HasFewGoals};
ghost use Rattle.hidden_game.specs.GameOf.{game_of as game_meant};
ghost use Rattle.controller.specs.Objects.{IsFresh, Stands, game_of};
ghost use Rattle.session_lines.specs.Views.{AreFor, AreUnread};
ghost use Rattle.session.specs.Strategies.{rounds_of, IsOf};
ghost use Rattle.many_sessions.specs.Ends.{end_of};
ghost use Rattle.many_sessions.specs.Seats.{IsNewFor};
ghost use Rattle.spectra_talks.specs.Endings.{line_of, realizable};
ghost use Rattle.spectra_talks.specs.Streams.{moments, WantsMemory};
ghost use Rattle.spectra_talks.specs.Hosting.{Hosts};

use crate::closing::close;
use crate::holding::MOST_POSITIONS;
use crate::saying::realizable_line;
use crate::status::Status;
use controller::Controller;
use many_sessions::{Many, ManyEnd, many_lines};
use regions::Regions;
use session::{End, Lines};
use sp_outside::{OutOfMemory, Sink, Source, write_line};
use spec_model::spec::Spec;
use std::alloc::Global;

/// What is written first, and the room for all sessions and for all that is read and written.
#[derive(Drop)]
struct Room {
    verdict: String,
    lines: Lines,
    many: Many,
}

// The room for many sessions, so that no later call wants memory.
fn room_for(alloc: Global, spec: &Spec, k: u64) -> Result<Room, OutOfMemory>
    requires { WellTyped (spec_data spec.now) }
    ensures verdict { IfOk result (λ r. string_bytes r.verdict ≡ line_of (realizable k)) }
    ensures for_spec { IfOk result (λ r. AreFor r.lines (spec_data spec.now)) }
    ensures unread { IfOk result (λ r. AreUnread r.lines) }
    ensures made { IfOk result (λ r. IsNewFor (game_meant (spec_data spec.now)) r.many) }
{
    Ok(Room {
        verdict: realizable_line(alloc, k)?,
        lines: Lines::make(alloc, spec)?,
        many: Many::make(alloc, spec)?,
    })
}

// Likewise as the end of one session.
fn end_told(end: ManyEnd) -> End
    ensures { result ≡ end_of end }
{
    match end {
        ManyEnd::Finished => End::Finished,
        ManyEnd::BadLine(n) => End::BadLine(n),
        ManyEnd::LineLimit => End::StateLimit,
        ManyEnd::ReadFault => End::ReadFault,
        ManyEnd::WriteFault => End::WriteFault,
    }
}

// Writes the verdict line, talks, and writes the last line.
fn exchange<G: Regions, I: Source, O: Sink>(
    room: &mut Room,
    play: &mut Controller<G>,
    input: &mut I,
    output: &mut O,
) -> Status
    requires verdict { string_bytes room.old.verdict ≡ line_of (realizable (rounds_of play.old)) }
    requires unread { AreUnread room.old.lines }
    requires made { IsNewFor (game_of G.kept play.old) room.old.many }
    requires few { HasFewGoals (game_of G.kept play.old) }
    requires plays { IsFresh play.old × Stands G.kept play.old }
    requires one_specification { (s : Specification) × AreFor room.old.lines s × IsOf G.kept play.old s }
    ensures holds { let at = moments I.left O.written I.reads I.faults O.faults in
        (s : Specification) → AreFor room.old.lines s → IsOf G.kept play.old s → Hosts s (game_of G.kept play.old) (rounds_of play.old) (at input.old output.old) (at input.new output.new) result }
    ensures stands { Stands G.kept play.new }
{
    match write_line(output, room.verdict.as_bytes()) {
        Ok(()) => {
            let lines = &mut room.lines;
            let end = many_lines(&mut room.many, lines, play, input, output, MOST_POSITIONS);
            close(lines, end_told(end), output)
        }
        Err(_) => Status::OutputFault,
    }
}

// Serves the sessions for which all the room is taken.
fn hosted<G: Regions + Drop, I: Source, O: Sink>(
    room: Room,
    play: Controller<G>,
    input: &mut I,
    output: &mut O,
) -> Status
    requires verdict { string_bytes room.verdict ≡ line_of (realizable (rounds_of play)) }
    requires unread { AreUnread room.lines }
    requires made { IsNewFor (game_of G.kept play) room.many }
    requires few { HasFewGoals (game_of G.kept play) }
    requires plays { IsFresh play × Stands G.kept play }
    requires one_specification { (s : Specification) × AreFor room.lines s × IsOf G.kept play s }
    ensures { let at = moments I.left O.written I.reads I.faults O.faults in
        (s : Specification) → AreFor room.lines s → IsOf G.kept play s → Hosts s (game_of G.kept play) (rounds_of play) (at input.old output.old) (at input.new output.new) result }
{
    let mut room = room;
    let mut play = play;
    let status = exchange(&mut room, &mut play, input, output);
    let _g = play.close();
    status
}

/// Serves many sessions of a specification by the system's strategy, which has made no move, and says how that ended. All the
/// room is taken before the verdict line is written.
pub fn host<G: Regions + Drop, I: Source, O: Sink>(
    alloc: Global,
    spec: &Spec,
    k: u64,
    play: Controller<G>,
    input: &mut I,
    output: &mut O,
) -> Status
    requires typed { WellTyped (spec_data spec.now) }
    requires plays { IsFresh play × Stands G.kept play }
    requires agrees { IsOf G.kept play (spec_data spec.now) }
    requires game { game_of G.kept play ≡ game_meant (spec_data spec.now) }
    requires rounds { k ≡ rounds_of play }
    ensures holds { let at = moments I.left O.written I.reads I.faults O.faults in
        Hosts (spec_data spec.now) (game_meant (spec_data spec.now)) k (at input.old output.old) (at input.new output.new) result ⊎ WantsMemory (at input.old output.old) (at input.new output.new) result }
{
    match room_for(alloc, spec, k) {
        Ok(room) => hosted(room, play, input, output),
        Err(_) => {
            let _g = play.close();
            Status::Memory
        }
    }
}
