//! An audit: a log is read, and the first line that a position of it breaks is told.

ghost use Rattle.std.specs.Prelude.{◌≡◌, ◌⊎◌, [], IfOk};
ghost use Rattle.spec_model.specs.Syntax.{Specification};
ghost use Rattle.spec_model.specs.Views.{spec_data};
ghost use Rattle.spec_model.specs.GameViews.{game_data};
ghost use Rattle.spec_model.specs.WellMade.{WellMade};
ghost use Rattle.spec_model.specs.WellTyped.{WellTyped};
ghost use Rattle.spec_model.specs.Agreement.{Agrees};
ghost use Rattle.session_lines.specs.Views.{AreForLogs, AreUnread};
ghost use Rattle.session.specs.Audits.{IsAuditOf};
ghost use Rattle.spectra_talks.specs.Streams.{moments, WantsMemory};
ghost use Rattle.spectra_talks.specs.Sessions.{Audits};

use crate::closing::close_audit;
use crate::holding::MOST_POSITIONS;
use crate::status::Status;
use hidden_game::expand;
use session::{Lines, audit_lines};
use sp_outside::{OutOfMemory, Sink, Source};
use spec_model::game::Game;
use spec_model::spec::Spec;
use std::alloc::Global;
use trace_planes::Audit;

/// An audit into which nothing was pushed, and the room for all that it reads and writes.
#[derive(Drop)]
struct Room {
    audit: Audit,
    lines: Lines,
}

// The room for an audit, so that no later call wants memory.
fn room_for(alloc: Global, spec: &Spec, game: Game) -> Result<Room, OutOfMemory>
    requires made { WellMade (game_data game) }
    requires agrees { Agrees (spec_data spec.now) (game_data game) }
    ensures audit { IfOk result (λ r. IsAuditOf r.audit (spec_data spec.now) []) }
    ensures for_spec { IfOk result (λ r. AreForLogs r.lines (spec_data spec.now)) }
    ensures unread { IfOk result (λ r. AreUnread r.lines) }
{
    Ok(Room {
        audit: Audit::make(alloc, game)?,
        lines: Lines::make_for_logs(alloc, spec)?,
    })
}

// Reads a log for which all the room is taken, and says how its audit ended.
fn read_log<I: Source, O: Sink>(room: Room, input: &mut I, output: &mut O) -> Status
    requires unread { AreUnread room.lines }
    requires one_specification { (s : Specification) × AreForLogs room.lines s × IsAuditOf room.audit s [] }
    ensures { let at = moments I.left O.written I.reads I.faults O.faults in
        (s : Specification) → AreForLogs room.lines s → IsAuditOf room.audit s [] → Audits s (at input.old output.old) (at input.new output.new) result }
{
    let Room {
        mut audit,
        mut lines,
    } = room;
    let end = audit_lines(&mut lines, &mut audit, input, MOST_POSITIONS);
    close_audit(&mut lines, end, output)
}

/// Audits a log of a well-typed specification, whoever wins it, and says how that ended. All the
/// room is taken before the input is read.
pub fn audit<I: Source, O: Sink>(
    alloc: Global,
    spec: &Spec,
    input: &mut I,
    output: &mut O,
) -> Status
    requires typed { WellTyped (spec_data spec.now) }
    ensures { let at = moments I.left O.written I.reads I.faults O.faults in
        Audits (spec_data spec.now) (at input.old output.old) (at input.new output.new) result ⊎ WantsMemory (at input.old output.old) (at input.new output.new) result }
{
    let Ok(game) = expand(alloc, spec) else {
        return Status::Memory;
    };
    match room_for(alloc, spec, game) {
        Ok(room) => read_log(room, input, output),
        Err(_) => Status::Memory,
    }
}
