//! Many sessions on one input.

ghost use Rattle.std.specs.Prelude.{◌≡◌, ◌≤◌};
ghost use Rattle.sp_outside.specs.Causes.{Rose};
ghost use Rattle.spec_model.specs.Syntax.{Specification};
ghost use Rattle.strategy_parts.specs.Counts.{HasFewGoals};
ghost use Rattle.controller.specs.Objects.{IsFresh, game_of, Stands, InEachPlay};
ghost use Rattle.session_lines.specs.HowOften.{ReadsForLines};
ghost use Rattle.session_lines.specs.Views.{AreFor, AreUnread};
ghost use Rattle.session.specs.Strategies.{rounds_of, IsOf};
ghost use Rattle.many_sessions.specs.Seats.{IsNewFor};
ghost use Rattle.many_sessions.specs.Talks.{ManyTalk};

use crate::many::Many;
use controller::Controller;
use regions::Regions;
use session::{End, talk};
use session_lines::Lines;
use sp_outside::{Sink, Source};

/// How a talk of many sessions ended.
#[derive(Clone, Copy, PartialEq, Eq)]
pub enum ManyEnd {
    /// The input gave its end, and each line was answered.
    Finished,
    /// The line of this number, from 1, has no session's number, or is too long.
    BadLine(u64),
    /// As many lines were answered as may be.
    LineLimit,
    /// The input failed.
    ReadFault,
    /// The output failed.
    WriteFault,
}

impl ManyEnd {
    ghost use Rattle.many_sessions.specs.Ends.{end_of, IsUnbroken};

    // Likewise of a talk in which no line of the specification is broken.
    fn of(end: End) -> ManyEnd
        requires { IsUnbroken end }
        ensures { end_of result ≡ end }
    {
        match end {
            End::Finished => ManyEnd::Finished,
            End::BadLine(n) => ManyEnd::BadLine(n),
            End::ReadFault => ManyEnd::ReadFault,
            End::WriteFault => ManyEnd::WriteFault,
            _ => ManyEnd::LineLimit,
        }
    }
}

/// Answers the lines of the input for the sessions that they are of, at most `limit` of them, and says how that ended. It takes no
/// memory.
///
/// Each line is answered before the input is read again, by the session's number, a space, and the output that the system's
/// strategy chooses; `refused` where no input reads; or `assumption broken #` and a line's number. The last two end the
/// session, whose later lines are answered `ended`. No session is told anything else than it is told alone. Each read of the input
/// takes at least one byte, but for one that finds the end or fails, and no more is taken than `limit` lines and one line's room.
pub fn many_lines<G: Regions, I: Source, O: Sink>(
    many: &mut Many,
    lines: &mut Lines,
    play: &mut Controller<G>,
    input: &mut I,
    output: &mut O,
    limit: u64,
) -> ManyEnd
    requires unread { AreUnread lines.old }
    requires fresh { IsFresh play.old }
    requires stands { Stands G.kept play.old }
    requires few { HasFewGoals (game_of G.kept play.old) }
    requires made { IsNewFor (game_of G.kept play.old) many.old }
    requires one_specification { (s : Specification) × AreFor lines.old s × IsOf G.kept play.old s }
    ensures talk { (s : Specification) → AreFor lines.old s → IsOf G.kept play.old s →
        InEachPlay G.kept play.old (λ z l h b m. ManyTalk s (game_of G.kept play.old) l (rounds_of play.old) limit (I.left input.old) (I.left input.new) (O.written output.old) (O.written output.new)
        (Rose (I.faults input.old) (I.faults input.new)) (Rose (O.faults output.old) (O.faults output.new)) result) }
    ensures reads { ReadsForLines limit (I.left input.old) (I.left input.new) (I.reads input.old) (I.reads input.new) }
    ensures stands { Stands G.kept play.new }
    ensures later_in { I.faults input.old ≤ I.faults input.new }
    ensures later_out { O.faults output.old ≤ O.faults output.new }
{
    ManyEnd::of(talk(lines, many, play, input, output, limit))
}
