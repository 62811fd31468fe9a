//! Many sessions as what answers the lines of a talk.

ghost use Rattle.std.specs.Prelude.{◌≤◌, length, drop};
ghost use Rattle.std.specs.Bool.{OnTrue, OnFalse};
ghost use Rattle.std.specs.Io.KnownBytes.{Appends};
ghost use Rattle.sp_outside.specs.Causes.{Rose};
ghost use Rattle.sp_outside.specs.Written.{AppendsFront};
ghost use Rattle.spec_model.specs.Syntax.{Specification};
ghost use Rattle.session_lines.specs.Views.{AreFor, KeepsTables, KeepsReader, line_of};
ghost use Rattle.session.specs.Exchanges.{Answer};
ghost use Rattle.many_sessions.specs.Numbered.{IsSession};
ghost use Rattle.many_sessions.specs.Terms.{ManyState, many_terms};
ghost use Rattle.many_sessions.specs.Seats.{Serves};

use crate::many::Many;
use crate::numbered::session_of;
use crate::telling::tell;
use crate::turning::take_turn;
use controller::Controller;
use regions::Regions;
use session::{Protocol, Reply};
use session_lines::Lines;
use sp_outside::{Failed, Sink};

// Answers the line at hand, which begins with a session's number of so many bytes, and says whether that was written.
fn serve<G: Regions, O: Sink>(
    many: &mut Many,
    play: &mut Controller<G>,
    lines: &mut Lines,
    number: usize,
    from: usize,
    output: &mut O,
) -> bool
    requires session { IsSession number }
    requires within { from ≤ length (line_of lines.old) }
    requires serves { (s : Specification) × (st : ManyState) × AreFor lines.old s × Serves G.kept many.old play.old s st }
    ensures answers { (s : Specification) (st : ManyState) → AreFor lines.old s → Serves G.kept many.old play.old s st →
        (a : Answer (many_terms s) (Serves G.kept many.new play.new s) st (record { session = number; text = drop from (line_of lines.old) }))
        × OnTrue result (Appends (O.written output.old) (O.written output.new) a.text) × OnFalse result (AppendsFront (O.written output.old) (O.written output.new) a.text) }
    ensures cause { OnFalse result (Rose (O.faults output.old) (O.faults output.new)) }
    ensures later { O.faults output.old ≤ O.faults output.new }
    ensures keeps { KeepsTables lines.old lines.new }
    ensures reader { KeepsReader lines.old lines.new }
{
    let outcome = take_turn(many, play, lines, number, from);
    tell(lines, number as u64, outcome, &many.output, output)
}

impl<G: Regions> Protocol<Controller<G>> for Many {
    ghost use Rattle.many_sessions.specs.Numbered.{Message};
    ghost use Rattle.many_sessions.specs.Terms.{ManyState, many_terms};
    ghost use Rattle.many_sessions.specs.Seats.{Serves};

    ghost State = { ManyState };

    ghost Read = { Message };

    ghost terms = { many_terms };

    ghost begins = { Serves G.kept };

    ghost stands = { Serves G.kept };

    // The sessions' lines come first.
    fn open<O: Sink>(
        &mut self,
        play: &mut Controller<G>,
        lines: &mut Lines,
        output: &mut O,
    ) -> Result<(), Failed> {
        let _ = play;
        let _ = lines;
        let _ = output;
        Ok(())
    }

    fn answer<O: Sink>(
        &mut self,
        play: &mut Controller<G>,
        lines: &mut Lines,
        output: &mut O,
    ) -> Reply {
        let Some((number, from)) = session_of(lines.bytes()) else {
            return Reply::Refused;
        };
        if serve(self, play, lines, number, from, output) {
            Reply::Answered
        } else {
            Reply::Failed
        }
    }
}
