//! What answers the lines of a talk, whoever speaks first.

ghost use Rattle.std.specs.Prelude.{◌≤◌};
ghost use Rattle.sp_outside.specs.Causes.{Rose, HasCause};
ghost use Rattle.spec_model.specs.Syntax.{Specification};
ghost use Rattle.session_lines.specs.Views.{line_of, KeepsTables, KeepsReader};
ghost use Rattle.session.specs.Exchanges.{Terms, HasOpened, Replies};
ghost use Rattle.session.specs.Protocols.{Suits, Serves};

use session_lines::Lines;
use sp_outside::{Failed, Sink};
use spec_model::game::Label;

/// What came of a line.
#[derive(Clone, Copy, PartialEq, Eq)]
pub enum Reply {
    /// It was answered.
    Answered,
    /// Nothing was read of it.
    Refused,
    /// What was read of it breaks a line of the specification, the first of them in text order.
    Broken(Label),
    /// The output failed.
    Failed,
}

/// Nothing is held beside a play.
#[derive(Drop)]
pub struct Alone;

/// One side of a play, or of many, as the other side's lines meet it; `W` is what it holds beside itself. No call takes memory.
pub trait Protocol<W> {
    /// A state of the exchange.
    ghost State: { Type 0 };

    /// What a line is read as.
    ghost Read: { Type 0 };

    /// What is told of the exchanges of a specification.
    ghost terms: { Specification → Terms State Read };

    /// The states that it stands for before the opening is written.
    ghost begins: { Self → W → Specification → State → Type 0 };

    /// The states that it stands for from then on.
    ghost stands: { Self → W → Specification → State → Type 0 };

    /// Writes what stands before the first line is read.
    fn open<O: Sink>(
        &mut self,
        beside: &mut W,
        lines: &mut Lines,
        output: &mut O,
    ) -> Result<(), Failed>
        requires { Serves terms (begins self.old beside.old) lines.old }
        ensures opens { (s : Specification) (st : State) → Suits lines.old (terms s) → begins self.old beside.old s st →
            HasOpened (terms s) (stands self.new beside.new s) st (O.written output.old) (O.written output.new) result }
        ensures cause { HasCause (O.faults output.old) (O.faults output.new) result }
        ensures keeps { KeepsTables lines.old lines.new }
        ensures reader { KeepsReader lines.old lines.new };

    /// Reads the line at hand, and answers it unless that breaks a line of the specification.
    fn answer<O: Sink>(&mut self, beside: &mut W, lines: &mut Lines, output: &mut O) -> Reply
        requires { Serves terms (stands self.old beside.old) lines.old }
        ensures replies { (s : Specification) (st : State) → Suits lines.old (terms s) → stands self.old beside.old s st →
            Replies (terms s) (stands self.new beside.new s) st (O.written output.old) (O.written output.new) (Rose (O.faults output.old) (O.faults output.new)) (line_of lines.old) result }
        ensures later { O.faults output.old ≤ O.faults output.new }
        ensures keeps { KeepsTables lines.old lines.new }
        ensures reader { KeepsReader lines.old lines.new };
}
