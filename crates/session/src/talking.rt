//! Talks: each line of the input is answered, until the talk ends.

ghost use Rattle.std.specs.Prelude.{◌≡◌, ◌+◌, ◌<◌, ◌≤◌, List, ℕ, Option};
ghost use Rattle.sp_outside.specs.Causes.{Rose};
ghost use Rattle.spec_model.specs.Syntax.{Specification};
ghost use Rattle.session_lines.specs.HowOften.{ReadsLines, ReadsForLines, ReadsOneMore};
ghost use Rattle.session_lines.specs.Views.{AreUnread, KeepsTables, KeepsReader, pending_of, line_of, ended_of};
ghost use Rattle.session.specs.Exchanges.{SoFar, IsMet, GoesOn, HasEnded};
ghost use Rattle.session.specs.Protocols.{Suits, Serves};

use crate::protocol::{Protocol, Reply};
use session_lines::{Lines, Taken};
use sp_outside::{Sink, Source};
use spec_model::game::Label;

/// How a talk ended.
#[derive(Clone, Copy, PartialEq, Eq)]
pub enum End {
    /// The input gave its end, and each line was answered.
    Finished,
    /// A move that was read broke a line of the specification, the first of them in text order.
    Broken(Label),
    /// The line of this number, from 1, was refused.
    BadLine(u64),
    /// As many lines were answered as may be.
    StateLimit,
    /// The input failed.
    ReadFault,
    /// The output failed.
    WriteFault,
}

// Answers the line at hand, which follows `count` others, or says how the talk ends.
fn meet<W, P: Protocol<W>, O: Sink>(
    lines: &mut Lines,
    play: &mut P,
    beside: &mut W,
    output: &mut O,
    count: u64,
) -> Option<End>
    requires serves { Serves P.terms (P.stands play.old beside.old) lines.old }
    requires few { count + 1 < 18446744073709551616 }
    ensures met { (s : Specification) (st : P.State) → Suits lines.old (P.terms s) → P.stands play.old beside.old s st →
        IsMet (P.terms s) (P.stands play.new beside.new s) st (O.written output.old) (O.written output.new) (Rose (O.faults output.old) (O.faults output.new)) count (line_of lines.old) result }
    ensures keeps { KeepsTables lines.old lines.new }
    ensures reader { KeepsReader lines.old lines.new }
    ensures later { O.faults output.old ≤ O.faults output.new }
{
    match play.answer(beside, lines, output) {
        Reply::Answered => None,
        Reply::Refused => Some(End::BadLine(count + 1)),
        Reply::Broken(label) => Some(End::Broken(label)),
        Reply::Failed => Some(End::WriteFault),
    }
}

// Takes the next line and answers it: none where the talk goes on, with one line more answered.
fn turn<W, P: Protocol<W>, I: Source, O: Sink>(
    lines: &mut Lines,
    play: &mut P,
    beside: &mut W,
    input: &mut I,
    output: &mut O,
    count: u64,
) -> Option<End>
    requires serves { Serves P.terms (P.stands play.old beside.old) lines.old }
    requires few { count + 1 < 18446744073709551616 }
    ensures goes_on { (s : Specification) (first : P.State) (limit : ℕ) (left written : Option (List ℕ)) → count < limit → Suits lines.old (P.terms s) →
        SoFar (P.terms s) (P.stands play.old beside.old s) first (ended_of lines.old) left (I.left input.old) written (O.written output.old) (pending_of lines.old) count →
        GoesOn (P.terms s) (P.stands play.new beside.new s) first limit (ended_of lines.new) left (I.left input.new) written (O.written output.new)
        (Rose (I.faults input.old) (I.faults input.new)) (Rose (O.faults output.old) (O.faults output.new)) (pending_of lines.new) count result }
    ensures reads { (left : Option (List ℕ)) (reads : ℕ) → ReadsLines count (ended_of lines.old) (pending_of lines.old) left (I.left input.old) reads (I.reads input.old) →
        ReadsOneMore count (ended_of lines.new) (pending_of lines.new) left (I.left input.new) reads (I.reads input.new) result }
    ensures keeps { KeepsTables lines.old lines.new }
    ensures later_in { I.faults input.old ≤ I.faults input.new }
    ensures later_out { O.faults output.old ≤ O.faults output.new }
{
    match lines.next_line(input) {
        Taken::Line => meet(lines, play, beside, output, count),
        Taken::TooLong => Some(End::BadLine(count + 1)),
        Taken::Finish => Some(End::Finished),
        Taken::Failed => Some(End::ReadFault),
    }
}

// Answers the lines of the input once the opening is written.
fn exchange<W, P: Protocol<W>, I: Source, O: Sink>(
    lines: &mut Lines,
    play: &mut P,
    beside: &mut W,
    input: &mut I,
    output: &mut O,
    limit: u64,
) -> End
    requires begun { (s : Specification) × (first : P.State) × (left : Option (List ℕ)) × (written : Option (List ℕ)) × Suits lines.old (P.terms s) ×
        SoFar (P.terms s) (P.stands play.old beside.old s) first (ended_of lines.old) left (I.left input.old) written (O.written output.old) (pending_of lines.old) 0 }
    ensures ended { (s : Specification) (first : P.State) (left written : Option (List ℕ)) → Suits lines.old (P.terms s) →
        SoFar (P.terms s) (P.stands play.old beside.old s) first (ended_of lines.old) left (I.left input.old) written (O.written output.old) (pending_of lines.old) 0 →
        HasEnded (P.terms s) (P.stands play.new beside.new s) first limit left (I.left input.new) written (O.written output.new)
        (Rose (I.faults input.old) (I.faults input.new)) (Rose (O.faults output.old) (O.faults output.new)) result }
    ensures reads { ReadsForLines limit (I.left input.old) (I.left input.new) (I.reads input.old) (I.reads input.new) }
    ensures later_in { I.faults input.old ≤ I.faults input.new }
    ensures later_out { O.faults output.old ≤ O.faults output.new }
{
    for count in 0..limit {
        if let Some(end) = turn(lines, play, beside, input, output, count) {
            return end;
        }
    }
    End::StateLimit
}

/// Answers the lines of the input, at most `limit` of them, and says how the talk ended. It takes no memory.
///
/// Each line is answered before the input is read again. Each read takes at least one byte, but for one that finds the end or
/// fails, and no more is taken than `limit` lines and one line's room. The order for one line: the input's fault, the line
/// refused, the line broken.
pub fn talk<W, P: Protocol<W>, I: Source, O: Sink>(
    lines: &mut Lines,
    play: &mut P,
    beside: &mut W,
    input: &mut I,
    output: &mut O,
    limit: u64,
) -> End
    requires unread { AreUnread lines.old }
    requires serves { Serves P.terms (P.begins play.old beside.old) lines.old }
    ensures talk { (s : Specification) (first : P.State) → Suits lines.old (P.terms s) → P.begins play.old beside.old s first →
        HasEnded (P.terms s) (P.stands play.new beside.new s) first limit (I.left input.old) (I.left input.new) (O.written output.old) (O.written output.new)
        (Rose (I.faults input.old) (I.faults input.new)) (Rose (O.faults output.old) (O.faults output.new)) result }
    ensures reads { ReadsForLines limit (I.left input.old) (I.left input.new) (I.reads input.old) (I.reads input.new) }
    ensures later_in { I.faults input.old ≤ I.faults input.new }
    ensures later_out { O.faults output.old ≤ O.faults output.new }
{
    match play.open(beside, lines, output) {
        Ok(()) => exchange(lines, play, beside, input, output, limit),
        Err(_) => End::WriteFault,
    }
}
