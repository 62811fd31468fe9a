//! Audits: the positions of a log are read line by line, and the first line that they break is found.

ghost use Rattle.std.specs.Prelude.{◌≡◌, ◌≤◌, ◌<◌, ◌+◌, [], List, ℕ, Option, true};
ghost use Rattle.sp_outside.specs.Causes.{Rose};
ghost use Rattle.spec_model.specs.Syntax.{Specification};
ghost use Rattle.spec_model.specs.Values.{is_assignment};
ghost use Rattle.spec_model.specs.Rules.{Run};
ghost use Rattle.trace_planes.specs.Audits.{room_of};
ghost use Rattle.session_lines.specs.Room.{domains};
ghost use Rattle.session_lines.specs.HowOften.{ReadsLines, ReadsForLines, ReadsOneMore};
ghost use Rattle.session_lines.specs.Views.{AreForLogs, AreUnread, KeepsTables, KeepsReader, pending_of, line_of, ended_of, read_of, wanted_variables};
ghost use Rattle.session.specs.AuditTalks.{AuditTalk};
ghost use Rattle.session.specs.Audits.{IsAuditOf, Serves, IsTold, IsPushedAs, IsTaken, HasRead, ReadsOn};

use session_lines::{Lines, Taken};
use sp_outside::Source;
use trace_planes::{Audit, Finding};

/// How an audit ended.
#[derive(Clone, Copy, PartialEq, Eq)]
pub enum AuditEnd {
    /// The input gave its end, and none of so many positions breaks a line.
    Whole(u64),
    /// A position breaks a line.
    Broken(Finding),
    /// The line of this number, from 1, was refused, and no position before breaks a line.
    BadLine(u64),
    /// As many positions were read as may be, and none breaks a line.
    StateLimit,
    /// The input failed, and no position before breaks a line.
    ReadFault,
}

// Whichever end is due, a broken line among the positions so far comes first.
fn told(audit: &mut Audit, due: AuditEnd) -> AuditEnd
    requires { (s : Specification) × (log : Run) × IsAuditOf audit.old s log }
    ensures { (s : Specification) (log : Run) → IsAuditOf audit.old s log → IsTold s log due result }
{
    match audit.check() {
        Some(finding) => AuditEnd::Broken(finding),
        None => due,
    }
}

// Pushes the position that was read, which follows `count` others, and checks all of them once there is no more room.
fn push(lines: &Lines, audit: &mut Audit, count: u64) -> Option<Finding>
    requires serves { Serves lines.now audit.old count }
    requires read { is_assignment (domains (wanted_variables lines.now)) (read_of lines.now) ≡ true }
    requires few { count + 1 < 18446744073709551616 }
    requires room { 0 < room_of audit.old }
    ensures { (s : Specification) (log : Run) → AreForLogs lines.now s → IsAuditOf audit.old s log → IsPushedAs s audit.new log (read_of lines.now) result }
{
    audit.push(&lines.wanted.values);
    if audit.room() == 0 {
        return audit.check();
    }
    None
}

// Reads the line at hand, which follows `count` others, and pushes its position.
fn take(lines: &mut Lines, audit: &mut Audit, count: u64) -> Option<AuditEnd>
    requires serves { Serves lines.old audit.old count }
    requires few { count + 1 < 18446744073709551616 }
    requires room { 0 < room_of audit.old }
    ensures taken { (s : Specification) (log : Run) → AreForLogs lines.old s → IsAuditOf audit.old s log → IsTaken s audit.new log (line_of lines.old) count result }
    ensures keeps { KeepsTables lines.old lines.new }
    ensures reader { KeepsReader lines.old lines.new }
{
    if !lines.read() {
        return Some(told(audit, AuditEnd::BadLine(count + 1)));
    }
    match push(lines, audit, count) {
        Some(finding) => Some(AuditEnd::Broken(finding)),
        None => None,
    }
}

// Takes the next line, which follows `count` others, and reads it: none where the audit goes on.
fn turn<I: Source>(
    lines: &mut Lines,
    audit: &mut Audit,
    input: &mut I,
    count: u64,
) -> Option<AuditEnd>
    requires serves { Serves lines.old audit.old count }
    requires room { 0 < room_of audit.old }
    requires few { count + 1 < 18446744073709551616 }
    ensures reads_on { (s : Specification) (limit : ℕ) (left : Option (List ℕ)) → count < limit → AreForLogs lines.old s → HasRead s audit.old (ended_of lines.old) left (I.left input.old) (pending_of lines.old) count →
        ReadsOn s audit.new limit (ended_of lines.new) left (I.left input.new) (pending_of lines.new) count (Rose (I.faults input.old) (I.faults input.new)) result }
    ensures reads { (left : Option (List ℕ)) (reads : ℕ) → ReadsLines count (ended_of lines.old) (pending_of lines.old) left (I.left input.old) reads (I.reads input.old) →
        ReadsOneMore count (ended_of lines.new) (pending_of lines.new) left (I.left input.new) reads (I.reads input.new) result }
    ensures keeps { KeepsTables lines.old lines.new }
    ensures later { I.faults input.old ≤ I.faults input.new }
{
    match lines.next_line(input) {
        Taken::Line => take(lines, audit, count),
        Taken::TooLong => Some(told(audit, AuditEnd::BadLine(count + 1))),
        Taken::Finish => Some(told(audit, AuditEnd::Whole(count))),
        Taken::Failed => Some(told(audit, AuditEnd::ReadFault)),
    }
}

/// Audits the positions of the lines of the input, at most `limit` of them, and says how that ended. It takes no memory.
///
/// A position that breaks a line comes before a line refused, the input's fault and the limit. Each read of the input takes at
/// least one byte, but for one that finds the end or fails, and no more is taken than `limit` lines and one line's room.
pub fn audit_lines<I: Source>(
    lines: &mut Lines,
    audit: &mut Audit,
    input: &mut I,
    limit: u64,
) -> AuditEnd
    requires unread { AreUnread lines.old }
    requires one_specification { (s : Specification) × AreForLogs lines.old s × IsAuditOf audit.old s [] }
    ensures talk { (s : Specification) → AreForLogs lines.old s → IsAuditOf audit.old s [] →
        AuditTalk s limit (I.left input.old) (I.left input.new) (Rose (I.faults input.old) (I.faults input.new)) result }
    ensures reads { ReadsForLines limit (I.left input.old) (I.left input.new) (I.reads input.old) (I.reads input.new) }
    ensures later { I.faults input.old ≤ I.faults input.new }
{
    for count in 0..limit {
        if let Some(end) = turn(lines, audit, input, count) {
            return end;
        }
    }
    told(audit, AuditEnd::StateLimit)
}
