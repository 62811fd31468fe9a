//! The last lines of sessions and audits, each with its status. They take no memory.

ghost use Rattle.std.specs.Prelude.{◌≡◌, ◌≤◌, OnOk, OnErr};
ghost use Rattle.sp_outside.specs.Causes.{Rose};
ghost use Rattle.spectra_talks.specs.Sessions.{Closes, ending_after, counter_ending_after, audit_ending_after};

use crate::status::Status;
use session::{AuditEnd, End, Lines};
use sp_outside::{Failed, Sink, write_line};

// The status of a line that was to be written last.
fn told(written: Result<(), Failed>, status: Status) -> Status
    ensures whole { OnOk written (result ≡ status) }
    ensures part { OnErr written (result ≡ Status.OutputFault) }
{
    match written {
        Err(_) => Status::OutputFault,
        Ok(_) => status,
    }
}

/// Writes how a talk ended, where that is a line, and says with which status. It takes no memory.
pub fn close<O: Sink>(lines: &mut Lines, end: End, output: &mut O) -> Status
    ensures closes { Closes (ending_after end) (O.written output.old) (O.written output.new) (Rose (O.faults output.old) (O.faults output.new)) result }
    ensures later { O.faults output.old ≤ O.faults output.new }
{
    match end {
        End::Finished => Status::Done,
        End::Broken(label) => {
            let line = u64::from(label.line);
            let written = lines.write_numbered(b"assumption broken #", line, b"\n", output);
            told(written, Status::Assumption)
        }
        End::BadLine(n) => {
            let written = lines.write_numbered(b"line ", n, b" refused\n", output);
            told(written, Status::BadLine)
        }
        End::StateLimit => told(write_line(output, b"state limit reached\n"), Status::Limit),
        End::ReadFault => told(write_line(output, b"input fault\n"), Status::InputFault),
        End::WriteFault => Status::OutputFault,
    }
}

/// Writes how a talk of the environment's side ended, where that is a line, and says with which status. It takes no memory.
pub fn close_counter<O: Sink>(lines: &mut Lines, end: End, output: &mut O) -> Status
    ensures closes { Closes (counter_ending_after end) (O.written output.old) (O.written output.new) (Rose (O.faults output.old) (O.faults output.new)) result }
    ensures later { O.faults output.old ≤ O.faults output.new }
{
    match end {
        End::Broken(label) => {
            let line = u64::from(label.line);
            let written = lines.write_numbered(b"guarantee broken #", line, b"\n", output);
            told(written, Status::Done)
        }
        other => close(lines, other, output),
    }
}

/// Writes how an audit ended, and says with which status. It takes no memory.
pub fn close_audit<O: Sink>(lines: &mut Lines, end: AuditEnd, output: &mut O) -> Status
    ensures { Closes (audit_ending_after end) (O.written output.old) (O.written output.new) (Rose (O.faults output.old) (O.faults output.new)) result }
{
    match end {
        AuditEnd::Whole(n) => {
            let written = lines.write_numbered(b"audit ok ", n, b"\n", output);
            told(written, Status::Done)
        }
        AuditEnd::Broken(finding) => {
            let line = u64::from(finding.label.line);
            let at = finding.position;
            let written = lines.write_twice_numbered(
                b"audit broken #",
                line,
                b" line ",
                at,
                b"\n",
                output,
            );
            told(written, Status::Other)
        }
        AuditEnd::BadLine(n) => close(lines, End::BadLine(n), output),
        AuditEnd::StateLimit => close(lines, End::StateLimit, output),
        AuditEnd::ReadFault => close(lines, End::ReadFault, output),
    }
}
