//! What is written for a line of a session.

ghost use Rattle.std.specs.Prelude.{◌≡◌, ◌≤◌, ◌++◌, ◌∷◌, [], take};
ghost use Rattle.std.specs.Bool.{OnTrue, OnFalse};
ghost use Rattle.std.specs.Fmt.{decimal};
ghost use Rattle.std.specs.Io.KnownBytes.{Appends};
ghost use Rattle.sp_outside.specs.Causes.{Rose};
ghost use Rattle.sp_outside.specs.Written.{AppendsFront};
ghost use Rattle.session_lines.specs.Views.{KeepsTables, KeepsReader, names_of, shown_variables};
ghost use Rattle.many_sessions.specs.Turns.{reply_of, CanBeTold};

use crate::turning::Outcome;
use session_lines::{Lines, put_count};
use sp_outside::Sink;
use spec_model::value::Value;

// A session's number and a space, and how many bytes these are.
fn head_of(number: u64) -> ([u8; 21], usize)
    ensures within { result.1 ≤ 21 }
    ensures text { take result.1 result.0 ≡ decimal number ++ 32 ∷ [] }
{
    let mut head = [b' '; 21];
    let count = put_count(&mut head, number);
    head[count] = b' ';
    (head, count + 1)
}

/// Writes the line that answers one of a session, and says whether it did. Else the output failed, and a front of the line is
/// written. It takes no memory.
pub fn tell<O: Sink>(
    lines: &mut Lines,
    number: u64,
    outcome: Outcome,
    values: &[Value],
    output: &mut O,
) -> bool
    requires { CanBeTold (shown_variables lines.old) outcome values.now }
    ensures whole { OnTrue result (Appends (O.written output.old) (O.written output.new)
        (decimal number ++ (32 ∷ (reply_of (names_of lines.old) (shown_variables lines.old) outcome values.now ++ 10 ∷ [])))) }
    ensures part { OnFalse result (AppendsFront (O.written output.old) (O.written output.new)
        (decimal number ++ (32 ∷ (reply_of (names_of lines.old) (shown_variables lines.old) outcome values.now ++ 10 ∷ [])))) }
    ensures cause { OnFalse result (Rose (O.faults output.old) (O.faults output.new)) }
    ensures later { O.faults output.old ≤ O.faults output.new }
    ensures keeps { KeepsTables lines.old lines.new }
    ensures reader { KeepsReader lines.old lines.new }
{
    match outcome {
        Outcome::Ended => lines
            .write_numbered(b"", number, b" ended\n", output)
            .is_ok(),
        Outcome::Refused => lines
            .write_numbered(b"", number, b" refused\n", output)
            .is_ok(),
        Outcome::Broken(label) => lines
            .write_twice_numbered(
                b"",
                number,
                b" assumption broken #",
                label.line.into(),
                b"\n",
                output,
            )
            .is_ok(),
        Outcome::Moved => {
            let (head, count) = head_of(number);
            lines.show(&head[..count], values, output)
        }
    }
}
