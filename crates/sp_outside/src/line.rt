ghost use Rattle.std.specs.Prelude.{OnOk, OnErr};
ghost use Rattle.std.specs.Io.KnownBytes.{Appends};
ghost use Rattle.sp_outside.specs.Causes.{HasCause};
ghost use Rattle.sp_outside.specs.Written.{AppendsFront};

use crate::{Failed, Sink};

/// Offers the line in one piece, and offers what is left of it until it is wholly taken. `Failed`:
/// the sink failed, and a front of the line is written. It takes no memory.
pub fn write_line<O: Sink>(output: &mut O, line: &[u8]) -> Result<(), Failed>
    ensures whole { OnOk result (Appends (O.written output.old) (O.written output.new) line.now) }
    ensures part { OnErr result (AppendsFront (O.written output.old) (O.written output.new) line.now) }
    ensures cause { HasCause (O.faults output.old) (O.faults output.new) result }
{
    let mut taken = 0;
    while taken < line.len() {
        let count = output.write(&line[taken..])?;
        taken += count;
    }
    Ok(())
}
