ghost use Rattle.std.specs.Prelude.{◌≡◌, ◌≤◌, ◌<◌, ◌-◌, length, take, drop, IfOk, Err};
ghost use Rattle.std.specs.Io.KnownBytes.{Consumes, IsAtEnd};
ghost use Rattle.sp_outside.specs.Causes.{Rose, HasCause};
ghost use Rattle.sp_outside.specs.Parts.{TakesUpTo, ReadsUpTo, idle_in};

use crate::file::make_room;
use crate::{Failed, InputFault, Source};
use std::alloc::Global;

/// Reads the input to its end, or up to `limit` bytes; at a limit of 0 it isn't asked. Each read takes at least one byte, but
/// for one that finds the end or fails. `Input`: it failed. `Memory`: none was given. What a refused call took of the input is lost.
pub fn read_input<I: Source>(
    alloc: Global,
    input: &mut I,
    limit: usize,
) -> Result<Vec<u8>, InputFault>
    ensures taken { IfOk result (λ bytes. TakesUpTo limit (I.left input.old) (I.left input.new) bytes.items) }
    ensures reads { ReadsUpTo limit 1 (I.left input.old) (I.left input.new) (I.reads input.old) (I.reads input.new) }
    ensures cause { result ≡ Err InputFault.Input → Rose (I.faults input.old) (I.faults input.new) }
    ensures later { I.faults input.old ≤ I.faults input.new }
{
    let mut bytes = Vec::new(alloc);
    while bytes.len() < limit {
        let start = bytes.len();
        make_room(&mut bytes, limit)?;
        let end = fill_behind(input, start, bytes.as_mut_slice())?;
        if end < bytes.len() {
            bytes.truncate(end);
            return Ok(bytes);
        }
    }
    Ok(bytes)
}

// Fills `buf` behind its first `start` bytes, as far as the input goes, and says how far.
fn fill_behind<I: Source>(input: &mut I, start: usize, buf: &mut [u8]) -> Result<usize, Failed>
    requires { start ≤ length buf.old }
    ensures within { IfOk result (λ end. (start ≤ end) × (end ≤ length buf.new)) }
    ensures front { take start buf.new ≡ take start buf.old }
    ensures taken { IfOk result (λ end. Consumes (I.left input.old) (I.left input.new) (drop start (take end buf.new))) }
    ensures at_end { IfOk result (λ end. end < length buf.new → IsAtEnd (I.left input.new)) }
    ensures reads { ReadsUpTo (length buf.new - start) (idle_in (length buf.new) result) (I.left input.old) (I.left input.new) (I.reads input.old) (I.reads input.new) }
    ensures cause { HasCause (I.faults input.old) (I.faults input.new) result }
{
    let mut at = start;
    while at < buf.len() {
        let count = input.read(&mut buf[at..])?;
        if count == 0 {
            break;
        }
        at += count;
    }
    Ok(at)
}
