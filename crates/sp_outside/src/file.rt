ghost use Rattle.std.specs.Prelude.{◌≡◌, ◌≤◌, ◌<◌, length, take, vec_len, IfOk, OnOk, Err};
ghost use Rattle.sp_outside.specs.Causes.{Rose};
ghost use Rattle.sp_outside.specs.Files.{HasNoFile, told_file};
ghost use Rattle.sp_outside.specs.Parts.{IsFrontOf};

use crate::{FileFault, OutOfMemory, Shelf};
use std::alloc::Global;

/// The least room that is made for a part of a file, in bytes.
const PART: usize = 65_536;

/// Reads the file, up to `limit` bytes; at a limit of 0 the shelf isn't asked. `Missing`: there is
/// no such file. `Shelf`: the shelf failed. `Memory`: none was given. No outcome changes a file.
pub fn read_file<F: Shelf>(
    alloc: Global,
    shelf: &mut F,
    name: &str,
    limit: usize,
) -> Result<Vec<u8>, FileFault>
    ensures front { IfOk result (λ bytes.
        IsFrontOf (told_file (F.holds shelf.old) name.now) limit bytes.items) }
    ensures missing { result ≡ Err FileFault.Missing →
        HasNoFile (told_file (F.holds shelf.old) name.now) }
    ensures cause { result ≡ Err FileFault.Shelf → Rose (F.faults shelf.old) (F.faults shelf.new) }
    ensures later { F.faults shelf.old ≤ F.faults shelf.new }
    ensures keeps { F.holds shelf.new ≡ F.holds shelf.old }
{
    let mut bytes = Vec::new(alloc);
    while bytes.len() < limit {
        let start = bytes.len();
        make_room(&mut bytes, limit)?;
        let end = fill(shelf, name, start, bytes.as_mut_slice())?;
        if end < bytes.len() {
            bytes.truncate(end);
            return Ok(bytes);
        }
    }
    Ok(bytes)
}

/// Makes room for as many bytes again, or for a first part, up to the limit. Doubling keeps the
/// copies of a large file few, and a small file costs one part.
pub(crate) fn make_room(bytes: &mut Vec<u8>, limit: usize) -> Result<(), OutOfMemory>
    requires { vec_len bytes.old < limit }
    ensures longer { OnOk result (vec_len bytes.old < vec_len bytes.new) }
    ensures within { OnOk result (vec_len bytes.new ≤ limit) }
    ensures front { OnOk result (take (vec_len bytes.old) bytes.new.items ≡ bytes.old.items) }
{
    let more = bytes.len().max(PART).min(limit - bytes.len());
    bytes.resize(bytes.len() + more, 0)
}

// Fills `buf`, which has the file's first `start` bytes, as far as the file goes, and says how far.
fn fill<F: Shelf>(
    shelf: &mut F,
    name: &str,
    start: usize,
    buf: &mut [u8],
) -> Result<usize, FileFault>
    requires within { start ≤ length buf.old }
    requires begun { IsFrontOf (told_file (F.holds shelf.old) name.now) start (take start buf.old) }
    ensures within { IfOk result (λ end. end ≤ length buf.new) }
    ensures front { IfOk result (λ end.
        IsFrontOf (told_file (F.holds shelf.old) name.now) (length buf.new) (take end buf.new)) }
    ensures missing { result ≡ Err FileFault.Missing →
        HasNoFile (told_file (F.holds shelf.old) name.now) }
    ensures cause { result ≡ Err FileFault.Shelf → Rose (F.faults shelf.old) (F.faults shelf.new) }
    ensures later { F.faults shelf.old ≤ F.faults shelf.new }
    ensures keeps { F.holds shelf.new ≡ F.holds shelf.old }
{
    let mut at = start;
    while at < buf.len() {
        match shelf.read_part(name, at as u64, &mut buf[at..]) {
            Ok(Some(0)) => break,
            Ok(Some(count)) => at += count,
            Ok(None) => return Err(FileFault::Missing),
            Err(_) => return Err(FileFault::Shelf),
        }
    }
    Ok(at)
}
