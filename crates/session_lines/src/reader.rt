//! Taking lines from an input that gives its bytes in pieces of any size.

ghost use Rattle.std.specs.Prelude.{◌≡◌, ◌≢◌, ◌+◌, ◌-◌, ◌<◌, ◌≤◌, [], ℕ, Some, None, Err, true, false, length, take, drop, vec_len, slice_index, IfSome, IfNone, IfOk, OnErr};
ghost use Rattle.std.specs.Io.KnownBytes.{Keeps, Consumes, IsAtEnd};
ghost use Rattle.std.specs.Str.Lines.{strip_carriage_return};
ghost use Rattle.sp_outside.specs.Causes.{Rose, HasCause, one_more};

use sp_outside::{Failed, OutOfMemory, Source};
use std::alloc::Global;

/// The greatest number of bytes of a line, without its line feed.
pub const MOST_BYTES: usize = 65_536;

// A line and its line feed.
const ROOM: usize = 65_537;

/// What came of asking for the next line.
#[derive(Clone, Copy, Debug, PartialEq, Eq)]
pub enum Taken {
    /// A line is at hand.
    Line,
    /// The next line has more bytes than a line may have.
    TooLong,
    /// The input is at its end, and there is no more line.
    Finish,
    /// The input failed, and no whole line was there.
    Failed,
}

/// A buffer with the bytes that were taken and not handed out yet, and with the line that was handed out last. It remembers
/// whether the input gave its end: then it is never read again.
#[derive(Drop)]
pub struct Reader {
    pub buffer: Vec<u8>,
    pub start: usize,
    pub end: usize,
    pub line_start: usize,
    pub line_end: usize,
    pub ended: bool,
    ghost room: { vec_len buffer ≡ 65537 },
    ghost ordered: { start ≤ end },
    ghost within: { end ≤ 65537 },
    ghost line_ordered: { line_start ≤ line_end },
    ghost line_within: { line_end ≤ 65537 },
}

/// The place of the first line feed, where there is none before `from`.
fn feed_in(bytes: &[u8], from: usize) -> Option<usize>
    requires within { from ≤ length bytes.now }
    requires none_before { (k : ℕ) → k < from → slice_index bytes.now k ≢ 10 }
    ensures within { IfSome result (λ at. at < length bytes.now) }
    ensures before { IfSome result (λ at. (k : ℕ) → k < at → slice_index bytes.now k ≢ 10) }
    ensures found { IfSome result (λ at. slice_index bytes.now at ≡ 10) }
    ensures none { IfNone result ((k : ℕ) → k < length bytes.now → slice_index bytes.now k ≢ 10) }
{
    let mut at = from;
    while at < bytes.len() {
        if bytes[at] == b'\n' {
            return Some(at);
        }
        at += 1;
    }
    None
}

// The end of a line, before one carriage return.
fn line_stop(piece: &[u8]) -> usize
    ensures within { result ≤ length piece.now }
    ensures line { take result piece.now ≡ strip_carriage_return piece.now }
{
    match piece.last() {
        Some(&b'\r') => piece.len() - 1,
        _ => piece.len(),
    }
}

// Moves what stands from `start` up to `end` to the front.
fn shift_down(buffer: &mut [u8], start: usize, end: usize)
    requires ordered { start ≤ end }
    requires within { end ≤ length buffer.old }
    ensures { take (end - start) buffer.new ≡ take (end - start) (drop start buffer.old) }
{
    buffer[..end].rotate_left(start);
}

// Takes a piece of the input behind the first `end` bytes, and says how many bytes.
fn read_behind<I: Source>(buffer: &mut [u8], end: usize, input: &mut I) -> Result<usize, Failed>
    requires { end < length buffer.old }
    ensures within { IfOk result (λ n. end + n ≤ length buffer.new) }
    ensures front { take end buffer.new ≡ take end buffer.old }
    ensures moved { IfOk result (λ n. Consumes (I.left input.old) (I.left input.new) (take n (drop end buffer.new)) × (n ≡ 0 → IsAtEnd (I.left input.new))) }
    ensures none { OnErr result (Keeps (I.left input.old) (I.left input.new)) }
    ensures cause { HasCause (I.faults input.old) (I.faults input.new) result }
    ensures once { I.reads input.new ≡ one_more (I.reads input.old) }
{
    input.read(&mut buffer[end..])
}

impl Reader {
    ghost use Rattle.session_lines.specs.Pieces.{reader_pending, reader_line, Grows};
    ghost use Rattle.session_lines.specs.Taking.{Takes};

    /// A reader into which nothing was taken.
    pub fn make(alloc: Global) -> Result<Reader, OutOfMemory>
        ensures nothing { IfOk result (λ r. reader_pending r ≡ []) }
        ensures open { IfOk result (λ r. r.ended ≡ false) }
    {
        Ok(Reader {
            buffer: vec![in alloc; 0; ROOM]?,
            start: 0,
            end: 0,
            line_start: 0,
            line_end: 0,
            ended: false,
        })
    }

    /// The line that was handed out last.
    pub fn line(&self) -> &[u8]
        ensures { result.now ≡ reader_line self.now }
    {
        &self.buffer[self.line_start..self.line_end]
    }

    // What was taken and not handed out yet.
    fn pending(&self) -> &[u8]
        ensures { result.now ≡ reader_pending self.now }
    {
        &self.buffer[self.start..self.end]
    }

    // Hands out what stands before a line feed.
    fn hand_out(&mut self, at: usize)
        requires { at < length (reader_pending self.old) }
        ensures line { reader_line self.new ≡ strip_carriage_return (take at (reader_pending self.old)) }
        ensures rest { reader_pending self.new ≡ drop (at + 1) (reader_pending self.old) }
        ensures end { self.new.ended ≡ self.old.ended }
    {
        let start = self.start;
        let stop = line_stop(&self.buffer[start..start + at]);
        self.line_start = start;
        self.line_end = start + stop;
        self.start = start + at + 1;
    }

    // Hands out all that is there.
    fn hand_out_all(&mut self)
        ensures line { reader_line self.new ≡ reader_pending self.old }
        ensures rest { reader_pending self.new ≡ [] }
        ensures end { self.new.ended ≡ self.old.ended }
    {
        self.line_start = self.start;
        self.line_end = self.end;
        self.start = self.end;
    }

    // Moves what is there to the front, so that all other room is behind it.
    fn move_to_front(&mut self)
        ensures keeps { reader_pending self.new ≡ reader_pending self.old }
        ensures front { self.new.start ≡ 0 }
        ensures end { self.new.ended ≡ self.old.ended }
    {
        let start = self.start;
        let end = self.end;
        shift_down(&mut self.buffer, start, end);
        self.end = end - start;
        self.start = 0;
    }

    // Takes a piece of the input behind what is there, and says how many bytes. It takes no memory.
    fn read_more<I: Source>(&mut self, input: &mut I) -> Result<usize, Failed>
        requires { length (reader_pending self.old) ≤ MOST_BYTES }
        ensures grows { IfOk result (λ n. Grows (I.left input.old) (I.left input.new) (reader_pending self.old) (reader_pending self.new) n) }
        ensures at_end { IfOk result (λ n. n ≡ 0 → IsAtEnd (I.left input.new)) }
        ensures none { OnErr result (Grows (I.left input.old) (I.left input.new) (reader_pending self.old) (reader_pending self.new) 0) }
        ensures cause { HasCause (I.faults input.old) (I.faults input.new) result }
        ensures once { I.reads input.new ≡ one_more (I.reads input.old) }
        ensures end { self.new.ended ≡ self.old.ended }
    {
        self.move_to_front();
        let end = self.end;
        let count = read_behind(&mut self.buffer, end, input)?;
        self.end = end + count;
        Ok(count)
    }

    /// Hands out the next line of the input, and takes more of the input only where no whole line is there. Once the input
    /// gave its end it isn't read, and nothing changes. Each read takes at least one byte, but for one that finds the end or
    /// fails. It takes no memory.
    pub fn next_line<I: Source>(&mut self, input: &mut I) -> Taken
        ensures takes { self.old.ended ≡ false → Takes (I.left input.old) (I.left input.new) (I.reads input.old) (I.reads input.new) self.new.ended (reader_pending self.old) (reader_line self.new) (reader_pending self.new) result }
        ensures over { self.old.ended ≡ true → (result ≡ Taken.Finish) × (input.new ≡ input.old) × (self.new ≡ self.old) }
        ensures later { I.faults input.old ≤ I.faults input.new }
        ensures cause { result ≡ Taken.Failed → Rose (I.faults input.old) (I.faults input.new) }
    {
        if self.ended {
            return Taken::Finish;
        }
        self.take_line(input)
    }

    // Hands out the next line of an input that hasn't given its end. Each turn takes at least one byte, or ends.
    fn take_line<I: Source>(&mut self, input: &mut I) -> Taken
        requires { self.old.ended ≡ false }
        ensures takes { Takes (I.left input.old) (I.left input.new) (I.reads input.old) (I.reads input.new) self.new.ended (reader_pending self.old) (reader_line self.new) (reader_pending self.new) result }
        ensures later { I.faults input.old ≤ I.faults input.new }
        ensures cause { result ≡ Taken.Failed → Rose (I.faults input.old) (I.faults input.new) }
    {
        let mut looked = 0;
        loop {
            if let Some(at) = feed_in(self.pending(), looked) {
                self.hand_out(at);
                return Taken::Line;
            }
            looked = self.end - self.start;
            if looked > MOST_BYTES {
                return Taken::TooLong;
            }
            match self.read_more(input) {
                Ok(0) => return self.finish(),
                Ok(_) => {}
                Err(_) => return Taken::Failed,
            }
        }
    }

    // At the end of the input: what is there is the last line, if it isn't empty.
    fn finish(&mut self) -> Taken
        ensures last { result ≡ Taken.Line → (reader_line self.new ≡ reader_pending self.old) × (0 < length (reader_pending self.old)) }
        ensures finish { result ≢ Taken.Line → (result ≡ Taken.Finish) }
        ensures none { result ≡ Taken.Finish → (reader_pending self.old ≡ []) }
        ensures rest { reader_pending self.new ≡ [] }
        ensures end { self.new.ended ≡ true }
    {
        self.ended = true;
        if self.start == self.end {
            return Taken::Finish;
        }
        self.hand_out_all();
        Taken::Line
    }
}
