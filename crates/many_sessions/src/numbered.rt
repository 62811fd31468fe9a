//! The session's number at the start of a line.

ghost use Rattle.std.specs.Prelude.{◌≡◌, ◌≢◌, ◌≤◌, ℕ, pos, length, drop, IfSome, IfNone};
ghost use Rattle.session_lines.specs.Reading.{is_blank as blank_test};
ghost use Rattle.many_sessions.specs.Numbered.{Message, IsSession, IsNumbered, IsWordEnd};

use session_lines::number_in;

/// How many sessions there may be.
pub const MOST_SESSIONS: usize = 1024;

// Whether a byte is a space or a tab.
fn is_blank(byte: u8) -> bool
    ensures { result ≡ blank_test byte }
{
    byte == b' ' || byte == b'\t'
}

// The end of the word at the very start of a line.
fn word_end(line: &[u8]) -> usize
    ensures within { result ≤ length line.now }
    ensures end { IsWordEnd line.now result }
{
    let mut at = 0;
    while at < line.len() {
        if is_blank(line[at]) {
            return at;
        }
        at += 1;
    }
    at
}

// The session of a number, if there is one.
fn session_in(number: i64) -> Option<usize>
    ensures some { IfSome result (λ n. (pos n ≡ number) × IsSession n) }
    ensures none { IfNone result ((n : ℕ) → IsSession n → number ≢ pos n) }
{
    if 1 <= number && number <= MOST_SESSIONS as i64 {
        Some(number as usize)
    } else {
        None
    }
}

/// The session's number that a line begins with, and how many bytes it has.
pub fn session_of(line: &[u8]) -> Option<(usize, usize)>
    ensures within { IfSome result (λ at. at.1 ≤ length line.now) }
    ensures some { IfSome result (λ at. IsNumbered line.now (record { session = at.0; text = drop at.1 line.now })) }
    ensures none { IfNone result ((m : Message) → IsNumbered line.now m → ⊥) }
{
    let end = word_end(line);
    match number_in(&line[..end]) {
        Some(number) => match session_in(number) {
            Some(session) => Some((session, end)),
            None => None,
        },
        None => None,
    }
}
