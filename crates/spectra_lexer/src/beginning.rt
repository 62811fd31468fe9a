//! From bytes to characters, and where the first one stands.

ghost use Rattle.std.specs.Prelude.{◌≡◌, ◌≤◌, ◌<◌, ℕ, length, IfOk, IfErr};
ghost use Rattle.std.specs.Str.{chars, IsUtf8};
ghost use Rattle.spectra_lexer.specs.Tokens.{most_bytes, past, first_spot, without_mark};
ghost use Rattle.spectra_lexer.specs.Faults.{IsNotUtf8At};
ghost use Rattle.spectra_lexer.specs.Progress.{IsInside};

use crate::characters::{Run, behind_run, split_first};
use crate::fault::LexFault;
use crate::spot::Spot;

/// The text of these bytes. `NotUtf8`: they are none, from that place on.
pub fn decode(bytes: &[u8]) -> Result<&str, LexFault>
    requires { length bytes.now ≤ most_bytes }
    ensures text { IfOk result (λ text. (text.now ≡ bytes.now) × IsUtf8 bytes.now) }
    ensures fault { IfErr result (λ fault. (line : ℕ) × (column : ℕ)
        × (fault ≡ LexFault.NotUtf8 line column) × IsNotUtf8At bytes.now line column) }
{
    match str::from_utf8(bytes) {
        Ok(text) => Ok(text),
        Err(broken) => {
            let at = end_of(&bytes[..broken.valid_up_to()]);
            Err(LexFault::NotUtf8 {
                line: at.line,
                column: at.column,
            })
        }
    }
}

/// The spot behind a whole text.
fn end_of(bytes: &[u8]) -> Spot
    requires utf8 { IsUtf8 bytes.now }
    requires short { length bytes.now ≤ most_bytes }
    ensures { result ≡ past (without_mark (chars bytes.now)) (first_spot (chars bytes.now)) }
{
    let (at, rest) = beginning(str::from_utf8(bytes).unwrap());
    let (end, _) = behind_run(Run::Every, at, rest);
    end
}

/// What is behind a byte order mark, if there is one, and the spot there.
pub fn beginning(text: &str) -> (Spot, &str)
    requires { length text.now ≤ most_bytes }
    ensures spot { result.0 ≡ first_spot (chars text.entry.now) }
    ensures rest { chars result.1.now ≡ without_mark (chars text.entry.now) }
    ensures inside { IsInside result.0 result.1.now }
{
    match split_first(text) {
        Some(('\u{feff}', rest)) => (Spot::first(3), rest),
        _ => (Spot::first(0), text),
    }
}
