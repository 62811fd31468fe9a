//! The diagrams of numbers in bits.

ghost use Rattle.std.specs.Prelude.{◌+◌, ◌<◌, ◌≤◌, ◌^◌};
ghost use Rattle.bdd_store.specs.State.{IsRoot};
ghost use Rattle.bdd_bits.specs.Contents.{function_at};
ghost use Rattle.bit_compile.specs.Codes.{has_number};
ghost use Rattle.bit_compile.specs.Making.{Makes, digit, with_digit};
ghost use Rattle.bit_compile.specs.Crowding.{HasCause};
ghost use Rattle.bit_compile.specs.NamedCodes.{IsDigit, IsOfNumber};

use crate::numbers::power;
use crate::steps::{and, not, told, var};
use bdd_bits::{Diagrams, Root};
use regions::Halt;

/// The diagram that is true where a level's bit is this one.
pub fn digit_root(diagrams: &mut Diagrams, level: u32, high: bool) -> Result<Root, Halt>
    requires { level < diagrams.old.state.table.levels }
    ensures made { Makes diagrams.old diagrams.new result (digit level high) }
    ensures cause { HasCause diagrams.old diagrams.new result (IsDigit level) }
{
    let bit = var(diagrams, level)?;
    if high {
        return Ok(bit);
    }
    let low = not(diagrams, &bit);
    diagrams.release(bit);
    low
}

/// The diagram that is true where a level's bit is this one, and the rest is true.
fn digit_and(diagrams: &mut Diagrams, level: u32, high: bool, rest: &Root) -> Result<Root, Halt>
    requires below { level < diagrams.old.state.table.levels }
    requires kept { IsRoot diagrams.old.state rest.now }
    ensures made { Makes diagrams.old diagrams.new result (with_digit level high (function_at diagrams.old rest.now)) }
    ensures cause { HasCause diagrams.old diagrams.new result (IsDigit level) }
{
    let bit = digit_root(diagrams, level, high)?;
    let whole = and(diagrams, &bit, rest);
    diagrams.release(bit);
    whole
}

/// The diagram that is true where the bits from a level on are a number's digits.
pub fn number(diagrams: &mut Diagrams, level: u32, width: u32, n: usize) -> Result<Root, Halt>
    requires narrow { width ≤ 64 }
    requires few { level + width < 2 ^ 32 }
    requires below { level + width ≤ diagrams.old.state.table.levels }
    ensures made { Makes diagrams.old diagrams.new result (has_number level width n) }
    ensures cause { HasCause diagrams.old diagrams.new result (IsOfNumber level width n) }
{
    if width == 0 {
        return told(diagrams.constant(true));
    }
    let half = power(width - 1);
    let high = half <= n;
    let left = if high { n - half } else { n };
    let rest = number(diagrams, level + 1, width - 1, left)?;
    let whole = digit_and(diagrams, level, high, &rest);
    diagrams.release(rest);
    whole
}
