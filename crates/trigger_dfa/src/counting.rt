//! How many positions an expression has.

ghost use Rattle.std.specs.Prelude.{◌≡◌, ◌≤◌, ◌^◌, min, map};
ghost use Rattle.spec_model.specs.Views.{regular};
ghost use Rattle.trigger_dfa.specs.Sides.{size_in, size_in_each, copies_in};
ghost use Rattle.spec_model.specs.Syntax.{regulars};

use spec_model::expr::Regex;

// One more than there may be: more are not told apart.
const TOO_MANY: usize = 65;

/// How many positions the expression has with its repeats written out, but at most 65. Repeats around one another are a
/// loop, since they nest as deep as the text is long; only the parts of sequences and choices are a recursion.
#[cycle(counting)]
pub fn positions_in(r: &Regex) -> usize
    ensures { result ≡ min 65 (size_in (regular r.now)) }
{
    let mut copies = 1;
    let mut part = r;
    'repeats: loop {
        match part {
            Regex::Atom(_) => return copies,
            Regex::Cat(rs) => return (copies * positions_in_each(rs)).min(TOO_MANY),
            Regex::Alt(rs) => return (copies * positions_in_each(rs)).min(TOO_MANY),
            Regex::Repeat(inner, low, high) => {
                copies = (copies * copies_of(*low, *high)).min(TOO_MANY);
                part = inner;
            }
        }
    }
}

#[cycle(counting)]
fn positions_in_each(rs: &[Regex]) -> usize
    ensures { result ≡ min 65 (size_in_each (regulars (map regular rs.now))) }
{
    let mut count = 0;
    for r in rs {
        count = (count + positions_in(r)).min(TOO_MANY);
    }
    count
}

/// How often the piece of a repeat is written.
pub fn copies_of(low: u16, high: Option<u16>) -> usize
    ensures copies { result ≡ copies_in low high }
    ensures few { result ≤ 2 ^ 16 }
{
    match high {
        None => usize::from(low) + 1,
        Some(high) => usize::from(low.max(high)),
    }
}
