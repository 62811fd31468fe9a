//! The diagram of the bits that are states, and the next bits in place of the present ones.

ghost use Rattle.std.specs.Prelude.{◌<◌, ◌≤◌, ◌&&◌, length};
ghost use Rattle.bdd_store.specs.State.{IsRoot};
ghost use Rattle.bdd_bits.specs.Contents.{function_at};
ghost use Rattle.bit_compile.specs.Domains.{level_count};
ghost use Rattle.bit_compile.specs.Making.{Makes};
ghost use Rattle.bit_compile.specs.Proper.{proper as proper_lem, has_some_value};
ghost use Rattle.bit_compile.specs.Crowding.{HasCause};
ghost use Rattle.bit_compile.specs.Named.{IsOfSlot, IsOfProper};

use crate::OutOfMemory;
use crate::bounds::number_below;
use crate::cases::release_all;
use crate::codes::Codes;
use crate::domains::size;
use crate::folds::and_some;
use crate::spans::coded_cases;
use crate::steps::{and, constant};
use bdd_bits::{Diagrams, Root};
use game_values::seen::At;
use regions::Halt;
use std::alloc::Global;

/// The diagram that is true where the product is, and the number in the bits at this place of a state is below that of the
/// values, whose codes are the numbers from 0 on.
fn and_below(
    diagrams: &mut Diagrams,
    product: &Root,
    codes: &Codes,
    at: At,
    k: usize,
) -> Result<Root, Halt>
    requires known { k < length codes.now }
    requires levels { level_count codes.now ≤ diagrams.old.state.table.levels }
    requires kept { IsRoot diagrams.old.state product.now }
    ensures { Makes diagrams.old diagrams.new result (λ s. function_at diagrams.old product.now s && has_some_value codes.now at k s) }
{
    let count = size(codes.domain(k));
    let values = number_below(diagrams, codes.level(at, k), codes.width(k), count)?;
    let whole = and(diagrams, product, &values);
    diagrams.release(values);
    whole
}

/// The diagram that is true where the product is, and the bits at this place of a state are some value's code, by the code of
/// each value.
fn and_each_code(
    diagrams: &mut Diagrams,
    product: &Root,
    codes: &Codes,
    at: At,
    k: usize,
) -> Result<Root, Halt>
    requires known { k < length codes.now }
    requires levels { level_count codes.now ≤ diagrams.old.state.table.levels }
    requires kept { IsRoot diagrams.old.state product.now }
    ensures made { Makes diagrams.old diagrams.new result (λ s. function_at diagrams.old product.now s && has_some_value codes.now at k s) }
    ensures cause { HasCause diagrams.old diagrams.new result (IsOfSlot codes.now at k) }
{
    let cases = coded_cases(diagrams, codes, at, k, codes.domain(k), codes.alloc())?;
    let whole = and_some(diagrams, product, &cases);
    release_all(diagrams, cases);
    whole
}

/// The diagram that is true where the product is, and the bits at this place of a state, present or next, are some value's
/// code. Where telling that by a bound is refused, all that it made is given back, and the code of each value is made: that
/// refusal is answered. Refusals are those of `compile`, and leave what was kept.
pub fn and_some_value(
    diagrams: &mut Diagrams,
    product: &Root,
    codes: &Codes,
    at: At,
    k: usize,
) -> Result<Root, Halt>
    requires known { k < length codes.now }
    requires levels { level_count codes.now ≤ diagrams.old.state.table.levels }
    requires kept { IsRoot diagrams.old.state product.now }
    ensures made { Makes diagrams.old diagrams.new result (λ s. function_at diagrams.old product.now s && has_some_value codes.now at k s) }
    ensures cause { HasCause diagrams.old diagrams.new result (IsOfSlot codes.now at k) }
{
    match and_below(diagrams, product, codes, at, k) {
        Ok(root) => Ok(root),
        Err(_) => and_each_code(diagrams, product, codes, at, k),
    }
}

/// The diagram that is true where the bits are those of a value of each domain, joined from the last place on: where the later
/// places stand at lower levels, each bound only adds nodes above what is there.
fn proper_back(diagrams: &mut Diagrams, codes: &Codes, at: At) -> Result<Root, Halt>
    requires { level_count codes.now ≤ diagrams.old.state.table.levels }
    ensures { Makes diagrams.old diagrams.new result (proper_lem codes.now at) }
{
    let mut product = constant(diagrams, true)?;
    let mut last = codes.count();
    while last > 0 {
        let more = and_below(diagrams, &product, codes, at, last - 1);
        diagrams.release(product);
        let next = more?;
        product = next;
        last -= 1;
    }
    Ok(product)
}

/// The same joined from the first place on: each set on the way is that of the first several.
fn proper_forth(diagrams: &mut Diagrams, codes: &Codes, at: At) -> Result<Root, Halt>
    requires { level_count codes.now ≤ diagrams.old.state.table.levels }
    ensures made { Makes diagrams.old diagrams.new result (proper_lem codes.now at) }
    ensures cause { HasCause diagrams.old diagrams.new result (IsOfProper codes.now at) }
{
    let mut product = constant(diagrams, true)?;
    for k in 0..codes.count() {
        let more = and_some_value(diagrams, &product, codes, at, k);
        diagrams.release(product);
        let next = more?;
        product = next;
    }
    Ok(product)
}

/// The diagram that is true where the present bits, or the next ones, are those of a value of each domain. Where joining from
/// the last place on is refused, all that it made is given back, and they are joined from the first one on. Refusals are those
/// of `compile`.
pub fn proper(diagrams: &mut Diagrams, codes: &Codes, at: At) -> Result<Root, Halt>
    requires { level_count codes.now ≤ diagrams.old.state.table.levels }
    ensures made { Makes diagrams.old diagrams.new result (proper_lem codes.now at) }
    ensures cause { HasCause diagrams.old diagrams.new result (IsOfProper codes.now at) }
{
    match proper_back(diagrams, codes, at) {
        Ok(root) => Ok(root),
        Err(_) => proper_forth(diagrams, codes, at),
    }
}
