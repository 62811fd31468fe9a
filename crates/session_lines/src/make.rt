//! What the lines of plays keep of a specification, and how much room they want.

ghost use Rattle.std.specs.Prelude.{◌≡◌, ◌+◌, ◌++◌, List, ℕ, map, filter, string_bytes, IfOk, OnOk};
ghost use Rattle.spec_model.specs.Moves.{is_of};
ghost use Rattle.spec_model.specs.Values.{WholeNumbers, Enumeration};
ghost use Rattle.spec_model.specs.Views.{domain_data, variable_data};
ghost use Rattle.session_lines.specs.Room.{HasShortTexts, HasItemRoom, HasRoom};

use crate::number::MOST_DIGITS;
use crate::value::name_text;
use sp_outside::OutOfMemory;
use spec_model::copy::copy_var;
use spec_model::value::{Domain, Owner, Var};
use std::alloc::{AllocError, Global};

/// Copies names.
pub fn copy_names(alloc: Global, names: &[String]) -> Result<Vec<String>, OutOfMemory>
    ensures { IfOk result (λ copies. map string_bytes copies.items ≡ map string_bytes names.now) }
{
    let mut copies = Vec::new(alloc);
    for name in names {
        copies.push(name.clone()?)?;
    }
    Ok(copies)
}

/// Adds copies of the variables of an owner.
pub fn push_vars_of(
    alloc: Global,
    copies: &mut Vec<Var>,
    vars: &[Var],
    owner: Owner,
) -> Result<(), OutOfMemory>
    ensures { OnOk result (map variable_data copies.new.items ≡ map variable_data copies.old.items ++ filter (λ v. is_of owner v.owner) (map variable_data vars.now)) }
{
    for var in vars {
        if var.owner == owner {
            copies.push(copy_var(alloc, var)?)?;
        }
    }
    Ok(())
}

// The length of the longest text of a name of an enumeration.
fn longest_name(names: &[String], domain: &[u16]) -> usize
    ensures { HasShortTexts (map string_bytes names.now) (Enumeration domain.now) result }
{
    let mut longest = 0;
    for &n in domain {
        longest = name_text(names, n).len().max(longest);
    }
    longest
}

// A length that no text of a range's number passes: each number of 64 bits has as many bytes or fewer.
fn longest_whole(lo: i64, hi: i64) -> usize
    ensures { (names : List (List ℕ)) → HasShortTexts names (WholeNumbers lo hi) result }
{
    let _ = (lo, hi);
    MOST_DIGITS
}

// A length that no text of a value of the domain passes.
fn longest_text(names: &[String], domain: &Domain) -> usize
    ensures { HasShortTexts (map string_bytes names.now) (domain_data domain.now) result }
{
    match domain {
        Domain::Boolean => 5,
        Domain::Range { lo, hi } => longest_whole(*lo, *hi),
        Domain::Names(domain) => longest_name(names, domain),
    }
}

/// A sum of lengths, where memory could hold as much.
pub fn sum_of(a: usize, b: usize) -> Result<usize, OutOfMemory>
    ensures { IfOk result (λ sum. sum ≡ a + b) }
{
    a.checked_add(b).ok_or(AllocError)
}

// The room for an item and what follows it.
fn room_for_item(names: &[String], var: &Var) -> Result<usize, OutOfMemory>
    ensures { IfOk result (λ room. HasItemRoom (map string_bytes names.now) (variable_data var.now) room) }
{
    let text = sum_of(longest_text(names, &var.domain), 2)?;
    sum_of(text, var.name.len())
}

/// The room for a printed line and its line feed.
pub fn room_for(names: &[String], vars: &[Var]) -> Result<usize, OutOfMemory>
    ensures { IfOk result (λ room. HasRoom (map string_bytes names.now) (map variable_data vars.now) room) }
{
    let mut room: usize = 1;
    for var in vars {
        let item = room_for_item(names, var)?;
        room = sum_of(room, item)?;
    }
    Ok(room)
}
