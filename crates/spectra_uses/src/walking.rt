//! Walks along links between definitions.

ghost use Rattle.std.specs.Prelude.{◌∷◌, [], map, IfOk, OnOk};
ghost use Rattle.spectra_uses.specs.Searching.{IsKnown, AreKnown};
ghost use Rattle.spectra_uses.specs.Walking.{Enters, Walks};

use crate::marks::{is_new, set_mark, uses_at};
use std::alloc::{AllocError, Global};

// Comes to a definition, where it has no mark, and marks it.
fn enter(marks: &mut Vec<bool>, reached: &mut Vec<usize>, number: usize) -> Result<(), AllocError>
    ensures enters { OnOk result (Enters marks.old.items marks.new.items reached.old.items reached.new.items (number ∷ [])) }
    ensures known { OnOk result (IsKnown marks.new.items number) }
{
    if is_new(marks, number) {
        set_mark(marks, number, true);
        reached.push(number)?;
    }
    Ok(())
}

// Comes to each of several.
fn enter_each(
    marks: &mut Vec<bool>,
    reached: &mut Vec<usize>,
    list: &[usize],
) -> Result<(), AllocError>
    ensures enters { OnOk result (Enters marks.old.items marks.new.items reached.old.items reached.new.items list.now) }
    ensures known { OnOk result (AreKnown marks.new.items list.now) }
{
    for number in list {
        enter(marks, reached, *number)?;
    }
    Ok(())
}

/// Those that links lead to from a definition, directly or through others, by way of such as have no mark. It marks them, and
/// follows each once. The error is that memory is short.
pub fn walk(
    alloc: Global,
    links: &[Vec<usize>],
    from: usize,
    marks: &mut Vec<bool>,
) -> Result<Vec<usize>, AllocError>
    ensures { IfOk result (λ reached. Walks (map (λ us. us.items) links.now) from marks.old.items marks.new.items reached.items) }
{
    let mut reached = Vec::new(alloc);
    enter_each(marks, &mut reached, uses_at(links, from))?;
    let mut head = 0;
    while head < reached.len() {
        let list = uses_at(links, reached[head]);
        enter_each(marks, &mut reached, list)?;
        head += 1;
    }
    Ok(reached)
}
