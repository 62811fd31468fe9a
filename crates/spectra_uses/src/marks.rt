//! Marks of definitions: which of them a walk has come to.

ghost use Rattle.std.specs.Prelude.{◌≡◌, IfOk, false, true, map, replicate, slice_get, slice_set};
ghost use Rattle.spectra_uses.specs.Searching.{next_of, is_unmarked};
ghost use Rattle.spectra_uses.specs.Walking.{Marks};

use std::alloc::{AllocError, Global};

/// What a definition uses. Past the definitions nothing is there.
pub fn uses_at<'a>(uses: &'a [Vec<usize>], number: usize) -> &'a [usize]
    ensures { result.now ≡ next_of (map (λ us. us.items) uses.now) number }
{
    match uses.get(number) {
        Some(list) => list.as_slice(),
        None => &[],
    }
}

/// As many as there are definitions, and none is marked.
pub fn no_marks(alloc: Global, count: usize) -> Result<Vec<bool>, AllocError>
    ensures { IfOk result (λ marks. marks.items ≡ replicate count false) }
{
    let mut marks = Vec::new(alloc);
    marks.resize(count, false)?;
    Ok(marks)
}

/// As many as there are definitions, and each is marked.
pub fn all_marks(alloc: Global, count: usize) -> Result<Vec<bool>, AllocError>
    ensures { IfOk result (λ marks. marks.items ≡ replicate count true) }
{
    let mut marks = Vec::new(alloc);
    marks.resize(count, true)?;
    Ok(marks)
}

/// Whether a number is that of a definition without a mark.
pub fn is_new(marks: &[bool], number: usize) -> bool
    ensures { result ≡ is_unmarked (slice_get marks.now number) }
{
    match marks.get(number) {
        Some(mark) => !*mark,
        None => false,
    }
}

/// Marks a definition, or takes its mark off.
pub fn set_mark(marks: &mut Vec<bool>, number: usize, mark: bool)
    ensures { marks.new.items ≡ slice_set marks.old.items number mark }
{
    if let Some(place) = marks.get_mut(number) {
        *place = mark;
    }
}

/// Marks several, or takes their marks off.
pub fn set_marks(marks: &mut Vec<bool>, list: &[usize], mark: bool)
    ensures { Marks marks.old.items marks.new.items list.now mark }
{
    for number in list {
        set_mark(marks, *number, mark);
    }
}
