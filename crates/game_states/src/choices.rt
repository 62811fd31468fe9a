//! All choices of one value of each of several lists, in order, and their places.

ghost use Rattle.std.specs.Prelude.{◌≡◌, ◌++◌, ◌∷◌, [], map, IfOk, OnOk};
ghost use Rattle.std.specs.List.{flat_map};
ghost use Rattle.game_states.specs.Numbers.{choices, place_in, same_values};

use game_values::values::is_same;
use spec_model::value::Value;
use std::alloc::{AllocError, Global};

fn prepended<T: Copy>(alloc: Global, head: T, tail: &[T]) -> Result<Vec<T>, AllocError>
    ensures { IfOk result (λ list. list.items ≡ head ∷ tail.now) }
{
    let mut list = Vec::new(alloc);
    list.push(head)?;
    for x in tail {
        list.push(*x)?;
    }
    Ok(list)
}

fn add_behind<T: Copy>(
    alloc: Global,
    out: &mut Vec<Vec<T>>,
    head: T,
    tails: &[Vec<T>],
) -> Result<(), AllocError>
    ensures { OnOk result (map (λ c. c.items) out.new.items ≡ map (λ c. c.items) out.old.items ++ map (λ t. head ∷ t) (map (λ c. c.items) tails.now)) }
{
    for tail in tails {
        out.push(prepended(alloc, head, tail)?)?;
    }
    Ok(())
}

fn behind_each<T: Copy>(
    alloc: Global,
    heads: &[T],
    tails: &[Vec<T>],
) -> Result<Vec<Vec<T>>, AllocError>
    ensures { IfOk result (λ all. map (λ c. c.items) all.items ≡ flat_map (λ head. map (λ t. head ∷ t) (map (λ c. c.items) tails.now)) heads.now) }
{
    let mut all = Vec::new(alloc);
    for head in heads {
        add_behind(alloc, &mut all, *head, tails)?;
    }
    Ok(all)
}

/// The list of the empty list alone.
fn nothing<T: Copy>(alloc: Global) -> Result<Vec<Vec<T>>, AllocError>
    ensures { IfOk result (λ all. map (λ c. c.items) all.items ≡ [] ∷ []) }
{
    let mut all = Vec::new(alloc);
    all.push(Vec::new(alloc))?;
    Ok(all)
}

/// All choices of one of each, the last one changing fastest.
pub fn choices_of<T: Copy>(alloc: Global, options: &[Vec<T>]) -> Result<Vec<Vec<T>>, AllocError>
    ensures { IfOk result (λ all. map (λ c. c.items) all.items ≡ choices (map (λ c. c.items) options.now)) }
{
    let mut tails = nothing(alloc)?;
    let mut i = options.len();
    while i > 0 {
        i -= 1;
        tails = behind_each(alloc, &options[i], &tails)?;
    }
    Ok(tails)
}

fn are_same(a: &[Value], b: &[Value]) -> bool
    ensures { result ≡ same_values a.now b.now }
{
    if a.len() != b.len() {
        return false;
    }
    for i in 0..a.len() {
        if !is_same(a[i], b[i]) {
            return false;
        }
    }
    true
}

/// The place of a choice, or the number of choices where it isn't among them.
pub fn place(all: &[Vec<Value>], wanted: &[Value]) -> usize
    ensures { result ≡ place_in (map (λ c. c.items) all.now) wanted.now }
{
    for i in 0..all.len() {
        if are_same(&all[i], wanted) {
            return i;
        }
    }
    all.len()
}
