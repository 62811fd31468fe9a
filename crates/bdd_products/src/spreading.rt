//! Which line takes which levels out: the last one that reads a level, and the first line those that none reads. What two
//! paths of a line read needs no search.

ghost use Rattle.std.specs.Prelude.{◌≡◌, ◌<◌, ◌==◌, ◌||◌, ◌∷◌, ◌++◌, ℕ, true, false, Err, IfOk, OnOk, [], length, map, slice_index_or};
ghost use Rattle.bdd_store.specs.State.{IsRoot, diagram_of};
ghost use Rattle.bdd_ops.specs.Functions.{is_among};
ghost use Rattle.bdd_ops.specs.Reading.{Ignores};
ghost use Rattle.bdd_ops.specs.Straight.{levels_on};
ghost use Rattle.bdd_bits.specs.Contents.{function_at};
ghost use Rattle.bdd_bits.specs.Orders.{bit_of};
ghost use Rattle.bdd_sets.specs.Members.{AreRoots, functions_at};
ghost use Rattle.bdd_products.specs.Products.{LeavesRoots, IsSpread, levels_of};

use crate::reading::{add_all, part_levels};
use bdd_bits::{Diagrams, Root};
use regions::Halt;
use std::alloc::Global;

/// How many lines after the first may take levels out. Each such list is one that the diagrams remember answers about,
/// and they forget all answers where there are too many.
const LISTS: usize = 59;

/// The levels that two paths of a line read: one keeps to the parts of false, the other to those of true.
fn levels_on_paths(diagrams: &Diagrams, alloc: Global, line: &Root) -> Result<Vec<u32>, Halt>
    requires { IsRoot diagrams.now.state line.now }
    ensures read { IfOk result (λ levels. let d = diagram_of diagrams.now.state line.now in let o = diagrams.now.order in
        levels.items ≡ map (bit_of o) (levels_on false d) ++ map (bit_of o) (levels_on true d)) }
    ensures memory { result ≡ Err Halt.Budget → ⊥ }
{
    let mut levels = Vec::new(alloc);
    if diagrams.path(line, false, &mut levels).is_err()
        || diagrams.path(line, true, &mut levels).is_err()
    {
        return Err(Halt::Memory);
    }
    Ok(levels)
}

/// Sets the flag of one level.
fn flag(flags: &mut Vec<bool>, level: u32) -> Result<(), Halt>
    ensures flagged { OnOk result ((m : ℕ) → slice_index_or flags.new.items m false ≡ ((m == level) || slice_index_or flags.old.items m false)) }
    ensures memory { result ≡ Err Halt.Budget → ⊥ }
{
    let at = level as usize;
    if at < flags.len() {
        flags[at] = true;
        return Ok(());
    }
    if flags.resize(at, false).is_err() || flags.push(true).is_err() {
        return Err(Halt::Memory);
    }
    Ok(())
}

/// For each level whether it is one of these, up to the last of them.
fn flags_of(alloc: Global, levels: &[u32]) -> Result<Vec<bool>, Halt>
    ensures flagged { IfOk result (λ flags. (m : ℕ) → slice_index_or flags.items m false ≡ is_among m levels.now) }
    ensures memory { result ≡ Err Halt.Budget → ⊥ }
{
    let mut flags = Vec::new(alloc);
    for &level in levels {
        flag(&mut flags, level)?;
    }
    Ok(flags)
}

/// Adds a level to those that are flagged or to the rest.
fn add_by(
    flags: &[bool],
    level: u32,
    flagged: &mut Vec<u32>,
    rest: &mut Vec<u32>,
) -> Result<(), Halt>
    ensures added { OnOk result ((m : ℕ) → (is_among m flagged.new.items || is_among m rest.new.items) ≡
        ((is_among m flagged.old.items || is_among m rest.old.items) || is_among m (level ∷ []))) }
    ensures memory { result ≡ Err Halt.Budget → ⊥ }
{
    if let Some(&true) = flags.get(level as usize) {
        return add_all(flagged, &[level]);
    }
    add_all(rest, &[level])
}

/// The levels that are flagged, and the rest.
fn split_by(alloc: Global, flags: &[bool], levels: &[u32]) -> Result<(Vec<u32>, Vec<u32>), Halt>
    ensures split { IfOk result (λ p. (m : ℕ) → (is_among m p.0.items || is_among m p.1.items) ≡ is_among m levels.now) }
    ensures memory { result ≡ Err Halt.Budget → ⊥ }
{
    let mut flagged = Vec::new(alloc);
    let mut rest = Vec::new(alloc);
    for &level in levels {
        add_by(flags, level, &mut flagged, &mut rest)?;
    }
    Ok((flagged, rest))
}

/// The levels that a line reads, and those that it doesn't, which an earlier line takes out. Where there is no room for
/// one more list it takes all. Levels that two paths read are read for certain, so only the others are sought in halves.
fn parted(
    diagrams: &mut Diagrams,
    alloc: Global,
    line: &Root,
    levels: &[u32],
    room: usize,
) -> Result<(Vec<u32>, Vec<u32>), Halt>
    requires { IsRoot diagrams.old.state line.now }
    ensures parted { IfOk result (λ p. (m : ℕ) → (is_among m p.0.items || is_among m p.1.items) ≡ is_among m levels.now) }
    ensures ignored { IfOk result (λ p. (m : ℕ) → is_among m p.1.items ≡ true → Ignores m (function_at diagrams.old line.now)) }
    ensures none { IfOk result (λ p. room ≡ 0 → p.1.items ≡ []) }
    ensures leaves { LeavesRoots diagrams.old diagrams.new result }
{
    let mut ignored = Vec::new(alloc);
    if room == 0 {
        let mut all = Vec::new(alloc);
        add_all(&mut all, levels)?;
        return Ok((all, ignored));
    }
    let read = levels_on_paths(diagrams, alloc, line)?;
    let flags = flags_of(alloc, &read)?;
    let (mut own, rest) = split_by(alloc, &flags, levels)?;
    part_levels(diagrams, line, &rest, &mut own, &mut ignored)?;
    Ok((own, ignored))
}

/// Gives each line those levels that it reads and no later one does, from the last line on. The first line has the
/// levels that are left.
pub fn spread(
    diagrams: &mut Diagrams,
    alloc: Global,
    lines: &[Root],
    out: &[u32],
) -> Result<Vec<Vec<u32>>, Halt>
    requires some { 0 < length lines.now }
    requires kept { AreRoots diagrams.old lines.now }
    ensures all { IfOk result (λ outs. IsSpread out.now [] (functions_at diagrams.old lines.now) (levels_of outs.items)) }
    ensures leaves { LeavesRoots diagrams.old diagrams.new result }
{
    let Ok(mut outs) = Vec::with_capacity(alloc, lines.len()) else {
        return Err(Halt::Memory);
    };
    let mut left = Vec::new(alloc);
    add_all(&mut left, out)?;
    let mut place = lines.len();
    let mut room = LISTS;
    while 0 < place {
        place -= 1;
        let (own, next) = parted(diagrams, alloc, &lines[place], &left, place.min(room))?;
        if !own.is_empty() {
            room = room.saturating_sub(1);
        }
        outs.push_reserved(own);
        left = next;
    }
    outs.reverse();
    Ok(outs)
}
