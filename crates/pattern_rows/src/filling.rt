//! The table of a pattern, filled cell by cell.

ghost use Rattle.std.specs.Prelude.{◌≡◌, ◌==◌, ◌≤◌, ◌↔◌, ◌++◌, map, flat_map, length, true, false, IfOk, OnOk, IsErrOf, IsTrue};
ghost use Rattle.std.specs.List.{list_all};
ghost use Rattle.spec_model.specs.Syntax.{Variable};
ghost use Rattle.spec_model.specs.Values.{is_assignment, assignments_of};
ghost use Rattle.spec_model.specs.Views.{formula, pattern_data};
ghost use Rattle.spec_model.specs.GameViews.{hidden_data};
ghost use Rattle.spec_model.specs.Steps.{below};
ghost use Rattle.spec_model.specs.WellTyped.{is_determined};
ghost use Rattle.pattern_rows.specs.Patterns.{IsPattern, IsGoal, is_wide as is_wide_lem};
ghost use Rattle.pattern_rows.specs.Rows.{letters as letters_lem, goal_holds as goal_holds_lem, rows_of};
ghost use Rattle.pattern_rows.specs.ToldRows.{next_after, are_told_after};
ghost use Rattle.pattern_rows.specs.Blocks.{AreBlocksOf};

use crate::choices::{PAST, all_letters, assignments, count_assignments};
use crate::fault::RowFault;
use crate::found::add_block;
use crate::numbering::{first_own, goal_holds};
use crate::words::{block_of, block_words};
use spec_model::expr::Expr;
use spec_model::game::Hidden;
use spec_model::spec::Pattern;
use spec_model::value::Value;
use std::alloc::{AllocError, Global};

/// Adds the number of the assignment that follows another at each letter.
fn add_next(
    pattern: &Pattern,
    owns: &[Vec<Value>],
    letters: &[Vec<Value>],
    blocks: &[Vec<u64>],
    own: &[Value],
    next: &mut Vec<u16>,
) -> Result<(), RowFault>
    requires shaped { IsPattern (pattern_data pattern.now) }
    requires owns { list_all (is_assignment (pattern_data pattern.now).domains) (map (λ c. c.items) owns.now) ≡ true }
    requires few { length owns.now ≤ 64 }
    requires letters { list_all (λ l. length l == (pattern_data pattern.now).params) (map (λ c. c.items) letters.now) ≡ true }
    requires blocks { AreBlocksOf (map (λ c. c.items) letters.now) (map (λ c. c.items) blocks.now) }
    requires own { is_assignment (pattern_data pattern.now).domains own.now ≡ true }
    ensures added { OnOk result (next.new.items ≡ next.old.items ++ next_after (pattern_data pattern.now) (map (λ c. c.items) owns.now) (map (λ c. c.items) letters.now) own.now) }
    ensures told { OnOk result (are_told_after (pattern_data pattern.now) (map (λ c. c.items) owns.now) (map (λ c. c.items) letters.now) own.now ≡ true) }
    ensures open { IsErrOf result RowFault.Open → are_told_after (pattern_data pattern.now) (map (λ c. c.items) owns.now) (map (λ c. c.items) letters.now) own.now ≡ false }
    ensures wide { IsErrOf result RowFault.Wide → ⊥ }
{
    for c in 0..blocks.len() {
        add_block(pattern, owns, block_of(letters, c), &blocks[c], own, next)?;
    }
    Ok(())
}

/// The next value for each value and letter.
fn next_values(
    alloc: Global,
    pattern: &Pattern,
    owns: &[Vec<Value>],
    letters: &[Vec<Value>],
    blocks: &[Vec<u64>],
) -> Result<Vec<u16>, RowFault>
    requires shaped { IsPattern (pattern_data pattern.now) }
    requires owns { list_all (is_assignment (pattern_data pattern.now).domains) (map (λ c. c.items) owns.now) ≡ true }
    requires few { length owns.now ≤ 64 }
    requires letters { list_all (λ l. length l == (pattern_data pattern.now).params) (map (λ c. c.items) letters.now) ≡ true }
    requires blocks { AreBlocksOf (map (λ c. c.items) letters.now) (map (λ c. c.items) blocks.now) }
    ensures next { IfOk result (λ next. next.items ≡ flat_map (next_after (pattern_data pattern.now) (map (λ c. c.items) owns.now) (map (λ c. c.items) letters.now)) (map (λ c. c.items) owns.now)) }
    ensures told { OnOk result (list_all (are_told_after (pattern_data pattern.now) (map (λ c. c.items) owns.now) (map (λ c. c.items) letters.now)) (map (λ c. c.items) owns.now) ≡ true) }
    ensures open { IsErrOf result RowFault.Open → list_all (are_told_after (pattern_data pattern.now) (map (λ c. c.items) owns.now) (map (λ c. c.items) letters.now)) (map (λ c. c.items) owns.now) ≡ false }
    ensures wide { IsErrOf result RowFault.Wide → ⊥ }
{
    let mut next = Vec::new(alloc);
    for own in owns {
        add_next(pattern, owns, letters, blocks, own, &mut next)?;
    }
    Ok(next)
}

/// Adds whether a goal holds at an assignment and each letter.
fn add_entries(
    pattern: &Pattern,
    goal: &Expr,
    letters: &[Vec<Value>],
    own: &[Value],
    table: &mut Vec<bool>,
) -> Result<(), AllocError>
    requires goal { IsGoal (pattern_data pattern.now) (formula goal.now) }
    requires letters { list_all (λ l. length l == (pattern_data pattern.now).params) (map (λ c. c.items) letters.now) ≡ true }
    requires own { is_assignment (pattern_data pattern.now).domains own.now ≡ true }
    ensures added { OnOk result (table.new.items ≡ table.old.items ++ map (λ letter. goal_holds_lem (formula goal.now) letter own.now) (map (λ c. c.items) letters.now)) }
{
    for letter in letters {
        table.push(goal_holds(pattern, goal, letter, own))?;
    }
    Ok(())
}

/// Whether a goal holds at each value and letter.
fn entries(
    alloc: Global,
    pattern: &Pattern,
    goal: &Expr,
    owns: &[Vec<Value>],
    letters: &[Vec<Value>],
) -> Result<Vec<bool>, AllocError>
    requires goal { IsGoal (pattern_data pattern.now) (formula goal.now) }
    requires owns { list_all (is_assignment (pattern_data pattern.now).domains) (map (λ c. c.items) owns.now) ≡ true }
    requires letters { list_all (λ l. length l == (pattern_data pattern.now).params) (map (λ c. c.items) letters.now) ≡ true }
    ensures { IfOk result (λ table. table.items ≡ flat_map (λ own. map (λ letter. goal_holds_lem (formula goal.now) letter own) (map (λ c. c.items) letters.now)) (map (λ c. c.items) owns.now)) }
{
    let mut table = Vec::new(alloc);
    for own in owns {
        add_entries(pattern, goal, letters, own, &mut table)?;
    }
    Ok(table)
}

/// The truth table of each goal.
fn tables(
    alloc: Global,
    pattern: &Pattern,
    owns: &[Vec<Value>],
    letters: &[Vec<Value>],
) -> Result<Vec<Vec<bool>>, AllocError>
    requires shaped { IsPattern (pattern_data pattern.now) }
    requires owns { list_all (is_assignment (pattern_data pattern.now).domains) (map (λ c. c.items) owns.now) ≡ true }
    requires letters { list_all (λ l. length l == (pattern_data pattern.now).params) (map (λ c. c.items) letters.now) ≡ true }
    ensures { IfOk result (λ all. map (λ t. t.items) all.items ≡ map (λ goal. flat_map (λ own. map (λ letter. goal_holds_lem goal letter own) (map (λ c. c.items) letters.now)) (map (λ c. c.items) owns.now)) (pattern_data pattern.now).goals) }
{
    let mut all = Vec::new(alloc);
    for goal in &pattern.goals {
        all.push(entries(alloc, pattern, goal, owns, letters)?)?;
    }
    Ok(all)
}

/// The parameters, as expressions.
fn parameters(alloc: Global, params: u32) -> Result<Vec<Expr>, AllocError>
    ensures { IfOk result (λ atoms. map formula atoms.items ≡ map (λ k. Variable k) (below params)) }
{
    let mut atoms = Vec::new(alloc);
    for k in 0..params {
        atoms.push(Expr::Var(k))?;
    }
    Ok(atoms)
}

/// The table over all assignments and letters.
fn filled(
    alloc: Global,
    pattern: &Pattern,
    owns: &[Vec<Value>],
    letters: &[Vec<Value>],
) -> Result<Hidden, RowFault>
    requires shaped { IsPattern (pattern_data pattern.now) }
    requires owns { map (λ c. c.items) owns.now ≡ assignments_of (pattern_data pattern.now).domains }
    requires few { length owns.now ≤ 64 }
    requires letters { map (λ c. c.items) letters.now ≡ letters_lem (pattern_data pattern.now).params }
    ensures rows { IfOk result (λ h. hidden_data h ≡ rows_of (pattern_data pattern.now)) }
    ensures determined { OnOk result (is_determined (pattern_data pattern.now) ≡ true) }
    ensures open { IsErrOf result RowFault.Open → is_determined (pattern_data pattern.now) ≡ false }
    ensures wide { IsErrOf result RowFault.Wide → ⊥ }
{
    match first_own(pattern, owns, &letters[0]) {
        None => Err(RowFault::Open),
        Some(first) => {
            let blocks = block_words(alloc, letters, pattern.params)?;
            let next = next_values(alloc, pattern, owns, letters, &blocks)?;
            let tables = tables(alloc, pattern, owns, letters)?;
            Ok(Hidden {
                values: owns.len() as u16,
                first,
                atoms: parameters(alloc, pattern.params)?,
                next,
                tables,
            })
        }
    }
}

#[tactic(auto, using(crate::proofs::Sizes::wide_parts))]
fn is_wide(pattern: &Pattern) -> bool
    requires { IsPattern (pattern_data pattern.now) }
    ensures { result ≡ is_wide_lem (pattern_data pattern.now) }
{
    pattern.params > 8 || count_assignments(&pattern.domains) == PAST
}

/// The hidden table of a pattern. `Wide`: it has more than 8 parameters, or its own variables more than 64 values.
/// `Open`: it isn't wide, and its lines don't allow one first assignment alone, or one next assignment for each
/// assignment and letter. `Memory`: none was given.
pub fn rows(alloc: Global, pattern: &Pattern) -> Result<Hidden, RowFault>
    requires shaped { IsPattern (pattern_data pattern.now) }
    ensures rows { IfOk result (λ h. hidden_data h ≡ rows_of (pattern_data pattern.now)) }
    ensures determined { OnOk result (is_determined (pattern_data pattern.now) ≡ true) }
    ensures open { IsErrOf result RowFault.Open → is_determined (pattern_data pattern.now) ≡ false }
    ensures wide { IsErrOf result RowFault.Wide ↔ IsTrue (is_wide_lem (pattern_data pattern.now)) }
{
    if is_wide(pattern) {
        return Err(RowFault::Wide);
    }
    let owns = assignments(alloc, &pattern.domains)?;
    let letters = all_letters(alloc, pattern.params)?;
    filled(alloc, pattern, &owns, &letters)
}
