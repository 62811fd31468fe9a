//! Which assignment the lines of a pattern allow, by its number.

ghost use Rattle.std.specs.Prelude.{◌≡◌, ◌≤◌, map, length, replicate, true, false, MatchOption};
ghost use Rattle.std.specs.List.{list_all, position_or_len};
ghost use Rattle.spec_model.specs.Values.{is_assignment};
ghost use Rattle.spec_model.specs.Views.{formula, pattern_data};
ghost use Rattle.pattern_rows.specs.Patterns.{IsPattern, IsGoal};
ghost use Rattle.pattern_rows.specs.Rows.{may_begin, may_follow, goal_holds as goal_holds_lem};
ghost use Rattle.pattern_rows.specs.ToldRows.{is_told};
ghost use Rattle.pattern_rows.specs.Sights.{IsCell};

use crate::sight::{Sight, each_holds};
use game_values::eval::holds;
use game_values::seen::At;
use spec_model::expr::Expr;
use spec_model::spec::Pattern;
use spec_model::value::Value;

#[tactic(auto, using(crate::proofs::Lines::first_lines_safe, crate::proofs::Lines::first_lines_hold))]
/// Whether the own variables may have these values at first, where no parameter is true.
fn begins(pattern: &Pattern, letter: &[Value], own: &[Value]) -> bool
    requires shaped { IsPattern (pattern_data pattern.now) }
    requires letter { letter.now ≡ replicate pattern.now.params (Value.Bool false) }
    requires own { is_assignment (pattern_data pattern.now).domains own.now ≡ true }
    ensures { result ≡ may_begin (pattern_data pattern.now) own.now }
{
    each_holds(
        &pattern.first,
        &Sight {
            letter,
            own,
            next: own,
        },
    )
}

#[tactic(auto, using(crate::proofs::Lines::step_lines_safe))]
/// Whether values of the own variables may follow others at a letter.
fn follows(pattern: &Pattern, letter: &[Value], own: &[Value], next: &[Value]) -> bool
    requires shaped { IsPattern (pattern_data pattern.now) }
    requires cell { IsCell (pattern_data pattern.now) letter.now own.now }
    requires next { is_assignment (pattern_data pattern.now).domains next.now ≡ true }
    ensures { result ≡ may_follow (pattern_data pattern.now) letter.now own.now next.now }
{
    each_holds(&pattern.step, &Sight { letter, own, next })
}

#[tactic(auto, using(crate::proofs::Lines::goal_safe, crate::proofs::Lines::goal_line_holds))]
/// Whether a goal holds at values of the own variables and a letter.
pub fn goal_holds(pattern: &Pattern, goal: &Expr, letter: &[Value], own: &[Value]) -> bool
    requires cell { IsCell (pattern_data pattern.now) letter.now own.now }
    requires goal { IsGoal (pattern_data pattern.now) (formula goal.now) }
    ensures { result ≡ goal_holds_lem (formula goal.now) letter.now own.now }
{
    holds(
        goal,
        &Sight {
            letter,
            own,
            next: own,
        },
        At::Now,
    )
}

#[tactic(auto, using(crate::proofs::Scans::scan_parts))]
/// The number of the assignment that the own variables have at first, if there is one alone.
pub fn first_own(pattern: &Pattern, owns: &[Vec<Value>], letter: &[Value]) -> Option<u16>
    requires shaped { IsPattern (pattern_data pattern.now) }
    requires letter { letter.now ≡ replicate pattern.now.params (Value.Bool false) }
    requires owns { list_all (is_assignment (pattern_data pattern.now).domains) (map (λ c. c.items) owns.now) ≡ true }
    requires few { length owns.now ≤ 64 }
    ensures { MatchOption result (is_told (may_begin (pattern_data pattern.now)) (map (λ c. c.items) owns.now) ≡ false)
        (λ k. (is_told (may_begin (pattern_data pattern.now)) (map (λ c. c.items) owns.now) ≡ true)
        × (k ≡ position_or_len (may_begin (pattern_data pattern.now)) (map (λ c. c.items) owns.now))) }
{
    let mut found = None;
    for k in 0..owns.len() {
        if begins(pattern, letter, &owns[k]) {
            if found.is_some() {
                return None;
            }
            found = Some(k as u16);
        }
    }
    found
}

#[tactic(auto, using(crate::proofs::Scans::scan_parts))]
/// The number of the assignment that follows another at a letter, if there is one alone.
pub fn next_own(
    pattern: &Pattern,
    owns: &[Vec<Value>],
    letter: &[Value],
    own: &[Value],
) -> Option<u16>
    requires shaped { IsPattern (pattern_data pattern.now) }
    requires cell { IsCell (pattern_data pattern.now) letter.now own.now }
    requires owns { list_all (is_assignment (pattern_data pattern.now).domains) (map (λ c. c.items) owns.now) ≡ true }
    requires few { length owns.now ≤ 64 }
    ensures { MatchOption result (is_told (may_follow (pattern_data pattern.now) letter.now own.now) (map (λ c. c.items) owns.now) ≡ false)
        (λ k. (is_told (may_follow (pattern_data pattern.now) letter.now own.now) (map (λ c. c.items) owns.now) ≡ true)
        × (k ≡ position_or_len (may_follow (pattern_data pattern.now) letter.now own.now) (map (λ c. c.items) owns.now))) }
{
    let mut found = None;
    for k in 0..owns.len() {
        if follows(pattern, letter, own, &owns[k]) {
            if found.is_some() {
                return None;
            }
            found = Some(k as u16);
        }
    }
    found
}
