//! Numbers that are tried in order, each of which stays or goes.

ghost use Rattle.std.specs.Prelude.{◌≡◌, ◌↔◌, ◌<◌, if◌then◌else◌, vec_len, IfOk, IfErr, OnOk, IsTrue};
ghost use Rattle.std.specs.List.{remove};
ghost use Rattle.core_min.specs.Sets.{below, IsSetBelow, IsPartOf, IsLosing, IsLeft, IsCore};
ghost use Rattle.core_min.specs.Judges.{IsAnswered, IsCause, IsSameJudge};
ghost use Rattle.core_min.specs.Known.{IsKnown};

use crate::fault::CoreFault;
use crate::guessing::shrinks;
use crate::judge::Judge;
use crate::losing::Losing;
use std::alloc::{AllocError, Global};

/// What is left of the numbers below `n` after each of them, in rising order, was dropped if the others that were
/// still there lose without it. `Judge`: a set that was so tried could not be judged. `Memory`: none was given, and no
/// set was asked about.
pub fn core<J: Judge>(
    alloc: Global,
    judge: &mut J,
    n: usize,
) -> Result<Vec<usize>, CoreFault<J::Fault>>
    requires size { n ≡ J.size judge.old }
    requires lost { IsLosing (J.IsWinning judge.old) (below n) }
    ensures left { IfOk result (λ left. IsLeft (J.IsWinning judge.old) n left.items) }
    ensures core { IfOk result (λ left. IsCore (J.IsWinning judge.old) left.items) }
    ensures cause { IfErr result (IsCause J.faults J.last J.IsWinning J.MayFail judge.old judge.new n) }
    ensures keeps { IsSameJudge J.size J.IsWinning J.MayFail J.faults judge.old judge.new }
{
    let mut set = all_below(alloc, n)?;
    let mut losing = Losing::make(alloc, n)?;
    losing.take(set.as_slice());
    let mut at = 0;
    while at < set.len() {
        shrinks(judge, set[at], at, &mut losing);
        match turn(judge, &mut set, at, &mut losing) {
            Ok(true) => at += 1,
            Ok(false) => {}
            Err(fault) => return Err(CoreFault::Judge(fault)),
        }
    }
    Ok(set)
}

fn all_below(alloc: Global, n: usize) -> Result<Vec<usize>, AllocError>
    ensures { IfOk result (λ set. set.items ≡ below n) }
{
    let mut set = Vec::with_capacity(alloc, n)?;
    for number in 0..n {
        set.push(number)?;
    }
    Ok(set)
}

// Drops the number at a place if the others lose without it, and says whether it stays. No question is needed where a
// set that is known to lose hasn't the number.
fn turn<J: Judge>(
    judge: &mut J,
    set: &mut Vec<usize>,
    at: usize,
    losing: &mut Losing,
) -> Result<bool, J::Fault>
    requires there { at < vec_len set.old }
    requires set { IsSetBelow (J.size judge.old) set.old.items }
    requires known { IsKnown J.size J.IsWinning judge.old losing.old }
    requires inside { IsPartOf losing.old.lost.items set.old.items }
    ensures stays { IfOk result (λ yes. IsTrue yes ↔ J.IsWinning judge.old (remove set.old.items at)) }
    ensures set { IfOk result (λ yes. set.new.items ≡ (if yes then set.old.items else remove set.old.items at)) }
    ensures known { OnOk result (IsKnown J.size J.IsWinning judge.new losing.new) }
    ensures inside { OnOk result (IsPartOf losing.new.lost.items set.new.items) }
    ensures cause { IfErr result (λ fault.
        IsAnswered J.faults J.last J.MayFail judge.old judge.new fault (remove set.old.items at)) }
    ensures keeps { IsSameJudge J.size J.IsWinning J.MayFail J.faults judge.old judge.new }
{
    if !losing.has(set[at]) {
        set.remove(at);
        return Ok(false);
    }
    if stays(judge, set, at)? {
        return Ok(true);
    }
    losing.take(set.as_slice());
    Ok(false)
}

// Drops the number at a place if the others lose without it, and says whether it stays. Its room is still there, so
// that putting it back takes no memory.
fn stays<J: Judge>(judge: &mut J, set: &mut Vec<usize>, at: usize) -> Result<bool, J::Fault>
    requires there { at < vec_len set.old }
    requires set { IsSetBelow (J.size judge.old) (remove set.old.items at) }
    ensures stays { IfOk result (λ yes. IsTrue yes ↔ J.IsWinning judge.old (remove set.old.items at)) }
    ensures set { IfOk result (λ yes. set.new.items ≡ (if yes then set.old.items else remove set.old.items at)) }
    ensures cause { IfErr result (λ fault.
        IsAnswered J.faults J.last J.MayFail judge.old judge.new fault (remove set.old.items at)) }
    ensures keeps { IsSameJudge J.size J.IsWinning J.MayFail J.faults judge.old judge.new }
{
    let number = set.remove(at);
    let wins = judge.wins(set.as_slice())?;
    if wins {
        set.insert(at, number).unwrap();
    }
    Ok(wins)
}
