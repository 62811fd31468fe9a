//! Small parts of a losing set that lose, found by guessing.
//!
//! A part that loses spares a question for each number that it hasn't. So the search asks about few numbers first: those
//! that stay, a block, and the last ones. A guess that wins or can't be judged tells nothing of the set.

ghost use Rattle.core_min.specs.Known.{IsKnown, Guesses};

use crate::judge::Judge;
use crate::losing::{Losing, pick};

/// Where no more numbers are still to be tried, nothing is guessed: trying them in order mostly takes fewer questions.
const FEW: usize = 32;

/// Makes the losing set smaller where some part of it loses, if it has the number, which stands at the place `at` of the set
/// that is tried. After a part that could not be judged nothing is guessed.
pub fn shrinks<J: Judge>(judge: &mut J, number: usize, at: usize, losing: &mut Losing)
    requires known { IsKnown J.size J.IsWinning judge.old losing.old }
    ensures guesses { Guesses J.size J.IsWinning J.MayFail J.faults judge.old judge.new losing.old losing.new }
{
    if !losing.guesses || !losing.has(number) {
        return;
    }
    losing.guesses = searches(judge, at, losing).is_ok();
}

// First the numbers that stay are asked about alone, and then a block of the others is sought, of which one number must
// stay: in it that number is sought by halves.
fn searches<J: Judge>(judge: &mut J, at: usize, losing: &mut Losing) -> Result<(), J::Fault>
    requires known { IsKnown J.size J.IsWinning judge.old losing.old }
    ensures guesses { Guesses J.size J.IsWinning J.MayFail J.faults judge.old judge.new losing.old losing.new }
{
    let all = losing.lost.len();
    if all.saturating_sub(at) <= FEW || loses(judge, losing, at, all, all, all)? {
        return Ok(());
    }
    let to = blocks(judge, losing, at)?;
    halves(judge, losing, at, to)
}

// The end of a block from `at` on, without which the set wins. The blocks that are tried begin at the end, and each is as
// large as all behind it.
fn blocks<J: Judge>(judge: &mut J, losing: &mut Losing, at: usize) -> Result<usize, J::Fault>
    requires known { IsKnown J.size J.IsWinning judge.old losing.old }
    ensures guesses { Guesses J.size J.IsWinning J.MayFail J.faults judge.old judge.new losing.old losing.new }
{
    let all = losing.lost.len();
    let mut to = all;
    while at < to {
        let from = to.saturating_sub((all - to).max(1)).max(at);
        if ends(judge, losing, at, from, to)? {
            return Ok(at + (to - from));
        }
        if from == at {
            return Ok(to);
        }
        to = from;
    }
    Ok(to)
}

// Whether the numbers that stay lose with a block and some of the last numbers behind it, of which there are more and more.
fn ends<J: Judge>(
    judge: &mut J,
    losing: &mut Losing,
    at: usize,
    from: usize,
    to: usize,
) -> Result<bool, J::Fault>
    requires known { IsKnown J.size J.IsWinning judge.old losing.old }
    ensures guesses { Guesses J.size J.IsWinning J.MayFail J.faults judge.old judge.new losing.old losing.new }
{
    let all = losing.lost.len();
    let rest = all.saturating_sub(to);
    let mut last = rest.min(1);
    // the set itself is known to lose
    while at < from || last < rest {
        if loses(judge, losing, at, from, to, all - last)? {
            return Ok(true);
        }
        if rest <= last {
            return Ok(false);
        }
        last += last.min(rest - last);
    }
    Ok(false)
}

// One number of the block between the places must stay: the halves of the block in which it isn't go, or stay for now.
fn halves<J: Judge>(
    judge: &mut J,
    losing: &mut Losing,
    at: usize,
    end: usize,
) -> Result<(), J::Fault>
    requires known { IsKnown J.size J.IsWinning judge.old losing.old }
    ensures guesses { Guesses J.size J.IsWinning J.MayFail J.faults judge.old judge.new losing.old losing.new }
{
    let mut long = end.saturating_sub(at);
    while 1 < long {
        let half = long / 2;
        let on = at.saturating_add(half);
        if loses(judge, losing, at, on, on, on)? {
            long -= half;
        } else {
            long = half;
        }
    }
    Ok(())
}

// Whether the numbers at some places of the losing set lose: before `at`, from `from` to before `to`, and from `on`. If so,
// they take its place.
fn loses<J: Judge>(
    judge: &mut J,
    losing: &mut Losing,
    at: usize,
    from: usize,
    to: usize,
    on: usize,
) -> Result<bool, J::Fault>
    requires known { IsKnown J.size J.IsWinning judge.old losing.old }
    ensures guesses { Guesses J.size J.IsWinning J.MayFail J.faults judge.old judge.new losing.old losing.new }
{
    let guess = losing.guess(at, from, to, on);
    pick(losing.lost.as_slice(), &guess, &mut losing.part);
    if judge.wins(losing.part.as_slice())? {
        return Ok(false);
    }
    std::mem::swap(&mut losing.lost, &mut losing.part);
    Ok(true)
}
