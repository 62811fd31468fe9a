//! Tables of triggers against a plain program that reads runs by the phases themselves, and knows nothing of positions and sets.

use crate::regexes::{any, eventually, repeat, var};
use spec_model::expr::{Expr, Regex};
use spec_model::game::Hidden;
use spec_model::spec::Trigger;
use spec_model::value::Value;
use std::alloc::{AllocError, Global};
use std::test::Fail;
use trigger_dfa::build;

/// How many positions the longest runs have.
const LENGTH: usize = 5;

// The set of this place alone; sets of places in a run are words.
fn place(t: usize) -> u32 {
    if t < 32 { 1 << t as u32 } else { 0 }
}

// Whether a bracket is true at a letter: bit 0 is variable 0, and bit 1 variable 1.
fn is_true(e: &Expr, letter: u8) -> bool {
    match e {
        Expr::Var(0) => letter & 1 != 0,
        Expr::Var(1) => letter & 2 != 0,
        Expr::Const(Value::Bool(b)) => *b,
        _ => false,
    }
}

// One position further from each place where the bracket is true.
fn past_bracket(e: &Expr, run: &[u8], from: u32) -> u32 {
    let mut to = 0;
    for (t, letter) in run.iter().enumerate() {
        if from & place(t) != 0 && is_true(e, *letter) {
            to |= place(t.wrapping_add(1));
        }
    }
    to
}

// Where the stretches that begin at these places and match may end.
#[cycle(ends)]
fn ends(r: &Regex, run: &[u8], from: u32) -> u32 {
    match r {
        Regex::Atom(e) => past_bracket(e, run, from),
        Regex::Cat(rs) => ends_in_turn(rs, run, from),
        Regex::Alt(rs) => ends_of_some(rs, run, from),
        Regex::Repeat(a, low, high) => ends_of_repeat(a, *low, *high, run, from),
    }
}

#[cycle(ends)]
fn ends_in_turn(rs: &[Regex], run: &[u8], from: u32) -> u32 {
    let mut at = from;
    for r in rs {
        at = ends(r, run, at);
    }
    at
}

#[cycle(ends)]
fn ends_of_some(rs: &[Regex], run: &[u8], from: u32) -> u32 {
    let mut all = 0;
    for r in rs {
        all |= ends(r, run, from);
    }
    all
}

// Past as many pieces as there are positions, each further one is empty.
#[cycle(ends)]
fn ends_of_repeat(a: &Regex, low: u16, high: Option<u16>, run: &[u8], from: u32) -> u32 {
    let mut at = from;
    for _ in 0..low {
        at = ends(a, run, at);
    }
    let more = match high {
        Some(high) => high.saturating_sub(low),
        None => LENGTH as u16,
    };
    let mut all = at;
    for _ in 0..more {
        at = ends(a, run, at);
        all |= at;
    }
    all
}

// Whether an effect is pending once each position is read: a phase ends where the positions since it began match.
fn pending(alloc: Global, trigger: &Trigger, run: &[u8]) -> Result<Vec<bool>, AllocError> {
    let mut waits = false;
    let mut began = 0;
    let mut all = Vec::new(alloc);
    for t in 0..run.len() {
        let side = if waits {
            &trigger.effect
        } else {
            &trigger.cause
        };
        let after = t.wrapping_add(1);
        if ends(side, run, place(began)) & place(after) != 0 {
            waits = !waits;
            began = after;
        }
        all.push(waits)?;
    }
    Ok(all)
}

// The cell of a table at a value and a letter of the variables.
fn cell(h: &Hidden, value: u16, letter: u8) -> usize {
    let mut number: usize = 0;
    let mut weight: usize = 1;
    for atom in &h.atoms {
        if is_true(atom, letter) {
            number = number.wrapping_add(weight);
        }
        weight = weight.wrapping_mul(2);
    }
    (value as usize).wrapping_mul(weight).wrapping_add(number)
}

// Whether the table's entry says the same at each position, by the values that the table moves through.
fn agrees(h: &Hidden, run: &[u8], pending: &[bool]) -> bool {
    let mut value = h.first;
    for (letter, waits) in run.iter().zip(pending) {
        let at = cell(h, value, *letter);
        let entry = h.tables.get(0).and_then(|table| table.get(at));
        if entry.copied() != Some(!*waits) {
            return false;
        }
        value = h.next.get(at).copied().unwrap_or(0);
    }
    true
}

// Runs of the longest length: the shorter ones begin them.
fn run(code: u16) -> [u8; 5] {
    let mut letters = [0; 5];
    let mut rest = code;
    for letter in &mut letters {
        *letter = (rest % 4) as u8;
        rest /= 4;
    }
    letters
}

// The runs at which the table tells something else.
fn count_wrong(alloc: Global, h: &Hidden, trigger: &Trigger) -> Result<u16, AllocError> {
    let mut wrong: u16 = 0;
    for code in 0..1024u16 {
        let letters = run(code);
        let waits = pending(alloc, trigger, &letters)?;
        if !agrees(h, &letters, &waits) {
            wrong = wrong.saturating_add(1);
        }
    }
    Ok(wrong)
}

// `([c]{1,2} [d]*){2}`
fn nested(alloc: Global) -> Result<Regex, AllocError> {
    let causes = repeat(alloc, var(0), 1, Some(2))?;
    let effects = repeat(alloc, var(1), 0, None)?;
    let both = Regex::Cat(vec![in alloc; causes, effects]?);
    repeat(alloc, both, 2, Some(2))
}

// `[c] [c]`, `[c] | [d] [c]`, and `[c]{0} [d]`
fn twice(alloc: Global) -> Result<Regex, AllocError> {
    Ok(Regex::Cat(vec![in alloc; var(0), var(0)]?))
}

fn either(alloc: Global) -> Result<Regex, AllocError> {
    let second = Regex::Cat(vec![in alloc; var(1), var(0)]?);
    Ok(Regex::Alt(vec![in alloc; var(0), second]?))
}

fn skipped(alloc: Global) -> Result<Regex, AllocError> {
    let none = repeat(alloc, var(0), 0, Some(0))?;
    Ok(Regex::Cat(vec![in alloc; none, var(1)]?))
}

fn triggers(alloc: Global) -> Result<Vec<(&'static str, Regex, Regex)>, AllocError> {
    let mut all = Vec::new(alloc);
    all.push((
        "once c, then once d",
        eventually(alloc, 0)?,
        eventually(alloc, 1)?,
    ))?;
    all.push((
        "nested repeats",
        nested(alloc)?,
        repeat(alloc, var(0), 1, None)?,
    ))?;
    all.push(("alternatives", either(alloc)?, nested(alloc)?))?;
    all.push(("equal brackets", twice(alloc)?, twice(alloc)?))?;
    all.push((
        "a bracket that is left out",
        skipped(alloc)?,
        repeat(alloc, any(), 2, Some(3))?,
    ))?;
    all.push((
        "a cause that matches nothing but the empty stretch",
        repeat(alloc, var(0), 0, Some(0))?,
        var(1),
    ))?;
    all.push((
        "an effect that may be empty",
        var(0),
        repeat(alloc, var(1), 0, None)?,
    ))?;
    Ok(all)
}

#[test]
fn tables_tell_what_the_phases_tell_on_all_short_runs(rt: HostRuntime) -> Result<(), Fail> {
    let alloc = rt.alloc();
    for (name, cause, effect) in triggers(alloc)? {
        let trigger = Trigger { cause, effect };
        let hidden = build(alloc, &trigger).expect(&rt, "a narrow trigger");
        assert_eq!(rt; count_wrong(alloc, &hidden, &trigger)?, 0, "{name}");
    }
    Ok(())
}
