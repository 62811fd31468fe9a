//! Tables of past operators, run over all short runs of two truth values.

use past_bits::bits;
use spec_model::expr::{Expr, Past};
use spec_model::game::Hidden;
use spec_model::spec::{Body, Line, Role, Spec};
use std::alloc::{AllocError, Global};
use std::test::Fail;

/// A specification with a guarantee for each body.
fn spec(alloc: Global, bodies: Vec<Body>) -> Result<Spec, AllocError> {
    let mut lines = Vec::new(alloc);
    let mut number: u32 = 0;
    for body in bodies {
        number = number.wrapping_add(1);
        lines.push(Line {
            number,
            name: None,
            role: Role::Guarantee,
            body,
        })?;
    }
    Ok(Spec {
        names: Vec::new(alloc),
        vars: Vec::new(alloc),
        patterns: Vec::new(alloc),
        triggers: Vec::new(alloc),
        lines,
    })
}

fn one(alloc: Global, op: Past, a: Expr) -> Result<Expr, AllocError> {
    Ok(Expr::Past(op, vec![in alloc; a]?))
}

fn two(alloc: Global, op: Past, a: Expr, b: Expr) -> Result<Expr, AllocError> {
    Ok(Expr::Past(op, vec![in alloc; a, b]?))
}

/// The value at a position, or false past the end.
fn at(run: &[bool], t: usize) -> bool {
    run.get(t).copied().unwrap_or(false)
}

/// Whether a run is true at each position from one to another.
fn stays(run: &[bool], from: usize, to: usize) -> bool {
    let mut all = true;
    for i in 0..run.len() {
        all = all && (i < from || to < i || run[i]);
    }
    all
}

/// The operators by their meaning: some position up to now, or all, or since one.
fn expected(op: Past, a: &[bool], b: &[bool], now: usize) -> bool {
    let mut found = op == Past::Historically;
    for k in 0..a.len() {
        let before = k <= now;
        match op {
            Past::Prev => found = found || (now > 0 && k == now - 1 && at(a, k)),
            Past::Once => found = found || (before && at(a, k)),
            Past::Historically => found = found && (!before || at(a, k)),
            Past::Since => found = found
                || (before && at(b, k) && (k == now || stays(a, k + 1, now))),
            Past::Triggered => {
                found = found || (before && (k == 0 || at(a, k)) && stays(b, k, now));
            }
        }
    }
    found
}

/// The cell of a table whose atoms are variables.
fn cell(h: &Hidden, value: u16, a: bool, b: bool) -> usize {
    let mut letter: usize = 0;
    let mut weight: usize = 1;
    for atom in &h.atoms {
        let is_true = match atom {
            Expr::Var(0) => a,
            _ => b,
        };
        letter = letter.wrapping_add(weight.wrapping_mul(usize::from(is_true)));
        weight = weight.wrapping_mul(2);
    }
    (value as usize).wrapping_mul(weight).wrapping_add(letter)
}

/// What a table's entry is at a position, by the values that the table moves through.
fn entry(h: &Hidden, a: &[bool], b: &[bool], now: usize) -> Option<bool> {
    let mut value = h.first;
    for t in 0..now {
        value = *h.next.get(cell(h, value, at(a, t), at(b, t)))?;
    }
    h.tables
        .get(0)?
        .get(cell(h, value, at(a, now), at(b, now)))
        .copied()
}

#[test]
fn each_entry_is_its_operator_at_three_positions(rt: HostRuntime) -> Result<(), Fail> {
    let alloc = rt.alloc();
    let ops = [
        Past::Prev,
        Past::Once,
        Past::Historically,
        Past::Since,
        Past::Triggered,
    ];
    let mut bodies = Vec::new(alloc);
    for op in ops {
        let tree = match op {
            Past::Since | Past::Triggered => two(alloc, op, Expr::Var(0), Expr::Var(1))?,
            _ => one(alloc, op, Expr::Var(0))?,
        };
        bodies.push(Body::Safety(tree))?;
    }
    let pairs = bits(alloc, &spec(alloc, bodies)?)?;
    assert_eq!(rt; pairs.len(), 5);
    for run in 0..64u8 {
        let a = [run & 1 != 0, run & 2 != 0, run & 4 != 0];
        let b = [run & 8 != 0, run & 16 != 0, run & 32 != 0];
        for (k, pair) in pairs.iter().enumerate() {
            for now in 0..3 {
                let op = ops.get(k).copied().unwrap_or(Past::Prev);
                let found = entry(&pair.1, &a, &b, now);
                assert!(rt;
                    found == Some(expected(op, &a, &b, now)),
                    "operator {k} of {run} at {now}"
                );
            }
        }
    }
    Ok(())
}
