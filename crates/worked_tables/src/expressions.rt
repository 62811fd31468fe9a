//! Planes of expressions over a short run, worked out by hand: they show that each kind of expression is read by planes, as
//! far as one is.

ghost use Rattle.std.specs.Prelude.{◌≡◌};

use column_planes::{Columns, plane};
use game_values::seen::At;
use spec_model::expr::{Compare, Expr, Past};
use spec_model::game::Hidden;
use spec_model::value::{Domain, Owner, Value, Var};
use std::alloc::{AllocError, Global};
use std::test::Fail;

/// A truth value a, variable 0, and a number n, variable 1.
fn variables(alloc: Global) -> Result<Vec<Var>, AllocError> {
    let a = Var {
        name: String::from_str(alloc, "a")?,
        owner: Owner::Env,
        domain: Domain::Boolean,
    };
    let n = Var {
        name: String::from_str(alloc, "n")?,
        owner: Owner::Sys,
        domain: Domain::Range { lo: 0, hi: 9 },
    };
    Ok(vec![in alloc; a, n]?)
}

/// A table of two values with one atom: its entry is true at the first value where the atom is, and at the second where it isn't.
fn tables(alloc: Global) -> Result<Vec<Hidden>, AllocError> {
    let entries = vec![in alloc; false, true, true, false]?;
    let hidden = Hidden {
        values: 2,
        first: 0,
        atoms: vec![in alloc; Expr::Var(0)]?,
        next: vec![in alloc; 0, 1, 0, 1]?,
        tables: vec![in alloc; entries]?,
    };
    Ok(vec![in alloc; hidden]?)
}

fn number(alloc: Global, k: i64) -> Result<Box<Expr>, AllocError> {
    Ok(Box::new(alloc, Expr::Const(Value::Int(k)))?)
}

fn variable(alloc: Global, k: u32) -> Result<Box<Expr>, AllocError> {
    Ok(Box::new(alloc, Expr::Var(k))?)
}

/// The variable at the next position.
fn later(alloc: Global, k: u32) -> Result<Box<Expr>, AllocError> {
    let e = Expr::Next(variable(alloc, k)?);
    Ok(Box::new(alloc, e)?)
}

/// The plane of the expression at three moves, if it has one.
fn shown(e: &Expr, at: At, c: Columns) -> Option<u64>
    requires { c.bits ≡ 3 }
{
    let mut room = [0_u64; 16];
    let mut out = [0_u64];
    if plane(e, at, c, &mut room, &mut out) {
        Some(out[0] & 7)
    } else {
        None
    }
}

/// The expressions of truth values, each with its plane: a bit for each move, the first move's is the least one.
fn of_truths(alloc: Global) -> Result<Vec<(Expr, u64)>, AllocError> {
    let mut cases = Vec::new(alloc);
    cases.push((Expr::Const(Value::Bool(true)), 0b111))?;
    cases.push((Expr::Var(0), 0b101))?;
    cases.push((Expr::Next(variable(alloc, 0)?), 0b110))?;
    cases.push((Expr::Not(variable(alloc, 0)?), 0b010))?;
    let both = vec![in alloc; Expr::Var(0), Expr::Next(variable(alloc, 0)?)]?;
    cases.push((Expr::And(both), 0b100))?;
    let some = vec![in alloc; Expr::Var(0), Expr::Next(variable(alloc, 0)?)]?;
    cases.push((Expr::Or(some), 0b111))?;
    cases.push((Expr::Implies(variable(alloc, 0)?, later(alloc, 0)?), 0b110))?;
    cases.push((Expr::Iff(variable(alloc, 0)?, later(alloc, 0)?), 0b100))?;
    cases.push((Expr::Table(0, 0), 0b110))?;
    Ok(cases)
}

/// The comparisons, likewise.
fn of_numbers(alloc: Global) -> Result<Vec<(Expr, u64)>, AllocError> {
    let mut cases = Vec::new(alloc);
    let equal = Expr::Cmp(Compare::Eq, variable(alloc, 1)?, number(alloc, 5)?);
    cases.push((equal, 0b110))?;
    let other = Expr::Cmp(Compare::Ne, variable(alloc, 1)?, number(alloc, 5)?);
    cases.push((other, 0b001))?;
    let rising = Expr::Cmp(Compare::Lt, variable(alloc, 1)?, later(alloc, 1)?);
    cases.push((rising, 0b101))?;
    let sum = Expr::Add(variable(alloc, 1)?, number(alloc, 2)?);
    let sum = Expr::Cmp(Compare::Ge, Box::new(alloc, sum)?, number(alloc, 7)?);
    cases.push((sum, 0b110))?;
    let difference = Expr::Sub(variable(alloc, 1)?, number(alloc, 3)?);
    let difference = Expr::Cmp(Compare::Eq, Box::new(alloc, difference)?, number(alloc, 0)?);
    cases.push((difference, 0b001))?;
    let product = Expr::Mul(variable(alloc, 1)?, number(alloc, 2)?);
    let product = Expr::Cmp(Compare::Gt, Box::new(alloc, product)?, number(alloc, 9)?);
    cases.push((product, 0b110))?;
    let remainder = Expr::Mod(variable(alloc, 1)?, 3);
    let remainder = Expr::Cmp(Compare::Eq, Box::new(alloc, remainder)?, number(alloc, 2)?);
    cases.push((remainder, 0b110))?;
    Ok(cases)
}

#[test]
fn each_kind_of_expression_is_read_by_planes(rt: HostRuntime) -> Result<(), Fail> {
    let alloc = rt.alloc();
    let vars = variables(alloc)?;
    let hidden = tables(alloc)?;
    // At four positions a is true, false, true and true; n is 3, 5, 5 and 9; and the cell of the table is 0, 1, 2 and 3.
    let mut codes = [0_u16; 8_192];
    codes[0] = 1;
    codes[2] = 1;
    codes[3] = 1;
    codes[4_096..4_100].copy_from_slice(&[3, 5, 5, 9]);
    let mut cells = [0_usize; 4_096];
    cells[1] = 1;
    cells[2] = 2;
    cells[3] = 3;
    let c = Columns {
        vars: &vars,
        hidden: &hidden,
        codes: &codes,
        cells: &cells,
        bits: 3,
    };
    for (k, (e, wanted)) in of_truths(alloc)?.iter().enumerate() {
        assert_eq!(rt; shown(e, At::Now, c), Some(*wanted), "truth value {k}");
    }
    for (k, (e, wanted)) in of_numbers(alloc)?.iter().enumerate() {
        assert_eq!(rt; shown(e, At::Now, c), Some(*wanted), "comparison {k}");
    }
    assert_eq!(rt;
        shown(&Expr::Var(0), At::Next, c),
        Some(0b110),
        "a at the next positions"
    );
    let before = Expr::Past(Past::Prev, vec![in alloc; Expr::Var(0)]?);
    assert_eq!(rt;
        shown(&before, At::Now, c),
        None,
        "a game has no past operators"
    );
    Ok(())
}
