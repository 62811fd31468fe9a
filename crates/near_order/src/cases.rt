//! The lists of cases in an expression: an element of an array is read in each case of its index.

use crate::OutOfMemory;
use crate::marking::{Marks, mark_slots};
use spec_model::expr::Expr;

/// The most lists of an expression that count.
const LISTS: usize = 8;

/// Lists of cases, each of which says which case it is and what holds in it.
pub type Cases<'s> = Vec<&'s [Expr]>;

/// Whether each of several expressions is a conjunction.
fn are_cases(es: &[Expr]) -> bool {
    for e in es {
        match e {
            Expr::And(_) => {}
            _ => return false,
        }
    }
    true
}

/// Adds the lists of cases that an expression has, as long as they count.
#[cycle(gathering)]
pub fn gather<'s>(e: &'s Expr, cases: &mut Cases<'s>) -> Result<(), OutOfMemory> {
    match e {
        Expr::Or(es) => {
            if !are_cases(es) {
                return gather_each(es, cases);
            }
            if cases.len() < LISTS {
                cases.push(es)?;
            }
            Ok(())
        }
        Expr::And(es) => gather_each(es, cases),
        Expr::Not(a) => gather(a, cases),
        Expr::Implies(a, b) => {
            gather(a, cases)?;
            gather(b, cases)
        }
        Expr::Iff(a, b) => {
            gather(a, cases)?;
            gather(b, cases)
        }
        _ => Ok(()),
    }
}

/// Adds those that several expressions have.
#[cycle(gathering)]
fn gather_each<'s>(es: &'s [Expr], cases: &mut Cases<'s>) -> Result<(), OutOfMemory> {
    for e in es {
        gather(e, cases)?;
    }
    Ok(())
}

/// How many cases the longest list has.
pub fn longest(cases: &Cases<'_>) -> usize {
    let mut most = 0;
    for list in cases {
        most = most.max(list.len());
    }
    most
}

/// Marks each slot that the case of this number reads in one of the lists.
pub fn mark_case(
    places: &[usize],
    cases: &Cases<'_>,
    number: usize,
    marks: &mut Marks,
) -> Result<(), OutOfMemory> {
    for list in cases {
        if let Some(e) = list.get(number) {
            mark_slots(places, e, marks)?;
        }
    }
    Ok(())
}
