//! Regular expressions of triggers.

use spec_model::expr::{Expr, Regex};
use spec_model::value::Value;
use std::alloc::{AllocError, Global};

/// A bracket with a variable.
pub fn var(k: u32) -> Regex {
    Regex::Atom(Expr::Var(k))
}

/// `[true]`
pub fn any() -> Regex {
    Regex::Atom(Expr::Const(Value::Bool(true)))
}

/// A regular expression so many times, or more where there is no upper number.
pub fn repeat(alloc: Global, r: Regex, low: u16, high: Option<u16>) -> Result<Regex, AllocError> {
    Ok(Regex::Repeat(Box::new(alloc, r)?, low, high))
}

/// `[true]* [k]`
pub fn eventually(alloc: Global, k: u32) -> Result<Regex, AllocError> {
    Ok(Regex::Cat(vec![in alloc; repeat(alloc, any(), 0, None)?, var(k)]?))
}
