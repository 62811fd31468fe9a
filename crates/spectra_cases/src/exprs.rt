//! The formulas of parts without parts, and of operators above others.

ghost use Rattle.std.specs.Prelude.{◌≡◌, ◌∷◌, [], map, IfOk};
ghost use Rattle.spec_model.specs.Views.{formula};
ghost use Rattle.spec_model.specs.Syntax.{Variable, Conjunction, Disjunction, PastOf, formulas};
ghost use Rattle.spectra_cases.specs.Formulas.{leaf_formula, prefix_formula, binary_formula, equals};

use spec_model::expr::{Compare, Expr, Past};
use spec_model::value::Value;
use spectra_resolved::tree::Leaf;
use spectra_trees::tree::{BinaryWord, PrefixWord};
use std::alloc::{AllocError, Global};

/// A variable by its number. No text has one past 32 bits.
pub fn variable(number: usize) -> Result<Expr, AllocError>
    ensures { IfOk result (λ e. formula e ≡ Variable number) }
{
    if number > 4_294_967_295 {
        return Err(AllocError);
    }
    Ok(Expr::Var(number as u32))
}

// An enum name by its number, which is cut to 16 bits. No text without faults has one past these.
fn enum_name(number: usize) -> Expr
    ensures { formula result ≡ leaf_formula 0 (Leaf.EnumName number) }
{
    Expr::Const(Value::Name(number.min(65_535) as u16))
}

/// A part without parts, behind so many parameters.
#[inline(never)]
pub fn leaf_expr(params: usize, leaf: Leaf) -> Result<Expr, AllocError>
    ensures { IfOk result (λ e. formula e ≡ leaf_formula params leaf) }
{
    match leaf {
        Leaf::Truth(b) => Ok(Expr::Const(Value::Bool(b))),
        Leaf::Number(z) => Ok(Expr::Const(Value::Int(z))),
        Leaf::EnumName(n) => Ok(enum_name(n)),
        Leaf::Variable(k) => variable(k),
        Leaf::Parameter(k) => variable(k),
        Leaf::Own(k) => match params.checked_add(k) {
            Some(number) => variable(number),
            None => Err(AllocError),
        },
        Leaf::Define(_) => Ok(Expr::Const(Value::Bool(true))),
        Leaf::Bound(_) => Ok(Expr::Const(Value::Bool(true))),
        Leaf::Hole(_) => Ok(Expr::Const(Value::Bool(true))),
    }
}

/// An operator before its operand.
#[inline(never)]
pub fn prefixed(alloc: Global, word: PrefixWord, e: Expr) -> Result<Expr, AllocError>
    ensures { IfOk result (λ made. formula made ≡ prefix_formula word (formula e)) }
{
    match word {
        PrefixWord::Not => Ok(Expr::Not(Box::new(alloc, e)?)),
        PrefixWord::Prev => Ok(Expr::Past(Past::Prev, vec![in alloc; e]?)),
        PrefixWord::Once => Ok(Expr::Past(Past::Once, vec![in alloc; e]?)),
        PrefixWord::Historically => Ok(Expr::Past(Past::Historically, vec![in alloc; e]?)),
    }
}

// A past operator between its operands.
fn past_pair(alloc: Global, past: Past, a: Expr, b: Expr) -> Result<Expr, AllocError>
    ensures { IfOk result (λ made. formula made ≡ PastOf past (formulas (formula a ∷ formula b ∷ []))) }
{
    Ok(Expr::Past(past, vec![in alloc; a, b]?))
}

/// An operator between its operands.
#[inline(never)]
pub fn joined(alloc: Global, word: BinaryWord, a: Expr, b: Expr) -> Result<Expr, AllocError>
    ensures { IfOk result (λ made. formula made ≡ binary_formula word (formula a) (formula b)) }
{
    match word {
        BinaryWord::Since => return past_pair(alloc, Past::Since, a, b),
        BinaryWord::Triggered => return past_pair(alloc, Past::Triggered, a, b),
        _ => {}
    }
    let a = Box::new(alloc, a)?;
    let b = Box::new(alloc, b)?;
    match word {
        BinaryWord::Implies => Ok(Expr::Implies(a, b)),
        BinaryWord::Iff => Ok(Expr::Iff(a, b)),
        BinaryWord::Eq => Ok(Expr::Cmp(Compare::Eq, a, b)),
        BinaryWord::Ne => Ok(Expr::Cmp(Compare::Ne, a, b)),
        BinaryWord::Lt => Ok(Expr::Cmp(Compare::Lt, a, b)),
        BinaryWord::Le => Ok(Expr::Cmp(Compare::Le, a, b)),
        BinaryWord::Gt => Ok(Expr::Cmp(Compare::Gt, a, b)),
        BinaryWord::Ge => Ok(Expr::Cmp(Compare::Ge, a, b)),
        BinaryWord::Add => Ok(Expr::Add(a, b)),
        BinaryWord::Sub => Ok(Expr::Sub(a, b)),
        BinaryWord::Mul => Ok(Expr::Mul(a, b)),
        BinaryWord::Since | BinaryWord::Triggered => unreachable!(),
    }
}

/// That an expression is this number, at the next position where it stands under a `next`. The error is that memory is short, or a
/// number past 32 bits, which no text has.
pub fn equation(alloc: Global, under: bool, e: Expr, number: usize) -> Result<Expr, AllocError>
    ensures { IfOk result (λ made. formula made ≡ equals under (formula e) number) }
{
    if number > 4_294_967_295 {
        return Err(AllocError);
    }
    let constant = Box::new(alloc, Expr::Const(Value::Int(number as i64)))?;
    let read = Box::new(alloc, e)?;
    if under {
        let shifted = Box::new(alloc, Expr::Next(read))?;
        return Ok(Expr::Cmp(Compare::Eq, shifted, constant));
    }
    Ok(Expr::Cmp(Compare::Eq, read, constant))
}

/// That two formulas hold.
pub fn both(alloc: Global, a: Expr, b: Expr) -> Result<Expr, AllocError>
    ensures { IfOk result (λ made. formula made ≡ Conjunction (formulas (formula a ∷ formula b ∷ []))) }
{
    Ok(Expr::And(vec![in alloc; a, b]?))
}

/// That one of several formulas holds.
pub fn one_of(all: Vec<Expr>) -> Expr
    ensures { formula result ≡ Disjunction (formulas (map formula all.items)) }
{
    Expr::Or(all)
}
