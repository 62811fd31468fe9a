//! Which slots an expression reads.

use crate::OutOfMemory;
use spec_model::expr::Expr;
use std::alloc::Global;

/// The slots that are marked, each once.
#[derive(Drop)]
pub struct Marks {
    marked: Vec<bool>,
    pub slots: Vec<usize>,
}

impl Marks {
    /// No slot is marked of so many.
    pub fn make(alloc: Global, count: usize) -> Result<Marks, OutOfMemory> {
        Ok(Marks {
            marked: vec![in alloc; false; count]?,
            slots: Vec::with_capacity(alloc, count)?,
        })
    }

    /// Marks a slot.
    pub fn mark(&mut self, slot: usize) -> Result<(), OutOfMemory> {
        if let Some(marked) = self.marked.get_mut(slot) {
            if !*marked {
                *marked = true;
                self.slots.push(slot)?;
            }
        }
        Ok(())
    }

    /// Takes all marks away.
    pub fn clear(&mut self) {
        for &slot in &self.slots {
            if let Some(marked) = self.marked.get_mut(slot) {
                *marked = false;
            }
        }
        self.slots.truncate(0);
    }
}

/// Marks each slot that an expression reads, present or next. `places` has the slot of each variable; a hidden table's
/// number is its slot.
#[cycle(marking)]
pub fn mark_slots(places: &[usize], e: &Expr, marks: &mut Marks) -> Result<(), OutOfMemory> {
    match e {
        Expr::Const(_) => Ok(()),
        Expr::Var(x) => match places.get(*x as usize) {
            Some(&slot) => marks.mark(slot),
            None => Ok(()),
        },
        Expr::Table(h, _) => marks.mark(*h as usize),
        Expr::Next(a) => mark_slots(places, a, marks),
        Expr::Not(a) => mark_slots(places, a, marks),
        Expr::Mod(a, _) => mark_slots(places, a, marks),
        Expr::And(es) => mark_each(places, es, marks),
        Expr::Or(es) => mark_each(places, es, marks),
        Expr::Past(_, es) => mark_each(places, es, marks),
        Expr::Implies(a, b) => {
            mark_slots(places, a, marks)?;
            mark_slots(places, b, marks)
        }
        Expr::Iff(a, b) => {
            mark_slots(places, a, marks)?;
            mark_slots(places, b, marks)
        }
        Expr::Cmp(_, a, b) => {
            mark_slots(places, a, marks)?;
            mark_slots(places, b, marks)
        }
        Expr::Add(a, b) => {
            mark_slots(places, a, marks)?;
            mark_slots(places, b, marks)
        }
        Expr::Sub(a, b) => {
            mark_slots(places, a, marks)?;
            mark_slots(places, b, marks)
        }
        Expr::Mul(a, b) => {
            mark_slots(places, a, marks)?;
            mark_slots(places, b, marks)
        }
    }
}

/// Marks each slot that one of several expressions reads.
#[cycle(marking)]
pub fn mark_each(places: &[usize], es: &[Expr], marks: &mut Marks) -> Result<(), OutOfMemory> {
    for e in es {
        mark_slots(places, e, marks)?;
    }
    Ok(())
}
