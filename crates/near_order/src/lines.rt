//! The slots that each line of a game reads, and the lines that read each slot.
//!
//! Parts of a line that read few slots count as lines beside: the operands of its conjunctions and disjunctions, and the cases of
//! one number in what else stands there. So what a quantifier says of each number ties the slots of this number, and elements at
//! one index those of one case.

use crate::OutOfMemory;
use crate::cases::{gather, longest, mark_case};
use crate::marking::{Marks, mark_each, mark_slots};
use crate::share::weight;
use spec_model::expr::Expr;
use spec_model::game::{Game, Hidden};
use spec_model::value::{Owner, Var};
use std::alloc::Global;

/// How deep conjunctions and disjunctions are looked through for operands.
const LEVELS: usize = 4;

/// The most slots of a part that counts.
const FEW: usize = 8;

/// No part counts behind so many lines.
const MOST: usize = 100_000;

/// The slots that a line reads, and what it weighs.
#[derive(Drop)]
pub struct Read {
    pub slots: Vec<usize>,
    pub weight: u64,
}

/// The slots of each line, and the lines of each slot with what they weigh together.
#[derive(Drop)]
pub struct Lines {
    pub slots: Vec<Read>,
    pub lines: Vec<Vec<usize>>,
    weights: Vec<u64>,
}

/// Adds the slots of an owner's variables, the first of which is `next`.
fn place_each(places: &mut [usize], vars: &[Var], owner: Owner, next: usize) -> usize {
    let mut next = next;
    for k in 0..vars.len() {
        if vars[k].owner == owner {
            if let Some(place) = places.get_mut(k) {
                *place = next;
            }
            next = next.wrapping_add(1);
        }
    }
    next
}

/// The slot of each variable: those of hidden tables stand first, then inputs, then outputs.
fn places_of(alloc: Global, game: &Game) -> Result<Vec<usize>, OutOfMemory> {
    let mut places = vec![in alloc; 0; game.vars.len()]?;
    let inputs = place_each(&mut places, &game.vars, Owner::Env, game.hidden.len());
    let _ = place_each(&mut places, &game.vars, Owner::Sys, inputs);
    Ok(places)
}

/// Marks these slots with a number, and counts those that had another mark.
fn mark_new(marks: &mut [usize], slots: &[usize], number: usize) -> u32 {
    let mut new = 0;
    for &slot in slots {
        if let Some(mark) = marks.get_mut(slot) {
            if *mark != number {
                *mark = number;
                new = u32::saturating_add(new, 1);
            }
        }
    }
    new
}

impl Lines {
    fn make(alloc: Global, count: usize) -> Result<Lines, OutOfMemory> {
        let mut lines = Vec::with_capacity(alloc, count)?;
        for _ in 0..count {
            lines.push(Vec::new(alloc))?;
        }
        Ok(Lines {
            slots: Vec::new(alloc),
            lines,
            weights: vec![in alloc; 0; count]?,
        })
    }

    /// Adds the line that reads the marked slots, and takes the marks away.
    fn add(&mut self, alloc: Global, marks: &mut Marks) -> Result<(), OutOfMemory> {
        let number = self.slots.len();
        let weight = weight(marks.slots.len());
        let mut slots = Vec::with_capacity(alloc, marks.slots.len())?;
        for &slot in &marks.slots {
            slots.push(slot)?;
            if let Some(lines) = self.lines.get_mut(slot) {
                lines.push(number)?;
            }
            if let Some(all) = self.weights.get_mut(slot) {
                *all = all.saturating_add(weight);
            }
        }
        marks.clear();
        self.slots.push(Read { slots, weight })?;
        Ok(())
    }

    /// Adds the marked slots as a line where they count, in what reads so many slots, and takes the marks away.
    fn add_part(
        &mut self,
        alloc: Global,
        around: usize,
        marks: &mut Marks,
    ) -> Result<(), OutOfMemory> {
        let own = marks.slots.len();
        if own > 1 && own < around && own <= FEW && self.slots.len() < MOST {
            self.add(alloc, marks)
        } else {
            marks.clear();
            Ok(())
        }
    }

    /// Adds the cases of each number in an expression that reads so many slots.
    fn add_cases(
        &mut self,
        alloc: Global,
        places: &[usize],
        e: &Expr,
        around: usize,
        marks: &mut Marks,
    ) -> Result<(), OutOfMemory> {
        let mut cases = Vec::new(alloc);
        gather(e, &mut cases)?;
        for number in 0..longest(&cases) {
            mark_case(places, &cases, number, marks)?;
            self.add_part(alloc, around, marks)?;
        }
        Ok(())
    }

    /// Adds those of several operands that count, and their parts.
    #[cycle(parts)]
    fn add_operands(
        &mut self,
        alloc: Global,
        places: &[usize],
        es: &[Expr],
        around: usize,
        levels: usize,
        marks: &mut Marks,
    ) -> Result<(), OutOfMemory> {
        for e in es {
            mark_slots(places, e, marks)?;
            let own = marks.slots.len();
            self.add_part(alloc, around, marks)?;
            if own > 1 && levels > 0 {
                self.add_parts(alloc, places, e, own, levels - 1, marks)?;
            }
        }
        Ok(())
    }

    /// Adds the parts of an expression that reads so many slots: its operands, where it is a conjunction or a disjunction, and
    /// else its cases.
    #[cycle(parts)]
    fn add_parts(
        &mut self,
        alloc: Global,
        places: &[usize],
        e: &Expr,
        own: usize,
        levels: usize,
        marks: &mut Marks,
    ) -> Result<(), OutOfMemory> {
        match e {
            Expr::And(es) => self.add_operands(alloc, places, es, own, levels, marks),
            Expr::Or(es) => self.add_operands(alloc, places, es, own, levels, marks),
            _ => self.add_cases(alloc, places, e, own, marks),
        }
    }

    fn add_each(
        &mut self,
        alloc: Global,
        places: &[usize],
        lines: &[(u32, Expr)],
        marks: &mut Marks,
    ) -> Result<(), OutOfMemory> {
        for line in lines {
            mark_slots(places, &line.1, marks)?;
            let own = marks.slots.len();
            self.add(alloc, marks)?;
            self.add_parts(alloc, places, &line.1, own, LEVELS, marks)?;
        }
        Ok(())
    }

    /// A hidden table is a line of itself and of what its atoms read.
    fn add_tables(
        &mut self,
        alloc: Global,
        places: &[usize],
        hidden: &[Hidden],
        marks: &mut Marks,
    ) -> Result<(), OutOfMemory> {
        for h in 0..hidden.len() {
            mark_each(places, &hidden[h].atoms, marks)?;
            marks.mark(h)?;
            self.add(alloc, marks)?;
        }
        Ok(())
    }

    /// The lines of a game that aren't goals, with its hidden tables, over so many slots.
    pub fn of(alloc: Global, game: &Game, count: usize) -> Result<Lines, OutOfMemory> {
        let places = places_of(alloc, game)?;
        let mut marks = Marks::make(alloc, count)?;
        let mut all = Lines::make(alloc, count)?;
        all.add_each(alloc, &places, &game.initial_asm, &mut marks)?;
        all.add_each(alloc, &places, &game.initial_gar, &mut marks)?;
        all.add_each(alloc, &places, &game.safe_asm, &mut marks)?;
        all.add_each(alloc, &places, &game.safe_gar, &mut marks)?;
        all.add_tables(alloc, &places, &game.hidden, &mut marks)?;
        Ok(all)
    }

    /// How many lines read a slot.
    pub fn count(&self, slot: usize) -> u32 {
        match self.lines.get(slot) {
            Some(lines) => u32::try_from(lines.len()).unwrap_or(u32::MAX),
            None => 0,
        }
    }

    /// What the lines that read a slot weigh.
    pub fn weight(&self, slot: usize) -> u64 {
        match self.weights.get(slot) {
            Some(&weight) => weight,
            None => 0,
        }
    }

    /// How many slots stand in a line with this one that aren't marked with its number yet; they are.
    fn mark_others(&self, slot: usize, marks: &mut [usize]) -> u32 {
        let mut others = 0;
        if let Some(lines) = self.lines.get(slot) {
            for &line in lines {
                if let Some(read) = self.slots.get(line) {
                    others = u32::saturating_add(others, mark_new(marks, &read.slots, slot));
                }
            }
        }
        others
    }

    /// How many slots stand in a line with each, itself included.
    pub fn others(&self, alloc: Global) -> Result<Vec<u32>, OutOfMemory> {
        let count = self.lines.len();
        let mut marks = vec![in alloc; count; count]?;
        let mut all = Vec::with_capacity(alloc, count)?;
        for slot in 0..count {
            all.push(self.mark_others(slot, &mut marks))?;
        }
        Ok(all)
    }
}
