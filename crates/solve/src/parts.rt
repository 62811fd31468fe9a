//! Parts of a specification's guarantees, which are judged by solving.

ghost use Rattle.std.specs.Prelude.{◌≡◌, ◌≤◌, ◌<◌, length, map, filter, All, vec_capacity, IfOk};
ghost use Rattle.std.proofs.Props.{props};
ghost use Rattle.spec_model.specs.Views.{line_data, spec_data};
ghost use Rattle.spec_model.specs.Moves.{is_guarantee};
ghost use Rattle.spec_model.specs.WellTyped.{WellTyped};
ghost use Rattle.spec_model.specs.Cores.{guarantees_of};
ghost use Rattle.solve.specs.Places.{at_places};
ghost use Rattle.spec_model.proofs.OneSpelling.{IsName-prop, IsVariableName-prop};

use crate::answers::Numbers;
use crate::deciding::part_numbers;
use core_min::Judge;
use regions::Halt;
use spec_model::spec::{Line, Role, Spec};
use std::alloc::{AllocError, Global};

/// Parts of the guarantees of a specification, each by the places of its guarantees in text order. A part wins if the
/// specification with those guarantees alone is realizable.
#[derive(Drop)]
pub struct Parts<'a> {
    alloc: Global,
    spec: &'a Spec,
    /// The line numbers of all guarantees.
    numbers: &'a [u32],
    /// The line numbers of the part that is judged.
    part: Vec<u32>,
    /// The budget of each part.
    budget: u32,
    /// Whether the near order comes first. One part for which the nodes ran out there ends that for all later ones.
    near: bool,
    faults: u64,
    fault: Option<Halt>,
    /// The part that the last fault was answered for.
    asked: Vec<usize>,
    ghost typed: { WellTyped (spec_data spec.now) } by { Prim.hlevel (props, IsName-prop, IsVariableName-prop) },
    ghost enough: { 2 ≤ budget },
    ghost numbered: { numbers.now ≡ guarantees_of (spec_data spec.now) },
    ghost part_room: { length numbers.now ≤ vec_capacity part },
    ghost asked_room: { length numbers.now ≤ vec_capacity asked },
}

impl<'a> Parts<'a> {
    ghost use Rattle.solve.specs.Judged.{whole_of};

    /// Takes all the room that judging parts wants for itself.
    pub fn make(
        alloc: Global,
        spec: &'a Spec,
        numbers: &'a [u32],
        budget: u32,
    ) -> Result<Parts<'a>, AllocError>
        requires typed { WellTyped (spec_data spec.now) }
        requires budget { 2 ≤ budget }
        requires numbers { numbers.now ≡ guarantees_of (spec_data spec.now) }
        ensures whole { IfOk result (λ p. whole_of p ≡ spec_data spec.now) }
        ensures budget { IfOk result (λ p. p.budget ≡ budget) }
    {
        Ok(Parts {
            alloc,
            spec,
            numbers,
            part: Vec::with_capacity(alloc, numbers.len())?,
            budget,
            near: true,
            faults: 0,
            fault: None,
            asked: Vec::with_capacity(alloc, numbers.len())?,
        })
    }
}

impl Judge for Parts<'_> {
    ghost use Rattle.spec_model.specs.Cores.{Realizable};
    ghost use Rattle.solve.specs.Judged.{whole_of, last_of};
    ghost use Rattle.solve.specs.Budgets.{MayHalt};
    ghost use Rattle.solve.specs.Places.{part_at, parts_win};

    type Fault = Halt;

    ghost size = { λ p. length (guarantees_of (whole_of p)) };

    ghost IsWinning = { λ p places. Realizable (part_at (whole_of p) places) };

    ghost MayFail = { λ p places halt. MayHalt p.budget (part_at (whole_of p) places) halt };

    ghost faults = { λ p. p.faults };

    ghost last = { last_of };

    fn wins(&mut self, kept: &[usize]) -> Result<bool, Halt> {
        pick(self.numbers, kept, &mut self.part);
        match part_numbers(
            self.alloc,
            self.spec,
            &self.part,
            self.budget,
            &mut self.near,
        ) {
            Ok(Numbers::Realizable { .. }) => Ok(true),
            Ok(Numbers::Unrealizable { .. }) => Ok(false),
            Err(halt) => {
                self.faults = self.faults.saturating_add(1);
                self.fault = Some(halt);
                self.asked.clear();
                self.asked.extend_from_slice(kept).unwrap();
                Err(halt)
            }
        }
    }

    ghost parts = { λ p. parts_win (whole_of p) p.typed };
}

/// The line numbers of the guarantees, in text order.
pub fn guarantee_numbers(alloc: Global, lines: &[Line]) -> Result<Vec<u32>, AllocError>
    ensures { IfOk result (λ numbers. numbers.items ≡ map (λ l. l.number) (filter (λ l. is_guarantee l.role) (map line_data lines.now))) }
{
    let mut numbers = Vec::new(alloc);
    for line in lines {
        match line.role {
            Role::Guarantee => numbers.push(line.number)?,
            Role::Assumption | Role::Monitor => {}
        }
    }
    Ok(numbers)
}

// Writes the numbers that stand at the places. There is room for them.
fn pick(numbers: &[u32], places: &[usize], picked: &mut Vec<u32>)
    requires places { All (λ place. place < length numbers.now) places.now }
    requires room { length places.now ≤ vec_capacity picked.old }
    ensures picked { picked.new.items ≡ at_places numbers.now places.now }
    ensures capacity { vec_capacity picked.old ≤ vec_capacity picked.new }
{
    picked.clear();
    for &place in places {
        picked.push(numbers[place]).unwrap();
    }
}

/// The numbers that stand at the places.
pub fn numbers_at(alloc: Global, numbers: &[u32], places: &[usize]) -> Result<Vec<u32>, AllocError>
    requires { All (λ place. place < length numbers.now) places.now }
    ensures { IfOk result (λ v. v.items ≡ at_places numbers.now places.now) }
{
    let mut picked = Vec::with_capacity(alloc, places.len())?;
    pick(numbers, places, &mut picked);
    Ok(picked)
}
