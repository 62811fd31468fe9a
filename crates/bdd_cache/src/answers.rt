ghost use Rattle.std.specs.Prelude.{◌≡◌, ◌+◌, ◌<◌, ◌≤◌, ◌↔◌, ◌⊎◌, ◌++◌, List, length, IfOk, OnOk, IfSome, vec_len, vec_capacity};
ghost use Rattle.bdd_cache.specs.declared.answers.TheConstants.{FIRST};
ghost use Rattle.bdd_cache.specs.Kept.{IsSwept, AllSwept, AreEmpty};
ghost use Rattle.bdd_cache.specs.declared.answer.Answer.{Answer};
ghost use Rattle.bdd_cache.specs.Cells.{answer_in, answers_in};

use crate::OutOfMemory;
use crate::answer::{Answer, NONE, has_live_nodes};
use crate::cell::{Cell, EMPTY, rest_of};
use std::alloc::Global;
use std::marker::Model;

/// The cells of a new table. The numbers of cells are powers of two.
const FIRST: usize = 4096;
/// The cells that memory is taken for. What isn't used isn't touched.
const MOST: usize = 1 << 22;
/// How many cells serve a place of a node: more find little more, and each sweep passes all of them.
const CELLS_FOR_A_PLACE: usize = 8;

/// Answers, each in the cell that its key leads to. An answer that fits into no cell stands by itself: one that has a third
/// node though its operation isn't the first, or numbers from 2^31 on.
#[derive(Drop)]
pub struct Answers {
    cells: Vec<Cell>,
    wide: Answer,
    /// How many answers may still be put before the number of cells is thought over.
    room: usize,
    /// The table grows while it has fewer cells, and is halved while it has more than twice as many.
    aim: usize,
}

impl Model for Answers {
    ghost Value = { List Answer };

    ghost view = { λ answers. answers_in answers.wide answers.cells.items };

    ghost invariant = { λ answers. (0 < vec_len answers.cells) × (FIRST ≤ vec_capacity answers.cells) };
}

/// The number of a key: four times that of the newer of its first two nodes, moved by what the other and the rest are mixed
/// into, by an odd factor near the golden ratio's multiples (Knuth, multiplicative hashing). So answers about nodes that were
/// made as late stand near each other.
fn mixed(a: u32, b: u32, rest: u32) -> usize {
    let (older, newer) = if a < b { (a, b) } else { (b, a) };
    let pair = (u64::from(older) | (u64::from(rest) << 32)).wrapping_mul(0x9e37_79b9_7f4a_7c15);
    ((pair >> 54) + 4 * u64::from(newer)) as usize
}

/// The cell, or an empty one where its answer has a node that isn't live.
fn swept(live: &[bool], cell: Cell) -> Cell
    ensures { IsSwept live.now (answer_in cell) (answer_in result) }
{
    if has_live_nodes(live, cell.answer()) {
        cell
    } else {
        EMPTY
    }
}

/// The answer, or none where it has a node that isn't live.
fn swept_answer(live: &[bool], answer: Answer) -> Answer
    ensures { IsSwept live.now answer result }
{
    if has_live_nodes(live, answer) {
        answer
    } else {
        NONE
    }
}

/// Empties each cell whose answer has a node that isn't live.
fn sweep(cells: &mut Vec<Cell>, live: &[bool])
    ensures size { vec_len cells.new ≡ vec_len cells.old }
    ensures capacity { vec_capacity cells.new ≡ vec_capacity cells.old }
    ensures swept { AllSwept live.now cells.old.items cells.new.items EMPTY }
{
    for i in 0..cells.len() {
        cells[i] = swept(live, cells[i]);
    }
}

/// As many cells as a new table has, with no answer in any of them.
fn empty(cells: &mut Vec<Cell>) -> Result<(), OutOfMemory>
    ensures none { AreEmpty cells.new.items }
    ensures len { FIRST ≤ vec_capacity cells.old → vec_len cells.new ≡ FIRST }
    ensures made { OnOk result (vec_len cells.new ≡ FIRST) }
    ensures capacity { vec_capacity cells.old ≤ vec_capacity cells.new }
{
    cells.clear();
    cells.resize(FIRST, EMPTY)
}

/// Writes the cells a second time behind themselves, where there is memory.
fn write_again(cells: &mut Vec<Cell>)
    ensures items { (cells.new.items ≡ cells.old.items ++ cells.old.items) ⊎ (cells.new.items ≡ cells.old.items) }
    ensures len { vec_len cells.old ≤ vec_len cells.new }
    ensures capacity { vec_capacity cells.old ≤ vec_capacity cells.new }
{
    let _ = cells.extend_from_within(..);
}

impl Answers {
    ghost use Rattle.bdd_cache.specs.Kept.{IsKept, HasLiveNodes};

    /// A table without answers. It is the one call that takes memory.
    pub fn make(alloc: Global) -> Result<Answers, OutOfMemory>
        ensures empty { IfOk result (λ answers. (answer : Answer) → ¬ IsKept answers answer) }
    {
        let mut cells = Vec::with_capacity(alloc, MOST)?;
        empty(&mut cells)?;
        Ok(Answers {
            cells,
            wide: NONE,
            room: FIRST,
            aim: MOST,
        })
    }

    /// The answer of operation `op` on `a`, `b` and `c`, if the table has it.
    pub fn get(&self, op: u32, a: u32, b: u32, c: u32) -> Option<u32>
        ensures kept { IfSome result (λ r. IsKept self.now (record { op = op; a = a; b = b; c = c; r = r })) }
    {
        let Some(rest) = rest_of(op, c) else {
            return self.get_wide(op, a, b, c);
        };
        let cell = self.cells[self.place(a, b, rest)];
        if cell.is_of(a, b, rest) && op != 0 {
            Some(cell.r)
        } else {
            None
        }
    }

    /// Likewise of an answer that fits into no cell.
    fn get_wide(&self, op: u32, a: u32, b: u32, c: u32) -> Option<u32>
        ensures kept { IfSome result (λ r. IsKept self.now (record { op = op; a = a; b = b; c = c; r = r })) }
    {
        let wide = self.wide;
        let is_it = wide.op == op && wide.a == a && wide.b == b && wide.c == c && op != 0;
        if is_it { Some(wide.r) } else { None }
    }

    /// Keeps an answer, in the place of at most one other, and where the table is halved, of those in its second half.
    /// Operations have numbers from 1 on.
    pub fn put(&mut self, op: u32, a: u32, b: u32, c: u32, r: u32)
        ensures added { 0 < op → IsKept self.new (record { op = op; a = a; b = b; c = c; r = r }) }
        ensures others { (answer : Answer) → IsKept self.new answer → (answer ≡ record { op = op; a = a; b = b; c = c; r = r }) ⊎ IsKept self.old answer }
    {
        match rest_of(op, c) {
            Some(rest) => self.put_in(Cell { a, b, rest, r }),
            None => self.wide = Answer { op, a, b, c, r },
        }
    }

    /// Writes a cell.
    fn put_in(&mut self, cell: Cell)
        ensures added { 0 < (answer_in cell).op → IsKept self.new (answer_in cell) }
        ensures others { (answer : Answer) → IsKept self.new answer → (answer ≡ answer_in cell) ⊎ IsKept self.old answer }
    {
        if self.room == 0 {
            self.fit();
        }
        self.room = self.room.saturating_sub(1);
        let place = self.place(cell.a, cell.b, cell.rest);
        self.cells[place] = cell;
    }

    /// Removes each answer with a node that isn't live: its flag is false, or there is none. From then on the table aims
    /// at a number of cells for each flag.
    pub fn keep_only(&mut self, live: &[bool])
        ensures { (answer : Answer) → IsKept self.new answer ↔ (IsKept self.old answer × HasLiveNodes live.now answer) }
    {
        sweep(&mut self.cells, live);
        self.wide = swept_answer(live, self.wide);
        self.aim_for(live.len());
    }

    /// Removes all answers.
    pub fn clear(&mut self)
        ensures { (answer : Answer) → ¬ IsKept self.new answer }
    {
        let _ = empty(&mut self.cells);
        self.wide = NONE;
        self.room = FIRST;
    }

    /// The cell that a key leads to.
    fn place(&self, a: u32, b: u32, rest: u32) -> usize
        ensures { result + 1 < length self.now }
    {
        mixed(a, b, rest) & (self.cells.len() - 1)
    }

    /// Aims at a number of cells for so many places of a node. The next answer that is put halves a table that has too many.
    fn aim_for(&mut self, places: usize)
        ensures { self.new ≡ self.old }
    {
        self.aim = places.saturating_mul(CELLS_FOR_A_PLACE).clamp(FIRST, MOST);
        if self.aim < self.cells.len() / 2 {
            self.room = 0;
        }
    }

    /// Halves the table where it has more than twice as many cells as it aims at, and else may double it. What stands in
    /// the first half is where its key leads to among half as many cells.
    fn fit(&mut self)
        ensures { (answer : Answer) → IsKept self.new answer → IsKept self.old answer }
    {
        let half = self.cells.len() / 2;
        if self.aim < half {
            self.cells.truncate(half);
        } else {
            self.grow();
        }
    }

    /// As many cells as a new table has, with no answer in any of them.
    fn empty(cells: &mut Vec<Cell>) -> Result<(), OutOfMemory>
        ensures none { AreEmpty cells.new.items }
        ensures len { FIRST ≤ vec_capacity cells.old → vec_len cells.new ≡ FIRST }
        ensures made { OnOk result (vec_len cells.new ≡ FIRST) }
        ensures capacity { vec_capacity cells.old ≤ vec_capacity cells.new }
    {
        cells.clear();
        cells.resize(FIRST, EMPTY)
    }

    /// Writes the cells a second time behind themselves, within the memory that was taken: one more bit of a key's
    /// number leads to one of the two cells that hold what its cell held.
    fn grow(&mut self)
        ensures { (answer : Answer) → IsKept self.new answer ↔ IsKept self.old answer }
    {
        self.room = self.cells.len();
        if self.cells.len() < self.aim {
            write_again(&mut self.cells);
        }
    }
}
