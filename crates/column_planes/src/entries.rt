//! The planes of entries of hidden tables.

ghost use Rattle.std.specs.Prelude.{◌≡◌, ℕ, ◌<◌, true, false, if◌then◌else◌, map, length, get_or};
ghost use Rattle.spec_model.specs.Syntax.{Entry};
ghost use Rattle.game_values.specs.Times.{time_of};
ghost use Rattle.column_planes.specs.Columns.{AreWords, IsPlaneOf, column_data};

use crate::codes::equal_codes;
use crate::columns::{Columns, first_place};
use game_values::cells::entry_in;
use game_values::seen::At;

/// Writes 1 where the entry at a cell is true.
fn write_entries(tables: &[Vec<bool>], part: usize, cells: &[usize], codes: &mut [u16])
    requires lengths { length codes.old ≡ length cells.now }
    ensures truths { (j : ℕ) → j < length codes.old →
        get_or codes.new j 0 ≡ (if get_or (map (λ table. get_or table (get_or cells.now j 0) false) (map (λ t. t.items) tables.now)) part false then 1 else 0) }
    ensures lengths { length codes.new ≡ length codes.old }
{
    for j in 0..cells.len() {
        codes[j] = u16::from(entry_in(tables, part, cells[j]));
    }
}

/// Writes the plane of an entry, if its table has a column.
pub fn entry_plane(table: u32, part: u32, at: At, c: Columns, out: &mut [u64]) -> bool
    requires words { AreWords c.bits (length out.old) }
    ensures plane { result ≡ true → IsPlaneOf (column_data c.entry) c.entry.bits (time_of at) (Entry table part) out.new }
    ensures lengths { length out.new ≡ length out.old }
{
    let start = 4_096 * (table as usize);
    let from = start + first_place(at);
    if c.hidden.len() <= table as usize || c.cells.len() < start + 4_096 || 4_095 < c.bits {
        return false;
    }
    let hidden = &c.hidden[table as usize];
    let mut truths = [0_u16; 4_096];
    let (codes, _) = truths.split_at_mut(c.bits);
    let cells = &c.cells[from..from + c.bits];
    write_entries(&hidden.tables, part as usize, cells, codes);
    equal_codes(codes, 1, out);
    true
}
