//! The cells of hidden tables: a number for each value and letter.

ghost use Rattle.std.specs.Prelude.{◌≡◌, ◌*◌, ◌^◌, ◌<◌, false, map, length, get_or, slice_index, if◌then◌else◌};
ghost use Rattle.game_values.specs.Whole.{IsWhole};

use spec_model::game::Hidden;

/// 1 for true, 0 for false.
pub fn bit(b: bool) -> usize
    ensures { result ≡ (if b then 1 else 0) }
{
    if b { 1 } else { 0 }
}

pub fn bit_in(table: &[bool], cell: usize) -> bool
    ensures { result ≡ get_or table.now cell false }
{
    cell < table.len() && table[cell]
}

/// The number at a place, or 0 where there is none.
pub fn number_in(numbers: &[u16], cell: usize) -> u16
    ensures { result ≡ slice_index numbers.now cell }
{
    if cell < numbers.len() {
        numbers[cell]
    } else {
        0
    }
}

/// The entry of a truth table at a cell.
pub fn entry_in(tables: &[Vec<bool>], part: usize, cell: usize) -> bool
    ensures { result ≡ get_or (map (λ table. get_or table cell false) (map (λ t. t.items) tables.now)) part false }
{
    if part < tables.len() {
        bit_in(&tables[part], cell)
    } else {
        false
    }
}

/// How many letters a table has.
pub fn letters(h: &Hidden) -> usize
    requires { IsWhole h.now }
    ensures count { result ≡ 2 ^ length h.now.atoms.items }
    ensures few { h.now.values * result < 2 ^ 64 }
{
    h.next.len() / h.values as usize
}
