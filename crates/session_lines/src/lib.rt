//! The lines of plays: from the bytes of an input to assignments, and from assignments to lines.
//!
//! A line has an item `name=value` for each wanted variable, in any order, with spaces and tabs between. A value is
//! written exactly as it is printed. Input comes in pieces of any size. Each buffer is taken before the first line.
//!
//! Contract: `Lines::next_line` hands out the lines of the input in order, and never reads it after its end; `Lines::read` and
//! `Lines::assign` read a line, or its end, exactly where it reads as an assignment; `Lines::write_shown` and `Lines::show` write
//! a whole line. The laws are in `laws` and `typed_laws`. Path: verdict → **lines**.
#![tactic(auto)]

pub mod laws;
mod lines;
mod make;
mod number;
mod plain;
mod print;
mod read;
mod reader;
mod row;
pub mod typed_laws;
mod value;
mod word;

pub use lines::Lines;
pub use number::{number_in, put_count};
pub use reader::Taken;
pub use row::Row;
