//! Worked examples of the program as rows of data: each is played over a shelf, an input and an output in memory, and what is
//! written and the status are compared with what the row says.
//!
//! The words of the command line name the files of rows. Nothing is printed for a row that is as it says; for another its place,
//! what it shows, what was wanted and what was written; last how many rows there are, and how many differ. What can't be read as
//! a row differs. Path: words, texts and bytes → `spectra_top::top::spectra` → **lines and status**.
#![tactic(auto)]

mod both;
mod cutting;
mod judging;
mod marks;
mod metered;
mod misread;
mod playing;
mod reading;
mod row;
mod saying;
mod texts;

use crate::saying::{Tally, say_file};
use std::process::ExitCode;
use std::rt::{Env, Files};
use std::{env, io};

fn main(rt: HostRuntime) -> ExitCode {
    match all_agree(&rt) {
        Ok(true) => ExitCode::SUCCESS,
        Ok(false) => ExitCode::FAILURE,
        Err(_) => ExitCode::from(2),
    }
}

// Whether each row of each file is as it says. What differs is printed, and last the count.
fn all_agree(rt: &(impl Env + Files + Print + AllocGlobal)) -> io::Result<bool> {
    let mut tally = Tally::default();
    for name in env::args(rt)?.skip(1) {
        say_file(rt, name.as_str(), &mut tally)?;
    }
    println!(rt; "{} rows, {} differ", tally.rows, tally.differing)?;
    Ok(tally.differing == 0)
}
