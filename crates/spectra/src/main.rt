//! The program `spectra`: the words of the command line, the system's files and streams, and the status of the top call.
//!
//! Contract: that of `spectra_top::top::spectra`, over the adapters of `sp_outside`.
#![tactic(auto)]

use sp_outside::{OutOfMemory, RealShelf, RealSink, RealSource};
use spectra_talks::status::Status;
use spectra_top::top::spectra;
use std::env;
use std::io::ErrorKind;
use std::process::ExitCode;
use std::rt::Env;

fn main(rt: HostRuntime) -> ExitCode {
    let alloc = rt.alloc();
    let mut shelf = RealShelf::make(rt);
    let mut input = RealSource::make(rt.stdin());
    let mut output = RealSink::make(rt.stdout());
    let status = match words_of(&rt) {
        Ok(words) => spectra(alloc, &words, &mut shelf, &mut input, &mut output),
        Err(_) => Status::Memory,
    };
    ExitCode::from(status.number())
}

// The words of the command line. Words that aren't text are no command, as an empty list is.
fn words_of(rt: &(impl Env + AllocGlobal)) -> Result<Vec<String>, OutOfMemory> {
    match env::args(rt) {
        Ok(words) => words.collect(rt.alloc()),
        Err(error) if error.kind() == ErrorKind::OutOfMemory => Err(OutOfMemory),
        Err(_) => Ok(Vec::new(rt.alloc())),
    }
}
