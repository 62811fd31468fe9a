//! The words of the command line, read by `clap`.
//!
//! Contract: `asked` answers a task exactly where the words are a command, and with just the command, the file or the clients,
//! and the budget that they name. Path: **words** → text → tokens → trees → specification → verdict.
#![tactic(auto)]

mod laws;
mod matching;
mod numbers;
mod words;

pub use laws::{
    words_ask_for_a_file_or_an_arbiter, words_ask_for_one_arbiter, words_ask_for_one_thing,
};
pub use words::{Command, Request, Task, asked};

/// Memory ran out.
pub use std::alloc::AllocError as OutOfMemory;
