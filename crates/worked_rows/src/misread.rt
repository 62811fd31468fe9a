//! Why lines aren't a row.

use std::alloc::{AllocError, AllocFailed};
use thiserror::Error;

/// Why lines aren't a row.
#[derive(Debug, Drop, Error)]
pub enum Misread {
    /// The first line isn't a sentence.
    #[error("a row begins with `@`, a blank and a sentence")]
    Sentence,
    /// The second line isn't words and a status.
    #[error("behind the sentence stands `@ WORDS => STATUS`")]
    Words,
    /// There is no mark of that form.
    #[error("there is no such mark")]
    Mark,
    /// A number isn't one.
    #[error("a number is wanted")]
    Number,
    /// A part stands twice.
    #[error("a row has one input and one output")]
    Twice,
    /// It isn't said what is written.
    #[error("there is no `@out`")]
    Silent,
    /// The row isn't followed by an empty line.
    #[error("an empty line is wanted before the next row")]
    Crowded,
    /// No memory was given.
    #[error("no memory was given")]
    Memory,
}

impl From<AllocError> for Misread {
    fn from(_: AllocError) -> Misread {
        Misread::Memory
    }
}

impl<T: Drop> From<AllocFailed<T>> for Misread {
    fn from(_: AllocFailed<T>) -> Misread {
        Misread::Memory
    }
}
