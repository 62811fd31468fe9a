//! What is known of a definition that only uses another one.

use spectra_resolved::tree::Hole;

/// The last of a chain of definitions, each of which is the use of the next one with its own parameters in order: its number,
/// what takes its place where no body may stand, how many arguments it is used with, and how many bodies stand before its own.
#[derive(Clone, Copy)]
pub struct Last {
    pub number: usize,
    pub hole: Hole,
    pub count: usize,
    pub deep: usize,
}
