//! A run of the program over files, an input and an output in memory.

use crate::metered::Metered;
use crate::row::{Device, Row};
use sp_outside::{MemoryShelf, MemorySink, MemorySource};
use spectra_top::top::spectra;
use std::alloc::{AllocError, Global};

/// A run of a row.
#[derive(Clone, Copy)]
pub struct Run<'r> {
    pub row: &'r Row,
    /// The calls of the shelf, the input and the output that fail.
    pub fails: [&'r [u64]; 3],
    /// How much of the main file there is, at most.
    pub front: usize,
}

/// How a run ended.
#[derive(Drop)]
pub struct Told {
    pub written: Vec<u8>,
    /// The number of the status.
    pub status: u8,
    /// How many bytes of the input were taken.
    pub taken: usize,
    /// Whether a call failed.
    pub failed: bool,
}

impl<'r> Run<'r> {
    /// The row with the failures that it plans.
    pub fn planned(row: &'r Row) -> Run<'r> {
        let fails = &row.trial.fails;
        Run {
            row,
            fails: [&fails.file, &fails.read, &fails.write],
            front: usize::MAX,
        }
    }

    /// The row where these calls of a device fail.
    pub fn failing(row: &'r Row, device: Device, calls: &'r [u64]) -> Run<'r> {
        let fails: [&[u64]; 3] = match device {
            Device::File => [calls, &[], &[]],
            Device::Read => [&[], calls, &[]],
            Device::Write => [&[], &[], calls],
        };
        Run {
            fails,
            ..Run::planned(row)
        }
    }

    /// Runs the program with the row's words.
    pub fn told(self, alloc: Global) -> Result<Told, AllocError> {
        self.told_by(alloc, &self.row.words)
    }

    /// Runs the program with these words.
    pub fn told_by(self, alloc: Global, words: &[String]) -> Result<Told, AllocError> {
        let row = self.row;
        let [files, reads, writes] = self.fails;
        let mut shelf = Metered::new(MemoryShelf::make(alloc, files)?, usize::MAX);
        self.fill(&mut shelf.inner)?;
        let source = MemorySource::make(alloc, &row.input, reads)?;
        let mut input = Metered::new(source, row.trial.pieces.unwrap_or(usize::MAX));
        let room = row.wanted.len().saturating_add(4_096);
        let sink = MemorySink::make(alloc, room, writes)?;
        let mut output = Metered::new(sink, row.trial.takes.unwrap_or(usize::MAX));
        let status = spectra(alloc, words, &mut shelf, &mut input, &mut output);
        Ok(Told {
            written: output.inner.written().to_vec(alloc)?,
            status: status.number(),
            taken: input.seen.moved,
            failed: shelf.seen.failed || input.seen.failed || output.seen.failed,
        })
    }

    fn fill(self, shelf: &mut MemoryShelf) -> Result<(), AllocError> {
        for (place, file) in self.row.files.iter().enumerate() {
            let most = if place == 0 { self.front } else { usize::MAX };
            let length = file.text.len().min(most);
            shelf.put(&file.name, &file.text[..length])?;
        }
        Ok(())
    }
}
