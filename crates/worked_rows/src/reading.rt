//! A row from its lines.

use crate::cutting::Block;
use crate::marks::{Mark, mark_of};
use crate::misread::Misread;
use crate::row::{Device, Fails, Named, Row, Trial};
use crate::texts::add_line;
use std::alloc::Global;
use std::mem;

/// What the text that is read belongs to.
#[derive(Drop)]
enum Part {
    /// Nothing yet: text behind the words is that of `t.spectra`.
    Words,
    File(String),
    In,
    Out,
}

/// A row that is read as far as a line.
#[derive(Drop)]
struct Reader {
    alloc: Global,
    words: Vec<String>,
    files: Vec<Named>,
    input: Option<Vec<u8>>,
    wanted: Option<Vec<u8>>,
    trial: Trial,
    part: Part,
    text: Vec<u8>,
}

/// The row that the lines are.
pub fn row_of(alloc: Global, block: &Block<'_>) -> Result<Row, Misread> {
    if !block.apart {
        return Err(Misread::Crowded);
    }
    let (first, rest) = block.lines.split_first().ok_or(Misread::Sentence)?;
    let (second, lines) = rest.split_first().ok_or(Misread::Words)?;
    let shows = first.strip_prefix("@ ").ok_or(Misread::Sentence)?;
    let (words, status) = second.rsplit_once(" => ").ok_or(Misread::Words)?;
    let mut reader = Reader::new(alloc, words_of(alloc, words)?);
    for line in lines {
        reader.read(line)?;
    }
    reader.close(Part::Words)?;
    Ok(Row {
        shows: String::from_str(alloc, shows)?,
        words: reader.words,
        files: reader.files,
        input: reader.input.unwrap_or(Vec::new(alloc)),
        wanted: reader.wanted.ok_or(Misread::Silent)?,
        status: status.parse::<u8>().ok().ok_or(Misread::Words)?,
        trial: reader.trial,
    })
}

// The words of the command line, which stand behind the `@`: the program's name, and what is cut at blanks.
fn words_of(alloc: Global, line: &str) -> Result<Vec<String>, Misread> {
    let mut words = vec![in alloc; String::from_str(alloc, "spectra")?]?;
    let mut pieces = line.split(' ');
    if pieces.next() != Some("@") {
        return Err(Misread::Words);
    }
    for word in pieces {
        words.push(String::from_str(alloc, word)?)?;
    }
    Ok(words)
}

impl Reader {
    fn new(alloc: Global, words: Vec<String>) -> Reader {
        Reader {
            alloc,
            words,
            files: Vec::new(alloc),
            input: None,
            wanted: None,
            trial: Trial {
                fails: Fails {
                    file: Vec::new(alloc),
                    read: Vec::new(alloc),
                    write: Vec::new(alloc),
                },
                each: None,
                pieces: None,
                takes: None,
                fronts: false,
                both: false,
            },
            part: Part::Words,
            text: Vec::new(alloc),
        }
    }

    fn read(&mut self, line: &str) -> Result<(), Misread> {
        match mark_of(line)? {
            Mark::Text => self.read_text(line)?,
            Mark::File(name) => {
                let name = String::from_str(self.alloc, name)?;
                self.close(Part::File(name))?;
            }
            Mark::In => self.close(Part::In)?,
            Mark::Out => self.close(Part::Out)?,
            Mark::Fails(device, call) => self.plan(device, call)?,
            Mark::Each(each) => self.trial.each = Some(each),
            Mark::Pieces(bytes) => self.trial.pieces = Some(bytes),
            Mark::Takes(bytes) => self.trial.takes = Some(bytes),
            Mark::Fronts => self.trial.fronts = true,
            Mark::Both => self.trial.both = true,
        }
        Ok(())
    }

    fn read_text(&mut self, line: &str) -> Result<(), Misread> {
        if let Part::Words = self.part {
            self.begin_short()?;
        }
        add_line(self.alloc, &mut self.text, line)
    }

    // Begins the file `t.spectra`, whose first line is `spec X`, and names it behind the first word.
    fn begin_short(&mut self) -> Result<(), Misread> {
        let name = String::from_str(self.alloc, "t.spectra")?;
        let place = self.words.len().min(2);
        self.words.insert(place, name.clone()?)?;
        self.close(Part::File(name))?;
        self.text.extend_from_slice(b"spec X\n")?;
        Ok(())
    }

    // Gives the text to its part, and begins the next.
    fn close(&mut self, next: Part) -> Result<(), Misread> {
        let text = mem::replace(&mut self.text, Vec::new(self.alloc));
        match mem::replace(&mut self.part, next) {
            Part::Words => {}
            Part::File(name) => self.files.push(Named { name, text })?,
            Part::In => keep(&mut self.input, text)?,
            Part::Out => keep(&mut self.wanted, text)?,
        }
        Ok(())
    }

    fn plan(&mut self, device: Device, call: u64) -> Result<(), Misread> {
        let fails = &mut self.trial.fails;
        match device {
            Device::File => fails.file.push(call)?,
            Device::Read => fails.read.push(call)?,
            Device::Write => fails.write.push(call)?,
        }
        Ok(())
    }
}

// Keeps a part that hasn't stood before.
fn keep(part: &mut Option<Vec<u8>>, text: Vec<u8>) -> Result<(), Misread> {
    if part.is_some() {
        return Err(Misread::Twice);
    }
    *part = Some(text);
    Ok(())
}
