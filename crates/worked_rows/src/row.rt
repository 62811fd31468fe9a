//! What a row says.

/// A file with its name.
#[derive(Drop)]
pub struct Named {
    pub name: String,
    pub text: Vec<u8>,
}

/// What may fail.
#[derive(Clone, Copy)]
pub enum Device {
    /// The shelf of files.
    File,
    /// The input.
    Read,
    /// The output.
    Write,
}

/// What is tried in turn, up to the first run that goes through.
#[derive(Clone, Copy)]
pub enum Each {
    /// Each call of a device fails.
    Call(Device),
    /// Each budget of nodes, from 2 on, is all that there is.
    Budget,
}

/// The calls that fail, by their numbers from 1.
#[derive(Drop)]
pub struct Fails {
    pub file: Vec<u64>,
    pub read: Vec<u64>,
    pub write: Vec<u64>,
}

/// How a row is tried.
#[derive(Drop)]
pub struct Trial {
    pub fails: Fails,
    pub each: Option<Each>,
    /// The input comes so many bytes at a time.
    pub pieces: Option<usize>,
    /// The output takes so many bytes at a time.
    pub takes: Option<usize>,
    /// Each front of the main file is tried.
    pub fronts: bool,
    /// The talk is held over rows and over diagrams, too.
    pub both: bool,
}

/// A worked example.
#[derive(Drop)]
pub struct Row {
    /// What it shows, as a sentence.
    pub shows: String,
    /// The words of the command line, the program's name first.
    pub words: Vec<String>,
    /// The main file first.
    pub files: Vec<Named>,
    pub input: Vec<u8>,
    pub wanted: Vec<u8>,
    pub status: u8,
    pub trial: Trial,
}
