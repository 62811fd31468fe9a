//! How a run of the program ends.

ghost use Rattle.std.specs.Prelude.{◌≡◌};
ghost use Rattle.spectra_talks.specs.Numbers.{number_of};

/// How a run of the program ends. Each status has the number that the process ends with.
#[derive(Clone, Copy, PartialEq, Eq)]
pub enum Status {
    /// Done.
    Done,
    /// The other verdict than the one that the command is for.
    Other,
    /// The words are no command.
    Words,
    /// The specification is refused.
    Refused,
    /// An input line breaks an assumption.
    Assumption,
    /// The node budget is reached.
    Budget,
    /// An input line can't be read.
    BadLine,
    /// The shelf failed.
    ShelfFault,
    /// The input failed.
    InputFault,
    /// The output failed.
    OutputFault,
    /// No memory was given.
    Memory,
    /// There is no file of that name.
    NoFile,
    /// The limit of positions is reached.
    Limit,
    /// The input is no table of the specification.
    TableRefused,
    /// A table, or what it is checked by, is too large.
    SizeLimit,
}

impl Status {
    /// The number that the process ends with, from 0 to 14. It takes no memory.
    pub fn number(self) -> u8
        ensures { result ≡ number_of self }
    {
        self as u8
    }
}
