//! How a call ended.

ghost use Rattle.std.specs.Prelude.{◌≡◌};
ghost use Rattle.tool_texts.specs.Statuses.{exit_number};

/// How a call ended, in the order of the exit numbers.
#[derive(Clone, Copy, Debug, PartialEq, Eq)]
pub enum Status {
    /// The command's whole text was written; the machine of a run halted within its budget.
    Done,
    /// No labelling types the program.
    Refused,
    /// The text is no program.
    Syntax,
    /// The bytes are no starts for the program.
    Starts,
    /// The words ask for nothing, or the observer is no label of the program.
    Usage,
    /// A file that the words name could not be read.
    ReadFault,
    /// The text could not be written; a prefix of it was.
    WriteFault,
    /// A file, an image or the events of an audit are beyond their limit.
    TooLong,
    /// The machine of a run has not halted within its budget.
    Budget,
    /// Two starts of an audit do not agree.
    Disagree,
    /// A run of an audit has not halted within its budget.
    Unfinished,
    /// There was no memory.
    Memory,
    /// The bytes are no certificate of the program.
    Rejected,
}

impl Status {
    /// The exit number.
    pub fn number(&self) -> u8
        ensures { result ≡ exit_number self.now }
    {
        match self {
            Status::Done => 0,
            Status::Refused => 1,
            Status::Syntax => 2,
            Status::Starts => 3,
            Status::Usage => 4,
            Status::ReadFault => 5,
            Status::WriteFault => 6,
            Status::TooLong => 7,
            Status::Budget => 8,
            Status::Disagree => 9,
            Status::Unfinished => 10,
            Status::Memory => 11,
            Status::Rejected => 12,
        }
    }
}
