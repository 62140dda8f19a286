ghost use Rattle.std.specs.Prelude.{◌≡◌};
ghost use Rattle.arena_main.specs.Runs.{code_of};

/// How a run of the program ended.
#[derive(Debug, Clone, Copy, PartialEq, Eq)]
pub enum Status {
    /// All that was asked for was written.
    Done,
    /// The words of the command line are none of the program's forms.
    BadWords,
    /// The input is the text of no journal.
    BadJournal,
    /// The input is a journal of which an entry is not allowed.
    Illegal,
    /// The input has more than 400,000,000 bytes.
    TooLong,
    /// A read failed.
    ReadFault,
    /// A write failed.
    WriteFault,
    /// There was not memory enough.
    OutOfMemory,
}

impl Status {
    /// The status with which the program ends: 0 where all went well, and 1 to 7 for the others in their order.
    pub fn code(self) -> u8
        ensures { result ≡ code_of self }
    {
        match self {
            Status::Done => 0,
            Status::BadWords => 1,
            Status::BadJournal => 2,
            Status::Illegal => 3,
            Status::TooLong => 4,
            Status::ReadFault => 5,
            Status::WriteFault => 6,
            Status::OutOfMemory => 7,
        }
    }
}
