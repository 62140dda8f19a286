use journal_replay::IllegalCause;
use journal_text::JournalFault;

/// How a replay ended.
#[derive(Debug, Clone, Copy, PartialEq, Eq)]
pub enum ReplayEnd {
    /// The bytes spell a legal journal, and what was asked for of it was written.
    Done,
    /// The bytes are the text of no journal. The fault has the first line that cannot stand, from 1, and why.
    BadJournal(JournalFault),
    /// The bytes spell a journal of which an entry is not allowed.
    Illegal {
        /// The line of the first such entry in the text, from 1.
        line: u64,
        /// The first cause that holds of it.
        cause: IllegalCause,
    },
    /// They are more than 400,000,000 bytes.
    TooLong,
    /// A read failed.
    ReadFault,
    /// A write failed.
    WriteFault,
    /// There was not memory enough.
    OutOfMemory,
}
