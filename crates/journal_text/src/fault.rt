//! Why a journal could not be read.

ghost use Rattle.std.specs.Prelude.{◌≡◌};
ghost use Rattle.journal_text.specs.declared.fault.ReadJournalFault.TheVariants.{Bad, OutOfMemory};
ghost use Rattle.journal_text.specs.Reading.{at_line, fault_at};

use std::alloc::{AllocError, AllocFailed};

/// Why a line cannot stand: the first of these that holds of it.
#[derive(Clone, Copy, Debug, PartialEq, Eq)]
pub enum JournalCause {
    /// The text has no further line feed: the line is missing or unfinished.
    Ended,
    /// The line is in no form that its place allows. The whole line's form comes before the range of any number in it.
    Form,
    /// A number of the line is out of its range, the line is one more of its kind than a journal has, or it lists more than
    /// 500 games.
    Range,
    /// The name of the team, or of the player, stood on a line of a team, or of a player, before.
    Repeat,
    /// Something stands behind the line `end`.
    After,
}

/// What is wrong with a text, and where.
#[derive(Clone, Copy, Debug, PartialEq, Eq)]
pub struct JournalFault {
    /// The first line that cannot stand. Lines count from 1.
    pub line: u64,
    pub cause: JournalCause,
}

/// Why there is no journal.
#[derive(Clone, Copy, Debug, PartialEq, Eq)]
pub enum ReadJournalFault {
    /// The text is that of no journal.
    Bad(JournalFault),
    /// There was no room for the names, the players or the entries. It says nothing of the text.
    OutOfMemory,
}

impl From<JournalFault> for ReadJournalFault {
    ghost from_gives = { λ fault e. e ≡ Bad fault };

    fn from(fault: JournalFault) -> ReadJournalFault {
        ReadJournalFault::Bad(fault)
    }
}

impl From<AllocError> for ReadJournalFault {
    ghost from_gives = { λ _ e. e ≡ OutOfMemory };

    fn from(_e: AllocError) -> ReadJournalFault {
        ReadJournalFault::OutOfMemory
    }
}

impl<T: Drop> From<AllocFailed<T>> for ReadJournalFault {
    ghost from_gives = { λ _ e. e ≡ OutOfMemory };

    fn from(_e: AllocFailed<T>) -> ReadJournalFault {
        ReadJournalFault::OutOfMemory
    }
}

/// The fault of a line, of this cause.
pub(crate) fn fault_at(line: u64, cause: JournalCause) -> JournalFault
    ensures { result ≡ fault_at line cause }
{
    JournalFault { line, cause }
}

/// What this line says, or the fault of it.
pub(crate) fn at_line<T>(line: u64, said: Result<T, JournalCause>) -> Result<T, JournalFault>
    ensures { result ≡ at_line line said }
{
    match said {
        Ok(said) => Ok(said),
        Err(cause) => Err(fault_at(line, cause)),
    }
}
