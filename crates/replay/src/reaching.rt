ghost use Rattle.std.specs.Prelude.{◌≡◌, ◌≤◌, ◌<◌, length};
ghost use Rattle.entries.specs.Ranges.{IsWritable};
ghost use Rattle.journal_text.specs.Text.{line_of_entry};
ghost use Rattle.replay.specs.Replays.{Reaches};

use arena_core::Arena;
use entries::Journal;
use journal_replay::{IllegalCause, ReplayFault, arena_of, legal_journals};
use journal_text::{JournalFault, ReadJournalFault, read_journal};
use std::alloc::Global;
use std::thread::Threads;

/// Why the bytes have no text that is to be written of them.
#[derive(Debug, Clone, Copy, PartialEq, Eq)]
pub enum NoText {
    BadJournal(JournalFault),
    Illegal { line: u64, cause: IllegalCause },
    OutOfMemory,
}

// The line of a journal's text on which the entry with this number stands, from 1.
fn line_of_entry(journal: &Journal, entry: u64) -> u64
    requires writable { IsWritable journal.now }
    requires entry { entry < length journal.now.entries }
    ensures { result ≡ line_of_entry journal.now entry }
{
    let setup = &journal.setup;
    let names = setup.teams.items().len() + setup.players.items().len();
    let head = if journal.version == 1 { 7 } else { 8 };
    head + names as u64 + entry
}

/// The arena of the journal that the bytes spell, at most 400,000,000, or why it has none.
pub fn reach<R: Threads + Sync>(rt: &R, alloc: Global, bytes: &[u8]) -> Result<Arena, NoText>
    requires { length bytes.now ≤ 400000000 }
    ensures { Reaches bytes.now result }
{
    legal_journals();
    let journal = match read_journal(alloc, bytes) {
        Ok(journal) => journal,
        Err(ReadJournalFault::Bad(fault)) => return Err(NoText::BadJournal(fault)),
        Err(ReadJournalFault::OutOfMemory) => return Err(NoText::OutOfMemory),
    };
    match arena_of(rt, alloc, &journal) {
        Ok(arena) => Ok(arena),
        Err(ReplayFault::Illegal { entry, cause }) => {
            let line = line_of_entry(&journal, entry);
            Err(NoText::Illegal { line, cause })
        }
        Err(ReplayFault::OutOfMemory) => Err(NoText::OutOfMemory),
    }
}
