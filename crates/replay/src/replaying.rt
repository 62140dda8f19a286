ghost use Rattle.std.specs.Prelude.{◌≡◌, ◌≢◌, ◌≤◌, ◌+◌, length, IfOk, IfSome};
ghost use Rattle.std.specs.List.{All};
ghost use Rattle.entries.specs.declared.journal.Entry.{Entry};
ghost use Rattle.conn.specs.Faults.{Rose};
ghost use Rattle.conn.specs.Told.{GaveAtMost};
ghost use Rattle.replay.specs.Fates.{Fate};
ghost use Rattle.replay.specs.Replayed.{Replayed, table_of, upgraded, games_of, wanted_text, written};
ghost use Rattle.replay.specs.Replays.{Ends, Judges, MeetsFate};

use crate::laws::one_fate;
use crate::reaching::{NoText, reach};
use crate::replay_end::ReplayEnd;
use crate::upgrading::write_upgraded;
use arena_core::Arena;
use conn::{ReadAllFault, Sink, Source, Text, read_all, write_all};
use games_text::write_games;
use std::alloc::{AllocError, Global};
use std::thread::Threads;
use table_text::write_table;

/// How many bytes of a journal are read at most.
const MOST_BYTES: usize = 400_000_000;

/// What is to be written of a legal journal.
#[derive(Debug, Clone, Copy, PartialEq, Eq)]
pub enum Wanted {
    /// Its table.
    Table,
    /// The journal itself, in version 2.
    Upgraded,
    /// Its games that count, in the text that every chess program reads.
    Games,
}

// What is wanted of an arena's journal. It fails only for want of memory.
fn write_text(alloc: Global, arena: Arena, wanted: Wanted) -> Result<Text, AllocError>
    requires { All (λ (e : Entry). e.pass ≤ 255) arena.entries }
    ensures { IfOk result (λ text. text ≡ wanted_text wanted arena.setup arena.entries) }
{
    match wanted {
        Wanted::Table => write_table(alloc, &arena),
        Wanted::Upgraded => write_upgraded(alloc, arena),
        Wanted::Games => write_games(alloc, &arena),
    }
}

// What is wanted of the journal that the bytes spell.
fn text_for<R: Threads + Sync>(
    rt: &R,
    alloc: Global,
    bytes: &[u8],
    wanted: Wanted,
) -> Result<Text, NoText>
    requires { length bytes.now ≤ MOST_BYTES }
    ensures { Judges (written wanted) bytes.now result }
{
    let arena = reach(rt, alloc, bytes)?;
    match write_text(alloc, arena, wanted) {
        Ok(text) => Ok(text),
        Err(_) => Err(NoText::OutOfMemory),
    }
}

// Reads a journal to its end, and writes what is wanted of it if it is legal.
fn write_wanted<R: Threads + Sync, S: Source, K: Sink>(
    rt: &R,
    alloc: Global,
    source: &mut S,
    sink: &mut K,
    wanted: Wanted,
) -> ReplayEnd
    ensures ends { Ends (written wanted) (S.left source.old) (S.left source.new)
        (K.held sink.old) (K.held sink.new) result }
    ensures complete { IfSome (S.left source.old) (λ bytes. (fate : Fate) → Replayed bytes fate → MeetsFate fate result) }
    ensures untouched { result ≢ ReplayEnd.Done → result ≢ ReplayEnd.WriteFault → sink.new ≡ sink.old }
    ensures read_fault { result ≡ ReplayEnd.ReadFault
        → Rose (S.faults source.old) (S.faults source.new) }
    ensures write_fault { result ≡ ReplayEnd.WriteFault
        → Rose (K.faults sink.old) (K.faults sink.new) }
    ensures taken { GaveAtMost (S.left source.old) (S.left source.new) (MOST_BYTES + 1) }
{
    one_fate();
    let bytes = match read_all(alloc, source, MOST_BYTES) {
        Ok(bytes) => bytes,
        Err(ReadAllFault::TooLong) => return ReplayEnd::TooLong,
        Err(ReadAllFault::ReadFault) => return ReplayEnd::ReadFault,
        Err(ReadAllFault::OutOfMemory) => return ReplayEnd::OutOfMemory,
    };
    let text = match text_for(rt, alloc, &bytes, wanted) {
        Ok(text) => text,
        Err(NoText::BadJournal(fault)) => return ReplayEnd::BadJournal(fault),
        Err(NoText::Illegal { line, cause }) => return ReplayEnd::Illegal { line, cause },
        Err(NoText::OutOfMemory) => return ReplayEnd::OutOfMemory,
    };
    match write_all(sink, text.bytes()) {
        Ok(()) => ReplayEnd::Done,
        Err(_) => ReplayEnd::WriteFault,
    }
}

/// Reads a journal of either version to its end, and writes its table if it is legal. Nothing is written otherwise. At most
/// 400,000,001 bytes are read.
///
/// `TooLong`, `BadJournal` and `Illegal` come exactly where the text comes to them, unless a read failed or memory ran out.
/// After `WriteFault` a beginning of the table was written.
pub fn replay<R: Threads + Sync, S: Source, K: Sink>(
    rt: &R,
    alloc: Global,
    source: &mut S,
    sink: &mut K,
) -> ReplayEnd
    ensures ends { Ends table_of (S.left source.old) (S.left source.new)
        (K.held sink.old) (K.held sink.new) result }

    // Whatever the text comes to, that is the end, unless a read or a write failed or memory ran out.
    ensures complete { IfSome (S.left source.old) (λ bytes. (fate : Fate) → Replayed bytes fate → MeetsFate fate result) }

    // A sink to which nothing is written stays as it was.
    ensures untouched { result ≢ ReplayEnd.Done → result ≢ ReplayEnd.WriteFault → sink.new ≡ sink.old }

    // A read or a write failed only where that object's count of faults rose.
    ensures read_fault { result ≡ ReplayEnd.ReadFault
        → Rose (S.faults source.old) (S.faults source.new) }
    ensures write_fault { result ≡ ReplayEnd.WriteFault
        → Rose (K.faults sink.old) (K.faults sink.new) }

    ensures taken { GaveAtMost (S.left source.old) (S.left source.new) (MOST_BYTES + 1) }
{
    write_wanted(rt, alloc, source, sink, Wanted::Table)
}

/// Reads a journal of either version to its end, and if it is legal writes it as a text of version 2, which lists the games that
/// each wave began. All else is as with `replay`: after `WriteFault` a beginning of that text was written.
pub fn upgrade<R: Threads + Sync, S: Source, K: Sink>(
    rt: &R,
    alloc: Global,
    source: &mut S,
    sink: &mut K,
) -> ReplayEnd
    ensures ends { Ends upgraded (S.left source.old) (S.left source.new)
        (K.held sink.old) (K.held sink.new) result }
    ensures complete { IfSome (S.left source.old) (λ bytes. (fate : Fate) → Replayed bytes fate → MeetsFate fate result) }
    ensures untouched { result ≢ ReplayEnd.Done → result ≢ ReplayEnd.WriteFault → sink.new ≡ sink.old }
    ensures read_fault { result ≡ ReplayEnd.ReadFault
        → Rose (S.faults source.old) (S.faults source.new) }
    ensures write_fault { result ≡ ReplayEnd.WriteFault
        → Rose (K.faults sink.old) (K.faults sink.new) }
    ensures taken { GaveAtMost (S.left source.old) (S.left source.new) (MOST_BYTES + 1) }
{
    write_wanted(rt, alloc, source, sink, Wanted::Upgraded)
}

/// Reads a journal of either version to its end, and if it is legal writes its games that count in PGN, in the order in which they
/// ended. All else is as with `replay`: after `WriteFault` a beginning of these texts was written.
pub fn pgn<R: Threads + Sync, S: Source, K: Sink>(
    rt: &R,
    alloc: Global,
    source: &mut S,
    sink: &mut K,
) -> ReplayEnd
    ensures ends { Ends games_of (S.left source.old) (S.left source.new)
        (K.held sink.old) (K.held sink.new) result }
    ensures complete { IfSome (S.left source.old) (λ bytes. (fate : Fate) → Replayed bytes fate → MeetsFate fate result) }
    ensures untouched { result ≢ ReplayEnd.Done → result ≢ ReplayEnd.WriteFault → sink.new ≡ sink.old }
    ensures read_fault { result ≡ ReplayEnd.ReadFault
        → Rose (S.faults source.old) (S.faults source.new) }
    ensures write_fault { result ≡ ReplayEnd.WriteFault
        → Rose (K.faults sink.old) (K.faults sink.new) }
    ensures taken { GaveAtMost (S.left source.old) (S.left source.new) (MOST_BYTES + 1) }
{
    write_wanted(rt, alloc, source, sink, Wanted::Games)
}
