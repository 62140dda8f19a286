//! What is written of an evening: its journal and its table.

ghost use Rattle.std.specs.Prelude.{◌≡◌, ◌≤◌, ◌⊎◌, List, ℕ, IfOk};
ghost use Rattle.std.specs.List.{All};
ghost use Rattle.conn.specs.Faults.{Rose};
ghost use Rattle.entries.specs.declared.journal.Entry.{Entry};
ghost use Rattle.server.specs.Evenings.{Wrote, WroteBoth, journal_text, worse};
ghost use Rattle.table_text.specs.Table.{table};

use crate::serve_end::ServeEnd;
use arena_core::Arena;
use arena_rules::games_are_listed;
use conn::{Sink, Text, write_all};
use journal_text::write_journal;
use std::alloc::{AllocError, Global};
use table_text::write_table;

// The journal of an arena in version 2, which lists the games of each wave. It fails only for want of memory.
fn write_version_two(alloc: Global, arena: Arena) -> Result<Text, AllocError>
    requires { All (λ (e : Entry). e.pass ≤ 255) arena.entries }
    ensures { IfOk result (λ text. text ≡ journal_text arena.setup arena.entries) }
{
    games_are_listed();
    arena.shows_legal();
    let journal = arena.into_journal();
    write_journal(alloc, &journal)
}

// Writes a text, if there was memory to make it.
fn write_made<K: Sink>(sink: &mut K, made: &Result<Text, AllocError>) -> ServeEnd
    ensures wrote { (text : List ℕ) → IfOk made.now (λ found. found ≡ text)
        → Wrote text (K.held sink.old) (K.held sink.new) result }
    ensures write_fault { result ≡ ServeEnd.WriteFault → Rose (K.faults sink.old) (K.faults sink.new) }
{
    let Ok(text) = made else {
        return ServeEnd::OutOfMemory;
    };
    match write_all(sink, text.bytes()) {
        Ok(()) => ServeEnd::Done,
        Err(_) => ServeEnd::WriteFault,
    }
}

// How two writings ended together.
fn worse(a: ServeEnd, b: ServeEnd) -> ServeEnd
    ensures { result ≡ worse a b }
{
    match (a, b) {
        (ServeEnd::Done, b) => b,
        (ServeEnd::WriteFault, _) => ServeEnd::WriteFault,
        (ServeEnd::OutOfMemory, ServeEnd::WriteFault) => ServeEnd::WriteFault,
        (ServeEnd::OutOfMemory, _) => ServeEnd::OutOfMemory,
    }
}

// Writes both texts, each if there was memory to make it.
fn write_both<K: Sink, T: Sink>(
    journal_sink: &mut K,
    journal_made: &Result<Text, AllocError>,
    table_sink: &mut T,
    table_made: &Result<Text, AllocError>,
) -> ServeEnd
    ensures wrote { (a b : List ℕ) → IfOk journal_made.now (λ found. found ≡ a) → IfOk table_made.now (λ found. found ≡ b)
        → WroteBoth a (K.held journal_sink.old) (K.held journal_sink.new) b (T.held table_sink.old) (T.held table_sink.new) result }
    ensures write_fault { result ≡ ServeEnd.WriteFault
        → Rose (K.faults journal_sink.old) (K.faults journal_sink.new) ⊎ Rose (T.faults table_sink.old) (T.faults table_sink.new) }
{
    let first = write_made(journal_sink, journal_made);
    let then = write_made(table_sink, table_made);
    worse(first, then)
}

/// Writes the journal of an arena, in version 2, and its table. Both are tried: what hinders one does not keep the other back.
pub(crate) fn record_evening<K: Sink, T: Sink>(
    alloc: Global,
    arena: Arena,
    journal_sink: &mut K,
    table_sink: &mut T,
) -> ServeEnd
    requires { All (λ (e : Entry). e.pass ≤ 255) arena.entries }
    ensures wrote { WroteBoth (journal_text arena.setup arena.entries) (K.held journal_sink.old) (K.held journal_sink.new)
        (table arena.setup arena.entries) (T.held table_sink.old) (T.held table_sink.new) result }
    ensures write_fault { result ≡ ServeEnd.WriteFault
        → Rose (K.faults journal_sink.old) (K.faults journal_sink.new) ⊎ Rose (T.faults table_sink.old) (T.faults table_sink.new) }
{
    let table_made = write_table(alloc, &arena);
    let journal_made = write_version_two(alloc, arena);
    write_both(journal_sink, &journal_made, table_sink, &table_made)
}
