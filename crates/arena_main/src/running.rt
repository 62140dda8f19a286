ghost use Rattle.std.specs.Prelude.{◌≡◌, ◌≢◌, ◌<◌, ◌≤◌, ℕ, Some, IfSome};
ghost use Rattle.conn.specs.Faults.{Rose};
ghost use Rattle.conn.specs.Told.{GaveAtMost};
ghost use Rattle.replay.specs.declared.replaying.Wanted.{Wanted as WantedValue};
ghost use Rattle.replay.specs.Fates.{Fate};
ghost use Rattle.replay.specs.Replayed.{Replayed, written};
ghost use Rattle.replay.specs.Replays.{Ends};
ghost use Rattle.arena_main.specs.declared.forms.Form.TheVariants.{Gen};
ghost use Rattle.arena_main.specs.Forms.{HasForm};
ghost use Rattle.arena_main.specs.Runs.{Asks, AsksNothing, Generates, IsOther, RefusesWords, ReplaysTo, MeetsFate, form_of};

use crate::forms::Form;
use crate::status::Status;
use crate::telling::finish;
use crate::words::form;
use conn::{Sink, Source, Text, write_all};
use replay::{ReplayEnd, Wanted, one_fate, pgn, replay, upgrade};
use std::alloc::Global;
use std::thread::Threads;
use table_text::write_summary;
use workload::played;

/// What is written where the words are none of the program's forms.
const USAGE: &[u8] =
    b"usage: arena_main replay | upgrade | pgn | gen SEED PLAYERS | serve SETUP PORT WORKERS JOURNAL\n";

// Reads a journal and writes what is wanted of it.
fn replay_for<R: Threads + Sync, S: Source, K: Sink>(
    rt: &R,
    alloc: Global,
    source: &mut S,
    sink: &mut K,
    wanted: Wanted,
) -> ReplayEnd
    ensures ends { Ends (written wanted) (S.left source.old) (S.left source.new)
        (K.held sink.old) (K.held sink.new) result }
    ensures untouched { result ≢ ReplayEnd.Done → result ≢ ReplayEnd.WriteFault → sink.new ≡ sink.old }
    ensures read_fault { result ≡ ReplayEnd.ReadFault
        → Rose (S.faults source.old) (S.faults source.new) }
    ensures write_fault { result ≡ ReplayEnd.WriteFault
        → Rose (K.faults sink.old) (K.faults sink.new) }
    ensures taken { GaveAtMost (S.left source.old) (S.left source.new) 400000001 }
{
    match wanted {
        Wanted::Table => replay(rt, alloc, source, sink),
        Wanted::Upgraded => upgrade(rt, alloc, source, sink),
        Wanted::Games => pgn(rt, alloc, source, sink),
    }
}

// The same, and behind it the line of the cause where the text is no legal journal's.
fn run_replay<R: Threads + Sync, S: Source, K: Sink>(
    rt: &R,
    alloc: Global,
    source: &mut S,
    sink: &mut K,
    wanted: Wanted,
) -> Status
    ensures replays { ReplaysTo (written wanted) (S.left source.old) (S.left source.new) (K.held sink.old) (K.held sink.new) result }
    ensures complete { IfSome (S.left source.old) (λ bytes. (fate : Fate) → Replayed bytes fate
        → MeetsFate (written wanted) fate (K.held sink.old) (K.held sink.new) result) }
    ensures read_fault { result ≡ Status.ReadFault
        → Rose (S.faults source.old) (S.faults source.new) }
    ensures write_fault { result ≡ Status.WriteFault
        → Rose (K.faults sink.old) (K.faults sink.new) }
    ensures taken { GaveAtMost (S.left source.old) (S.left source.new) 400000001 }
{
    one_fate();
    let end = replay_for(rt, alloc, source, sink, wanted);
    finish(alloc, sink, end)
}

// Writes the beginning and the end of the table of the large journal of a number.
fn run_gen<R: Threads + Sync, K: Sink>(
    rt: &R,
    alloc: Global,
    sink: &mut K,
    seed: u32,
    players: u32,
) -> Status
    requires seed { seed < 2147483648 }
    requires players { (2 ≤ players) × (players ≤ 1000) }
    ensures generates { Generates seed players (K.held sink.old) (K.held sink.new) result }
    ensures write_fault { result ≡ Status.WriteFault → Rose (K.faults sink.old) (K.faults sink.new) }
{
    let Ok(arena) = played(rt, alloc, seed, players) else {
        return Status::OutOfMemory;
    };
    let Ok(text) = write_summary(alloc, &arena) else {
        return Status::OutOfMemory;
    };
    match write_all(sink, text.bytes()) {
        Ok(()) => Status::Done,
        Err(_) => Status::WriteFault,
    }
}

// Writes the usage line.
fn refuse_words<K: Sink>(sink: &mut K) -> Status
    ensures refuses { RefusesWords (K.held sink.old) (K.held sink.new) result }
    ensures write_fault { result ≡ Status.WriteFault → Rose (K.faults sink.old) (K.faults sink.new) }
{
    match write_all(sink, USAGE) {
        Ok(()) => Status::BadWords,
        Err(_) => Status::WriteFault,
    }
}

// Does what the form asks for.
fn run_form<R: Threads + Sync, S: Source, K: Sink>(
    rt: &R,
    alloc: Global,
    form: Option<Form>,
    source: &mut S,
    sink: &mut K,
) -> Status
    requires { (seed players : ℕ) → form ≡ Some (Gen seed players) → (seed < 2147483648) × (2 ≤ players) × (players ≤ 1000) }
    ensures bad_words { result ≡ Status.BadWords → IsOther form }
    ensures usage { IsOther form → RefusesWords (K.held sink.old) (K.held sink.new) result × (source.new ≡ source.old) }
    ensures replays { (wanted : WantedValue) → form ≡ Some (form_of wanted)
        → ReplaysTo (written wanted) (S.left source.old) (S.left source.new) (K.held sink.old) (K.held sink.new) result }
    ensures complete { (wanted : WantedValue) → form ≡ Some (form_of wanted) → IfSome (S.left source.old) (λ bytes.
        (fate : Fate) → Replayed bytes fate
        → MeetsFate (written wanted) fate (K.held sink.old) (K.held sink.new) result) }
    ensures generates { (seed players : ℕ) → form ≡ Some (Gen seed players)
        → Generates seed players (K.held sink.old) (K.held sink.new) result × (source.new ≡ source.old) }
    ensures read_fault { result ≡ Status.ReadFault
        → Rose (S.faults source.old) (S.faults source.new) }
    ensures write_fault { result ≡ Status.WriteFault
        → Rose (K.faults sink.old) (K.faults sink.new) }
    ensures taken { GaveAtMost (S.left source.old) (S.left source.new) 400000001 }
{
    match form {
        Some(Form::Replay) => run_replay(rt, alloc, source, sink, Wanted::Table),
        Some(Form::Upgrade) => run_replay(rt, alloc, source, sink, Wanted::Upgraded),
        Some(Form::Pgn) => run_replay(rt, alloc, source, sink, Wanted::Games),
        Some(Form::Gen { seed, players }) => run_gen(rt, alloc, sink, seed, players),
        Some(Form::Serve { .. }) | None => refuse_words(sink),
    }
}

/// Runs the program that the words name. With the one word `replay`, `upgrade` or `pgn` it reads a journal from the source. If the
/// journal is legal, `replay` writes its table to the sink, `upgrade` the journal in version 2, and `pgn` its games that count, in
/// PGN. For any other text all three write the line `line L: CAUSE`, which says where it stops being a legal journal's, and why.
/// With `gen SEED PLAYERS` it plays a large evening, which the number draws, and writes the first ten players' lines of its table
/// and the last line. For all other words, and for those of `serve`, the usage line is written.
pub fn run<R: Threads + Sync, S: Source, K: Sink>(
    rt: &R,
    alloc: Global,
    words: &[Text],
    source: &mut S,
    sink: &mut K,
) -> Status
    // Other words than these alone: the usage line is written, and nothing is read.
    ensures bad_words { result ≡ Status.BadWords → AsksNothing words.now }
    ensures usage { AsksNothing words.now → RefusesWords (K.held sink.old) (K.held sink.new) result × (source.new ≡ source.old) }

    // With a word of a journal the run is a replay, whose status says what was read and written. Whatever the text comes to, that is
    // the status and what was written, unless a read or a write failed or memory ran out.
    ensures replays { (wanted : WantedValue) → Asks words.now wanted
        → ReplaysTo (written wanted) (S.left source.old) (S.left source.new) (K.held sink.old) (K.held sink.new) result }
    ensures complete { (wanted : WantedValue) → Asks words.now wanted → IfSome (S.left source.old) (λ bytes.
        (fate : Fate) → Replayed bytes fate
        → MeetsFate (written wanted) fate (K.held sink.old) (K.held sink.new) result) }

    // With a number the evening's table is written in part, and nothing is read.
    ensures generates { (seed players : ℕ) → HasForm words.now (Gen seed players)
        → Generates seed players (K.held sink.old) (K.held sink.new) result × (source.new ≡ source.old) }

    // A read or a write failed only where that object's count of faults rose.
    ensures read_fault { result ≡ Status.ReadFault
        → Rose (S.faults source.old) (S.faults source.new) }
    ensures write_fault { result ≡ Status.WriteFault
        → Rose (K.faults sink.old) (K.faults sink.new) }

    ensures taken { GaveAtMost (S.left source.old) (S.left source.new) 400000001 }
{
    run_form(rt, alloc, form(words), source, sink)
}
