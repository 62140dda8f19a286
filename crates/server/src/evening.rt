//! An evening, from its setup to what is written of it.

ghost use Rattle.std.specs.Prelude.{◌≡◌, ◌≤◌, ◌<◌, ◌⊎◌, All, IfOk, length, map, vec_len};
ghost use Rattle.std.specs.List.{range_with_len};
ghost use Rattle.conn.specs.Faults.{Rose};
ghost use Rattle.entries.specs.Ranges.{IsGood};
ghost use Rattle.arena_lock.specs.Turns.{IsReady};
ghost use Rattle.host.specs.Asked.{AreKeysOfPlayers};
ghost use Rattle.server.specs.Evenings.{Ends, IsEvening};
ghost use Rattle.turnstile.specs.Passes.{new_pass};

use crate::record::record_evening;
use crate::serve_end::ServeEnd;
use crate::shift::{passes_of, shifts_of, work_all};
use crate::workers::Worker;
use arena_core::Arena;
use arena_lock::{Lobby, Pass};
use conn::{Clock, Door, Sink};
use entries::Setup;
use group_pairing::Solve;
use setup_file::Keys;
use std::alloc::{AllocError, Global};
use std::sync::Wait;
use std::thread::Threads;

// Lets the workers serve at a lobby until all have ended, each with the pass of its place, and gives the lobby's arena. All memory
// that this takes beside what is served is taken before they work.
fn play<
    R: Wait + Threads + Sync,
    D: Door + Send + Drop,
    C: Clock + Send + Drop,
    V: Solve + Send + Drop,
>(
    rt: &R,
    alloc: Global,
    lobby: Lobby,
    keys: &Keys,
    passes: Vec<Pass>,
    workers: Vec<Worker<D, C, V>>,
) -> Result<Arena, AllocError>
    requires players { AreKeysOfPlayers (length lobby.fixed.players) keys.now }
    requires some { 0 < length workers.items }
    requires number { lobby.passes ≡ length workers.items }
    requires len { length passes.items ≡ length workers.items }
    requires new { passes.items ≡ map (new_pass lobby) (range_with_len 0 lobby.passes) }
    requires ready { All (IsReady lobby) passes.items }
    requires solvers { All (λ w. 0 < vec_len w.solvers) workers.items }
    ensures setup { IfOk result (λ arena. arena.setup ≡ lobby.fixed) }
    ensures evening { IfOk result (λ arena. IsEvening lobby.fixed (map (λ w. C.moments w.clock) workers.items) arena.entries) }
{
    let room = Vec::with_capacity(alloc, passes.len())?;
    let mut shifts = shifts_of(alloc, passes, workers)?;
    work_all(rt, alloc, &lobby, keys, shifts.as_mut_slice());
    Ok(lobby.close(passes_of(shifts, room)))
}

// Lets the workers serve an arena with this setup until all have ended, and gives the arena.
fn play_arena<
    R: Wait + Threads + Sync,
    D: Door + Send + Drop,
    C: Clock + Send + Drop,
    V: Solve + Send + Drop,
>(
    rt: &R,
    alloc: Global,
    setup: Setup,
    keys: &Keys,
    workers: Vec<Worker<D, C, V>>,
) -> Result<Arena, AllocError>
    requires good { IsGood setup }
    requires players { AreKeysOfPlayers (length setup.players) keys.now }
    requires some { (1 ≤ length workers.items) × (length workers.items ≤ 256) }
    requires solvers { All (λ w. 0 < vec_len w.solvers) workers.items }
    ensures setup { IfOk result (λ arena. arena.setup ≡ setup) }
    ensures evening { IfOk result (λ arena. IsEvening setup (map (λ w. C.moments w.clock) workers.items) arena.entries) }
{
    let arena = Arena::new(alloc, setup)?;
    let (lobby, passes) = Lobby::new(alloc, arena, workers.len() as u32)?;
    play(rt, alloc, lobby, keys, passes, workers)
}

/// Serves an evening: an arena with this setup, to the players who have these keys, by 1 to 256 workers beside each other, each in
/// a thread of its own where one can be made, with at least one solver each. Once each of them has ended it writes the journal, in
/// version 2, and the table of the one history that they made.
///
/// Each worker has the pass with the number of its place, from 0, and ended behind the last entry of its own pass: its last turn
/// found that the arena's end had come by its clock and that no game ran in all that there was then, or there was no room. What
/// came behind that is of other workers, so for the worker that added the last entry it is the whole history
/// (`someone_saw_it_whole`).
///
/// `WriteFault` comes only where the count of faults of one of the sinks rose, and `OutOfMemory` where memory ran out. It waits for
/// its workers, and returns once the arena is over or full for each.
pub fn serve_arena<
    R: Wait + Threads + Sync,
    D: Door + Send + Drop,
    C: Clock + Send + Drop,
    V: Solve + Send + Drop,
    K: Sink,
    T: Sink,
>(
    rt: &R,
    alloc: Global,
    setup: Setup,
    keys: &Keys,
    workers: Vec<Worker<D, C, V>>,
    journal: &mut K,
    table: &mut T,
) -> ServeEnd
    requires good { IsGood setup }
    requires players { AreKeysOfPlayers (length setup.players) keys.now }
    requires some { (1 ≤ length workers.items) × (length workers.items ≤ 256) }
    requires solvers { All (λ w. 0 < vec_len w.solvers) workers.items }

    // Journal and table are those of one and the same history, which is legal and was made by these workers, each of which had its
    // reason to end behind all that it added itself: both whole, or as much of each as the answer says.
    ensures ends { Ends setup (map (λ w. C.moments w.clock) workers.items)
        (K.held journal.old) (K.held journal.new) (T.held table.old) (T.held table.new) result }

    // A write failed only where that sink's count of faults rose.
    ensures write_fault { result ≡ ServeEnd.WriteFault
        → Rose (K.faults journal.old) (K.faults journal.new) ⊎ Rose (T.faults table.old) (T.faults table.new) }
{
    match play_arena(rt, alloc, setup, keys, workers) {
        Ok(arena) => record_evening(alloc, arena, journal, table),
        Err(_) => ServeEnd::OutOfMemory,
    }
}
