//! The workers of an evening, each with its pass, and how they work beside each other.

ghost use Rattle.std.specs.Prelude.{◌≡◌, ◌≤◌, ◌<◌, ◌+◌, ℕ, [], All, IfOk, length, map, slice_index_or, vec_len, vec_capacity};
ghost use Rattle.std.specs.List.{zip};
ghost use denote.Param.Send.{IsSync};
ghost use Rattle.arena_lock.specs.Turns.{IsReady};
ghost use Rattle.host.specs.Asked.{AreKeysOfPlayers};
ghost use Rattle.server.specs.Shifts.{HasWorked};

use crate::workers::Worker;
use crate::working::worker;
use arena_lock::{Lobby, Pass};
use conn::{Clock, Door};
use group_pairing::Solve;
use setup_file::Keys;
use std::alloc::{AllocError, Global};
use std::sync::Wait;
use std::thread;
use std::thread::Threads;

/// A worker and its pass.
#[derive(Drop)]
pub(crate) struct Shift<D, C, V> {
    pub(crate) pass: Pass,
    pub(crate) worker: Worker<D, C, V>,
}

/// Gives each worker the pass of its place, as far as there are both. It fails only for want of memory.
pub(crate) fn shifts_of<D: Drop, C: Drop, V: Drop>(
    alloc: Global,
    passes: Vec<Pass>,
    workers: Vec<Worker<D, C, V>>,
) -> Result<Vec<Shift<D, C, V>>, AllocError>
    ensures { IfOk result (λ shifts. shifts.items ≡ map (λ p. record { pass = p.0; worker = p.1 }) (zip passes.items workers.items)) }
{
    passes
        .into_iter()
        .zip(workers)
        .map(|(pass, worker)| Shift { pass, worker })
        .collect(alloc)
}

// Lets a worker work whose pass has taken no turn yet, until it has ended.
fn work<R: Wait + Threads + Sync, D: Door + Send, C: Clock + Send, V: Solve + Send>(
    rt: &R,
    alloc: Global,
    lobby: &Lobby,
    keys: &Keys,
    shift: &mut Shift<D, C, V>,
)
    requires ready { IsReady lobby.now shift.old.pass }
    requires fresh { shift.old.pass.turns ≡ [] }
    requires players { AreKeysOfPlayers (length lobby.now.fixed.players) keys.now }
    requires solvers { 0 < vec_len shift.old.worker.solvers }
    ensures { HasWorked lobby.now shift.old.pass.number (C.moments shift.old.worker.clock) shift.new.pass }
{
    worker(rt, alloc, lobby, keys, &mut shift.pass, &mut shift.worker);
}

/// Lets all workers work, each in a thread of its own where one can be made, until each has ended.
pub(crate) fn work_all<R: Wait + Threads + Sync, D: Door + Send, C: Clock + Send, V: Solve + Send>(
    rt: &R,
    alloc: Global,
    lobby: &Lobby,
    keys: &Keys,
    shifts: &mut [Shift<D, C, V>],
)
    requires some { 0 < length shifts.old }
    requires ready { All (λ shift. IsReady lobby.now shift.pass) shifts.old }
    requires fresh { All (λ shift. shift.pass.turns ≡ []) shifts.old }
    requires players { AreKeysOfPlayers (length lobby.now.fixed.players) keys.now }
    requires solvers { All (λ shift. 0 < vec_len shift.worker.solvers) shifts.old }
    ensures { (i : ℕ) (d : _) → i < length shifts.old
        → HasWorked lobby.now (slice_index_or shifts.old i d).pass.number
        (C.moments (slice_index_or shifts.old i d).worker.clock) (slice_index_or shifts.new i d).pass }
{
    let threads = shifts.len();
    thread::for_each_mut(
        rt,
        shifts,
        threads,
        &|_: usize, shift: &mut Shift<D, C, V>|
            requires { IsSync R.row × IsReady lobby.now shift.now.pass × (shift.now.pass.turns ≡ [])
                × AreKeysOfPlayers (length lobby.now.fixed.players) keys.now × (0 < vec_len shift.now.worker.solvers) }
            ensures { HasWorked lobby.entry.now shift.entry.now.pass.number
                (C.moments shift.entry.now.worker.clock) shift.exit.now.pass }
        {
            work(rt, alloc, lobby, keys, shift);
        },
    );
}

/// The passes of workers that have ended, in a list that has the room.
pub(crate) fn passes_of<D: Drop, C: Drop, V: Drop>(
    shifts: Vec<Shift<D, C, V>>,
    room: Vec<Pass>,
) -> Vec<Pass>
    requires room { vec_len room + length shifts.items ≤ vec_capacity room }
    requires empty { room.items ≡ [] }
    ensures { result.items ≡ map (λ shift. shift.pass) shifts.items }
{
    let mut passes = room;
    for shift in shifts {
        let Shift { pass, worker: _ } = shift;
        passes.push_reserved(pass);
    }
    passes
}
