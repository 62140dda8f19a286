//! A worker: connections, and a director's turn behind each.

ghost use Rattle.std.specs.Prelude.{◌≡◌, ◌<◌, None, Some, length, vec_len};
ghost use Rattle.arena_lock.specs.Turns.{IsReady};
ghost use Rattle.director.specs.Steps.{state_of};
ghost use Rattle.host.specs.Asked.{AreKeysOfPlayers};
ghost use Rattle.server.specs.Works.{Works, end_by};

use crate::workers::{Worker, WorkerEnd};
use arena_lock::{Lobby, Pass};
use conn::{Clock, Door};
use director::{Turn, TurnFault, director_turn};
use group_pairing::Solve;
use host::serve_connection;
use setup_file::Keys;
use std::alloc::Global;
use std::sync::Wait;
use std::thread::Threads;

// Why a worker ends behind a director's turn, if it does. A turn that had no memory is passed over: a later one may have it.
fn end_by(turn: &Result<Turn, TurnFault>) -> Option<WorkerEnd>
    ensures { result ≡ end_by turn.now }
{
    match turn {
        Ok(turn) => {
            if turn.over {
                Some(WorkerEnd::Over)
            } else {
                None
            }
        }
        Err(TurnFault::Full) => Some(WorkerEnd::Full),
        Err(TurnFault::OutOfMemory) => None,
    }
}

// Makes a director's turn, and answers why the worker ends behind it, if it does.
fn direct<R: Wait + Threads + Sync, C: Clock, V: Solve + Send>(
    rt: &R,
    alloc: Global,
    lobby: &Lobby,
    pass: &mut Pass,
    clock: &mut C,
    solvers: &mut [V],
) -> Option<WorkerEnd>
    requires ready { IsReady lobby.now pass.old }
    requires solvers { 0 < length solvers.old }
    ensures ready { IsReady lobby.now pass.new }
    ensures works { Works lobby.now.fixed (state_of pass.old (C.moments clock.old))
        (state_of pass.new (C.moments clock.new)) result }
{
    let turn = director_turn(rt, alloc, lobby, pass, clock, solvers);
    end_by(&turn)
}

// Serves the connection that waits at the door, if one does.
fn serve_next<R: Wait, D: Door, C: Clock>(
    rt: &R,
    alloc: Global,
    lobby: &Lobby,
    keys: &Keys,
    pass: &mut Pass,
    door: &mut D,
    clock: &mut C,
)
    requires ready { IsReady lobby.now pass.old }
    requires players { AreKeysOfPlayers (length lobby.now.fixed.players) keys.now }
    ensures ready { IsReady lobby.now pass.new }
    ensures works { Works lobby.now.fixed (state_of pass.old (C.moments clock.old))
        (state_of pass.new (C.moments clock.new)) None }
{
    if let Some((mut source, mut sink)) = door.next() {
        serve_connection(rt, alloc, lobby, keys, pass, &mut source, &mut sink, clock);
    }
}

// Serves a connection, if one waits, and makes a director's turn. Answers why the worker ends behind it, if it does.
fn serve_and_direct<R: Wait + Threads + Sync, D: Door, C: Clock, V: Solve + Send>(
    rt: &R,
    alloc: Global,
    lobby: &Lobby,
    keys: &Keys,
    pass: &mut Pass,
    w: &mut Worker<D, C, V>,
) -> Option<WorkerEnd>
    requires ready { IsReady lobby.now pass.old }
    requires players { AreKeysOfPlayers (length lobby.now.fixed.players) keys.now }
    requires solvers { 0 < vec_len w.old.solvers }
    ensures ready { IsReady lobby.now pass.new }
    ensures solvers { vec_len w.new.solvers ≡ vec_len w.old.solvers }
    ensures works { Works lobby.now.fixed (state_of pass.old (C.moments w.old.clock))
        (state_of pass.new (C.moments w.new.clock)) result }
{
    serve_next(rt, alloc, lobby, keys, pass, &mut w.door, &mut w.clock);
    direct(
        rt,
        alloc,
        lobby,
        pass,
        &mut w.clock,
        w.solvers.as_mut_slice(),
    )
}

/// Works at a lobby until its arena is over or full: it asks its door, serves the connection that it got, if any, and makes a
/// director's turn behind each connection and each time that none waits. A turn's want of memory is passed over. It may wait at
/// the lobby, and works for as long as the arena goes on.
///
/// The keys are those of players of the lobby's setup, and there is at least one solver.
pub fn worker<R: Wait + Threads + Sync, D: Door, C: Clock, V: Solve + Send>(
    rt: &R,
    alloc: Global,
    lobby: &Lobby,
    keys: &Keys,
    pass: &mut Pass,
    w: &mut Worker<D, C, V>,
) -> WorkerEnd
    requires ready { IsReady lobby.now pass.old }
    requires players { AreKeysOfPlayers (length lobby.now.fixed.players) keys.now }
    requires solvers { 0 < vec_len w.old.solvers }

    // The pass has seen a legal history over the lobby's setup and may take further turns.
    ensures ready { IsReady lobby.now pass.new }

    // That history begins with all that the pass had seen, the clock gave one moment for each turn that was taken, and the answer
    // has its reason there: `Over` in all that the pass has seen, at the moment of the last of these turns.
    ensures works { Works lobby.now.fixed (state_of pass.old (C.moments w.old.clock))
        (state_of pass.new (C.moments w.new.clock)) (Some result) }
{
    for _ in rt.forever() {
        let end = serve_and_direct(rt, alloc, lobby, keys, pass, w);
        if let Some(end) = end {
            return end;
        }
    }
    unreachable!()
}
