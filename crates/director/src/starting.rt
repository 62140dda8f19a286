ghost use Rattle.std.specs.Prelude.{◌≡◌, ◌<◌, IfOk, length, true};
ghost use Rattle.arena_lock.specs.Turns.{IsReady};
ghost use Rattle.arena_rules.specs.Commits.{IsPlanOf};
ghost use Rattle.wave.specs.Rankings.{IsRanking};
ghost use Rattle.director.specs.Due.{is_due};
ghost use Rattle.director.specs.Steps.{state_of};
ghost use Rattle.director.specs.Turns.{EndsWave, IsSnapshotOf};

use crate::due::is_due;
use crate::steps::commit;
use crate::turn::{TurnFault, WaveEnd};
use arena_core::CommitFault;
use arena_lock::{Lobby, Pass};
use arena_rules::plans_of_entries;
use conn::Clock;
use group_pairing::Solve;
use std::alloc::{AllocError, Global};
use std::sync::Wait;
use std::thread::Threads;
use wave::{Plan, Snapshot, plan};

// Starts a wave where one is due at a snapshot of all that the pass has seen.
pub(crate) fn end_wave<R: Wait + Threads + Sync, C: Clock, V: Solve + Send>(
    rt: &R,
    alloc: Global,
    lobby: &Lobby,
    pass: &mut Pass,
    clock: &mut C,
    solvers: &mut [V],
    snap: &Snapshot,
) -> Result<WaveEnd, TurnFault>
    requires ready { IsReady lobby.now pass.old }
    requires solvers { 0 < length solvers.old }
    requires rows { IsRanking snap.now.rows }
    requires taken { IsSnapshotOf lobby.now.fixed pass.old.seen snap.now }
    ensures ready { IsReady lobby.now pass.new }
    ensures answer { EndsWave lobby.now.fixed (state_of pass.old (C.moments clock.old))
        (state_of pass.new (C.moments clock.new)) snap.now result }
{
    if is_due(lobby.setup(), snap) {
        start_wave(rt, alloc, lobby, pass, clock, solvers, snap)
    } else {
        Ok(WaveEnd::NotDue)
    }
}

// Plans the wave that is due, by all solvers, and commits its plan.
fn start_wave<R: Wait + Threads + Sync, C: Clock, V: Solve + Send>(
    rt: &R,
    alloc: Global,
    lobby: &Lobby,
    pass: &mut Pass,
    clock: &mut C,
    solvers: &mut [V],
    snap: &Snapshot,
) -> Result<WaveEnd, TurnFault>
    requires ready { IsReady lobby.now pass.old }
    requires solvers { 0 < length solvers.old }
    requires rows { IsRanking snap.now.rows }
    requires taken { IsSnapshotOf lobby.now.fixed pass.old.seen snap.now }
    requires due { is_due lobby.now.fixed snap.now ≡ true }
    ensures ready { IsReady lobby.now pass.new }
    ensures answer { EndsWave lobby.now.fixed (state_of pass.old (C.moments clock.old))
        (state_of pass.new (C.moments clock.new)) snap.now result }
{
    plans_of_entries();
    let Ok(plan) = plan(rt, alloc, solvers, snap) else {
        return Err(TurnFault::OutOfMemory);
    };
    match commit(rt, alloc, lobby, pass, clock, &plan) {
        Ok(count) => Ok(WaveEnd::Started(count)),
        Err(CommitFault::Early) => Ok(WaveEnd::Early),
        Err(CommitFault::Closed) => Ok(WaveEnd::Closed),
        Err(CommitFault::Full) => Err(TurnFault::Full),
        Err(CommitFault::OutOfMemory) => Err(TurnFault::OutOfMemory),
    }
}
