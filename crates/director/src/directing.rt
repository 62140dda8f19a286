ghost use Rattle.std.specs.Prelude.{◌≡◌, ◌<◌, ◌≤◌, Err, IfOk, length};
ghost use mathlib.Core.List.{IsPrefix};
ghost use Rattle.arena_lock.specs.Turns.{IsReady};
ghost use Rattle.director.specs.Answers.{turn_of};
ghost use Rattle.director.specs.Gains.{Adds, IsFull, ShowsFirst, Spends};
ghost use Rattle.director.specs.Steps.{state_of};
ghost use Rattle.director.specs.Turns.{Directs};

use crate::due::is_over;
use crate::starting::end_wave;
use crate::steps::{look, snap};
use crate::turn::{Turn, TurnFault, WaveEnd};
use arena_history::beginnings_are_histories;
use arena_lock::{Lobby, Pass};
use arena_rules::why_refused;
use conn::Clock;
use entries::Setup;
use group_pairing::Solve;
use std::alloc::Global;
use std::sync::Wait;
use std::thread::Threads;
use wave::Snapshot;

/// One turn of a director, in up to three turns of its pass, each at the clock's next moment: it ends the games that are due,
/// takes a snapshot, and where a wave is due at that snapshot it commits the snapshot's plan. The plan is made between two
/// turns of the pass by all solvers at once, of which there is at least one, so that other passes may take turns meanwhile: of
/// its pairs those start whose players are both still idle at the commit.
///
/// A wave is due exactly where the snapshot has at least two idle players, its stamp is at least `starts` and below `ends`, and
/// there was no wave yet or the last one was at least `wave_ms` milliseconds before.
///
/// `Full` comes where a game is due and the journal has 8,000,000 entries, or where a wave has a pair to start and the journal
/// has so many or there would be more than 200,000 games. `OutOfMemory` comes where a step has no memory. What was added before
/// a fault stays, which is at most a look that ended games.
///
/// It goes once over the running games and once over the table, and planning is what `plan` costs for those who are idle.
pub fn director_turn<R: Wait + Threads + Sync, C: Clock, V: Solve + Send>(
    rt: &R,
    alloc: Global,
    lobby: &Lobby,
    pass: &mut Pass,
    clock: &mut C,
    solvers: &mut [V],
) -> Result<Turn, TurnFault>
    requires ready { IsReady lobby.now pass.old }
    requires solvers { 0 < length solvers.old }
    ensures ready { IsReady lobby.now pass.new }
    ensures number { pass.new.number ≡ pass.old.number }

    // Which steps it made, what each found and did, and how the answer tells of them.
    ensures steps { Directs lobby.now.fixed (state_of pass.old (C.moments clock.old))
        (state_of pass.new (C.moments clock.new)) result }

    // How many turns of the pass and moments of the clock that took.
    ensures turns { Spends (state_of pass.old (C.moments clock.old))
        (state_of pass.new (C.moments clock.new)) result }

    // What it added of the pass's own.
    ensures own { Adds pass.old pass.new result }

    // The snapshot is of the first n entries that the pass has seen, among them all that it had seen before.
    ensures seen { IsPrefix pass.old.seen pass.new.seen }
    ensures n { IfOk result (λ turn. length pass.old.seen ≤ turn.n) }
    ensures shown { IfOk result (λ turn. ShowsFirst lobby.now.fixed (C.moments clock.old) pass.new.seen turn) }

    // Where the answer is `Full` there is no room.
    ensures full { result ≡ Err TurnFault.Full → IsFull lobby.now.fixed pass.new.seen }
{
    beginnings_are_histories();
    why_refused();
    take_turn(rt, alloc, lobby, pass, clock, solvers)
}

// The steps of a director's turn.
fn take_turn<R: Wait + Threads + Sync, C: Clock, V: Solve + Send>(
    rt: &R,
    alloc: Global,
    lobby: &Lobby,
    pass: &mut Pass,
    clock: &mut C,
    solvers: &mut [V],
) -> Result<Turn, TurnFault>
    requires ready { IsReady lobby.now pass.old }
    requires solvers { 0 < length solvers.old }
    ensures ready { IsReady lobby.now pass.new }
    ensures steps { Directs lobby.now.fixed (state_of pass.old (C.moments clock.old))
        (state_of pass.new (C.moments clock.new)) result }
{
    let ended = look(rt, lobby, pass, clock)?;
    let Ok(snap) = snap(rt, alloc, lobby, pass, clock) else {
        return Err(TurnFault::OutOfMemory);
    };
    let wave = end_wave(rt, alloc, lobby, pass, clock, solvers, &snap);
    turn_of(lobby.setup(), ended, &snap, wave)
}

// What a turn answers that ended so many games, had this snapshot, and whose wave came to this.
fn turn_of(
    setup: &Setup,
    ended: u32,
    snap: &Snapshot,
    wave: Result<WaveEnd, TurnFault>,
) -> Result<Turn, TurnFault>
    requires { length snap.now.rows ≤ 1000 }
    ensures { result ≡ turn_of setup.now ended snap.now wave }
{
    match wave {
        Ok(wave) => Ok(Turn {
            ended,
            n: snap.n,
            idle: snap.rows.items().len() as u32,
            over: is_over(setup, snap),
            wave,
        }),
        Err(fault) => Err(fault),
    }
}
