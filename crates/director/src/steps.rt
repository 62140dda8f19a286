ghost use Rattle.std.specs.Prelude.{◌≡◌, IfOk, OnErr};
ghost use Rattle.arena_lock.specs.Turns.{IsReady};
ghost use Rattle.arena_rules.specs.Commits.{IsPlanOf};
ghost use Rattle.wave.specs.Rankings.{IsRanking};
ghost use Rattle.director.specs.Answers.{ended_if_refused, ended_in};
ghost use Rattle.director.specs.Steps.{AddedNothing, Committed, Looks, Snapped, state_of};

use crate::turn::TurnFault;
use arena_core::{ApplyFault, Command, CommitFault, Refusal, Reply};
use arena_lock::{Lobby, Pass};
use arena_rules::{looks_end_games, tables_of_legal_lists};
use conn::Clock;
use std::alloc::{AllocError, Global};
use std::sync::Wait;
use wave::{Plan, Snapshot};

// Ends the games that are due at the clock's next moment, and answers how many. `Full` comes where one is due and the journal
// has 8,000,000 entries.
pub(crate) fn look<R: Wait, C: Clock>(
    rt: &R,
    lobby: &Lobby,
    pass: &mut Pass,
    clock: &mut C,
) -> Result<u32, TurnFault>
    requires ready { IsReady lobby.now pass.old }
    ensures ready { IsReady lobby.now pass.new }
    ensures answer { Looks lobby.now.fixed (state_of pass.old (C.moments clock.old))
        (state_of pass.new (C.moments clock.new)) result }
{
    looks_end_games();
    let now = clock.now();
    let answer = lobby.command(rt, pass, now, Command::Tick);
    ended_in(answer)
}

// How many games a look ended, or why it was not made. No other reply is given to a look.
fn ended_in(answer: Result<Reply, ApplyFault>) -> Result<u32, TurnFault>
    ensures { result ≡ ended_in answer }
{
    match answer {
        Ok(Reply::Ticked(ended)) => Ok(ended),
        Ok(Reply::Me(_)) => Ok(0),
        Ok(Reply::Game(_)) => Ok(0),
        Err(ApplyFault::Refused(refusal)) => ended_if_refused(refusal),
        Err(ApplyFault::OutOfMemory) => Err(TurnFault::OutOfMemory),
    }
}

// Where a look is refused no game was due, or there was no room for it. Nothing else refuses one.
fn ended_if_refused(refusal: Refusal) -> Result<u32, TurnFault>
    ensures { result ≡ ended_if_refused refusal }
{
    match refusal {
        Refusal::NothingDue => Ok(0),
        Refusal::NotEntered
        | Refusal::AlreadyIn
        | Refusal::AlreadyPaused
        | Refusal::Left
        | Refusal::Closed
        | Refusal::NoGame
        | Refusal::NotYours
        | Refusal::Act(_)
        | Refusal::Full => Err(TurnFault::Full),
    }
}

// What a wave is planned from at the clock's next moment.
pub(crate) fn snap<R: Wait, C: Clock>(
    rt: &R,
    alloc: Global,
    lobby: &Lobby,
    pass: &mut Pass,
    clock: &mut C,
) -> Result<Snapshot, AllocError>
    requires ready { IsReady lobby.now pass.old }
    ensures ready { IsReady lobby.now pass.new }
    ensures rows { IfOk result (λ snap. IsRanking snap.rows) }
    ensures taken { IfOk result (λ snap. Snapped lobby.now.fixed
        (state_of pass.old (C.moments clock.old)) (state_of pass.new (C.moments clock.new)) snap) }
    ensures failed { OnErr result (AddedNothing (state_of pass.old (C.moments clock.old))
        (state_of pass.new (C.moments clock.new))) }
{
    tables_of_legal_lists();
    let _setup = lobby.setup();
    let now = clock.now();
    lobby.snapshot(rt, alloc, pass, now)
}

// Commits a plan at the clock's next moment, and answers how many games it starts.
pub(crate) fn commit<R: Wait, C: Clock>(
    rt: &R,
    alloc: Global,
    lobby: &Lobby,
    pass: &mut Pass,
    clock: &mut C,
    plan: &Plan,
) -> Result<u32, CommitFault>
    requires ready { IsReady lobby.now pass.old }
    requires plan { IsPlanOf lobby.now.fixed pass.old.seen plan.now }
    ensures ready { IsReady lobby.now pass.new }
    ensures answer { Committed lobby.now.fixed (state_of pass.old (C.moments clock.old))
        (state_of pass.new (C.moments clock.new)) plan.now.n result }
{
    let now = clock.now();
    lobby.commit(rt, alloc, pass, now, plan)
}
