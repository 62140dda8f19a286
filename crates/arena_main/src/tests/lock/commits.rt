ghost use Rattle.std.specs.Prelude.{◌≡◌, length};
ghost use Rattle.entries.specs.Ranges.{IsGood};
ghost use Rattle.arena_lock.specs.Turns.{IsReady};
ghost use Rattle.arena_rules.specs.Commits.{IsPlanOf};

use super::super::lobbies::{enter, opened_for_one, planned};
use super::{duel, one_team};
use arena_core::CommitFault;
use arena_lock::{Lobby, Pass};
use arena_rules::plans_of_entries;
use std::alloc::{AllocError, Global};
use std::sync::Wait;
use std::test::Fail;
use std::thread::Threads;
use wave::Plan;

/// What a commit of a plan is answered. The plan is afterwards still one of what the pass has seen.
fn commit<R: Wait>(
    rt: &R,
    alloc: Global,
    lobby: &Lobby,
    pass: &mut Pass,
    now: u64,
    plan: &Plan,
) -> Result<u32, CommitFault>
    requires ready { IsReady lobby.now pass.old }
    requires plan { IsPlanOf lobby.now.fixed pass.old.seen plan.now }
    ensures ready { IsReady lobby.now pass.new }
    ensures plan { IsPlanOf lobby.now.fixed pass.new.seen plan.now }
{
    plans_of_entries();
    lobby.commit(rt, alloc, pass, now, plan)
}

/// What a plan's commit is answered twice in its own wave, and at the arena's end.
fn commit_thrice<R: Wait>(
    rt: &R,
    alloc: Global,
    lobby: &Lobby,
    pass: &mut Pass,
    plan: &Plan,
) -> [Result<u32, CommitFault>; 3]
    requires ready { IsReady lobby.now pass.old }
    requires plan { IsPlanOf lobby.now.fixed pass.old.seen plan.now }
{
    let first = commit(rt, alloc, lobby, pass, 1_000, plan);
    let again = commit(rt, alloc, lobby, pass, 1_000, plan);
    let late = commit(rt, alloc, lobby, pass, 3_600_000, plan);
    [first, again, late]
}

/// Both players enter, their plan is committed thrice, and so many entries the pass has then seen.
fn enter_and_commit<R: Threads + Wait + Sync>(
    rt: &R,
    alloc: Global,
    lobby: &Lobby,
    pass: &mut Pass,
) -> Result<(bool, [Result<u32, CommitFault>; 3], u64), AllocError>
    requires good { IsGood lobby.now.fixed }
    requires two { length lobby.now.fixed.players ≡ 2 }
    requires ready { IsReady lobby.now pass.old }
{
    let both = enter(rt, lobby, pass, 0, 0) && enter(rt, lobby, pass, 0, 1);
    let plan = planned(rt, alloc, lobby, pass)?;
    let answers = commit_thrice(rt, alloc, lobby, pass, &plan);
    Ok((both, answers, pass.seen()))
}

/// What alice and bob come to.
fn of_two<R: Threads + Wait + Sync>(
    rt: &R,
    alloc: Global,
) -> Result<(bool, [Result<u32, CommitFault>; 3], u64), AllocError> {
    let (lobby, mut pass) = opened_for_one(alloc, duel(alloc)?)?;
    enter_and_commit(rt, alloc, &lobby, &mut pass)
}

#[test]
fn a_plan_is_committed_once_and_not_past_the_end(rt: HostRuntime) -> Result<(), Fail> {
    let (both, answers, seen) = of_two(&rt, rt.alloc())?;
    assert!(rt; both);
    assert_eq!(rt; answers, [Ok(1), Ok(0), Err(CommitFault::Closed)]);
    assert_eq!(rt; seen, 3);
    Ok(())
}

/// Enters all four players, by the pass.
fn enter_all<R: Wait>(rt: &R, lobby: &Lobby, pass: &mut Pass) -> u32
    requires ready { IsReady lobby.now pass.old }
    requires players { length lobby.now.fixed.players ≡ 4 }
    ensures ready { IsReady lobby.now pass.new }
{
    let mut entered = 0u32;
    for player in 0..4 {
        if enter(rt, lobby, pass, 0, player) {
            entered = entered.wrapping_add(1);
        }
    }
    entered
}

/// All four enter: how many could, what the commit of their plan is answered, and how many entries the pass has then seen.
fn enter_all_and_commit<R: Threads + Wait + Sync>(
    rt: &R,
    alloc: Global,
    lobby: &Lobby,
    pass: &mut Pass,
) -> Result<(u32, Result<u32, CommitFault>, u64), AllocError>
    requires good { IsGood lobby.now.fixed }
    requires four { length lobby.now.fixed.players ≡ 4 }
    requires ready { IsReady lobby.now pass.old }
{
    let entered = enter_all(rt, lobby, pass);
    let plan = planned(rt, alloc, lobby, pass)?;
    let committed = lobby.commit(rt, alloc, pass, 1_000, &plan);
    Ok((entered, committed, pass.seen()))
}

/// What four players of one team come to.
fn of_one_team<R: Threads + Wait + Sync>(
    rt: &R,
    alloc: Global,
) -> Result<(u32, Result<u32, CommitFault>, u64), AllocError> {
    let (lobby, mut pass) = opened_for_one(alloc, one_team(alloc)?)?;
    enter_all_and_commit(rt, alloc, &lobby, &mut pass)
}

#[test]
fn a_plan_without_pairs_starts_nothing(rt: HostRuntime) -> Result<(), Fail> {
    assert_eq!(rt; of_one_team(&rt, rt.alloc())?, (4, Ok(0), 4));
    Ok(())
}
