ghost use Rattle.std.specs.Prelude.{◌≡◌, ◌<◌, All, IfOk, IfSome, length};
ghost use Rattle.entries.specs.Ranges.{IsGood};
ghost use Rattle.arena_lock.specs.Turns.{IsReady};
ghost use Rattle.arena_rules.specs.Commands.{IsCommandOf};
ghost use Rattle.arena_rules.specs.Queries.{IsQueryOf};

use super::super::lobbies::{enter, opened, planned};
use super::{does, duel, one_team};
use arena_core::{Answer, Arena, Command, Query};
use arena_lock::{Lobby, Pass};
use conn::List;
use entries::{Action, Entry, What};
use ranking::Row;
use std::alloc::{AllocError, Global};
use std::process::Abort;
use std::sync::Wait;
use std::test::Fail;
use std::thread;
use std::thread::Threads;

/// Whether a question is answered.
fn is_answered<R: Wait>(
    rt: &R,
    alloc: Global,
    lobby: &Lobby,
    pass: &mut Pass,
    now: u64,
    query: Query,
) -> bool
    requires query { IsQueryOf (length lobby.now.fixed.players) query }
    requires ready { IsReady lobby.now pass.old }
    ensures ready { IsReady lobby.now pass.new }
{
    lobby.query(rt, alloc, pass, now, query).is_ok()
}

/// Looks at the clocks, by which nothing is due, and at the arena, so often. Whether each time nothing was done and the arena shown.
fn look_on<R: Wait>(rt: &R, alloc: Global, lobby: &Lobby, pass: &mut Pass, times: u64) -> bool
    requires { IsReady lobby.now pass.old }
{
    let mut right = true;
    for _ in 0..times {
        let done = does(rt, lobby, pass, 2_000, Command::Tick);
        let shown = is_answered(rt, alloc, lobby, pass, 2_000, Query::Arena);
        right = right && !done && shown;
    }
    right
}

/// A player leads the table that a pass is shown, with the points of a win.
fn has_won<R: Wait>(rt: &R, alloc: Global, lobby: &Lobby, pass: &mut Pass, player: u32) -> bool
    requires ready { IsReady lobby.now pass.old }
{
    match lobby.query(rt, alloc, pass, 2_000, Query::Standing(0)) {
        Ok(Answer::Standing { rows, .. }) => leads(rows.items(), player),
        _ => false,
    }
}

/// A player leads a table with the points of a win.
fn leads(rows: &[Row], player: u32) -> bool {
    match rows {
        [first, ..] => first.player == player && first.points == 2,
        [] => false,
    }
}

/// A player gives game 0 up. The table that is asked for next is not older, and has the other's win.
fn resign_and_look<R: Wait>(rt: &R, alloc: Global, lobby: &Lobby, pass: &mut Pass) -> bool
    requires ready { IsReady lobby.now pass.old }
    requires players { length lobby.now.fixed.players ≡ 2 }
{
    let resigned = does(rt, lobby, pass, 2_000, Command::Act(0, 0, Action::Resign));
    let seen = pass.seen();
    let won = has_won(rt, alloc, lobby, pass, 1);
    resigned && won && seen <= pass.seen()
}

/// Pass 1 gives the game up and looks, and each other looks on. Whether all that it was answered is as it has to be.
fn resign_or_look_on<R: Wait>(rt: &R, alloc: Global, lobby: &Lobby, mut pass: Pass) -> bool
    requires ready { IsReady lobby.now pass }
    requires players { length lobby.now.fixed.players ≡ 2 }
{
    if pass.number() == 1 {
        resign_and_look(rt, alloc, lobby, &mut pass)
    } else {
        look_on(rt, alloc, lobby, &mut pass, 500)
    }
}

/// Pass 1 resigns for alice and looks, and all others look on meanwhile, each in a thread of its own.
fn resign_beside_others<R: Threads + Wait + Sync>(
    rt: &R,
    alloc: Global,
    lobby: &Lobby,
    passes: Vec<Pass>,
) -> Result<Vec<bool>, AllocError>
    requires ready { All (IsReady lobby.now) passes.items }
    requires players { length lobby.now.fixed.players ≡ 2 }
{
    thread::map_vec(
        rt,
        passes,
        &|pass| resign_or_look_on(rt, alloc, lobby, pass),
    )
}

/// A game of alice and bob has begun.
fn begin_game<R: Threads + Wait + Sync>(
    rt: &R,
    alloc: Global,
    lobby: &Lobby,
    pass: &mut Pass,
) -> Result<bool, AllocError>
    requires good { IsGood lobby.now.fixed }
    requires players { length lobby.now.fixed.players ≡ 2 }
    requires ready { IsReady lobby.now pass.old }
    ensures ready { IsReady lobby.now pass.new }
{
    let both = enter(rt, lobby, pass, 0, 0) && enter(rt, lobby, pass, 0, 1);
    let plan = planned(rt, alloc, lobby, pass)?;
    let started = lobby.commit(rt, alloc, pass, 1_000, &plan);
    Ok(both && started == Ok(1))
}

/// The passes of a lobby, of which the last has begun the game.
fn begun<R: Threads + Wait + Sync>(
    rt: &R,
    alloc: Global,
    lobby: &Lobby,
    mut passes: Vec<Pass>,
) -> Result<Vec<Pass>, AllocError>
    requires good { IsGood lobby.now.fixed }
    requires players { length lobby.now.fixed.players ≡ 2 }
    requires ready { All (IsReady lobby.now) passes.items }
    ensures ready { IfOk result (λ passes. All (IsReady lobby.now) passes.items) }
{
    let Some(mut pass) = passes.pop() else {
        return Err(AllocError);
    };
    if begin_game(rt, alloc, lobby, &mut pass) != Ok(true) {
        return Err(AllocError);
    }
    passes.push(pass)?;
    Ok(passes)
}

/// The game of alice and bob begins in a lobby of two passes, and alice resigns while the other looks on.
fn worked<R: Threads + Wait + Sync>(rt: &R, alloc: Global) -> Result<Vec<bool>, AllocError> {
    let (lobby, passes) = opened(alloc, duel(alloc)?, 2)?;
    let passes = begun(rt, alloc, &lobby, passes)?;
    resign_beside_others(rt, alloc, &lobby, passes)
}

#[test]
fn the_table_is_not_older_than_what_the_caller_did(rt: HostRuntime) -> Result<(), Fail> {
    let right = worked(&rt, rt.alloc())?;
    assert_eq!(rt; right.as_slice(), [true, true].as_slice());
    Ok(())
}

/// A player enters and pauses, and asks for the table and for himself in between.
fn come_and_go_once<R: Wait>(
    rt: &R,
    alloc: Global,
    lobby: &Lobby,
    pass: &mut Pass,
    now: u64,
    player: u32,
)
    requires player { player < length lobby.now.fixed.players }
    requires ready { IsReady lobby.now pass.old }
    ensures ready { IsReady lobby.now pass.new }
{
    let _ = does(rt, lobby, pass, now, Command::Enter(player));
    let _ = is_answered(rt, alloc, lobby, pass, now, Query::Standing(0));
    let _ = does(rt, lobby, pass, now, Command::Pause(player));
    let _ = is_answered(rt, alloc, lobby, pass, now, Query::Me(player));
}

/// A player comes and goes so often. Two passes do so for each player, so that some of their commands are refused.
fn come_and_go<R: Wait>(rt: &R, alloc: Global, lobby: &Lobby, mut pass: Pass, rounds: u64) -> Pass
    requires ready { IsReady lobby.now pass }
    requires players { length lobby.now.fixed.players ≡ 4 }
    ensures { IsReady lobby.now result }
{
    let player = pass.number() % 4;
    for now in 0..rounds {
        come_and_go_once(rt, alloc, lobby, &mut pass, now, player);
    }
    pass
}

/// Each pass comes and goes in a thread of its own.
fn all_come_and_go<R: Threads + Wait + Sync>(
    rt: &R,
    alloc: Global,
    lobby: &Lobby,
    passes: Vec<Pass>,
    rounds: u64,
) -> Result<Vec<Pass>, AllocError>
    requires ready { All (IsReady lobby.now) passes.items }
    requires players { length lobby.now.fixed.players ≡ 4 }
    ensures len { IfOk result (λ v. length v.items ≡ length passes.items) }
    ensures ready { IfOk result (λ v. All (IsReady lobby.now) v.items) }
{
    thread::map_vec(
        rt,
        passes,
        &|pass| come_and_go(rt, alloc, lobby, pass, rounds),
    )
}

/// The first ten rows of the table, as a pass is shown them.
fn shown<R: Wait>(
    rt: &R,
    alloc: Global,
    lobby: &Lobby,
    pass: &mut Pass,
) -> Result<List<Row>, AllocError>
    requires ready { IsReady lobby.now pass.old }
    ensures ready { IsReady lobby.now pass.new }
{
    match lobby.query(rt, alloc, pass, 0, Query::Standing(0)) {
        Ok(Answer::Standing { rows, .. }) => Ok(rows),
        _ => Err(AllocError),
    }
}

/// The command that an entry came from, if it is one of the four players' entering or pausing.
fn coming_or_going(what: What) -> Option<Command>
    ensures { IfSome result (IsCommandOf 4) }
{
    match what {
        What::Enter(player) if player < 4 => Some(Command::Enter(player)),
        What::Pause(player) if player < 4 => Some(Command::Pause(player)),
        _ => None,
    }
}

/// Makes an entry of another arena again. Whether it is accepted.
fn make_again(again: &mut Arena, entry: Entry) -> bool
    requires players { length again.old.setup.players ≡ 4 }
    ensures players { length again.new.setup.players ≡ 4 }
{
    match coming_or_going(entry.what) {
        Some(command) => again.apply(entry.pass, entry.stamp, command).is_ok(),
        None => false,
    }
}

/// Makes the entries of another arena again. Whether each is accepted.
fn make_all_again(again: &mut Arena, arena: &Arena) -> bool
    requires players { length again.old.setup.players ≡ 4 }
{
    let mut right = true;
    for i in 0..arena.len() {
        right = right
            && match arena.entry(i) {
                Some(entry) => make_again(again, entry),
                None => false,
            };
    }
    right
}

/// These rows are the table of an arena in which the entries of another were made again, each of which is accepted.
fn is_table_of(alloc: Global, arena: &Arena, rows: &[Row]) -> Result<bool, AllocError> {
    let mut again = Arena::new(alloc, one_team(alloc)?)?;
    let right = make_all_again(&mut again, arena);
    let table = again.rows(alloc)?;
    Ok(right && rows == table.as_slice())
}

/// All passes but the last come and go, each in a thread of its own, and the last is then shown the table.
fn watched<R: Threads + Wait + Sync>(
    rt: &R,
    alloc: Global,
    lobby: &Lobby,
    mut passes: Vec<Pass>,
    rounds: u64,
) -> Result<(Vec<Pass>, List<Row>), AllocError>
    requires nine { length passes.items ≡ 9 }
    requires ready { All (IsReady lobby.now) passes.items }
    requires players { length lobby.now.fixed.players ≡ 4 }
    ensures nine { IfOk result (λ r. length r.0.items ≡ 9) }
    ensures ready { IfOk result (λ r. All (IsReady lobby.now) r.0.items) }
{
    let Some(mut watcher) = passes.pop() else {
        return Err(AllocError);
    };
    let mut passes = all_come_and_go(rt, alloc, lobby, passes, rounds)?;
    let table = shown(rt, alloc, lobby, &mut watcher)?;
    passes.push(watcher)?;
    Ok((passes, table))
}

/// The arena that is left when eight threads have come and gone, and the table that a ninth pass was shown then.
fn closed<R: Threads + Wait + Sync>(
    rt: &R,
    alloc: Global,
    rounds: u64,
) -> Result<(Arena, List<Row>), AllocError> {
    let (lobby, passes) = opened(alloc, one_team(alloc)?, 9)?;
    let (passes, table) = watched(rt, alloc, &lobby, passes, rounds)?;
    Ok((lobby.close(passes), table))
}

/// How many entries the closed arena has, and whether what was shown is the table of its journal.
fn watched_and_closed<R: Threads + Wait + Sync>(
    rt: &R,
    alloc: Global,
    rounds: u64,
) -> Result<(u64, bool), AllocError> {
    let (arena, table) = closed(rt, alloc, rounds)?;
    let same = is_table_of(alloc, &arena, table.items())?;
    Ok((arena.len(), same))
}

/// Eight threads come and go, a ninth pass is then shown the table, and what it was shown is the table of the journal that the
/// closed arena has.
#[test]
fn the_closed_journal_gives_the_table_that_was_shown(rt: HostRuntime) -> Result<(), Fail> {
    let rounds = 100;
    let (entries, same) = watched_and_closed(&rt, rt.alloc(), rounds)?;
    assert!(rt; entries >= 4 * rounds);
    assert!(rt; same);
    Ok(())
}
