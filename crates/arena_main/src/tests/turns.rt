//! Turns of the director, over evenings of two players.

ghost use Rattle.std.specs.Prelude.{◌≡◌, ◌<◌, IfOk, IfSome, length};
ghost use Rattle.entries.specs.Ranges.{IsGood};
ghost use Rattle.arena_lock.specs.Turns.{IsReady};

use super::lobbies::{CONTROL, named, opened_for_one};
use arena_core::Command;
use arena_lock::{Lobby, Pass};
use conn::{List, MemClock, Text};
use director::{TurnFault, director_turn};
use entries::Setup;
use group_pairing::Bench;
use std::alloc::{AllocError, Global};
use std::process::Abort;
use std::sync::Wait;
use std::test::Fail;
use std::thread::Threads;

/// What differs between the evenings of the tests, each of alice and bob for an hour, with waves half a minute apart.
#[derive(Debug, Clone, Copy)]
enum Evening {
    /// Waves come from the first millisecond on, and nobody has a team.
    Plain,
    /// They come from the 500th on.
    Later,
    /// Both players are in one team.
    OneTeam,
}

fn start_of(evening: Evening) -> u64
    ensures { result < 3600000 }
{
    match evening {
        Evening::Later => 500,
        _ => 0,
    }
}

fn team_of(evening: Evening) -> Option<u32>
    ensures { IfSome result (λ number. number < 1) }
{
    match evening {
        Evening::OneTeam => Some(0),
        _ => None,
    }
}

fn setup_of(alloc: Global, evening: Evening) -> Result<Setup, AllocError>
    ensures good { IfOk result IsGood }
    ensures two { IfOk result (λ setup. length setup.players ≡ 2) }
{
    let team = team_of(evening);
    let alice = named(alloc, b'a', 2000, team)?;
    let bob = named(alloc, b'b', 1900, team)?;
    let red = Text::of(vec![in alloc; b'r']?);
    Ok(Setup {
        control: CONTROL,
        starts: start_of(evening),
        ends: 3_600_000,
        wave_ms: 30_000,
        leaders: 1,
        rule: 1,
        teams: List::of(vec![in alloc; red]?),
        players: List::of(vec![in alloc; alice, bob]?),
    })
}

/// The lobby of an evening, and its one pass.
fn opened(alloc: Global, evening: Evening) -> Result<(Lobby, Pass), AllocError>
    ensures two { IfOk result (λ r. length r.0.fixed.players ≡ 2) }
    ensures ready { IfOk result (λ r. IsReady r.0 r.1) }
{
    opened_for_one(alloc, setup_of(alloc, evening)?)
}

/// Both players ask to enter, if they do. Who is in already is refused, and stays in.
fn enter_both<R: Wait>(rt: &R, lobby: &Lobby, pass: &mut Pass, enters: bool)
    requires ready { IsReady lobby.now pass.old }
    requires two { length lobby.now.fixed.players ≡ 2 }
    ensures ready { IsReady lobby.now pass.new }
{
    if !enters {
        return;
    }
    let _ = lobby.command(rt, pass, 0, Command::Enter(0));
    let _ = lobby.command(rt, pass, 0, Command::Enter(1));
}

/// What a turn answers whose clock gives these moments, by two solvers: games ended, entries, idle players, whether the arena
/// is over, and what became of the wave.
fn told<R: Wait + Threads + Sync>(
    rt: &R,
    alloc: Global,
    lobby: &Lobby,
    pass: &mut Pass,
    moments: [u64; 3],
) -> Result<String, Fail>
    requires ready { IsReady lobby.now pass.old }
    ensures ready { IsReady lobby.now pass.new }
{
    let mut solvers = [Bench::new(alloc)?, Bench::new(alloc)?];
    let mut clock = MemClock::new(Vec::from_slice(alloc, &moments)?);
    match director_turn(rt, alloc, lobby, pass, &mut clock, &mut solvers) {
        Ok(turn) => Ok(format!(in alloc;
            "{} {} {} {} {:?}",
            turn.ended, turn.n, turn.idle, turn.over, turn.wave
        )?),
        Err(TurnFault::Full) => Err("full")?,
        Err(TurnFault::OutOfMemory) => Err("out of memory")?,
    }
}

/// Both players ask to enter, if they do, and a turn of which each step is at this moment answers so.
fn goes<R: Wait + Threads + Sync + Abort>(
    rt: &R,
    alloc: Global,
    lobby: &Lobby,
    pass: &mut Pass,
    enters: bool,
    now: u64,
    want: &str,
) -> Result<(), Fail>
    requires ready { IsReady lobby.now pass.old }
    requires two { length lobby.now.fixed.players ≡ 2 }
    ensures ready { IsReady lobby.now pass.new }
{
    enter_both(rt, lobby, pass, enters);
    let is = told(rt, alloc, lobby, pass, [now, now, now])?;
    assert_eq!(rt; is.as_str(), want, "at {now}");
    Ok(())
}

/// The turns of an evening, one after another.
fn all_go<R: Wait + Threads + Sync + Abort>(
    rt: &R,
    alloc: Global,
    lobby: &Lobby,
    pass: &mut Pass,
) -> Result<(), Fail>
    requires ready { IsReady lobby.now pass.old }
    requires two { length lobby.now.fixed.players ≡ 2 }
{
    goes(
        rt,
        alloc,
        lobby,
        pass,
        true,
        1_000,
        "0 2 2 false Started(1)",
    )?;
    goes(rt, alloc, lobby, pass, false, 1_000, "0 3 0 false NotDue")?;
    // White did not come, and pauses.
    goes(rt, alloc, lobby, pass, false, 21_001, "1 4 1 false NotDue")?;
    // Both are idle, a millisecond too early and then not.
    goes(rt, alloc, lobby, pass, true, 30_999, "0 5 2 false NotDue")?;
    goes(
        rt,
        alloc,
        lobby,
        pass,
        false,
        31_000,
        "0 5 2 false Started(1)",
    )?;
    goes(rt, alloc, lobby, pass, false, 51_001, "1 7 1 false NotDue")?;
    goes(
        rt,
        alloc,
        lobby,
        pass,
        true,
        3_590_000,
        "0 8 2 false Started(1)",
    )?;
    // The end has come, and one game runs, and then none.
    goes(
        rt,
        alloc,
        lobby,
        pass,
        false,
        3_600_000,
        "0 9 0 false NotDue",
    )?;
    goes(
        rt,
        alloc,
        lobby,
        pass,
        false,
        3_610_001,
        "1 10 1 true NotDue",
    )
}

#[test]
fn an_evening_of_two(rt: HostRuntime) -> Result<(), Fail> {
    let (lobby, mut pass) = opened(rt.alloc(), Evening::Plain)?;
    all_go(&rt, rt.alloc(), &lobby, &mut pass)
}

/// An evening, the clock's moments at a first turn, what it answers, and what a second turn answers at 1,000.
const COMMITS: [(Evening, [u64; 3], &str, &str); 3] = [
    // two of one team do not meet, and the wave is due again
    (
        Evening::OneTeam,
        [1_000, 1_000, 1_000],
        "0 2 2 false Started(0)",
        "0 2 2 false Started(0)",
    ),
    // the clock goes back while the wave is planned
    (
        Evening::Later,
        [1_000, 1_000, 499],
        "0 2 2 false Early",
        "0 2 2 false Started(1)",
    ),
    // or it goes on to the end
    (
        Evening::Plain,
        [1_000, 1_000, 3_600_000],
        "0 2 2 false Closed",
        "0 2 2 false Started(1)",
    ),
];

#[test]
fn waves_that_start_nobody(rt: HostRuntime) -> Result<(), Fail> {
    let alloc = rt.alloc();
    'commits: for (evening, moments, first, second) in COMMITS {
        let (lobby, mut pass) = opened(alloc, evening)?;
        enter_both(&rt, &lobby, &mut pass, true);
        let is = told(&rt, alloc, &lobby, &mut pass, moments)?;
        assert_eq!(rt; is.as_str(), first);
        let is = told(&rt, alloc, &lobby, &mut pass, [1_000, 1_000, 1_000])?;
        assert_eq!(rt; is.as_str(), second);
    }
    Ok(())
}
