//! The arena behind its lock: commits, and threads beside each other.

ghost use Rattle.std.specs.Prelude.{◌≡◌, IfOk, length};
ghost use Rattle.entries.specs.Ranges.{IsGood};
ghost use Rattle.arena_lock.specs.Turns.{IsReady};
ghost use Rattle.arena_rules.specs.Commands.{IsCommandOf};

mod commits;
mod threads;

use super::lobbies::{CONTROL, named};
use arena_core::Command;
use arena_lock::{Lobby, Pass};
use conn::{List, Text};
use entries::Setup;
use std::alloc::{AllocError, Global};
use std::sync::Wait;

/// Alice and bob, without teams.
pub fn duel(alloc: Global) -> Result<Setup, AllocError>
    ensures good { IfOk result IsGood }
    ensures two { IfOk result (λ setup. length setup.players ≡ 2) }
{
    let alice = named(alloc, b'a', 2000, None)?;
    let bob = named(alloc, b'b', 1900, None)?;
    Ok(Setup {
        control: CONTROL,
        starts: 0,
        ends: 3_600_000,
        wave_ms: 5_000,
        leaders: 1,
        rule: 1,
        teams: List::of(Vec::new(alloc)),
        players: List::of(vec![in alloc; alice, bob]?),
    })
}

/// Four players of one team, of equal rating.
pub fn one_team(alloc: Global) -> Result<Setup, AllocError>
    ensures good { IfOk result IsGood }
    ensures four { IfOk result (λ setup. length setup.players ≡ 4) }
{
    let ann = named(alloc, b'a', 1500, Some(0))?;
    let ben = named(alloc, b'b', 1500, Some(0))?;
    let cyd = named(alloc, b'c', 1500, Some(0))?;
    let dan = named(alloc, b'd', 1500, Some(0))?;
    let red = Text::of(vec![in alloc; b'r']?);
    Ok(Setup {
        control: CONTROL,
        starts: 0,
        ends: 3_600_000,
        wave_ms: 5_000,
        leaders: 1,
        rule: 1,
        teams: List::of(vec![in alloc; red]?),
        players: List::of(vec![in alloc; ann, ben, cyd, dan]?),
    })
}

/// Whether a command is accepted.
pub fn does<R: Wait>(rt: &R, lobby: &Lobby, pass: &mut Pass, now: u64, command: Command) -> bool
    requires command { IsCommandOf (length lobby.now.fixed.players) command }
    requires ready { IsReady lobby.now pass.old }
    ensures ready { IsReady lobby.now pass.new }
{
    lobby.command(rt, pass, now, command).is_ok()
}
