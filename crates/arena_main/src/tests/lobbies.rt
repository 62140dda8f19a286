//! Lobbies in which nothing happened yet, and the plans of their waves.

ghost use Rattle.std.specs.Prelude.{◌≡◌, ◌≤◌, ◌<◌, ◌∷◌, [], All, IfOk, length};
ghost use Rattle.entries.specs.Ranges.{IsGood};
ghost use Rattle.arena_lock.specs.Turns.{IsReady};
ghost use Rattle.arena_rules.specs.Commits.{IsPlanOf};

use arena_core::{Arena, Command};
use arena_lock::{Lobby, Pass};
use arena_rules::{plans_of_entries, tables_of_legal_lists};
use conn::Text;
use entries::{Control, Player, Setup};
use group_pairing::Bench;
use std::alloc::{AllocError, Global};
use std::sync::Wait;
use std::thread::Threads;
use wave::{Plan, plan};

/// Three minutes and two seconds a move for each side.
pub const CONTROL: Control = Control {
    initial_ms: 180_000,
    inc_ms: 2_000,
    first_ms: 20_000,
};

/// A player whose name is one letter.
pub fn named(
    alloc: Global,
    letter: u8,
    rating: u32,
    team: Option<u32>,
) -> Result<Player, AllocError>
    ensures name { IfOk result (λ player. player.name ≡ letter ∷ []) }
    ensures rating { IfOk result (λ player. player.rating ≡ rating) }
    ensures team { IfOk result (λ player. player.team ≡ team) }
{
    Ok(Player {
        name: Text::of(vec![in alloc; letter]?),
        rating,
        team,
    })
}

/// A lobby of so many passes, in which nothing happened yet.
pub fn opened(alloc: Global, setup: Setup, passes: u32) -> Result<(Lobby, Vec<Pass>), AllocError>
    requires good { IsGood setup }
    requires some { (1 ≤ passes) × (passes ≤ 256) }
    ensures setup { IfOk result (λ r. r.0.fixed ≡ setup) }
    ensures number { IfOk result (λ r. r.0.passes ≡ passes) }
    ensures len { IfOk result (λ r. length r.1.items ≡ passes) }
    ensures ready { IfOk result (λ r. All (IsReady r.0) r.1.items) }
{
    let arena = Arena::new(alloc, setup)?;
    Lobby::new(alloc, arena, passes)
}

/// A lobby of one pass, in which nothing happened yet, and that pass.
pub fn opened_for_one(alloc: Global, setup: Setup) -> Result<(Lobby, Pass), AllocError>
    requires good { IsGood setup }
    ensures setup { IfOk result (λ r. r.0.fixed ≡ setup) }
    ensures ready { IfOk result (λ r. IsReady r.0 r.1) }
{
    let (lobby, mut passes) = opened(alloc, setup, 1)?;
    match passes.pop() {
        Some(pass) => Ok((lobby, pass)),
        None => Err(AllocError),
    }
}

/// Whether a player's entering is accepted.
pub fn enter<R: Wait>(rt: &R, lobby: &Lobby, pass: &mut Pass, now: u64, player: u32) -> bool
    requires player { player < length lobby.now.fixed.players }
    requires ready { IsReady lobby.now pass.old }
    ensures ready { IsReady lobby.now pass.new }
{
    lobby.command(rt, pass, now, Command::Enter(player)).is_ok()
}

/// The plan of a snapshot at 1,000. The snapshot takes a turn, and the planning none.
pub fn planned<R: Threads + Wait + Sync>(
    rt: &R,
    alloc: Global,
    lobby: &Lobby,
    pass: &mut Pass,
) -> Result<Plan, AllocError>
    requires good { IsGood lobby.now.fixed }
    requires ready { IsReady lobby.now pass.old }
    ensures ready { IsReady lobby.now pass.new }
    ensures plan { IfOk result (λ plan. IsPlanOf lobby.now.fixed pass.new.seen plan) }
{
    tables_of_legal_lists();
    plans_of_entries();
    let snapshot = lobby.snapshot(rt, alloc, pass, 1_000)?;
    let mut solvers = vec![in alloc; Bench::new(alloc)?]?;
    plan(rt, alloc, solvers.as_mut_slice(), &snapshot)
}
