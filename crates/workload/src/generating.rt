ghost use Rattle.std.specs.Prelude.{ℕ, ◌≡◌, ◌+◌, ◌<◌, ◌≤◌, [], length, IfOk};
ghost use Rattle.std.specs.List.{range_with_len};
ghost use Rattle.arena_core.specs.Held.{past};
ghost use Rattle.arena_history.specs.Stamps.{last_stamp};
ghost use Rattle.arena_rules.specs.Legal.{IsLegal};
ghost use Rattle.workload.specs.Drafts.{going, with_all};
ghost use Rattle.workload.specs.Numbers.{state};
ghost use Rattle.workload.specs.Setups.{setup_of};
ghost use Rattle.workload.specs.Steps.{ComesTo};
ghost use Rattle.workload.specs.Workloads.{draft, enters, entries_of, journal_of, with_rounds};

use crate::drafting::{Stop, add_command};
use crate::numbers::Numbers;
use crate::rounds::play_round;
use crate::setup::setup;
use arena_core::{Arena, Command};
use conn::List;
use entries::Journal;
use group_pairing::Bench;
use std::alloc::{AllocError, Global};
use std::thread::Threads;

/// How many rounds there are.
const ROUNDS: u64 = 4;

/// How many milliseconds lie before the first round, and between one round and the next.
const ROUND_MS: u64 = 100_000;

// All players of the setup, who are so many, enter at 0.
fn enter_all(arena: &mut Arena, players: u32) -> Result<(), Stop>
    requires fresh { arena.old.entries ≡ [] }
    requires players { players ≡ length arena.old.setup.players }
    ensures setup { arena.new.setup ≡ arena.old.setup }
    ensures last { last_stamp arena.new.entries ≤ 0 }
    ensures starts { (past arena.new).starts ≡ [] }
    ensures comes { ComesTo (with_all arena.old.setup (going []) (enters players)) arena.new.entries result }
{
    'entering: for p in 0..players {
        add_command(arena, 0, Command::Enter(p))?;
    }
    Ok(())
}

// Adds the rounds.
fn play_rounds<R: Threads + Sync>(
    rt: &R,
    alloc: Global,
    solvers: &mut [Bench],
    arena: &mut Arena,
    numbers: &mut Numbers,
) -> Result<(), Stop>
    requires solvers { 0 < length solvers.old }
    requires last { last_stamp arena.old.entries ≤ 0 }
    ensures setup { arena.new.setup ≡ arena.old.setup }
    ensures comes { (seed : ℕ) → numbers.old.state ≡ state seed (length arena.old.setup.players + length (past arena.old).starts)
        → ComesTo (with_rounds seed arena.old.setup (going arena.old.entries) (range_with_len 0 ROUNDS)) arena.new.entries result }
{
    'playing: for r in 0..ROUNDS {
        play_round(rt, alloc, solvers, arena, numbers, (r + 1) * ROUND_MS)?;
    }
    Ok(())
}

// Adds all entries of a seed to the fresh arena of its setup, of so many players.
fn play<R: Threads + Sync>(
    rt: &R,
    alloc: Global,
    solvers: &mut [Bench],
    arena: &mut Arena,
    numbers: &mut Numbers,
    players: u32,
) -> Result<(), Stop>
    requires solvers { 0 < length solvers.old }
    requires fresh { arena.old.entries ≡ [] }
    requires players { players ≡ length arena.old.setup.players }
    ensures setup { arena.new.setup ≡ arena.old.setup }
    ensures comes { (seed : ℕ) → numbers.old.state ≡ state seed players
        → ComesTo (draft seed arena.old.setup players) arena.new.entries result }
{
    enter_all(arena, players)?;
    play_rounds(rt, alloc, solvers, arena, numbers)
}

/// The arena of the evening of a seed, below 2,147,483,648, and of 2 to 1,000 players, which `generate` describes, played to its end.
/// It fails only for want of memory.
pub fn played<R: Threads + Sync>(
    rt: &R,
    alloc: Global,
    seed: u32,
    players: u32,
) -> Result<Arena, AllocError>
    requires seed { seed < 2147483648 }
    requires players { (2 ≤ players) × (players ≤ 1000) }
    ensures setup { IfOk result (λ arena. arena.setup ≡ setup_of seed players) }
    ensures entries { IfOk result (λ arena. arena.entries ≡ entries_of seed players) }
{
    let mut numbers = Numbers::of(seed);
    let setup = setup(alloc, &mut numbers, players)?;
    let mut solvers = [Bench::new(alloc)?];
    let mut arena = Arena::new(alloc, setup)?;
    match play(rt, alloc, &mut solvers, &mut arena, &mut numbers, players) {
        Ok(()) => Ok(arena),
        Err(Stop::NotAllowed) => Ok(arena),
        Err(Stop::OutOfMemory) => Err(AllocError),
    }
}

/// The journal of a seed, below 2,147,483,648, and of 2 to 1,000 players: an evening in which all players enter at 0 and four
/// waves start as many games as there are pairs, each of which is played at once by one of six scripts. The seed draws the
/// ratings and the scripts. The journal is of version 1, so it lists no games. It fails only for want of memory.
///
/// It plans four waves, and adds at most 20 entries a game.
pub fn generate<R: Threads + Sync>(
    rt: &R,
    alloc: Global,
    seed: u32,
    players: u32,
) -> Result<Journal, AllocError>
    requires seed { seed < 2147483648 }
    requires players { (2 ≤ players) × (players ≤ 1000) }
    ensures journal { IfOk result (λ journal. journal ≡ journal_of seed players) }
    ensures legal { IfOk result (λ journal. IsLegal journal.setup journal.entries) }
{
    let arena = played(rt, alloc, seed, players)?;
    arena.shows_legal();
    let Journal { setup, entries, .. } = arena.into_journal();
    Ok(Journal {
        setup,
        version: 1,
        entries,
        starts: List::of(Vec::new(alloc)),
    })
}
