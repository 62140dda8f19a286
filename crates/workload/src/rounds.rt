//! A round: a wave, and each game that it starts played to its end.

ghost use Rattle.std.specs.Prelude.{ℕ, ◌≡◌, ◌+◌, ◌<◌, ◌≤◌, drop, length, map, OnOk};
ghost use Rattle.entries.specs.Limits.{max_stamp};
ghost use Rattle.arena_core.specs.Held.{past};
ghost use Rattle.arena_history.specs.Stamps.{last_stamp};
ghost use Rattle.workload.specs.Drafts.{going, with_all};
ghost use Rattle.workload.specs.Numbers.{state};
ghost use Rattle.workload.specs.Rounds.{plays_from, round};
ghost use Rattle.workload.specs.Scripts.{act_of, acts, acts_from, player_of, script};
ghost use Rattle.workload.specs.Steps.{ComesTo};

use crate::drafting::{Stop, add_command, add_wave};
use crate::numbers::Numbers;
use crate::scripts::{action_of, first_of, words_of};
use arena_core::{Arena, Command};
use arena_history::{beginnings_are_histories, games_with_one_more};
use arena_rules::{games_are_listed, legal_lists_in_range};
use board::Colour;
use entries::Start;
use group_pairing::Bench;
use std::alloc::Global;
use std::thread::Threads;

// The player of a side of a game.
fn player_of(side: Colour, game: &Start) -> u32
    ensures { result ≡ player_of side game.now }
{
    match side {
        Colour::White => game.white,
        Colour::Black => game.black,
    }
}

// Adds what a word says that a side of a game does, if it is an action's.
fn act(
    arena: &mut Arena,
    t: u64,
    number: u32,
    game: &Start,
    side: Colour,
    word: &[u8],
) -> Result<(), Stop>
    requires white { game.now.white < length arena.old.setup.players }
    requires black { game.now.black < length arena.old.setup.players }
    requires last { last_stamp arena.old.entries ≤ t }
    requires most { t ≤ max_stamp }
    ensures setup { arena.new.setup ≡ arena.old.setup }
    ensures last { last_stamp arena.new.entries ≤ t }
    ensures starts { (past arena.new).starts ≡ (past arena.old).starts }
    ensures comes { ComesTo (with_all arena.old.setup (going arena.old.entries) (act_of t number game.now side word.now))
        arena.new.entries result }
{
    match action_of(word) {
        Some(action) => add_command(
            arena,
            t,
            Command::Act(player_of(side, game), number, action),
        ),
        None => Ok(()),
    }
}

// Adds what words say that the sides of a game do in turn.
fn act_in_turn(
    arena: &mut Arena,
    t: u64,
    number: u32,
    game: &Start,
    side: Colour,
    words: &[&str],
) -> Result<(), Stop>
    requires white { game.now.white < length arena.old.setup.players }
    requires black { game.now.black < length arena.old.setup.players }
    requires last { last_stamp arena.old.entries ≤ t }
    requires most { t ≤ max_stamp }
    ensures setup { arena.new.setup ≡ arena.old.setup }
    ensures last { last_stamp arena.new.entries ≤ t }
    ensures starts { (past arena.new).starts ≡ (past arena.old).starts }
    ensures comes { ComesTo (with_all arena.old.setup (going arena.old.entries)
        (acts_from t number game.now side (map (λ word. word.now) words.now)))
        arena.new.entries result }
{
    let [word, rest @ ..] = words else {
        return Ok(());
    };
    act(arena, t, number, game, side, word.as_bytes())?;
    act_in_turn(arena, t, number, game, side.other(), rest)
}

// Plays a game by the script with this number, to its end.
fn play_game(arena: &mut Arena, t: u64, number: u32, game: &Start, chosen: u64) -> Result<(), Stop>
    requires white { game.now.white < length arena.old.setup.players }
    requires black { game.now.black < length arena.old.setup.players }
    requires last { last_stamp arena.old.entries ≤ t }
    requires most { t ≤ max_stamp }
    ensures setup { arena.new.setup ≡ arena.old.setup }
    ensures last { last_stamp arena.new.entries ≤ t }
    ensures starts { (past arena.new).starts ≡ (past arena.old).starts }
    ensures comes { ComesTo (with_all arena.old.setup (going arena.old.entries) (acts t number game.now (script chosen)))
        arena.new.entries result }
{
    act_in_turn(arena, t, number, game, first_of(chosen), words_of(chosen))
}

// Plays the games from this number on, each by the script of the next draw.
fn play_games(arena: &mut Arena, numbers: &mut Numbers, t: u64, number: u32) -> Result<(), Stop>
    requires last { last_stamp arena.old.entries ≤ t }
    requires most { t ≤ max_stamp }
    ensures setup { arena.new.setup ≡ arena.old.setup }
    ensures last { last_stamp arena.new.entries ≤ t }
    ensures starts { (past arena.new).starts ≡ (past arena.old).starts }
    ensures comes { (seed players : ℕ) → numbers.old.state ≡ state seed (players + number)
        → ComesTo (with_all arena.old.setup (going arena.old.entries)
        (plays_from seed players t number (drop number (past arena.old).starts)))
        arena.new.entries result }
    ensures drawn { (seed players : ℕ) → numbers.old.state ≡ state seed (players + number)
        → number ≤ length (past arena.old).starts
        → OnOk result (numbers.new.state ≡ state seed (players + length (past arena.new).starts)) }
{
    arena.shows_legal();
    games_with_one_more();
    games_are_listed();
    legal_lists_in_range();
    let Some(game) = arena.start(number) else {
        return Ok(());
    };
    let script = numbers.draw() % 6;
    play_game(arena, t, number, &game, script)?;
    play_games(arena, numbers, t, number + 1)
}

/// Adds a round at `t`: a wave, and each game that it starts played to its end by the script of the next draw.
pub fn play_round<R: Threads + Sync>(
    rt: &R,
    alloc: Global,
    solvers: &mut [Bench],
    arena: &mut Arena,
    numbers: &mut Numbers,
    t: u64,
) -> Result<(), Stop>
    requires solvers { 0 < length solvers.old }
    requires last { last_stamp arena.old.entries ≤ t }
    requires most { t ≤ max_stamp }
    ensures solvers { length solvers.new ≡ length solvers.old }
    ensures setup { arena.new.setup ≡ arena.old.setup }
    ensures last { last_stamp arena.new.entries ≤ t }
    ensures comes { (seed : ℕ) → numbers.old.state ≡ state seed (length arena.old.setup.players + length (past arena.old).starts)
        → ComesTo (round seed arena.old.setup t (going arena.old.entries)) arena.new.entries result }
    ensures drawn { (seed : ℕ) → numbers.old.state ≡ state seed (length arena.old.setup.players + length (past arena.old).starts)
        → OnOk result (numbers.new.state ≡ state seed (length arena.old.setup.players + length (past arena.new).starts)) }
{
    games_with_one_more();
    beginnings_are_histories();
    let begun = arena.begun();
    add_wave(rt, alloc, solvers, arena, t)?;
    play_games(arena, numbers, t, begun)
}
