//! Arenas for the tests, and the plans of their waves.

ghost use Rattle.std.specs.Prelude.{IfOk, IfSome, ◌≡◌, ◌≤◌, ◌<◌, ◌+◌, ◌∷◌, [], All, length, map};
ghost use Rattle.entries.specs.Names.{AreDistinct};
ghost use Rattle.entries.specs.Ranges.{IsControl, IsGood, IsPlayer};
ghost use Rattle.entries.specs.declared.setup.Player.{Player as Named};
ghost use Rattle.arena_rules.specs.Commits.{IsPlanOf};

use arena_core::Arena;
use arena_rules::{plans_of_entries, tables_of_legal_lists};
use conn::{List, Text};
use entries::{Control, Player, Setup};
use group_pairing::Bench;
use std::alloc::{AllocError, Global};
use std::thread::Threads;
use wave::{Plan, plan};

/// What differs between the evenings of the tests. Each has sixteen players with the names a to p, whose ratings fall by tens
/// from 2000 on, and goes on for an hour with three minutes and two seconds for each side under the first pairing rule.
#[derive(Debug, Clone, Copy)]
pub enum Evening {
    /// As said, without teams.
    Plain,
    /// The second player has the rating 1900.
    Two,
    /// The same with a minute for each side.
    Minute,
    /// The same, and the end comes 62,001 milliseconds after the start.
    Short,
    /// Under the second pairing rule.
    SecondRule,
    /// The first two players are in the team Red, all others in the team Blue, and two players of a team count for it.
    TwoTeams,
    /// All players are in one team.
    OneTeam,
}

fn control_of(evening: Evening) -> Control
    ensures { IsControl result }
{
    let (initial_ms, inc_ms) = match evening {
        Evening::Minute | Evening::Short => (60_000, 0),
        _ => (180_000, 2_000),
    };
    Control {
        initial_ms,
        inc_ms,
        first_ms: 20_000,
    }
}

fn end_of(evening: Evening) -> u64
    ensures some { 0 < result }
    ensures most { result ≤ 3600000 }
{
    match evening {
        Evening::Short => 62_001,
        _ => 3_600_000,
    }
}

fn rule_of(evening: Evening) -> u32
    ensures least { 1 ≤ result }
    ensures most { result ≤ 2 }
{
    match evening {
        Evening::SecondRule => 2,
        _ => 1,
    }
}

fn rating_of(evening: Evening, p: u32) -> u32
    requires { p < 16 }
    ensures least { 400 ≤ result }
    ensures most { result ≤ 4000 }
{
    match evening {
        Evening::Two | Evening::Minute | Evening::Short if p == 1 => 1900,
        _ => 2000 - 10 * p,
    }
}

fn team_of(evening: Evening, p: u32) -> Option<u32>
    ensures { IfSome result (λ team. team < 2) }
{
    match evening {
        Evening::TwoTeams if p < 2 => Some(0),
        Evening::TwoTeams => Some(1),
        Evening::OneTeam => Some(0),
        _ => None,
    }
}

/// The player with number `p`.
fn contestant(alloc: Global, evening: Evening, p: u32) -> Result<Player, AllocError>
    requires { p < 16 }
    ensures name { IfOk result (λ made. made.name ≡ (97 + p) ∷ []) }
    ensures good { IfOk result (IsPlayer 2) }
{
    Ok(Player {
        name: Text::of(vec![in alloc; b'a' + p as u8]?),
        rating: rating_of(evening, p),
        team: team_of(evening, p),
    })
}

#[tactic(auto, using(crate::proofs::Letters::names_differ))]
fn players(alloc: Global, evening: Evening) -> Result<Vec<Player>, AllocError>
    ensures many { IfOk result (λ made. length made.items ≡ 16) }
    ensures good { IfOk result (λ made. All (IsPlayer 2) made.items) }
    ensures distinct { IfOk result (λ made. AreDistinct (map (λ (p : Named). p.name) made.items)) }
{
    let mut made = Vec::new(alloc);
    'making: for p in 0..16 {
        made.push(contestant(alloc, evening, p)?)?;
    }
    Ok(made)
}

fn setup_of(alloc: Global, evening: Evening) -> Result<Setup, AllocError>
    ensures { IfOk result IsGood }
{
    let red = Text::of(Vec::from_slice(alloc, b"Red")?);
    let blue = Text::of(Vec::from_slice(alloc, b"Blue")?);
    Ok(Setup {
        control: control_of(evening),
        starts: 0,
        ends: end_of(evening),
        wave_ms: 5_000,
        leaders: 2,
        rule: rule_of(evening),
        teams: List::of(vec![in alloc; red, blue]?),
        players: List::of(players(alloc, evening)?),
    })
}

/// The arena of an evening, in which nobody has done anything.
pub fn opened(alloc: Global, evening: Evening) -> Result<Arena, AllocError> {
    let setup = setup_of(alloc, evening)?;
    Arena::new(alloc, setup)
}

/// The plan of a wave at what stands in the journal.
pub fn planned<R: Threads + Sync>(rt: &R, alloc: Global, arena: &Arena) -> Result<Plan, AllocError>
    ensures { IfOk result (IsPlanOf arena.now.setup arena.now.entries) }
{
    arena.shows_legal();
    tables_of_legal_lists();
    plans_of_entries();
    let idle = arena.snapshot(alloc, 0)?;
    let mut solvers = [Bench::new(alloc)?];
    plan(rt, alloc, &mut solvers, &idle)
}
