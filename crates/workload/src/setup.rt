ghost use Rattle.std.specs.Prelude.{ℕ, ◌≡◌, suc, IfOk, OnOk};
ghost use Rattle.workload.specs.Numbers.{state};
ghost use Rattle.workload.specs.Setups.{player, players_of, setup_of};

use crate::numbers::Numbers;
use conn::{List, Text};
use entries::{Control, Player, Setup};
use std::alloc::{AllocError, Global};

/// The time control of every game.
const CONTROL: Control = Control {
    initial_ms: 60_000,
    inc_ms: 0,
    first_ms: 20_000,
};

// The player with this number, whose rating is the next draw's.
fn player(alloc: Global, numbers: &mut Numbers, p: u32) -> Result<Player, AllocError>
    ensures drawn { (seed : ℕ) → numbers.old.state ≡ state seed p → OnOk result (numbers.new.state ≡ state seed (suc p)) }
    ensures player { (seed : ℕ) → numbers.old.state ≡ state seed p → IfOk result (λ made. made ≡ player seed p) }
{
    let name = format!(in alloc; "p{p}")?;
    Ok(Player {
        name: Text::of(name.into_bytes()),
        rating: 1_000 + (numbers.draw() % 1_000) as u32,
        team: None,
    })
}

// So many players.
fn players(alloc: Global, numbers: &mut Numbers, count: u32) -> Result<Vec<Player>, AllocError>
    ensures drawn { (seed : ℕ) → numbers.old.state ≡ state seed 0 → OnOk result (numbers.new.state ≡ state seed count) }
    ensures players { (seed : ℕ) → numbers.old.state ≡ state seed 0 → IfOk result (λ made. made.items ≡ players_of seed count) }
{
    let mut made = Vec::new(alloc);
    'making: for p in 0..count {
        made.push(player(alloc, numbers, p)?)?;
    }
    Ok(made)
}

/// The setup of so many players, whose ratings are the next draws.
pub fn setup(alloc: Global, numbers: &mut Numbers, count: u32) -> Result<Setup, AllocError>
    ensures drawn { (seed : ℕ) → numbers.old.state ≡ state seed 0 → OnOk result (numbers.new.state ≡ state seed count) }
    ensures setup { (seed : ℕ) → numbers.old.state ≡ state seed 0 → IfOk result (λ made. made ≡ setup_of seed count) }
{
    let players = players(alloc, numbers, count)?;
    Ok(Setup {
        control: CONTROL,
        starts: 0,
        ends: 3_600_000,
        wave_ms: 1_000,
        leaders: 1,
        rule: 1,
        teams: List::of(Vec::new(alloc)),
        players: List::of(players),
    })
}
