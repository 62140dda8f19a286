ghost use Rattle.std.specs.Prelude.{IsTrue, ◌<◌, ◌≤◌, All, AllPairs};
ghost use Rattle.pair_cost.specs.declared.candidate.Candidate.{Candidate};
ghost use Rattle.group_pairing.specs.Groups.{IsGroup};

use pair_cost::{Candidate, Frame};
use std::alloc::{AllocError, Global};

/// A candidate whose rank is his number.
pub(crate) const fn candidate(
    player: u32,
    rating: u32,
    last: Option<u32>,
    team: Option<u32>,
) -> Candidate {
    Candidate {
        player,
        rank: player,
        rating,
        last,
        balance: 0,
        team,
        alone: 0,
    }
}

/// Whether the rows are a group that a solver takes.
pub(crate) fn is_group(rows: &[Candidate], f: &Frame) -> bool
    ensures { IsTrue result → IsGroup rows.now f.now }
{
    let few = rows.len() <= 14;
    let places = f.max <= 999;
    few && places && are_within(rows, f.max) && are_rated(rows) && fall_behind(rows)
}

fn are_within(rows: &[Candidate], max: u32) -> bool
    ensures { IsTrue result → All (λ (row : Candidate). row.rank ≤ max) rows.now }
{
    rows.iter().all(|row| row.rank <= max)
}

fn are_rated(rows: &[Candidate]) -> bool
    ensures { IsTrue result → All (λ (row : Candidate). row.rating ≤ 4000) rows.now }
{
    rows.iter().all(|row| row.rating <= 4000)
}

#[tactic(auto, using(std::proofs::lemmas::List::Quantifiers::all_pairs_push))]
fn fall_behind(rows: &[Candidate]) -> bool
    ensures { IsTrue result → AllPairs (λ (a b : Candidate). a.rank < b.rank) rows.now }
{
    for (place, row) in rows.iter().enumerate() {
        if !all_better(&rows[..place], row.rank) {
            return false;
        }
    }
    true
}

fn all_better(rows: &[Candidate], rank: u32) -> bool
    ensures { IsTrue result → All (λ (row : Candidate). row.rank < rank) rows.now }
{
    rows.iter().all(|row| row.rank < rank)
}

/// A group of so many rows made from a number: few ratings, two teams, last opponents and counts of
/// waves that left them alone, so that costs are often alike.
pub(crate) fn some_group(
    alloc: Global,
    size: u32,
    seed: u32,
) -> Result<Vec<Candidate>, AllocError> {
    let mut rows = Vec::new(alloc);
    let mut state = seed;
    let mut rank = 0u32;
    for player in 0..size {
        state = state.wrapping_mul(1_103_515_245).wrapping_add(12_345);
        let draw = state / 65_536;
        let row = Candidate {
            player,
            rank,
            rating: 1000 + 500 * (draw % 4),
            last: if draw % 3 == 0 {
                None
            } else {
                Some(draw / 4 % 6)
            },
            balance: 0,
            team: if draw / 64 % 3 == 0 {
                Some(draw / 256 % 2)
            } else {
                None
            },
            alone: if draw / 16 % 2 == 0 {
                0
            } else {
                40 * (draw / 32 % 4)
            },
        };
        rows.push(row)?;
        rank = rank.wrapping_add(1 + draw / 1024 % 5);
    }
    Ok(rows)
}
