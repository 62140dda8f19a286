ghost use Rattle.std.specs.Prelude.{◌≡◌, ◌+◌, ◌<◌, ◌≤◌, ◌++◌, ◌∷◌, [], IfOk, length, vec_len, vec_capacity};
ghost use Rattle.ranking.specs.Rows.{rows as table_rows};
ghost use Rattle.team_battle.specs.Teams.{team_of};
ghost use Rattle.arena_history.specs.Endings.{finished};
ghost use Rattle.arena_history.specs.History.{History};
ghost use Rattle.arena_history.specs.Results.{rating_of};
ghost use Rattle.arena_history.specs.Since.{places};
ghost use Rattle.arena_history.specs.Snapshots.{candidates};
ghost use Rattle.arena_history.specs.Table.{entered};
ghost use Rattle.arena_players.specs.Accounts as accounts;
ghost use Rattle.arena_players.specs.Candidates.{candidate_by, candidates_by, waits};
ghost use Rattle.arena_players.specs.Facts as facts;

use crate::pairings::Pairings;
use crate::scores::Scores;
use arena_history::places_with_one_more;
use entries::Setup;
use pair_cost::Candidate;
use ranking::{Row, rows_are_the_lines};
use seats::{PlayerSeat, Seats};
use std::alloc::{AllocError, Global};

/// The rows of a snapshot: the players who wait for a game, in the order of the table, each with what a pairing asks of him. It
/// walks once over the table and finds all else at once. It fails only for want of memory.
pub fn candidates(
    alloc: Global,
    setup: &Setup,
    scores: &Scores,
    pairings: &Pairings,
    seats: &Seats,
) -> Result<Vec<Candidate>, AllocError>
    ensures { IfOk result (λ rows. (h : History)
        → accounts.StandsFor scores.now setup.now (finished setup.now h) (entered h)
        → facts.StandsFor pairings.now (length setup.now.players) h.starts h.lefts
        → seats.now ≡ places setup.now h
        → rows.items ≡ candidates setup.now h) }
{
    places_with_one_more();
    rows_are_the_lines();
    scores.keeps();
    walk(alloc, setup, scores, pairings, seats)
}

// The candidates of the table's rows, by what is kept.
fn walk(
    alloc: Global,
    setup: &Setup,
    scores: &Scores,
    pairings: &Pairings,
    seats: &Seats,
) -> Result<Vec<Candidate>, AllocError>
    ensures { IfOk result (λ rows. rows.items ≡ candidates_by setup.now pairings.now.facts seats.now (table_rows scores.now.lines)) }
{
    rows_are_the_lines();
    let len = scores.len();
    let mut candidates = Vec::with_capacity(alloc, len as usize)?;
    'walking: for rank in 0..len {
        let Some(row) = scores.row(rank) else {
            unreachable!()
        };
        put_waiting(&mut candidates, setup, pairings, seats, &row);
    }
    Ok(candidates)
}

// Puts a row's player behind the candidates, for one more of whom there is room, if he waits for a game.
fn put_waiting(
    candidates: &mut Vec<Candidate>,
    setup: &Setup,
    pairings: &Pairings,
    seats: &Seats,
    row: &Row,
)
    requires { vec_len candidates.old < vec_capacity candidates.old }
    ensures items { candidates.new.items ≡ candidates.old.items ++ candidates_by setup.now pairings.now.facts seats.now (row.now ∷ []) }
    ensures len { vec_len candidates.new ≤ vec_len candidates.old + 1 }
    ensures room { vec_capacity candidates.new ≡ vec_capacity candidates.old }
{
    if waits(seats, row.player) {
        candidates.push_reserved(candidate_of(setup, pairings, row));
    }
}

// Whether a player waits for a game.
fn waits(seats: &Seats, p: u32) -> bool
    ensures { result ≡ waits seats.now p }
{
    matches!(seats.seat(p), PlayerSeat::Idle)
}

// A row of the table as a candidate.
fn candidate_of(setup: &Setup, pairings: &Pairings, row: &Row) -> Candidate
    ensures { result ≡ candidate_by setup.now pairings.now.facts row.now }
{
    let facts = pairings.of(row.player);
    Candidate {
        player: row.player,
        rank: row.rank,
        rating: rating_of(setup, row.player),
        last: facts.last,
        balance: facts.balance,
        team: team_of(setup, row.player),
        alone: facts.alone,
    }
}

// The rating of a player, or 0 where nobody has this number.
fn rating_of(setup: &Setup, p: u32) -> u32
    ensures { result ≡ rating_of setup.now p }
{
    match setup.players.items().get(p as usize) {
        Some(player) => player.rating,
        None => 0,
    }
}

// The team of a player, if he has one.
fn team_of(setup: &Setup, p: u32) -> Option<u32>
    ensures { result ≡ team_of setup.now p }
{
    setup.players.items().get(p as usize)?.team
}
