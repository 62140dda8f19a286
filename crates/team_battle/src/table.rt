ghost use Rattle.std.specs.Prelude.{◌≡◌, ◌<◌, ◌≤◌, [], length, IfOk, IfSome};
ghost use Rattle.std.specs.List.{All};
ghost use Rattle.entries.specs.Ranges.{IsGood};
ghost use Rattle.ranking.specs.Order.{in_order};
ghost use Rattle.team_battle.specs.Teams.{IsRowOf, team_of, above, tallies, team_rows_from, teams};

use crate::TeamRow;
use crate::tally::{Tally, compare, counted, team_row};
use entries::Setup;
use ranking::Row;
use std::alloc::{AllocError, Global};

/// The teams of a good setup in their order, from the rows of its players in the order of their table: by points and by
/// performance, both falling, then by number. A team's points and performance are those of its leaders, summed: the first of
/// its players in that order, at most as many as the setup says. A team without players has 0 of both.
pub fn team_table(alloc: Global, setup: &Setup, rows: &[Row]) -> Result<Vec<TeamRow>, AllocError>
    requires good { IsGood setup.now }
    requires rows { All (IsRowOf (length setup.now.players)) rows.now }
    ensures { IfOk result (λ table. table.items ≡ teams setup.now rows.now) }
{
    let mut teams = tallies(alloc, setup, rows)?;
    teams.sort_by(|team, other| compare(team, other))?;
    team_rows(alloc, teams.as_slice())
}

// What each team has, by the numbers of the teams: one walk over the rows.
fn tallies(alloc: Global, setup: &Setup, rows: &[Row]) -> Result<Vec<Tally>, AllocError>
    requires good { IsGood setup.now }
    requires rows { All (IsRowOf (length setup.now.players)) rows.now }
    ensures { IfOk result (λ teams. teams.items ≡ tallies setup.now rows.now) }
{
    let mut teams = no_tallies(alloc, setup)?;
    'counting: for row in rows {
        if let Some(team) = team_of(setup, row.player) {
            let tally = counted(&teams[team as usize], setup.leaders, row);
            teams[team as usize] = tally;
        }
    }
    Ok(teams)
}

// Each team without rows.
fn no_tallies(alloc: Global, setup: &Setup) -> Result<Vec<Tally>, AllocError>
    requires { IsGood setup.now }
    ensures { IfOk result (λ teams. teams.items ≡ tallies setup.now []) }
{
    let len = setup.teams.items().len() as u32;
    let mut teams = Vec::with_capacity(alloc, len as usize)?;
    'starting: for team in 0..len {
        teams.push(Tally::new(team))?;
    }
    Ok(teams)
}

// The team of a player, if he has one.
fn team_of(setup: &Setup, p: u32) -> Option<u32>
    requires good { IsGood setup.now }
    requires player { p < length setup.now.players }
    ensures team { result ≡ team_of setup.now p }
    ensures below { IfSome result (λ team. team < length setup.now.teams) }
{
    setup.players.items()[p as usize].team
}

// A row for each team, ranked in the order of these.
fn team_rows(alloc: Global, teams: &[Tally]) -> Result<Vec<TeamRow>, AllocError>
    requires { length teams.now ≤ 100 }
    ensures { IfOk result (λ rows. rows.items ≡ team_rows_from 0 teams.now) }
{
    let mut rows = Vec::with_capacity(alloc, teams.len())?;
    'ranking: for (rank, team) in teams.iter().enumerate() {
        rows.push(team_row(rank as u32, team))?;
    }
    Ok(rows)
}
