ghost use Rattle.std.specs.Prelude.{◌≡◌, ◌≤◌, ◌≤ℤ◌, pos, negsuc};
ghost use Rattle.team_battle.specs.Compare.{IsInRange, counted, tally_cmp};
ghost use Rattle.team_battle.specs.Teams.{team_row};

use crate::TeamRow;
use ranking::Row;
use std::cmp::Ordering;

/// What the rows counted so far make of a team.
#[derive(Clone, Copy)]
pub struct Tally {
    pub team: u32,
    pub leaders: u32,
    pub points: u32,
    pub performance: i64,
}

impl Tally {
    /// A team without rows.
    pub fn new(team: u32) -> Tally
        ensures team { result.team ≡ team }
        ensures leaders { result.leaders ≡ 0 }
        ensures points { result.points ≡ 0 }
        ensures performance { result.performance ≡ pos 0 }
    {
        Tally {
            team,
            leaders: 0,
            points: 0,
            performance: 0,
        }
    }
}

/// The team once a row of one of its players came, of whom at most so many count.
pub fn counted(tally: &Tally, most: u32, row: &Row) -> Tally
    requires most { most ≤ 20 }
    requires tally { IsInRange tally.now }
    requires points { row.now.points ≤ 1000000 }
    requires performance_least { negsuc 499 ≤ℤ row.now.performance }
    requires performance_most { row.now.performance ≤ℤ pos 4500 }
    ensures { result ≡ counted most row.now tally.now }
{
    if tally.leaders < most {
        Tally {
            team: tally.team,
            leaders: tally.leaders + 1,
            points: tally.points + row.points,
            performance: tally.performance + row.performance,
        }
    } else {
        *tally
    }
}

/// Which of two teams comes first: by points and by performance, both falling, then by number.
pub fn compare(tally: &Tally, other: &Tally) -> Ordering
    ensures { result ≡ tally_cmp tally.now other.now }
{
    other
        .points
        .cmp(&tally.points)
        .then(other.performance.cmp(&tally.performance))
        .then(tally.team.cmp(&other.team))
}

/// The row of a team at a rank.
pub fn team_row(rank: u32, tally: &Tally) -> TeamRow
    ensures { result ≡ team_row rank tally.now }
{
    TeamRow {
        rank,
        team: tally.team,
        points: tally.points,
        performance: tally.performance,
    }
}
