ghost use Rattle.std.specs.Prelude.{◌≡◌, ◌∷◌, [], length, IfOk};
ghost use Rattle.std.specs.List.{All};
ghost use Rattle.entries.specs.Ranges.{IsGood};
ghost use Rattle.team_battle.specs.Teams.{IsRowOf};

use crate::{TeamRow, team_table};
use conn::{List, Text};
use entries::{Control, Player, Setup};
use ranking::Row;
use std::alloc::{AllocError, Global};
use std::process::Abort;
use std::test::Fail;

/// Rows of players with their points and performance, of which so many are there, and the teams with theirs, in order.
struct Case {
    rows: [(u32, u32, i64); 5],
    len: usize,
    teams: [(u32, u32, i64); 3],
}

/// Two players of a team count. Worked by hand.
const CASES: [Case; 7] = [
    // without rows the teams stand by number
    Case {
        rows: [(0, 0, 0), (0, 0, 0), (0, 0, 0), (0, 0, 0), (0, 0, 0)],
        len: 0,
        teams: [(0, 0, 0), (1, 0, 0), (2, 0, 0)],
    },
    // the third of a team does not count, whatever his performance, and nobody is of the last team
    Case {
        rows: [
            (0, 5, 1600),
            (3, 4, 1500),
            (1, 3, 1400),
            (4, 3, 1700),
            (2, 2, 2000),
        ],
        len: 5,
        teams: [(0, 8, 3000), (1, 7, 3200), (2, 0, 0)],
    },
    // points before performance
    Case {
        rows: [
            (3, 6, 1000),
            (0, 5, 2000),
            (1, 0, 1900),
            (4, 0, -100),
            (2, 0, -200),
        ],
        len: 5,
        teams: [(1, 6, 900), (0, 5, 3900), (2, 0, 0)],
    },
    // performance decides between teams with as many points
    Case {
        rows: [(3, 4, 1500), (0, 4, 1400), (0, 0, 0), (0, 0, 0), (0, 0, 0)],
        len: 2,
        teams: [(1, 4, 1500), (0, 4, 1400), (2, 0, 0)],
    },
    // and the number where that is the same too
    Case {
        rows: [(3, 4, 1500), (0, 4, 1500), (0, 0, 0), (0, 0, 0), (0, 0, 0)],
        len: 2,
        teams: [(0, 4, 1500), (1, 4, 1500), (2, 0, 0)],
    },
    // a negative performance stands below a team without players
    Case {
        rows: [(0, 0, -500), (1, 0, -499), (0, 0, 0), (0, 0, 0), (0, 0, 0)],
        len: 2,
        teams: [(1, 0, 0), (2, 0, 0), (0, 0, -999)],
    },
    // a player without a team counts for none
    Case {
        rows: [(5, 9, 2500), (4, 1, 1000), (0, 0, 0), (0, 0, 0), (0, 0, 0)],
        len: 2,
        teams: [(1, 1, 1000), (0, 0, 0), (2, 0, 0)],
    },
];

fn named(alloc: Global, letter: u8, team: Option<u32>) -> Result<Player, AllocError>
    ensures name { IfOk result (λ player. player.name ≡ letter ∷ []) }
    ensures rating { IfOk result (λ player. player.rating ≡ 1500) }
    ensures team { IfOk result (λ player. player.team ≡ team) }
{
    Ok(Player {
        name: Text::of(vec![in alloc; letter]?),
        rating: 1500,
        team,
    })
}

// Three teams, of which the first has three players, the second two and the third none. A sixth player has no team.
fn evening(alloc: Global) -> Result<Setup, AllocError>
    ensures good { IfOk result IsGood }
    ensures six { IfOk result (λ setup. length setup.players ≡ 6) }
{
    let players = vec![in alloc;
        named(alloc, b'a', Some(0))?,
        named(alloc, b'b', Some(0))?,
        named(alloc, b'c', Some(0))?,
        named(alloc, b'd', Some(1))?,
        named(alloc, b'e', Some(1))?,
        named(alloc, b'f', None)?,
    ]?;
    let teams = vec![in alloc;
        Text::of(vec![in alloc; b'r']?),
        Text::of(vec![in alloc; b's']?),
        Text::of(vec![in alloc; b't']?),
    ]?;
    Ok(Setup {
        control: Control {
            initial_ms: 180_000,
            inc_ms: 2_000,
            first_ms: 20_000,
        },
        starts: 0,
        ends: 100,
        wave_ms: 5_000,
        leaders: 2,
        rule: 1,
        teams: List::of(teams),
        players: List::of(players),
    })
}

fn row_of(rt: &impl Abort, rank: u32, player: u32, points: u32, performance: i64) -> Row
    ensures { IsRowOf 6 result }
{
    assert!(rt; player < 6);
    assert!(rt; points <= 1_000_000);
    assert!(rt; performance >= -500);
    assert!(rt; performance <= 4_500);
    Row {
        rank,
        player,
        points,
        performance,
        games: 1,
        fire: false,
    }
}

fn rows_of(rt: &impl Abort, alloc: Global, case: &Case) -> Result<Vec<Row>, AllocError>
    ensures { IfOk result (λ rows. All (IsRowOf 6) rows.items) }
{
    let mut rows = Vec::new(alloc);
    'making: for (rank, (player, points, performance)) in (0..).zip(case.rows).take(case.len) {
        let row = row_of(rt, rank, player, points, performance);
        rows.push(row)?;
    }
    Ok(rows)
}

#[test]
fn teams_stand_by_points_performance_and_number(rt: HostRuntime) -> Result<(), Fail> {
    let setup = evening(rt.alloc())?;
    for case in &CASES {
        let rows = rows_of(&rt, rt.alloc(), case)?;
        let table = team_table(rt.alloc(), &setup, rows.as_slice())?;
        assert_eq!(rt; table.len(), 3);
        for (rank, (team, points, performance)) in (0..).zip(case.teams) {
            assert_eq!(rt;
                table.get(rank as usize).copied(),
                Some(TeamRow {
                    rank,
                    team,
                    points,
                    performance
                })
            );
        }
    }
    Ok(())
}
