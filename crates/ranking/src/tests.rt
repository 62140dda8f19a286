ghost use Rattle.std.specs.Prelude.{◌≡◌, IfOk};

use crate::Table;
use std::alloc::Global;
use std::process::Abort;
use std::test::Fail;

/// Players with their ratings, as they enter.
const ENTERS: [(u32, u32); 6] = [
    (3, 1500),
    (0, 1600),
    (5, 1500),
    (1, 1700),
    (4, 1500),
    (2, 1600),
];

/// Points and performance given of a player, and the players of the table after that, in order: by points, performance,
/// rating and the turn in which they entered.
const STEPS: [(u32, u32, i64, [u32; 6]); 9] = [
    (1, 0, 0, [1, 0, 2, 3, 5, 4]),
    (4, 2, 1600, [4, 1, 0, 2, 3, 5]),
    (3, 2, 1700, [3, 4, 1, 0, 2, 5]),
    (5, 2, 1600, [3, 5, 4, 1, 0, 2]),
    (0, 2, 1600, [3, 0, 5, 4, 1, 2]),
    (2, 2, 1600, [3, 0, 2, 5, 4, 1]),
    (3, 0, -500, [0, 2, 5, 4, 1, 3]),
    (1, 0, -501, [0, 2, 5, 4, 3, 1]),
    (0, 2, 1600, [0, 2, 5, 4, 3, 1]),
];

/// From which rank, how many ranks, and how many rows come.
const PAGES: [(u32, u32, usize); 9] = [
    (0, 6, 6),
    (0, 7, 6),
    (4, 2, 2),
    (5, 10, 1),
    (6, 3, 0),
    (7, 1, 0),
    (3, 0, 0),
    (2, u32::MAX, 4),
    (u32::MAX, u32::MAX, 0),
];

fn entered(rt: &impl Abort, alloc: Global) -> Result<Table, Fail>
    ensures { IfOk result (λ table. table.room ≡ 6) }
{
    let mut table = Table::new(alloc, 6)?;
    'entering: for (p, rating) in ENTERS {
        enter(rt, &mut table, p, rating);
    }
    Ok(table)
}

fn enter(rt: &impl Abort, table: &mut Table, p: u32, rating: u32)
    requires { table.old.room ≡ 6 }
    ensures { table.new.room ≡ 6 }
{
    assert!(rt; p < 6);
    assert_eq!(rt; table.rank_of(p), None);
    table.enter(p, rating);
}

fn score(rt: &impl Abort, table: &mut Table, p: u32, points: u32, performance: i64) {
    assert!(rt; table.rank_of(p).is_some());
    table.score(p, points, performance, 1, false);
}

fn assert_order(
    rt: &impl Abort,
    alloc: Global,
    table: &Table,
    players: [u32; 6],
) -> Result<(), Fail> {
    let page = table.page(alloc, 0, table.len())?;
    assert_eq!(rt; page.len(), 6);
    for (rank, p) in (0..6).zip(players) {
        assert_eq!(rt; table.rank_of(p), Some(rank));
        let row = table.row(rank).ok_or("no row")?;
        assert_eq!(rt; (row.rank, row.player), (rank, p));
        assert_eq!(rt; page.get(rank as usize).copied(), Some(row));
    }
    Ok(())
}

#[test]
fn the_table_stands_by_points_performance_rating_and_turn(rt: HostRuntime) -> Result<(), Fail> {
    let mut table = entered(&rt, rt.alloc())?;
    for (p, points, performance, players) in STEPS {
        score(&rt, &mut table, p, points, performance);
        assert_order(&rt, rt.alloc(), &table, players)?;
    }
    Ok(())
}

#[test]
fn a_page_ends_with_the_table(rt: HostRuntime) -> Result<(), Fail> {
    let table = entered(&rt, rt.alloc())?;
    for (from, n, len) in PAGES {
        let page = table.page(rt.alloc(), from, n)?;
        assert_eq!(rt; page.len(), len);
        assert_eq!(rt;
            page.first().map(|row| row.rank),
            if len == 0 { None } else { Some(from) }
        );
    }
    assert_eq!(rt; table.row(6), None);
    Ok(())
}
