mod brute;
mod groups;

use crate::tests::brute::least_by_trying_all;
use crate::tests::groups::{candidate, is_group, some_group};
use crate::{Bench, Solve};
use pair_cost::{Candidate, Frame};
use std::test::Fail;

const fn frame(rule: u32, idle: u32, max: u32) -> Frame {
    Frame { max, idle, rule }
}

/// What the bench answers of a group, or nothing where the rows are no group.
fn answer(bench: &mut Bench, rows: &[Candidate], f: &Frame) -> Option<[u8; 14]> {
    if is_group(rows, f) {
        Some(bench.solve(rows, f).to)
    } else {
        None
    }
}

/// The places of the items, with 14 behind them.
const fn items(first: u8, second: u8, third: u8, fourth: u8) -> [u8; 14] {
    [
        first, second, third, fourth, 14, 14, 14, 14, 14, 14, 14, 14, 14, 14,
    ]
}

#[test]
fn four_players_meet_as_worked_by_hand(rt: HostRuntime) -> Result<(), Fail> {
    let mut bench = Bench::new(rt.alloc())?;
    // 0-2 and 1-3 cost 7,376, 0-3 and 1-2 cost 7,943, and 0-1 is a rematch
    let rows = [
        candidate(0, 2000, Some(1), None),
        candidate(1, 1990, Some(0), None),
        candidate(2, 1980, None, None),
        candidate(3, 1500, None, None),
    ];
    assert_eq!(rt;
        answer(&mut bench, &rows, &frame(1, 4, 3)),
        Some(items(2, 3, 0, 1))
    );
    // a-b and c-d are of one team; a-c and b-d cost 6,906, a-d and b-c 7,473
    let teams = [
        candidate(0, 2000, None, Some(0)),
        candidate(1, 1990, None, Some(0)),
        candidate(2, 1980, None, Some(1)),
        candidate(3, 1970, None, Some(1)),
    ];
    assert_eq!(rt;
        answer(&mut bench, &teams, &frame(1, 4, 3)),
        Some(items(2, 3, 0, 1))
    );
    Ok(())
}

#[test]
fn of_lists_alike_in_cost_the_first_is_chosen(rt: HostRuntime) -> Result<(), Fail> {
    let mut bench = Bench::new(rt.alloc())?;
    // 0-1 costs 2,000 + 2,000 and 0-2 costs 4,000; 1 and 2 are of one team
    let partners = [
        candidate(0, 4000, None, None),
        candidate(1, 2000, None, Some(3)),
        candidate(2, 4000, None, Some(3)),
    ];
    assert_eq!(rt;
        answer(&mut bench, &partners, &frame(1, 3, 2)),
        Some(items(1, 0, 14, 14))
    );
    // 0-1 costs 2,000 and 1-2 costs 1,150 + 850
    let nobody = [
        candidate(0, 1000, None, None),
        candidate(1, 1000, None, None),
        candidate(2, 1850, None, None),
    ];
    assert_eq!(rt;
        answer(&mut bench, &nobody, &frame(1, 3, 2)),
        Some(items(1, 0, 14, 14))
    );
    // with ten points more 1-2 is cheaper
    let cheaper = [
        candidate(0, 1000, None, None),
        candidate(1, 1010, None, None),
        candidate(2, 1850, None, None),
    ];
    assert_eq!(rt;
        answer(&mut bench, &cheaper, &frame(1, 3, 2)),
        Some(items(14, 2, 1, 14))
    );
    Ok(())
}

/// The rule, how many are idle, how many waves have left the first of three alone, which two of the first three are each
/// other's last opponents, how many rows there are, and the items. The pairs 0-1, 0-2 and 1-2 cost 2,010, 4,020 and 1,160.
const RULES: [(u32, u32, u32, Option<(u32, u32)>, usize, (u8, u8, u8)); 7] = [
    (1, 3, 0, None, 3, (14, 2, 1)),
    (1, 3, 1, None, 3, (14, 2, 1)),
    (2, 3, 0, None, 3, (14, 2, 1)),
    (2, 3, 1, None, 3, (1, 0, 14)),
    (1, 3, 0, Some((1, 2)), 3, (1, 0, 14)),
    (2, 3, 0, Some((1, 2)), 3, (1, 0, 14)),
    (2, 2, 0, Some((0, 1)), 2, (1, 0, 14)),
];

#[test]
fn a_player_left_alone_is_not_left_alone_again(rt: HostRuntime) -> Result<(), Fail> {
    let mut bench = Bench::new(rt.alloc())?;
    for (rule, idle, alone, rematch, many, to) in RULES {
        let mut rows = [
            candidate(0, 2000, None, None),
            candidate(1, 1990, None, None),
            candidate(2, 1980, None, None),
        ];
        rows[0].alone = alone;
        if let Some((first, second)) = rematch {
            assert!(rt; first < 3 && second < 3);
            rows[first as usize].last = Some(second);
            rows[second as usize].last = Some(first);
        }
        assert!(rt; many <= 3);
        let f = frame(rule, idle, idle.wrapping_sub(1));
        assert_eq!(rt;
            answer(&mut bench, &rows[..many], &f),
            Some(items(to.0, to.1, to.2, 14)),
            "rule {rule}, {idle} idle, left alone {alone}"
        );
    }
    Ok(())
}

/// The rules and the numbers of idle players that small groups are paired under.
const FRAMES: [(u32, u32); 4] = [(1, 30), (1, 2), (2, 30), (2, 2)];

#[test]
fn small_groups_have_the_list_that_trying_all_finds(rt: HostRuntime) -> Result<(), Fail> {
    let alloc = rt.alloc();
    let mut bench = Bench::new(alloc)?;
    for size in 0..7 {
        for seed in 0..12 {
            let rows = some_group(alloc, size, seed)?;
            let rows = rows.as_slice();
            let (rule, idle) = FRAMES[seed as usize % 4];
            let f = frame(rule, idle, 40);
            assert!(rt; is_group(rows, &f));
            let found = bench.solve(rows, &f);
            assert_eq!(rt; usize::from(found.len), rows.len());
            assert_eq!(rt;
                found.to,
                least_by_trying_all(rows, &f),
                "{size} rows of seed {seed}"
            );
        }
    }
    Ok(())
}

#[test]
fn a_group_of_fourteen_is_paired(rt: HostRuntime) -> Result<(), Fail> {
    let alloc = rt.alloc();
    let mut bench = Bench::new(alloc)?;
    let mut alike = Vec::new(alloc);
    let mut team = Vec::new(alloc);
    for player in 0..14 {
        alike.push(candidate(player, 1500, None, None))?;
        team.push(candidate(player, 1500, None, Some(0)))?;
    }
    let f = frame(2, 14, 13);
    assert_eq!(rt; answer(&mut bench, team.as_slice(), &f), Some([14; 14]));
    // a better place weighs more, so neighbours meet
    let neighbours = [1, 0, 3, 2, 5, 4, 7, 6, 9, 8, 11, 10, 13, 12];
    assert_eq!(rt; answer(&mut bench, alike.as_slice(), &f), Some(neighbours));
    Ok(())
}
