use crate::{Candidate, Frame, Pair, charge, colours, cost};

const fn candidate(player: u32, rating: u32, last: Option<u32>, team: Option<u32>) -> Candidate {
    Candidate {
        player,
        rank: player,
        rating,
        last,
        balance: 0,
        team,
        alone: 0,
    }
}

const fn frame(rule: u32, idle: u32, max: u32) -> Frame {
    Frame { max, idle, rule }
}

/// Four players whose numbers are their ranks. The first two have met each other last; the third has met the fourth last,
/// who has met the first. The last three have teams.
fn four() -> [Candidate; 4] {
    [
        candidate(0, 2000, Some(1), None),
        candidate(1, 1990, Some(0), Some(0)),
        candidate(2, 1980, Some(3), Some(1)),
        candidate(3, 1500, Some(0), Some(1)),
    ]
}

/// Two of the four, the rule, how many are idle and the greatest rank of all, and what pairing the two costs, worked by hand.
const COSTS: [(usize, usize, u32, u32, u32, Option<u64>); 14] = [
    (0, 1, 1, 4, 3, Some(20_002_010)),
    (0, 2, 1, 4, 3, Some(4020)),
    (0, 3, 1, 4, 3, Some(6500)),
    (1, 2, 1, 4, 3, Some(1443)),
    (1, 3, 1, 4, 3, Some(3356)),
    (2, 3, 1, 4, 3, None),
    (3, 2, 1, 4, 3, None),
    (2, 1, 1, 3, 2, Some(1160)),
    (3, 1, 1, 4, 999, Some(4486)),
    // under rule 2 a rematch is barred, but costs no more where the two are all who are idle
    (0, 1, 2, 3, 3, None),
    (1, 0, 2, 3, 3, None),
    (0, 1, 2, 2, 3, Some(2010)),
    (0, 3, 2, 4, 3, Some(6500)),
    (2, 3, 2, 2, 3, None),
];

#[test]
fn costs_are_those_worked_by_hand(rt: HostRuntime) {
    let players = four();
    for (first, second, rule, idle, max, price) in COSTS {
        assert!(rt; first < 4 && second < 4);
        let a = players[first];
        let b = players[second];
        let f = frame(rule, idle, max);
        assert!(rt; a.rank <= f.max && b.rank <= f.max && f.max <= 999);
        assert!(rt; a.rating <= 4000 && b.rating <= 4000);
        assert_eq!(rt; cost(&a, &b, &f), price, "{first} and {second}");
    }
}

#[test]
fn two_of_one_rank_and_rating_cost_nothing(rt: HostRuntime) {
    let [a, _, _, _] = four();
    let b = Candidate { player: 7, ..a };
    let f = frame(1, 4, 0);
    assert!(rt; a.rank <= f.max && b.rank <= f.max && f.max <= 999);
    assert!(rt; a.rating <= 4000 && b.rating <= 4000);
    assert_eq!(rt; cost(&a, &b, &f), Some(0));
}

/// How many waves have left a player alone, the rule, and what it costs to leave him alone once more.
const CHARGES: [(u32, u32, u64); 7] = [
    (0, 2, 0),
    (1, 2, 50_000_000),
    (99, 2, 4_950_000_000),
    (100, 2, 5_000_000_000),
    (101, 2, 5_000_000_000),
    (u32::MAX, 2, 5_000_000_000),
    (3, 1, 0),
];

#[test]
fn at_most_a_hundred_waves_count(rt: HostRuntime) {
    for (alone, rule, price) in CHARGES {
        let [a, _, _, _] = four();
        let a = Candidate { alone, ..a };
        let f = frame(rule, 4, 3);
        assert_eq!(rt; charge(&a, &f), price, "{alone} waves under rule {rule}");
    }
}

/// Balances of the better and the worse ranked player, and who has White.
const BALANCES: [(i32, i32, u32); 5] = [(0, 0, 0), (-1, 0, 0), (1, 0, 1), (-1, -2, 1), (-2, 3, 0)];

#[test]
fn white_is_who_has_had_it_less(rt: HostRuntime) {
    for (better, worse, white) in BALANCES {
        let [a, b, _, _] = four();
        let a = Candidate {
            balance: better,
            ..a
        };
        let b = Candidate {
            balance: worse,
            ..b
        };
        assert!(rt; a.rank < b.rank);
        let black = if white == 0 { 1 } else { 0 };
        assert_eq!(rt;
            colours(&a, &b),
            Pair { white, black },
            "{better} and {worse}"
        );
    }
}
