use crate::{Score, Sheet};

const WIN: Score = Score::Win;

const DRAW: Score = Score::Draw;

const LOSS: Score = Score::Loss;

/// Games as score, berserk and plies, what each is worth, and their points together.
const CASES: [([(Score, bool, u32); 3], [u32; 3], u32); 7] = [
    (
        [(WIN, false, 30), (WIN, false, 30), (DRAW, false, 40)],
        [2, 2, 2],
        6,
    ),
    (
        [(WIN, false, 30), (WIN, false, 30), (WIN, true, 14)],
        [2, 2, 5],
        9,
    ),
    (
        [(WIN, false, 30), (WIN, false, 30), (WIN, true, 13)],
        [2, 2, 4],
        8,
    ),
    (
        [(DRAW, false, 40), (LOSS, false, 30), (DRAW, false, 50)],
        [1, 0, 0],
        1,
    ),
    (
        [(DRAW, false, 40), (DRAW, false, 60), (LOSS, true, 60)],
        [1, 1, 0],
        2,
    ),
    (
        [(DRAW, false, 10), (DRAW, false, 40), (DRAW, false, 59)],
        [0, 1, 0],
        1,
    ),
    (
        [(DRAW, false, 40), (WIN, false, 30), (DRAW, false, 40)],
        [1, 2, 1],
        4,
    ),
];

#[test]
fn each_game_is_worth_what_the_rules_say(rt: HostRuntime) {
    for (games, worths, points) in CASES {
        let mut sheet = Sheet::new();
        for ((score, berserk, plies), worth) in games.into_iter().zip(worths) {
            assert!(rt; sheet.games() < 3);
            assert_eq!(rt; sheet.add(score, berserk, plies), worth, "{plies} plies");
        }
        assert_eq!(rt; sheet.points(), points);
        assert_eq!(rt; sheet.games(), 3);
    }
}

#[test]
fn two_wins_set_a_player_on_fire(rt: HostRuntime) {
    let mut sheet = Sheet::new();
    let mut fire = [false; 4];
    for (on, score) in fire.iter_mut().zip([WIN, WIN, DRAW, WIN]) {
        assert!(rt; sheet.games() < 4);
        sheet.add(score, false, 30);
        *on = sheet.fire();
    }
    assert_eq!(rt; fire, [false, true, false, false]);
}
