ghost use Rattle.std.specs.Prelude.{nat_le};
ghost use Rattle.std.specs.List.{AllPass};

use crate::Perf;
use sheet::Score;

const WIN: Score = Score::Win;

const DRAW: Score = Score::Draw;

const LOSS: Score = Score::Loss;

/// Opponents' ratings with scores, and the performance: worked by hand, some with a mean that is no whole number.
const CASES: [([(u32, Score); 4], i64); 5] = [
    (
        [(1468, LOSS), (1468, LOSS), (1468, WIN), (1468, LOSS)],
        1218,
    ),
    ([(1000, DRAW), (1000, WIN), (1000, LOSS), (1000, WIN)], 1125),
    ([(400, LOSS), (400, LOSS), (400, LOSS), (401, LOSS)], -100),
    ([(403, LOSS), (403, LOSS), (400, LOSS), (400, DRAW)], 26),
    ([(4000, WIN), (4000, WIN), (4000, WIN), (4000, WIN)], 4500),
];

fn performance_of(games: [(u32, Score); 4]) -> i64
    requires { AllPass (λ g. nat_le g.0 4000) games }
{
    let [first, second, third, fourth] = games;
    let mut perf = Perf::new();
    perf.add(first.0, first.1);
    perf.add(second.0, second.1);
    perf.add(third.0, third.1);
    perf.add(fourth.0, fourth.1);
    perf.value()
}

#[test]
fn performance_is_the_floor_of_the_mean(rt: HostRuntime) {
    for (games, value) in CASES {
        assert!(rt; games.iter().all(|game| game.0 <= 4000));
        assert_eq!(rt; performance_of(games), value);
    }
}

#[test]
fn performance_without_games_is_zero(rt: HostRuntime) {
    assert_eq!(rt; Perf::new().value(), 0);
}
