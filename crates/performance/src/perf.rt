ghost use Rattle.std.specs.Prelude.{◌≡◌, ◌+◌, ◌<◌, ◌≤◌, ◌++◌, ◌∷◌, [], List, length, negsuc, pos, ◌≤ℤ◌};
ghost use Rattle.performance.specs.Kept.{StandsFor};
ghost use Rattle.performance.specs.Mean.{Met, performance, total, bonus, IsFloorOfMean};

use sheet::Score;
use std::marker::Model;

/// What is kept of the games of one player to know his performance. It stands for the list of them.
#[derive(Debug, Drop)]
pub struct Perf {
    sum: i64,
    games: u32,
}

impl Model for Perf {
    ghost use Rattle.std.specs.Prelude.{◌≤◌, ◌*◌, ◌≤ℤ◌, ◌+ℤ◌, pos};
    ghost use Rattle.performance.specs.Kept.{Kept};

    ghost Value = { Kept };

    ghost view = { λ p. record { sum = p.sum; games = p.games } };

    ghost invariant = { λ p. (pos 0 ≤ℤ (p.sum +ℤ pos (500 * p.games))) × (p.sum ≤ℤ pos (4500 * p.games)) × (p.games ≤ 200000) };
}

impl Perf {
    /// The performance of a player without games.
    pub fn new() -> Perf
        ensures stands { StandsFor result [] }
        ensures none { result.games ≡ 0 }
    {
        Perf { sum: 0, games: 0 }
    }

    /// Adds a game against an opponent of this rating, which is at most 4,000.
    pub fn add(&mut self, rating: u32, score: Score)
        requires rated { rating ≤ 4000 }
        requires room { self.old.games < 200000 }
        ensures counted { self.new.games ≡ self.old.games + 1 }
        ensures stands { (met : List Met) → StandsFor self.old met
            → StandsFor self.new (met ++ record { rating = rating; score = score } ∷ []) }
    {
        self.sum += i64::from(rating) + bonus(score);
        self.games += 1;
    }

    /// The floor of the mean, from -500 to 4,500 rating points, and 0 without games.
    pub fn value(&self) -> i64
        ensures least { negsuc 499 ≤ℤ result }
        ensures most { result ≤ℤ pos 4500 }
        ensures value { (met : List Met) → StandsFor self.now met → result ≡ performance met }
        ensures floor { (met : List Met) → StandsFor self.now met → 0 < length met
            → IsFloorOfMean result (total met) (length met) }
    {
        if self.games == 0 {
            0
        } else {
            self.sum.div_euclid(i64::from(self.games))
        }
    }
}

// 500 points for a win, and 500 less for a loss.
fn bonus(score: Score) -> i64
    ensures is { result ≡ bonus score }
    ensures least { negsuc 499 ≤ℤ result }
    ensures most { result ≤ℤ pos 500 }
{
    match score {
        Score::Win => 500,
        Score::Draw => 0,
        Score::Loss => -500,
    }
}
