ghost use Rattle.std.specs.Prelude.{◌≡◌, ◌+◌, ◌<◌, ◌≤◌, ◌++◌, ◌∷◌, [], List};
ghost use Rattle.arena_history.specs.Results.{GameResult, score_for, berserk_for};
ghost use Rattle.arena_players.specs.Results.{HasResults, result_of};

use board::Colour;
use game_room::Outcome;
use performance::Perf;
use sheet::{Score, Sheet};

/// What is kept of a player for the table: his rating, and what his counted games come to in points and in performance.
#[derive(Debug, Drop)]
pub struct Account {
    pub rating: u32,
    pub sheet: Sheet,
    pub perf: Perf,
}

impl Account {
    /// A player of this rating who has no counted game.
    pub fn new(rating: u32) -> Account
        ensures rating { result.rating ≡ rating }
        ensures sheet { result.sheet.games ≡ 0 }
        ensures perf { result.perf.games ≡ 0 }
        ensures results { HasResults result [] }
    {
        Account {
            rating,
            sheet: Sheet::new(),
            perf: Perf::new(),
        }
    }

    /// Adds a game that ended so, in which he had this side against a player of this rating.
    pub fn add(&mut self, side: Colour, outcome: &Outcome, rating: u32)
        requires rated { rating ≤ 4000 }
        requires sheet { self.old.sheet.games < 200000 }
        requires perf { self.old.perf.games < 200000 }
        ensures rating { self.new.rating ≡ self.old.rating }
        ensures sheet { self.new.sheet.games ≡ self.old.sheet.games + 1 }
        ensures perf { self.new.perf.games ≡ self.old.perf.games + 1 }
        ensures results { (rs : List GameResult) → HasResults self.old rs → HasResults self.new (rs ++ result_of side outcome.now rating ∷ []) }
    {
        let score = score_for(side, outcome.winner);
        let berserk = berserk_for(side, outcome);
        self.sheet.add(score, berserk, outcome.plies);
        self.perf.add(rating, score);
    }
}

// How a game with this winner ended for a side.
fn score_for(side: Colour, winner: Option<Colour>) -> Score
    ensures { result ≡ score_for side winner }
{
    match winner {
        None => Score::Draw,
        Some(winner) => score_against(side, winner),
    }
}

// How a game that a side won ended for this one.
fn score_against(side: Colour, winner: Colour) -> Score
    ensures { result ≡ score_for side (Some winner) }
{
    match (side, winner) {
        (Colour::White, Colour::White) | (Colour::Black, Colour::Black) => Score::Win,
        (Colour::White, Colour::Black) | (Colour::Black, Colour::White) => Score::Loss,
    }
}

// Whether a side berserked.
fn berserk_for(side: Colour, outcome: &Outcome) -> bool
    ensures { result ≡ berserk_for side outcome.now }
{
    match side {
        Colour::White => outcome.white_berserk,
        Colour::Black => outcome.black_berserk,
    }
}
