ghost use Rattle.std.specs.Prelude.{◌≡◌, ◌+◌, ◌<◌, ◌≤◌, ◌++◌, ◌∷◌, [], ℕ, List, length};
ghost use Rattle.sheet.specs.Kept.{StandsFor};
ghost use Rattle.sheet.specs.Worth.{Played, game_of, worth, points, last_two_won, looking_back};

use crate::score::Score;
use std::marker::Model;

/// The points of one player, kept game by game. It stands for the list of his counted games.
#[derive(Debug, Drop)]
pub struct Sheet {
    points: u32,
    games: u32,
    last_won: bool,
    last_two_won: bool,
    draw_streak: bool,
}

impl Model for Sheet {
    ghost use Rattle.std.specs.Prelude.{◌≤◌, ◌*◌};
    ghost use Rattle.sheet.specs.Kept.{Kept};

    ghost Value = { Kept };

    ghost view = { λ s. record { points = s.points; games = s.games; last_won = s.last_won; last_two_won = s.last_two_won; draw_streak = s.draw_streak } };

    ghost invariant = { λ s. (s.points ≤ 5 * s.games) × (s.games ≤ 200000) };
}

impl Sheet {
    /// The sheet of a player without games.
    pub fn new() -> Sheet
        ensures stands { StandsFor result [] }
        ensures none { result.games ≡ 0 }
    {
        Sheet {
            points: 0,
            games: 0,
            last_won: false,
            last_two_won: false,
            draw_streak: false,
        }
    }

    /// Adds a game of `plies` plies, with whether the player berserked, and answers what it is worth to him: 0 to 5 points.
    pub fn add(&mut self, score: Score, berserk: bool, plies: u32) -> u32
        requires { self.old.games < 200000 }
        ensures counted { self.new.games ≡ self.old.games + 1 }
        ensures most { result ≤ 5 }
        ensures worth { (played : List Played) → StandsFor self.old played
            → result ≡ worth (played ++ game_of score berserk plies ∷ []) (length played) }
        ensures stands { (played : List Played) → StandsFor self.old played
            → StandsFor self.new (played ++ game_of score berserk plies ∷ []) }
    {
        let base = base_points(score, plies, self.draw_streak);
        let worth = doubled(base, self.last_two_won) + berserk_points(score, berserk, plies);
        self.points += worth;
        self.games += 1;
        self.last_two_won = both(is_win(score), self.last_won);
        self.last_won = is_win(score);
        self.draw_streak = streak_after(score, plies, self.draw_streak);
        worth
    }

    /// The points of all games together, at most 1,000,000.
    pub fn points(&self) -> u32
        ensures most { result ≤ 1000000 }
        ensures points { (played : List Played) → StandsFor self.now played → result ≡ points played }
    {
        self.points
    }

    /// How many games were added.
    pub fn games(&self) -> u32
        ensures kept { result ≡ self.now.games }
        ensures games { (played : List Played) → StandsFor self.now played → result ≡ length played }
    {
        self.games
    }

    /// Whether the last two games are wins, so that the next win or draw counts double.
    pub fn fire(&self) -> bool
        ensures { (played : List Played) → StandsFor self.now played → result ≡ last_two_won (looking_back played) }
    {
        self.last_two_won
    }
}

ghost use Rattle.std.specs.Prelude.{◌*◌, ◌&&◌, if◌then◌else◌};
ghost use Rattle.sheet.specs.Worth.{is_win, base_points, draw_points, berserk_points, streak_after};

fn is_win(score: Score) -> bool
    ensures { result ≡ is_win score }
{
    match score {
        Score::Win => true,
        Score::Draw | Score::Loss => false,
    }
}

fn both(won: bool, last_won: bool) -> bool
    ensures { result ≡ won && last_won }
{
    won && last_won
}

// A draw is worth a point from 60 plies on, and from 20 on outside a streak of draws.
fn draw_points(plies: u32, streak: bool) -> u32
    ensures { result ≡ draw_points plies streak }
{
    if plies < 20 || (plies < 60 && streak) {
        0
    } else {
        1
    }
}

fn doubled(base: u32, twice: bool) -> u32
    requires { base ≤ 2 }
    ensures worth { result ≡ (if twice then 2 * base else base) }
    ensures most { result ≤ 4 }
{
    if twice { 2 * base } else { base }
}

fn base_points(score: Score, plies: u32, streak: bool) -> u32
    ensures worth { result ≡ base_points score plies streak }
    ensures most { result ≤ 2 }
{
    match score {
        Score::Win => 2,
        Score::Draw => draw_points(plies, streak),
        Score::Loss => 0,
    }
}

fn berserk_points(score: Score, berserk: bool, plies: u32) -> u32
    ensures worth { result ≡ berserk_points (game_of score berserk plies) }
    ensures most { result ≤ 1 }
{
    if score == Score::Win && berserk && plies >= 14 {
        1
    } else {
        0
    }
}

fn streak_after(score: Score, plies: u32, streak: bool) -> bool
    ensures { result ≡ streak_after score plies streak }
{
    match score {
        Score::Win => false,
        Score::Draw => plies >= 20 || streak,
        Score::Loss => streak,
    }
}
