ghost use Rattle.std.specs.Prelude.{◌≡◌, slice_get};
ghost use Rattle.std.specs.Option.{option_map};
ghost use Rattle.arena_history.specs.Endings.{finished};
ghost use Rattle.arena_core.specs.Held.{past};
ghost use Rattle.games_text.specs.GameTexts.{told, told_by, ended_in};

use arena_core::{Answer, Arena, Query, QueryFault};
use arena_history::games_count_once;
use game_room::{GameView, Outcome};
use std::alloc::Global;

/// What is told of a game that ended.
#[derive(Debug, Clone, Copy, PartialEq, Eq)]
pub struct Ended {
    /// The game's number.
    pub id: u32,
    /// The number of the player with White.
    pub white: u32,
    /// The number of the player with Black.
    pub black: u32,
    pub outcome: Outcome,
}

// What a view tells of its game, if that has ended.
fn told_by(view: &GameView) -> Option<Ended>
    ensures { result ≡ told_by view.now }
{
    match view.outcome {
        None => None,
        Some(outcome) => Some(Ended {
            id: view.id,
            white: view.white,
            black: view.black,
            outcome,
        }),
    }
}

// What an answer tells of a game, if it is about one that has ended.
fn ended_in(answer: &Result<Answer, QueryFault>) -> Option<Ended>
    ensures { result ≡ ended_in answer.now }
{
    match answer {
        Ok(Answer::Game(view)) => told_by(view),
        _ => None,
    }
}

/// What is told of the game that is number `i`, from 0, of the games that count, in the order in which they ended, or None where
/// there are not so many. It is found at once.
pub fn counted_game(alloc: Global, a: &Arena, i: u32) -> Option<Ended>
    ensures { result ≡ option_map told (slice_get (finished a.now.setup (past a.now)) i) }
{
    games_count_once();
    match a.counted(i) {
        None => None,
        Some(number) => ended_in(&a.query(alloc, 0, Query::Game(number))),
    }
}
