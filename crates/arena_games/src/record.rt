ghost use Rattle.std.specs.Prelude.{◌≡◌};
ghost use Rattle.arena_games.specs.Keeps.{record_of, shown};

use crate::ended::EndedGame;
use game_room::{GameView, Header, Outcome};

/// The record of a game from what can be seen of it at its end.
pub fn record_of(view: &GameView, outcome: Outcome) -> EndedGame
    ensures { result ≡ record_of view.now outcome }
{
    EndedGame {
        position: view.position,
        last: view.last,
        white_ms: view.white_ms,
        black_ms: view.black_ms,
        outcome,
    }
}

/// What can be seen of an ended game.
pub fn shown(header: &Header, ended: &EndedGame) -> GameView
    ensures { result ≡ shown header.now ended.now }
{
    GameView {
        id: header.id,
        white: header.white,
        black: header.black,
        position: ended.position,
        plies: ended.outcome.plies,
        last: ended.last,
        offer: None,
        white_ms: ended.white_ms,
        black_ms: ended.black_ms,
        white_berserk: ended.outcome.white_berserk,
        black_berserk: ended.outcome.black_berserk,
        outcome: Some(ended.outcome),
    }
}
