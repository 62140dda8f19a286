//! A game as a JSON value.

ghost use Rattle.std.specs.Prelude.{◌≡◌, ◌<◌, IfOk, length};
ghost use Rattle.serde_json.specs.View.{view};
ghost use Rattle.entries.specs.Ranges.{IsGood};
ghost use Rattle.api.specs.Bodies.{colour_or_null, move_or_null, outcome_or_null, shown_fen, game_object, game_data};

use crate::words::{cause_word, colour_word, player_name};
use arrayvec::ArrayString;
use board::{Colour, Move, Position, write_fen, write_move};
use entries::Setup;
use game_room::{GameView, Outcome};
use move_rules::ep_legal;
use serde_json::{Value, json};
use std::alloc::{AllocError, Global};

// A side, or null.
fn colour_or_null(alloc: Global, colour: Option<Colour>) -> Result<Value, AllocError>
    ensures { IfOk result (λ v. view v ≡ colour_or_null colour) }
{
    match colour {
        None => Ok(Value::Null),
        Some(colour) => Value::try_from_str(alloc, colour_word(colour)),
    }
}

// A move's word, or null.
fn move_or_null(alloc: Global, last: Option<Move>) -> Result<Value, AllocError>
    ensures { IfOk result (λ v. view v ≡ move_or_null last) }
{
    match last {
        None => Ok(Value::Null),
        Some(m) => Value::try_from_str(alloc, write_move(m).as_str()),
    }
}

// How a game ended, or null.
fn outcome_or_null(alloc: Global, outcome: Option<Outcome>) -> Result<Value, AllocError>
    ensures { IfOk result (λ v. view v ≡ outcome_or_null outcome) }
{
    let Some(outcome) = outcome else {
        return Ok(Value::Null);
    };
    let winner = colour_or_null(alloc, outcome.winner)?;
    json!(in alloc; {"cause": cause_word(outcome.cause), "winner": winner})
}

// The FEN of a position.
fn shown_fen(position: &Position) -> ArrayString<96>
    ensures { result.bytes ≡ shown_fen position.now }
{
    write_fen(position, ep_legal(position))
}

// The texts of a game that are not its own: its players' names, its FEN, and the side to move.
#[derive(Drop)]
struct Texts<'a> {
    black: &'a str,
    white: &'a str,
    fen: &'a str,
    turn: &'a str,
}

// A game, by these texts, its last move, its offer and its outcome.
#[tactic(auto, unfolding(crate::specs::Bodies::game_object))]
fn game_object(
    alloc: Global,
    game: &GameView,
    texts: &Texts<'_>,
    last: Value,
    offer: Value,
    outcome: Value,
) -> Result<Value, AllocError>
    ensures { IfOk result (λ v. view v ≡ game_object game.now texts.now.black.now texts.now.white.now texts.now.fen.now texts.now.turn.now (view last) (view offer) (view outcome)) }
{
    json!(in alloc; {
        "black": texts.black,
        "blackBerserk": game.black_berserk,
        "blackMs": game.black_ms,
        "fen": texts.fen,
        "id": game.id,
        "last": last,
        "offer": offer,
        "outcome": outcome,
        "ply": game.plies,
        "turn": texts.turn,
        "white": texts.white,
        "whiteBerserk": game.white_berserk,
        "whiteMs": game.white_ms
    })
}

/// A game.
pub(crate) fn game_value(alloc: Global, setup: &Setup, game: &GameView) -> Result<Value, AllocError>
    requires good { IsGood setup.now }
    requires white { game.now.white < length setup.now.players }
    requires black { game.now.black < length setup.now.players }
    ensures { IfOk result (λ v. view v ≡ game_data setup.now game.now) }
{
    let fen = shown_fen(&game.position);
    let texts = Texts {
        black: player_name(setup, game.black),
        white: player_name(setup, game.white),
        fen: fen.as_str(),
        turn: colour_word(game.position.turn()),
    };
    let last = move_or_null(alloc, game.last)?;
    let offer = colour_or_null(alloc, game.offer)?;
    let outcome = outcome_or_null(alloc, game.outcome)?;
    game_object(alloc, game, &texts, last, offer, outcome)
}
