ghost use Rattle.std.specs.Prelude.{◌≡◌, ◌≤◌, OnOk, OnErr, IfOk, IfSome, IfNone, is_none, true, false};
ghost use Rattle.game_room.specs.Events.{act_of};
ghost use Rattle.game_room.specs.Games.{allowed, game_view, ticked};
ghost use Rattle.arena_games.specs.Answers.{act_answer};
ghost use Rattle.arena_games.specs.Beginnings.{MayBegin};
ghost use Rattle.arena_games.specs.Courses.{Course, begun, is_due, looked, outcome_of, with_event};
ghost use Rattle.arena_games.specs.Keeps.{is_kept_due, KeptFor, runs};
ghost use Rattle.arena_games.specs.Moments.{IsInTime, MayTakeAct};
ghost use Rattle.entries.specs.Limits.{max_stamp};

use crate::ended::EndedGame;
use crate::laws::kept_games_stay;
use crate::live::Live;
use crate::record::{record_of, shown};
use board::Colour;
use entries::Action;
use game_room::{ActRefusal, Done, GameView, Header, Outcome};
use std::alloc::{AllocError, Global};

/// What is kept of a game.
#[derive(Drop)]
pub struct Kept {
    pub header: Header,
    pub state: State,
}

/// A game goes on in its room, or it has ended and a record of it is left.
#[derive(Drop)]
pub enum State {
    Running(Live),
    Ended(EndedGame),
}

/// A game of which nothing has happened, with its room.
pub fn new_game(alloc: Global, header: Header) -> Result<Kept, AllocError>
    requires { MayBegin header }
    ensures begun { IfOk result (λ game. KeptFor game (begun header)) }
    ensures runs { IfOk result (λ game. runs game ≡ true) }
{
    Ok(Kept {
        header,
        state: State::Running(Live::new(alloc, header)?),
    })
}

/// Whether an action in the game is allowed at `t`, or its refusal: of an ended game without a room.
pub fn allowed_in(game: &Kept, side: Colour, action: Action, t: u64) -> Result<(), ActRefusal>
    requires { IsInTime game.now t }
    ensures { (c : Course) → KeptFor game.now c → result ≡ allowed c.header c.events side action t }
{
    kept_games_stay();
    match &game.state {
        State::Running(live) => live.room().allowed(side, action, t),
        State::Ended(_) => Err(ActRefusal::Over),
    }
}

/// A side acts in the game. Where that ends it, its room is let go and a record is kept.
pub fn act_in(
    game: &mut Kept,
    side: Colour,
    action: Action,
    t: u64,
) -> Result<Option<Outcome>, ActRefusal>
    requires stamped { t ≤ max_stamp }
    requires in_time { MayTakeAct game.old t }
    ensures answer { (c : Course) → KeptFor game.old c → result ≡ act_answer c side action t }
    ensures stands { OnOk result ((c : Course) → KeptFor game.old c → KeptFor game.new (with_event (act_of side action t) c)) }
    ensures ran { OnOk result (runs game.old ≡ true) }
    ensures runs { IfOk result (λ ended. runs game.new ≡ is_none ended) }
    ensures refused { OnErr result (game.new ≡ game.old) }
{
    kept_games_stay();
    let State::Running(live) = &mut game.state else {
        return Err(ActRefusal::Over);
    };
    match live.act(side, action, t) {
        Err(refusal) => Err(refusal),
        Ok(Done::Ended(outcome)) => {
            let record = record_of(&live.room().view(t), outcome);
            game.state = State::Ended(record);
            Ok(Some(outcome))
        }
        Ok(Done::Moved) => Ok(None),
        Ok(Done::Noted) => Ok(None),
    }
}

/// Looks at the game, and answers its outcome where that ends it: then its room is let go and a record is kept.
pub fn look_in(game: &mut Kept, t: u64) -> Option<Outcome>
    requires { IsInTime game.old t }
    ensures answer { (c : Course) → KeptFor game.old c → result ≡ ticked c.header c.events t }
    ensures stands { (c : Course) → KeptFor game.old c → KeptFor game.new (looked t c) }
    ensures idle { IfNone result ((c : Course) → KeptFor game.old c → is_due t c ≡ false) }
    ensures runs { IfNone result (runs game.new ≡ runs game.old) }
    ensures ran { IfSome result (λ outcome. runs game.old ≡ true) }
    ensures ended { IfSome result (λ outcome. runs game.new ≡ false) }
{
    kept_games_stay();
    let State::Running(live) = &mut game.state else {
        return None;
    };
    let outcome = live.tick(t)?;
    let record = record_of(&live.room().view(t), outcome);
    game.state = State::Ended(record);
    Some(outcome)
}

/// Whether the game goes on and is due at `t`.
pub fn is_due(game: &Kept, t: u64) -> bool
    requires { IsInTime game.now t }
    ensures { result ≡ is_kept_due t game.now }
{
    kept_games_stay();
    match &game.state {
        State::Running(live) => live.room().due(t),
        State::Ended(_) => false,
    }
}

/// What can be seen of the game at `t`.
pub fn view_of(game: &Kept, t: u64) -> GameView
    requires { IsInTime game.now t }
    ensures { (c : Course) → KeptFor game.now c → result ≡ game_view c.header c.events t }
{
    kept_games_stay();
    match &game.state {
        State::Running(live) => live.room().view(t),
        State::Ended(ended) => shown(&game.header, ended),
    }
}

/// How the game ended, or None while it goes on.
pub fn outcome_of(game: &Kept) -> Option<Outcome>
    ensures { (c : Course) → KeptFor game.now c → result ≡ outcome_of c }
{
    match &game.state {
        State::Running(_) => None,
        State::Ended(ended) => Some(ended.outcome),
    }
}
