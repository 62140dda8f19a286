ghost use Rattle.std.specs.Prelude.{◌≡◌, ◌≤◌, ◌<◌, length, ◌++◌, ◌∷◌, [], ℕ};
ghost use Rattle.arena_history.specs.Stamps.{last_stamp};
ghost use Rattle.arena_rules.specs.Commands.{IsCommandOf, entry_of};
ghost use Rattle.arena_rules.specs.Verdicts.{act_refusal, command_refusal, game_at, some_due, verdict};
ghost use Rattle.arena_core.specs.Kept.{AreKept};
ghost use Rattle.arena_core.specs.Written.{written_past};
ghost use Rattle.board.specs.declared.piece.Colour.{Colour as Side};
ghost use Rattle.arena_history.specs.Games.{side_of};

use crate::book::Book;
use crate::laws::laws_of_histories;
use crate::people::People;
use crate::refusals::{closed_or, enter_refusal, leave_refusal, pause_refusal};
use arena_games::Games;
use arena_rules::{Command, Refusal, games_of_legal_lists};
use board::Colour;
use entries::Action;
use game_room::Header;

/// None, or the first refusal of a command at a stamp that may stand behind the entries. An act finds its game at once, and a
/// look goes over the running games up to the first that is due.
#[tactic(auto, unfolding(arena_rules::specs::Verdicts::verdict))]
pub fn verdict(book: &Book, games: &Games, people: &People, t: u64, c: &Command) -> Option<Refusal>
    requires kept { AreKept book.now.setup book.now.entries games.now people.now }
    requires not_before { last_stamp book.now.entries ≤ t }
    requires player { IsCommandOf (length book.now.setup.players) c.now }
    ensures { result ≡ verdict book.now.setup (written_past book.now) t c.now }
{
    laws_of_histories();
    match command_refusal(book, games, people, t, c) {
        None if book.is_full() => Some(Refusal::Full),
        refusal => refusal,
    }
}

// The first of a command's own refusals.
fn command_refusal(
    book: &Book,
    games: &Games,
    people: &People,
    t: u64,
    c: &Command,
) -> Option<Refusal>
    requires kept { AreKept book.now.setup book.now.entries games.now people.now }
    requires not_before { last_stamp book.now.entries ≤ t }
    requires player { IsCommandOf (length book.now.setup.players) c.now }
    ensures { result ≡ command_refusal book.now.setup (written_past book.now) t c.now }
{
    laws_of_histories();
    let setup = book.setup();
    match *c {
        Command::Enter(p) => closed_or(setup, t, enter_refusal(people.wish(p))),
        Command::Pause(p) => closed_or(setup, t, pause_refusal(people.wish(p))),
        Command::Leave(p) => closed_or(setup, t, leave_refusal(people.wish(p))),
        Command::Act(p, g, action) => act_refusal(book, games, people, t, p, g, action),
        Command::Tick => look_refusal(book, games, people, t),
    }
}

// Whether a player may act in a game.
fn act_refusal(
    book: &Book,
    games: &Games,
    people: &People,
    t: u64,
    p: u32,
    g: u32,
    action: Action,
) -> Option<Refusal>
    requires kept { AreKept book.now.setup book.now.entries games.now people.now }
    requires not_before { last_stamp book.now.entries ≤ t }
    ensures { result ≡ act_refusal (written_past book.now) p (game_at book.now.setup (written_past book.now) g) action t }
{
    book.keeps();
    games_of_legal_lists();
    laws_of_histories();
    let Some(header) = games.header(g) else {
        return Some(Refusal::NoGame);
    };
    let Some(side) = side_of(&header, p) else {
        return Some(Refusal::NotYours);
    };
    match games.allowed(g, side, action, t) {
        Ok(()) => None,
        Err(refusal) => Some(Refusal::Act(refusal)),
    }
}

// Whether a look would end a game.
fn look_refusal(book: &Book, games: &Games, people: &People, t: u64) -> Option<Refusal>
    requires kept { AreKept book.now.setup book.now.entries games.now people.now }
    requires not_before { last_stamp book.now.entries ≤ t }
    ensures { result ≡ command_refusal book.now.setup (written_past book.now) t Command.Tick }
{
    book.keeps();
    games_of_legal_lists();
    laws_of_histories();
    if games.some_due(t) {
        None
    } else {
        Some(Refusal::NothingDue)
    }
}

/// The side of a player in a game, if he plays it.
pub fn side_of(header: &Header, p: u32) -> Option<Colour>
    ensures { result ≡ side_of header.now p }
{
    if header.white == p {
        Some(Colour::White)
    } else if header.black == p {
        Some(Colour::Black)
    } else {
        None
    }
}
