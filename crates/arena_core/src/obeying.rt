ghost use Rattle.std.specs.Prelude.{◌≡◌, ◌≤◌, ◌++◌, ◌∷◌, [], ℕ, length, None};
ghost use Rattle.entries.specs.Limits.{max_stamp};
ghost use Rattle.arena_history.specs.Endings.{ended_by};
ghost use Rattle.arena_history.specs.Stamps.{last_stamp};
ghost use Rattle.arena_rules.specs.Commands.{CanBeNamed, IsCommandOf, entry_of};
ghost use Rattle.arena_rules.specs.Verdicts.{verdict};
ghost use Rattle.arena_core.specs.Kept.{AreKept};
ghost use Rattle.arena_core.specs.Written.{written_past};

use crate::acting::act;
use crate::book::Book;
use crate::laws::laws_of_histories;
use crate::looking::end_due_games;
use crate::people::People;
use crate::wishing::{enter, leave, pause};
use arena_games::Games;
use arena_rules::Command;

/// Changes games and players as a command does that is not refused and whose entry is not yet written down. Answers how many
/// games it ends.
pub fn obey(book: &Book, games: &mut Games, people: &mut People, t: u64, c: &Command) -> u32
    requires kept { AreKept book.now.setup book.now.entries games.old people.old }
    requires not_before { last_stamp book.now.entries ≤ t }
    requires most { t ≤ max_stamp }
    requires player { IsCommandOf (length book.now.setup.players) c.now }
    requires granted { verdict book.now.setup (written_past book.now) t c.now ≡ None }
    ensures kept { (pass : ℕ) → AreKept book.now.setup (book.now.entries ++ entry_of t pass c.now ∷ []) games.new people.new }
    ensures ended { (pass : ℕ) → result ≡ length (ended_by book.now.setup (written_past book.now) (entry_of t pass c.now)) }
{
    laws_of_histories();
    match *c {
        Command::Enter(p) => {
            enter(book, games, people, t, p);
            0
        }
        Command::Pause(p) => {
            pause(book, games, people, t, p);
            0
        }
        Command::Leave(p) => {
            leave(book, games, people, t, p);
            0
        }
        Command::Act(p, g, action) => act(book, games, people, t, p, g, action),
        Command::Tick => end_due_games(book, games, people, t),
    }
}

/// Does nothing. Its contract tells that the move of a command can be named, if it makes one.
pub fn shows_named(c: &Command)
    ensures { CanBeNamed c.now }
{
    match *c {
        Command::Act(_, _, action) => action.keeps(),
        Command::Enter(_) | Command::Pause(_) | Command::Leave(_) | Command::Tick => {}
    }
}
