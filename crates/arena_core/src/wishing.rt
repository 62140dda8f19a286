ghost use Rattle.std.specs.Prelude.{◌≡◌, ◌<◌, ◌++◌, ◌∷◌, [], ℕ, length, None};
ghost use Rattle.arena_rules.specs.Commands.{entry_of};
ghost use Rattle.arena_rules.specs.declared.command.Command.TheVariants as Command;
ghost use Rattle.arena_rules.specs.Verdicts.{command_refusal};
ghost use Rattle.arena_core.specs.Kept.{AreKept};
ghost use Rattle.arena_core.specs.Written.{written_past};

use crate::book::Book;
use crate::laws::laws_of_histories;
use crate::people::People;
use arena_games::Games;

/// Player p enters, who may at this stamp. Games stay as they are.
pub fn enter(book: &Book, games: &Games, people: &mut People, t: u64, p: u32)
    requires kept { AreKept book.now.setup book.now.entries games.now people.old }
    requires player { p < length book.now.setup.players }
    requires granted { command_refusal book.now.setup (written_past book.now) t (Command.Enter p) ≡ None }
    ensures { (pass : ℕ) → AreKept book.now.setup (book.now.entries ++ entry_of t pass (Command.Enter p) ∷ []) games.now people.new }
{
    laws_of_histories();
    people.enter(p, book.next_len());
}

/// Player p pauses, who may at this stamp. Games stay as they are.
pub fn pause(book: &Book, games: &Games, people: &mut People, t: u64, p: u32)
    requires kept { AreKept book.now.setup book.now.entries games.now people.old }
    requires player { p < length book.now.setup.players }
    requires granted { command_refusal book.now.setup (written_past book.now) t (Command.Pause p) ≡ None }
    ensures { (pass : ℕ) → AreKept book.now.setup (book.now.entries ++ entry_of t pass (Command.Pause p) ∷ []) games.now people.new }
{
    laws_of_histories();
    people.pause(p);
}

/// Player p leaves, who may at this stamp. Games stay as they are.
pub fn leave(book: &Book, games: &Games, people: &mut People, t: u64, p: u32)
    requires kept { AreKept book.now.setup book.now.entries games.now people.old }
    requires player { p < length book.now.setup.players }
    requires granted { command_refusal book.now.setup (written_past book.now) t (Command.Leave p) ≡ None }
    ensures { (pass : ℕ) → AreKept book.now.setup (book.now.entries ++ entry_of t pass (Command.Leave p) ∷ []) games.now people.new }
{
    laws_of_histories();
    people.leave(p);
}
