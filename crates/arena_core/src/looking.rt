ghost use Rattle.std.specs.Prelude.{◌≡◌, ◌≤◌, ◌++◌, ◌∷◌, [], ℕ, length};
ghost use Rattle.arena_history.specs.Endings.{ended_by};
ghost use Rattle.arena_history.specs.Stamps.{last_stamp};
ghost use Rattle.arena_rules.specs.Commands.{entry_of};
ghost use Rattle.arena_rules.specs.declared.command.Command.TheVariants as Command;
ghost use Rattle.arena_core.specs.Kept.{AreKept};
ghost use Rattle.arena_core.specs.Written.{written_past};

use crate::book::Book;
use crate::laws::laws_of_histories;
use crate::people::People;
use arena_games::{Games, looks_end};
use arena_rules::{games_of_legal_lists, legal_lists_in_range};

/// Ends every game that is due, in the order of their numbers: the players of each are free, and it counts or not. Answers how
/// many. It looks at each running game once and takes no memory.
pub fn end_due_games(book: &Book, games: &mut Games, people: &mut People, t: u64) -> u32
    requires kept { AreKept book.now.setup book.now.entries games.old people.old }
    requires not_before { last_stamp book.now.entries ≤ t }
    ensures kept { (pass : ℕ) → AreKept book.now.setup (book.now.entries ++ entry_of t pass Command.Tick ∷ []) games.new people.new }
    ensures ended { (pass : ℕ) → result ≡ length (ended_by book.now.setup (written_past book.now) (entry_of t pass Command.Tick)) }
{
    book.keeps();
    laws_of_histories();
    legal_lists_in_range();
    games_of_legal_lists();
    looks_end();
    let n = book.next_len();
    let counts = book.counts_at(t);
    let mut from = 0;
    let mut count = 0;
    'ending: loop {
        let Some(end) = games.end_next_due(from, t) else {
            return count;
        };
        let Some(header) = games.header(end.game) else {
            unreachable!()
        };
        people.end(&header, &end.outcome, n, counts);
        from = end.game + 1;
        count += 1;
    }
}
