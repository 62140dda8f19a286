ghost use Rattle.std.specs.Prelude.{◌≡◌, ◌≤◌, ◌++◌, ◌∷◌, [], ℕ, length, None};
ghost use Rattle.entries.specs.Limits.{max_stamp};
ghost use Rattle.arena_history.specs.Endings.{ended_by};
ghost use Rattle.arena_history.specs.Stamps.{last_stamp};
ghost use Rattle.arena_rules.specs.Commands.{entry_of};
ghost use Rattle.arena_rules.specs.Verdicts.{command_refusal};
ghost use Rattle.arena_rules.specs.declared.command.Command.TheVariants as Command;
ghost use Rattle.arena_core.specs.Kept.{AreKept};
ghost use Rattle.arena_core.specs.Written.{written_past};

use crate::asking::side_of;
use crate::book::Book;
use crate::laws::laws_of_histories;
use crate::people::People;
use arena_games::{Games, acts_go_on};
use arena_rules::{games_of_legal_lists, legal_lists_in_range};
use entries::Action;

/// A player acts in a game, who may at this stamp: the act happens in the game, and where it ends it, both players are free and
/// the game counts or not. Answers how many games it ends, none or one. It finds the game at once and takes no memory.
pub fn act(
    book: &Book,
    games: &mut Games,
    people: &mut People,
    t: u64,
    p: u32,
    g: u32,
    action: Action,
) -> u32
    requires kept { AreKept book.now.setup book.now.entries games.old people.old }
    requires not_before { last_stamp book.now.entries ≤ t }
    requires most { t ≤ max_stamp }
    requires granted { command_refusal book.now.setup (written_past book.now) t (Command.Act p g action) ≡ None }
    ensures kept { (pass : ℕ) → AreKept book.now.setup (book.now.entries ++ entry_of t pass (Command.Act p g action) ∷ []) games.new people.new }
    ensures ended { (pass : ℕ) → result ≡ length (ended_by book.now.setup (written_past book.now) (entry_of t pass (Command.Act p g action))) }
{
    book.keeps();
    laws_of_histories();
    legal_lists_in_range();
    games_of_legal_lists();
    acts_go_on();
    let Some(header) = games.header(g) else {
        unreachable!()
    };
    let Some(side) = side_of(&header, p) else {
        unreachable!()
    };
    match games.act(g, side, action, t) {
        Ok(None) => 0,
        Ok(Some(outcome)) => {
            people.end(&header, &outcome, book.next_len(), book.counts_at(t));
            1
        }
        Err(_) => unreachable!(),
    }
}
