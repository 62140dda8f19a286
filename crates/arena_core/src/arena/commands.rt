//! How a command is answered, and what it does.

ghost use Rattle.std.specs.Prelude.{ℕ, ◌≡◌, ◌≢◌, ◌+◌, ◌≤◌, List, [], ◌∷◌, ◌++◌, length, OnErr, Err, None, Some};
ghost use Rattle.entries.specs.Limits.{max_stamp};
ghost use Rattle.entries.specs.declared.journal.Entry.{Entry as JournalEntry};
ghost use Rattle.arena_history.specs.Endings.{ended_by};
ghost use Rattle.arena_history.specs.Stamps.{last_stamp};
ghost use Rattle.arena_history.specs.Waves.{history};
ghost use Rattle.arena_rules.specs.Answers.{reply_to};
ghost use Rattle.arena_rules.specs.Commands.{CanBeNamed, IsCommandOf, entry_of};
ghost use Rattle.arena_rules.specs.Verdicts.{verdict};
ghost use Rattle.arena_core.specs.Answers.{Answers};
ghost use Rattle.arena_core.specs.Held.{past};

use super::Arena;
use crate::asking::verdict;
use crate::fault::ApplyFault;
use crate::laws::laws_of_histories;
use crate::obeying::{obey, shows_named};
use arena_rules::{Command, Refusal, Reply, what_is_allowed};
use conn::List;

impl Arena {
    // What a command is answered, and does.
    pub(super) fn answer(&mut self, pass: u32, now: u64, c: Command) -> Result<Reply, ApplyFault>
        requires { IsCommandOf (length self.old.setup.players) c }
        ensures setup { self.new.setup ≡ self.old.setup }
        ensures answer { Answers self.old.setup self.old.entries pass now c self.new.entries result }
        ensures unchanged { OnErr result (self.new ≡ self.old) }
        ensures memory { 1 ≤ self.old.spare → result ≢ Err ApplyFault.OutOfMemory }
        ensures spare { self.old.spare ≤ self.new.spare + 1 }
    {
        shows_named(&c);
        what_is_allowed();
        let t = self.stamp(now);
        if let Some(refusal) = self.verdict(t, &c) {
            return Err(ApplyFault::Refused(refusal));
        }
        if self.reserve(1).is_err() {
            return Err(ApplyFault::OutOfMemory);
        }
        let ended = self.obey(t, pass, &c);
        match self.reply(t, &c, ended) {
            Some(reply) => Ok(reply),
            None => unreachable!(),
        }
    }

    // None, or the first refusal of a command.
    fn verdict(&self, t: u64, c: &Command) -> Option<Refusal>
        requires not_before { last_stamp self.now.entries ≤ t }
        requires player { IsCommandOf (length self.now.setup.players) c.now }
        ensures { result ≡ verdict self.now.setup (past self.now) t c.now }
    {
        verdict(&self.book, &self.games, &self.people, t, c)
    }

    // Does what a command asks that is not refused, and adds its entry. Answers how many games it ends.
    fn obey(&mut self, t: u64, pass: u32, c: &Command) -> u32
        requires room { 1 ≤ self.old.spare }
        requires not_before { last_stamp self.old.entries ≤ t }
        requires most { t ≤ max_stamp }
        requires player { IsCommandOf (length self.old.setup.players) c.now }
        requires named { CanBeNamed c.now }
        requires granted { verdict self.old.setup (past self.old) t c.now ≡ None }
        ensures setup { self.new.setup ≡ self.old.setup }
        ensures entries { self.new.entries ≡ self.old.entries ++ entry_of t pass c.now ∷ [] }
        ensures spare { self.old.spare ≡ self.new.spare + 1 }
        ensures ended { result ≡ length (ended_by self.old.setup (past self.old) (entry_of t pass c.now)) }
    {
        let ended = obey(&self.book, &mut self.games, &mut self.people, t, c);
        self.book.add(t, pass, c);
        ended
    }

    // The reply to a command whose entry is the last, and which ended so many games.
    fn reply(&self, t: u64, c: &Command, ended: u32) -> Option<Reply>
        requires not_before { last_stamp self.now.entries ≤ t }
        requires player { IsCommandOf (length self.now.setup.players) c.now }
        ensures { (es : List JournalEntry) (pass : ℕ) → self.now.entries ≡ es ++ entry_of t pass c.now ∷ []
            → ended ≡ length (ended_by self.now.setup (history self.now.setup es) (entry_of t pass c.now))
            → result ≡ reply_to self.now.setup (history self.now.setup es) t pass c.now }
    {
        laws_of_histories();
        match *c {
            Command::Enter(p) => Some(Reply::Me(self.me(p))),
            Command::Pause(p) => Some(Reply::Me(self.me(p))),
            Command::Leave(p) => Some(Reply::Me(self.me(p))),
            Command::Act(_, g, _) => match self.shown(t, g) {
                Some(view) => Some(Reply::Game(view)),
                None => None,
            },
            Command::Tick => Some(Reply::Ticked(ended)),
        }
    }
}
