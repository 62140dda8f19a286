ghost use Rattle.std.specs.Prelude.{◌≡◌, ◌≢◌, ◌+◌, ◌≤◌, List, [], length, slice_get, IfOk, IsOk, OnOk, OnErr, Ok, Err, None, Some};
ghost use Rattle.std.specs.Option.{option_map};
ghost use Rattle.entries.specs.Limits.{max_stamp};
ghost use Rattle.entries.specs.Ranges.{IsGood};
ghost use Rattle.arena_history.specs.Endings.{EndedGame, finished};
ghost use Rattle.arena_history.specs.Games.{begun};
ghost use Rattle.arena_history.specs.Snapshots.{snapshot};
ghost use Rattle.arena_history.specs.Stamps.{last_stamp, stamp_of};
ghost use Rattle.arena_history.specs.Table.{standings, team_standings};
ghost use Rattle.arena_rules.specs.Commands.{IsCommandOf};
ghost use Rattle.arena_rules.specs.Commits.{Commits, IsPlanOf};
ghost use Rattle.arena_rules.specs.FairLaws.{IsFair};
ghost use Rattle.arena_rules.specs.Legal.{IsLegal};
ghost use Rattle.arena_rules.specs.Queries.{IsQueryOf};
ghost use Rattle.arena_rules.specs.StartLaws.{journal_of};
ghost use Rattle.arena_core.specs.Answers.{Answers, Tells, IsSmall};
ghost use Rattle.arena_core.specs.Held.{past};

mod answers;
mod commands;
mod commits;

use crate::book::Book;
use crate::fault::{ApplyFault, QueryFault, told};
use crate::laws::laws_of_histories;
use crate::people::People;
use arena_games::Games;
use arena_rules::{
    Answer, Command, CommitFault, Query, Reply, legal_lists, legal_lists_are_fair,
    legal_lists_in_range, tables_of_legal_lists,
};
use conn::List;
use entries::{Entry, Journal, Setup, Start};
use ranking::Row;
use std::alloc::{AllocError, Global};
use std::marker::Model;
use team_battle::{TeamRow, team_table};
use turnstile::Historied;
use wave::{Plan, Snapshot};

/// One arena. Contracts see its setup, its journal and how many entries more the journal has room for. Every arena has a
/// good setup and a legal journal.
#[derive(Drop)]
pub struct Arena {
    book: Book,
    games: Games,
    people: People,
}

impl Model for Arena {
    ghost use Rattle.arena_core.specs.Held.{Held};

    ghost Value = { Held };

    ghost use Rattle.arena_core.specs.Kept.{AreKept};

    ghost view = { λ a. record { setup = a.book.setup; entries = a.book.entries; spare = a.book.spare } };

    ghost invariant = { λ a. AreKept a.book.setup a.book.entries a.games a.people };
}

impl Historied for Arena {
    type Entry = Entry;

    type Fixed = Setup;

    ghost entries = { λ a. a.entries };

    ghost by = { λ e. e.pass };

    ghost fixed = { λ a. a.setup };

    fn len(&self) -> u64 {
        self.book.len()
    }
}

impl Arena {
    /// An arena with this setup and an empty journal. All that grows with the number of players is taken here. It fails only
    /// for want of memory.
    pub fn new(alloc: Global, setup: Setup) -> Result<Arena, AllocError>
        requires { IsGood setup }
        ensures setup { IfOk result (λ arena. arena.setup ≡ setup) }
        ensures empty { IfOk result (λ arena. arena.entries ≡ []) }
    {
        legal_lists();
        laws_of_histories();
        let people = People::new(alloc, &setup)?;
        Ok(Arena {
            book: Book::new(alloc, setup),
            games: Games::new(alloc),
            people,
        })
    }

    /// Makes room in the journal for at least `k` entries more. It fails only for want of memory, never where that room is
    /// there, and then leaves all as it was.
    pub fn reserve(&mut self, k: u32) -> Result<(), AllocError>
        ensures setup { self.new.setup ≡ self.old.setup }
        ensures entries { self.new.entries ≡ self.old.entries }
        ensures room { OnOk result (k ≤ self.new.spare) }
        ensures no_less { self.old.spare ≤ self.new.spare }
        ensures unchanged { OnErr result (self.new ≡ self.old) }
        ensures memory { k ≤ self.old.spare → IsOk result }
    {
        self.book.reserve(k)
    }

    /// Adds the one entry of a command that pass `pass` makes at `now`, a moment of the clock in milliseconds; both may be any
    /// number. The entry's stamp is `now`, raised to the last stamp and cut to 1,000,000,000. The reply is read behind that
    /// entry: the player who entered, paused or left, the game in which a player acted, or how many games a look ended.
    ///
    /// `Refused` has the command's first refusal at that stamp: that the arena is closed, then what the player's wish or the
    /// game refuses, or that nothing is due, then that the journal is full. `OutOfMemory` comes where the command is not
    /// refused and there is no memory for its entry, never where the journal has room for one. Both leave all as it was.
    ///
    /// An act finds its game at once, a look goes once over the running games, and each game that one of them ends moves the
    /// rows between its two players' old and new places.
    pub fn apply(&mut self, pass: u32, now: u64, c: Command) -> Result<Reply, ApplyFault>
        requires { IsCommandOf (length self.old.setup.players) c }
        ensures setup { self.new.setup ≡ self.old.setup }
        ensures answer { Answers self.old.setup self.old.entries pass now c self.new.entries result }
        ensures unchanged { OnErr result (self.new ≡ self.old) }

        // Nobody plays two games at once, each running game is between two different players who sit in it, and each game
        // that ended before the arena's end counts once.
        ensures fair { IsFair self.new.setup self.new.entries }

        // It takes no memory where the journal has room for an entry, and an entry takes the room of one at most.
        ensures memory { 1 ≤ self.old.spare → result ≢ Err ApplyFault.OutOfMemory }
        ensures spare { self.old.spare ≤ self.new.spare + 1 }
    {
        let answer = self.answer(pass, now, c);
        self.shows_legal();
        answer
    }

    /// What a wave is planned from at `now`, which is raised and cut as a command's: the idle players in the order of the
    /// table. It goes once over the table, and fails only for want of memory.
    pub fn snapshot(&self, alloc: Global, now: u64) -> Result<Snapshot, AllocError>
        ensures { IfOk result (λ made. made ≡ snapshot self.now.setup (past self.now) (stamp_of self.now.entries now)) }
    {
        laws_of_histories();
        let rows = self.people.candidates(alloc, self.book.setup())?;
        Ok(Snapshot {
            n: self.book.len(),
            stamp: self.stamp(now),
            last_wave: self.book.last_wave(),
            running: self.games.running(),
            rule: self.book.setup().rule,
            rows: List::of(rows),
        })
    }

    /// Starts those pairs of a plan whose players are both still idle since its snapshot, and answers how many: where there is
    /// one, it adds a wave entry of pass `pass`, with the stamp of `now` as a command's. The plan is that of a snapshot of the
    /// journal's first `plan.n` entries. Without a pair nothing changes.
    ///
    /// `Early` comes below the first moment for games, `Closed` from the arena's end on, `Full` where there is a pair to
    /// start and there are 8,000,000 entries or there would be more than 200,000 games, `OutOfMemory` where nothing of this
    /// holds, there is a pair to start and no memory for its game or for the entry. Each leaves all as it was.
    ///
    /// It compares two numbers for each pair, and takes all memory that the games that it starts need until they have ended.
    pub fn commit(
        &mut self,
        alloc: Global,
        pass: u32,
        now: u64,
        plan: &Plan,
    ) -> Result<u32, CommitFault>
        requires { IsPlanOf self.old.setup self.old.entries plan.now }
        ensures setup { self.new.setup ≡ self.old.setup }
        ensures answer { Commits self.old.setup self.old.entries pass now plan.now.n self.new.entries result }
        ensures unchanged { OnErr result (self.new ≡ self.old) }
        ensures nobody { result ≡ Ok 0 → self.new ≡ self.old }
        ensures fair { IsFair self.new.setup self.new.entries }
        ensures spare { self.old.spare ≤ self.new.spare + 1 }
    {
        let answer = self.commit_plan(alloc, pass, now, plan);
        self.shows_legal();
        answer
    }

    /// Answers a question at `now`, a moment of the clock in milliseconds, which is raised and cut as a command's. It adds no
    /// entry. `NoGame` comes exactly where a game is asked for that was not begun. `OutOfMemory` comes where there is an answer
    /// and no memory for it, never for a question about the arena, a player or a game, whose answer is found at once.
    pub fn query(&self, alloc: Global, now: u64, q: Query) -> Result<Answer, QueryFault>
        requires { IsQueryOf (length self.now.setup.players) q }
        ensures answer { Tells self.now.setup self.now.entries now q result }
        ensures memory { IsSmall q → result ≢ Err QueryFault.OutOfMemory }
    {
        let t = self.stamp(now);
        match q {
            Query::Arena => Ok(Answer::Arena(self.view(t))),
            Query::Standing(k) => told(self.standing(alloc, k)),
            Query::Teams => told(self.team_table(alloc)),
            Query::Me(p) => Ok(Answer::Me(self.me(p))),
            Query::Game(g) => match self.shown(t, g) {
                Some(view) => Ok(Answer::Game(view)),
                None => Err(QueryFault::NoGame),
            },
            Query::Journal(k) => told(self.journal(alloc, k)),
        }
    }

    /// The table: a row for each player who ever entered, by points, performance and rating, the higher first, and then by
    /// first enter entry. It fails only for want of memory.
    pub fn rows(&self, alloc: Global) -> Result<Vec<Row>, AllocError>
        ensures { IfOk result (λ rows. rows.items ≡ standings self.now.setup (past self.now)) }
    {
        laws_of_histories();
        self.people.rows(alloc)
    }

    /// The table of the teams: a row for each team of the setup, with the points and the performance of its leaders, by points
    /// and performance, the higher first, and then by number. It fails only for want of memory.
    pub fn teams(&self, alloc: Global) -> Result<Vec<TeamRow>, AllocError>
        ensures { IfOk result (λ rows. rows.items ≡ team_standings self.now.setup (past self.now)) }
    {
        self.shows_legal();
        tables_of_legal_lists();
        let rows = self.rows(alloc)?;
        team_table(alloc, self.setup(), rows.as_slice())
    }

    /// The number of entries.
    pub fn len(&self) -> u64
        ensures { result ≡ length self.now.entries }
    {
        self.book.len()
    }

    /// Entry number `i`, from 0, or None where there is none.
    pub fn entry(&self, i: u64) -> Option<Entry>
        ensures { result ≡ slice_get self.now.entries i }
    {
        self.book.entries().get(i as usize).copied()
    }

    /// The setup with which the arena was made.
    pub fn setup(&self) -> &Setup
        ensures { result.now ≡ self.now.setup }
    {
        self.book.setup()
    }

    /// How many games were begun.
    pub fn begun(&self) -> u32
        ensures { result ≡ length (begun self.now.setup (past self.now)) }
    {
        self.games.begun()
    }

    /// The number of the wave's entry that began game number `g`, and the game's players, or None where so many games were not
    /// begun.
    pub fn start(&self, g: u32) -> Option<Start>
        ensures { result ≡ slice_get (past self.now).starts g }
    {
        self.book.starts().get(g as usize).copied()
    }

    /// How many games count: those that ended before the arena's end.
    pub fn finished(&self) -> u32
        ensures { result ≡ length (finished self.now.setup (past self.now)) }
    {
        self.book.keeps();
        legal_lists_in_range();
        self.people.counted().len() as u32
    }

    /// The number of the game that is number `i`, from 0, of the games that count, in the order in which they ended, or None
    /// where there are not so many.
    pub fn counted(&self, i: u32) -> Option<u32>
        ensures { result ≡ option_map (λ (x : EndedGame). x.game.header.id) (slice_get (finished self.now.setup (past self.now)) i) }
    {
        self.people.counted().get(i as usize).copied()
    }

    /// The arena's journal, which lists the games of its waves. It takes no memory.
    pub fn into_journal(self) -> Journal
        ensures { result ≡ journal_of self.setup self.entries }
    {
        let Arena { book, .. } = self;
        book.into_journal()
    }

    /// Does nothing. Its contract tells what holds of every arena.
    pub fn shows_legal(&self)
        ensures good { IsGood self.now.setup }
        ensures legal { IsLegal self.now.setup self.now.entries }
        ensures fair { IsFair self.now.setup self.now.entries }
    {
        legal_lists_are_fair();
        self.book.keeps();
    }

    // The stamp of what is done at this moment.
    fn stamp(&self, now: u64) -> u64
        ensures stamp { result ≡ stamp_of self.now.entries now }
        ensures not_before { last_stamp self.now.entries ≤ result }
        ensures most { result ≤ max_stamp }
    {
        self.book.stamp(now)
    }
}
