ghost use Rattle.std.specs.Prelude.{◌≡◌, ◌+◌, ◌≤◌, nat_le, nat_lt, [], ◌∷◌, ◌++◌, length, map, IsOk, OnOk, OnErr};
ghost use Rattle.entries.specs.Limits.{max_entries, max_stamp};
ghost use Rattle.entries.specs.Ranges.{IsGood};
ghost use Rattle.arena_history.specs.Snapshots.{last_wave};
ghost use Rattle.arena_history.specs.Stamps.{last_stamp, stamp_of};
ghost use Rattle.arena_history.specs.Waves.{starts_by};
ghost use Rattle.arena_rules.specs.Commands.{IsCommandOf, CanBeNamed, entry_of, what_of};
ghost use Rattle.arena_rules.specs.Commits.{lacks_room, wave_entry};
ghost use Rattle.arena_rules.specs.Legal.{AllowsWave, IsLegal};
ghost use Rattle.arena_rules.specs.StartLaws.{journal_of};
ghost use Rattle.arena_rules.specs.Verdicts.{verdict};
ghost use Rattle.arena_core.specs.Starting.{start_at};
ghost use Rattle.arena_core.specs.Written.{written_past};

use crate::laws::laws_of_histories;
use arena_rules::{Command, legal_lists, legal_lists_in_range, stamps_of_entries, what_is_allowed};
use conn::List;
use entries::{Entry, Journal, MAX_ENTRIES, MAX_GAMES, MAX_STAMP, Setup, Start, What};
use game_room::Header;
use std::alloc::{AllocError, Global};
use std::marker::Model;

/// A good setup and a legal journal, with the games that its waves began. Contracts see the setup, the entries and for how
/// many entries and games more there is room.
#[derive(Drop)]
pub struct Book {
    setup: Setup,
    entries: Vec<Entry>,
    starts: Vec<Start>,
    // the stamp of the last wave
    last_wave: Option<u64>,
}

impl Model for Book {
    ghost use Rattle.arena_core.specs.Written.{Written};

    ghost Value = { Written };

    ghost use Rattle.std.specs.Prelude.{◌-◌, vec_len, vec_capacity};
    ghost use Rattle.arena_core.specs.Kept.{IsBook};

    ghost view = { λ b. record { setup = b.setup; entries = b.entries.items; spare = vec_capacity b.entries - vec_len b.entries; games_spare = vec_capacity b.starts - vec_len b.starts } };

    ghost invariant = { λ b. IsBook b.setup b.entries.items b.starts.items b.last_wave };
}

impl Book {
    /// A journal without entries. It takes no memory.
    pub fn new(alloc: Global, setup: Setup) -> Book
        requires { IsGood setup }
        ensures setup { result.setup ≡ setup }
        ensures empty { result.entries ≡ [] }
    {
        legal_lists();
        Book {
            setup,
            entries: Vec::new(alloc),
            starts: Vec::new(alloc),
            last_wave: None,
        }
    }

    /// Makes room for at least `k` entries more.
    pub fn reserve(&mut self, k: u32) -> Result<(), AllocError>
        ensures setup { self.new.setup ≡ self.old.setup }
        ensures entries { self.new.entries ≡ self.old.entries }
        ensures room { OnOk result (k ≤ self.new.spare) }
        ensures no_less { self.old.spare ≤ self.new.spare }
        ensures unchanged { OnErr result (self.new ≡ self.old) }
        ensures memory { k ≤ self.old.spare → IsOk result }
    {
        self.entries.reserve(k as usize)
    }

    /// Does nothing. Its contract tells what holds of every book.
    pub fn keeps(&self)
        ensures good { IsGood self.now.setup }
        ensures legal { IsLegal self.now.setup self.now.entries }
    {
        let _ = &self.setup;
    }

    pub fn setup(&self) -> &Setup
        ensures { result.now ≡ self.now.setup }
    {
        &self.setup
    }

    pub fn entries(&self) -> &[Entry]
        ensures { result.now ≡ self.now.entries }
    {
        self.entries.as_slice()
    }

    /// How many entries there are.
    pub fn len(&self) -> u64
        ensures { result ≡ length self.now.entries }
    {
        self.entries.len() as u64
    }

    /// How many entries there are with one more.
    pub fn next_len(&self) -> u64
        ensures { result ≡ length self.now.entries + 1 }
    {
        self.entries.len() as u64 + 1
    }

    /// Whether a game that ends at this stamp counts.
    pub fn counts_at(&self, t: u64) -> bool
        ensures { result ≡ nat_lt t self.now.setup.ends }
    {
        t < self.setup.ends
    }

    /// Whether there are 8,000,000 entries.
    pub fn is_full(&self) -> bool
        ensures { result ≡ nat_le max_entries (length self.now.entries) }
    {
        self.len() >= MAX_ENTRIES
    }

    /// Whether there is no room for one entry more, or not for so many games more.
    pub fn lacks_room(&self, games: usize) -> bool
        ensures { result ≡ lacks_room (written_past self.now) games }
    {
        laws_of_histories();
        legal_lists_in_range();
        self.is_full() || games > (MAX_GAMES as usize).saturating_sub(self.starts.len())
    }

    /// The stamp of what is done at this moment. It may stand behind the entries.
    pub fn stamp(&self, now: u64) -> u64
        ensures stamp { result ≡ stamp_of self.now.entries now }
        ensures not_before { last_stamp self.now.entries ≤ result }
        ensures most { result ≤ max_stamp }
    {
        let last = last_stamp(self.entries.as_slice());
        stamps_of_entries();
        now.max(last).min(MAX_STAMP)
    }

    /// The games that were begun: the entry that began each, and its players.
    pub fn starts(&self) -> &[Start]
        ensures { result.now ≡ (written_past self.now).starts }
    {
        self.starts.as_slice()
    }

    /// The stamp of the last wave, if there was one.
    pub fn last_wave(&self) -> Option<u64>
        ensures { result ≡ last_wave (written_past self.now) }
    {
        self.last_wave
    }

    /// Adds the entry of a command that is not refused.
    pub fn add(&mut self, stamp: u64, pass: u32, c: &Command)
        requires room { 1 ≤ self.old.spare }
        requires not_before { last_stamp self.old.entries ≤ stamp }
        requires most { stamp ≤ max_stamp }
        requires player { IsCommandOf (length self.old.setup.players) c.now }
        requires named { CanBeNamed c.now }
        requires granted { verdict self.old.setup (written_past self.old) stamp c.now ≡ None }
        ensures setup { self.new.setup ≡ self.old.setup }
        ensures entries { self.new.entries ≡ self.old.entries ++ entry_of stamp pass c.now ∷ [] }
        ensures spare { self.old.spare ≡ self.new.spare + 1 }
    {
        laws_of_histories();
        legal_lists();
        what_is_allowed();
        let what = what_of(c);
        self.entries.push_reserved(Entry { stamp, pass, what });
    }

    /// Makes room for one entry and so many games more.
    pub fn reserve_wave(&mut self, games: usize) -> Result<(), AllocError>
        ensures setup { self.new.setup ≡ self.old.setup }
        ensures entries { self.new.entries ≡ self.old.entries }
        ensures room { OnOk result ((1 ≤ self.new.spare) × (games ≤ self.new.games_spare)) }
        ensures no_less { self.old.spare ≤ self.new.spare }
        ensures unchanged { OnErr result (self.new.spare ≡ self.old.spare) }
    {
        self.starts.reserve(games)?;
        self.entries.reserve(1)
    }

    /// Adds the entry of a wave of the plan of the first `n` entries, which may come, with its games.
    pub fn add_wave(&mut self, stamp: u64, pass: u32, n: u64, headers: &[Header])
        requires room { (1 ≤ self.old.spare) × (length headers.now ≤ self.old.games_spare) }
        requires not_before { last_stamp self.old.entries ≤ stamp }
        requires most { stamp ≤ max_stamp }
        requires allowed { AllowsWave self.old.setup (written_past self.old) stamp n }
        requires games { map (start_at (length self.old.entries)) headers.now ≡ starts_by self.old.setup (written_past self.old) (wave_entry stamp pass n) }
        ensures setup { self.new.setup ≡ self.old.setup }
        ensures entries { self.new.entries ≡ self.old.entries ++ wave_entry stamp pass n ∷ [] }
        ensures spare { self.old.spare ≡ self.new.spare + 1 }
    {
        laws_of_histories();
        legal_lists();
        let entry = self.len();
        'listing: for header in headers {
            self.starts.push_reserved(Start {
                entry,
                white: header.white,
                black: header.black,
            });
        }
        self.entries.push_reserved(Entry {
            stamp,
            pass,
            what: What::Wave(n),
        });
        self.last_wave = Some(stamp);
    }

    /// The journal with its games. It takes no memory.
    pub fn into_journal(self) -> Journal
        ensures { result ≡ journal_of self.setup self.entries }
    {
        Journal {
            setup: self.setup,
            version: 2,
            entries: List::of(self.entries),
            starts: List::of(self.starts),
        }
    }
}

// The stamp of the last entry, or 0 where there is none.
fn last_stamp(entries: &[Entry]) -> u64
    ensures { result ≡ last_stamp entries.now }
{
    entries.last().map_or(0, |e| e.stamp)
}

// What an entry says that a command makes.
fn what_of(c: &Command) -> What
    ensures { result ≡ what_of c.now }
{
    match *c {
        Command::Enter(p) => What::Enter(p),
        Command::Pause(p) => What::Pause(p),
        Command::Leave(p) => What::Leave(p),
        Command::Act(p, g, action) => What::Act(p, g, action),
        Command::Tick => What::Tick,
    }
}
