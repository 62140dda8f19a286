//! The entries that have been read, and the games that they list.

ghost use Rattle.std.specs.Prelude.{◌≡◌, ◌++◌, [], OnOk, length};
ghost use Rattle.std.specs.List.{cons_option};
ghost use Rattle.journal_text.specs.EntryForms.{no_entries, start_in, starts_in};
ghost use Rattle.journal_text.specs.Reading.{recorded};

use crate::entry_lines::pair_in;
use crate::words::Words;
use conn::List;
use entries::{Entry, Start};
use std::alloc::{AllocError, Global};
use std::marker::Model;

/// Entries, and the games that the waves among them list.
#[derive(Drop)]
pub(crate) struct Record {
    entries: Vec<Entry>,
    starts: Vec<Start>,
}

impl Model for Record {
    ghost use Rattle.journal_text.specs.EntryForms.{Recorded};

    ghost Value = { Recorded };

    ghost view = { λ r. record { entries = r.entries.items; starts = r.starts.items } };
}

impl Record {
    /// No entries.
    pub(crate) fn new(alloc: Global) -> Record
        ensures { result ≡ no_entries }
    {
        Record {
            entries: Vec::new(alloc),
            starts: Vec::new(alloc),
        }
    }

    /// How many entries there are.
    pub(crate) fn len(&self) -> usize
        ensures { result ≡ length self.now.entries }
    {
        self.entries.len()
    }

    /// Puts an entry behind the others, and behind their games those of these pairs.
    pub(crate) fn put(
        &mut self,
        players: u32,
        entry: &Entry,
        pairs: &Words,
    ) -> Result<(), AllocError>
        ensures { OnOk result (self.new ≡ recorded players self.old (entry.now, pairs.now)) }
    {
        let number = self.entries.len() as u64;
        self.entries.extend_from_slice(&[*entry])?;
        put_starts(&mut self.starts, players, number, pairs)
    }

    /// The entries and the games.
    pub(crate) fn into_lists(self) -> (List<Entry>, List<Start>)
        ensures entries { result.0 ≡ self.entries }
        ensures starts { result.1 ≡ self.starts }
    {
        let Record { entries, starts } = self;
        (List::of(entries), List::of(starts))
    }
}

/// The game of a pair, of the entry with this number.
fn start_in(players: u32, entry: u64, word: &[u8]) -> Option<Start>
    ensures { result ≡ start_in players entry word.now }
{
    let (white, black) = pair_in(players, word)?;
    Some(Start {
        entry,
        white,
        black,
    })
}

/// Puts the game behind the others, if there is one.
fn push_some(starts: &mut Vec<Start>, start: Option<Start>) -> Result<(), AllocError>
    ensures { OnOk result (starts.new.items ≡ starts.old.items ++ cons_option start []) }
{
    if let Some(start) = start {
        starts.push(start)?;
    }
    Ok(())
}

/// Puts the games of these pairs of the entry with this number behind the others.
#[tactic(auto, using(crate::proofs::Steps::starts_step))]
fn put_starts(
    starts: &mut Vec<Start>,
    players: u32,
    entry: u64,
    pairs: &Words,
) -> Result<(), AllocError>
    ensures { OnOk result (starts.new.items ≡ starts.old.items ++ starts_in players entry pairs.now) }
{
    let mut left = pairs.again();
    'words: while let Some(word) = left.next() {
        push_some(starts, start_in(players, entry, word))?;
    }
    Ok(())
}
