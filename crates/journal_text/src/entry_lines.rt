//! The lines of a journal's entries.

ghost use Rattle.std.specs.Prelude.{◌≡◌, ◌+◌, ◌<◌, ◌≤◌, ◌^◌, [], IfOk, IsTrue, Ok, length};
ghost use Rattle.journal_text.specs.Lines.{lines_of, words_of};
ghost use Rattle.journal_text.specs.EntryForms.{deed_fits, pair_in, pairs_fit, entry_fits, what_made, entry_made, entry_in, no_entries};
ghost use Rattle.journal_text.specs.Reading.{InEntries, Behind, Shows, GoesOn, at_line, journal_made, record_in, run};

use crate::entry_form::{Deed, Said, entry_form, pair_form};
use crate::fault::{JournalCause, ReadJournalFault, fault_at};
use crate::head::Head;
use crate::lines::{is_word, next_line};
use crate::record::Record;
use crate::words::Words;
use conn::Text;
use entries::{Entry, MAX_ENTRIES, MAX_GAMES, MAX_STAMP, Player, What};
use std::alloc::Global;

/// Whether the numbers of what an entry did are in their ranges, where there are so many players.
fn deed_fits(players: u32, deed: &Deed) -> bool
    ensures { result ≡ deed_fits players deed.now }
{
    match deed {
        Deed::Enter(player) | Deed::Pause(player) | Deed::Leave(player) => {
            *player < u64::from(players)
        }
        Deed::Act(player, game, _) => {
            *player < u64::from(players) && *game < u64::from(MAX_GAMES)
        }
        Deed::Tick => true,
        Deed::Wave(n) => *n <= MAX_ENTRIES,
    }
}

/// What an entry did, whose numbers are in their ranges.
fn what_made(players: u32, deed: Deed) -> What
    requires { IsTrue (deed_fits players deed) }
    ensures { result ≡ what_made deed }
{
    match deed {
        Deed::Enter(player) => What::Enter(player as u32),
        Deed::Pause(player) => What::Pause(player as u32),
        Deed::Leave(player) => What::Leave(player as u32),
        Deed::Act(player, game, did) => What::Act(player as u32, game as u32, did),
        Deed::Tick => What::Tick,
        Deed::Wave(n) => What::Wave(n),
    }
}

/// The two players of a word `W-B`, where they are two of so many.
pub(crate) fn pair_in(players: u32, word: &[u8]) -> Option<(u32, u32)>
    ensures { result ≡ pair_in players word.now }
{
    let (white, black) = pair_form(word)?;
    if white < u64::from(players) && black < u64::from(players) {
        Some((white as u32, black as u32))
    } else {
        None
    }
}

/// Whether there are at most 500 pairs, all of so many players.
fn pairs_fit(players: u32, words: &Words) -> bool
    ensures { result ≡ pairs_fit players words.now }
{
    let mut left = words.again();
    let mut count = 0usize;
    'words: while let Some(word) = left.next() {
        if count == 500 || pair_in(players, word).is_none() {
            return false;
        }
        count += 1;
    }
    true
}

/// Whether an entry's values are in their ranges, where there are so many players and entries before it.
fn entry_fits(players: u32, entries: usize, said: &Said, words: &Words) -> bool
    ensures { result ≡ entry_fits players entries (said.now, words.now) }
{
    said.stamp <= MAX_STAMP
        && said.pass <= 255
        && deed_fits(players, &said.deed)
        && pairs_fit(players, words)
        && (entries as u64) < MAX_ENTRIES
}

/// Takes the entry of its line, of so many players and behind so many entries, and leaves the pairs that it lists.
#[tactic(auto, unfolding(crate::specs::EntryForms::entry_in))]
fn entry(
    version: u32,
    players: u32,
    entries: usize,
    words: &mut Words,
) -> Result<Entry, JournalCause>
    ensures is { Shows (λ e. (e, words.new)) result (entry_in version players entries words.old) }
    ensures room { IfOk result (λ _. entries < 8000000) }
{
    let said = entry_form(version, words).ok_or(JournalCause::Form)?;
    if entry_fits(players, entries, &said, words) {
        Ok(Entry {
            stamp: said.stamp,
            pass: said.pass as u32,
            what: what_made(players, said.deed),
        })
    } else {
        Err(JournalCause::Range)
    }
}

/// Puts the entry of its line, which has this number, behind the others.
fn read_entry(
    record: &mut Record,
    version: u32,
    players: u32,
    number: u64,
    line: &[u8],
) -> Result<(), ReadJournalFault>
    ensures { GoesOn (λ _. Ok «record».new) result
        (at_line number (record_in version players «record».old (words_of line.now))) }
{
    let mut words = Words::of(line);
    match entry(version, players, record.len(), &mut words) {
        Ok(entry) => {
            record.put(players, &entry, &words)?;
            Ok(())
        }
        Err(cause) => Err(fault_at(number, cause).into()),
    }
}

/// The entries and the games that they list up to `end`, behind this head, these teams and these players, the number of the
/// line behind it, and the text from there on.
#[tactic(auto, using(crate::proofs::Steps::entries_step), unfolding(crate::specs::Reading::step))]
pub(crate) fn entries_of<'a>(
    alloc: Global,
    head: &Head,
    teams: &[Text],
    players: &[Player],
    first: u64,
    text: &'a [u8],
) -> Result<(Record, u64, &'a [u8]), ReadJournalFault>
    requires few { length players.now ≤ 1000 }
    requires placed { first + length text.now ≤ 2 ^ 63 }
    ensures { GoesOn (λ r. run (Behind (journal_made head.now teams.now players.now r.0)) r.1 (lines_of r.2.now)) result
        (run (InEntries head.now teams.now players.now no_entries) first (lines_of text.now)) }
{
    let count = players.len() as u32;
    let mut record = Record::new(alloc);
    let mut number = first;
    let mut rest = text;
    'lines: loop {
        let (line, after) = next_line(rest, number)?;
        if is_word(line, b"end") {
            return Ok((record, number + 1, after));
        }
        read_entry(&mut record, head.version, count, number, line)?;
        number += 1;
        rest = after;
    }
}
