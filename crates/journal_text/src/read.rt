ghost use Rattle.std.specs.Prelude.{◌≡◌, ◌-◌, ◌++◌, ℕ, List, IfOk, IfErr, OnOk, MatchResult, MatchOption, Some, None, map, slice_get};
ghost use Rattle.entries.specs.Ranges.{IsWritable, listed_at};
ghost use Rattle.entries.specs.declared.journal.Entry.{Entry};
ghost use Rattle.entries.specs.declared.journal.Journal.{Journal};
ghost use Rattle.journal_text.specs.declared.fault.JournalFault.{JournalFault};
ghost use Rattle.journal_text.specs.Lines.{spaced, lines_of};
ghost use Rattle.journal_text.specs.Text.{Spells, text_of, entry_words, pair_word, line_of_entry};
ghost use Rattle.journal_text.specs.Beginnings.{IsFirst};
ghost use Rattle.journal_text.specs.Reading.{GoesOn, IsFault, fault_of, journal_in};

use crate::entry_lines::entries_of;
use crate::fault::{JournalCause, ReadJournalFault, fault_at};
use crate::head::head_of;
use crate::names::names_of;
use conn::List;
use entries::{Journal, Setup};
use std::alloc::Global;

/// The journal whose text the bytes are, of version 1 or 2: a good setup, entries in range, and in version 2 the games that
/// each wave started. `Bad` comes exactly where they are the text of no journal, unless memory runs out first, and names the
/// first line that cannot stand and the first cause that holds of it. The cost is that of looking at each byte, and of
/// comparing each player's name with those before.
pub fn read_journal(alloc: Global, bytes: &[u8]) -> Result<Journal, ReadJournalFault>
    // What is read has this text, byte for byte.
    ensures read { IfOk result (Spells bytes.now) }

    // What has this text is read, unless memory runs out.
    ensures only { (j : Journal) → Spells bytes.now j
        → MatchResult result (λ read. read ≡ j) (λ fault. fault ≡ ReadJournalFault.OutOfMemory) }

    // What is refused has just this first fault. What is read has none.
    ensures refused { IfErr result (IsFault bytes.now) }
    ensures sound { OnOk result (fault_of bytes.now ≡ None) }
{
    journal_of(alloc, bytes)
}

/// Two journals that have one text are one journal.
pub fn one_journal()
    ensures { (text : List ℕ) (a b : Journal) → Spells text a → Spells text b → a ≡ b }
{}

/// Each text that has no fault is a journal's, and no text that has a fault is.
pub fn journal_or_fault()
    ensures { (text : List ℕ) → MatchOption (fault_of text) ((j : Journal) × Spells text j) (λ _. (j : Journal) → ¬ Spells text j) }
{}

/// The first fault of a text is of its first line that cannot stand: some journal's text begins with the lines before it,
/// and where it is a whole line none begins with it too.
pub fn first_that_cannot_stand()
    ensures { (text : List ℕ) (fault : JournalFault) → fault_of text ≡ Some fault → IsFirst text fault }
{}

/// The line of an entry, with the games that it lists, stands in a journal's text where `line_of_entry` says, lines counting
/// from 1.
pub fn place_of_entry()
    ensures { (j : Journal) (place : ℕ) (e : Entry) → IsWritable j → slice_get j.entries place ≡ Some e
        → slice_get (lines_of (text_of j)) (line_of_entry j place - 1) ≡ Some (spaced (entry_words e ++ map pair_word (listed_at place j.starts))) }
{}

/// The journal of the whole text.
#[tactic(auto, using(crate::proofs::Steps::behind_run))]
fn journal_of(alloc: Global, text: &[u8]) -> Result<Journal, ReadJournalFault>
    ensures { GoesOn (λ journal. Ok journal) result (journal_in text.now) }
{
    let (head, number, rest) = head_of(text)?;
    let (teams, players, number, rest) = names_of(alloc, &head, number, rest)?;
    let (record, number, rest) = entries_of(alloc, &head, &teams, &players, number, rest)?;
    if !rest.is_empty() {
        return Err(fault_at(number, JournalCause::After).into());
    }
    let (entries, starts) = record.into_lists();
    Ok(Journal {
        setup: Setup {
            control: head.control,
            starts: head.starts,
            ends: head.ends,
            wave_ms: head.wave_ms,
            leaders: head.leaders,
            rule: head.rule,
            teams: List::of(teams),
            players: List::of(players),
        },
        version: head.version,
        entries,
        starts,
    })
}
