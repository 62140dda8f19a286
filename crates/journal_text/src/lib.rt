//! The text of a journal, read and written exactly, in both versions: the journal that a text spells, or the first line that
//! cannot stand and why. The layers above rely on two pages. `specs/Text.antt` has the lines of a journal: what is read or
//! written has this text, byte for byte, and what has it is read unless memory runs out. `specs/Reading.antt` says of each
//! line what it adds to what the lines before it have said, or which cause holds of it first.
#![tactic(auto)]

mod entry_form;
mod entry_lines;
mod fault;
mod head;
mod lines;
mod names;
mod read;
mod record;
mod words;
mod write;

pub use entry_form::move_of;
pub use fault::{JournalCause, JournalFault, ReadJournalFault};
pub use read::{
    first_that_cannot_stand, journal_or_fault, one_journal, place_of_entry, read_journal,
};
pub use write::{write_entry, write_journal};

#[cfg(test)]
mod tests;
