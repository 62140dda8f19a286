ghost use Rattle.std.specs.Prelude.{◌≡◌, ◌≢◌, IfOk, OnOk, Err};
ghost use Rattle.std.specs.String.{string_bytes};
ghost use Rattle.conn.specs.Faults.{Rose};
ghost use Rattle.arena_main.specs.Words.{act_word, journal_word, refusal_word, illegal_word, cause_line};
ghost use Rattle.arena_main.specs.Runs.{Tells, Finishes};

use crate::status::Status;
use arena_rules::Refusal;
use conn::{Sink, write_all};
use game_room::ActRefusal;
use journal_text::JournalCause;
use replay::{IllegalCause, ReplayEnd};
use std::alloc::{AllocError, Global};

/// What hindered the telling of a cause.
#[derive(Debug, Clone, Copy, PartialEq, Eq)]
pub enum TellFault {
    WriteFault,
    OutOfMemory,
}

// The name of a cause for which a text is no journal's.
fn journal_word(cause: JournalCause) -> &'static [u8]
    ensures { result.now ≡ journal_word cause }
{
    match cause {
        JournalCause::Ended => b"Ended",
        JournalCause::Form => b"Form",
        JournalCause::Range => b"Range",
        JournalCause::Repeat => b"Repeat",
        JournalCause::After => b"After",
    }
}

// The name of a cause for which a game refuses an action.
fn act_word(refusal: ActRefusal) -> &'static [u8]
    ensures { result.now ≡ act_word refusal }
{
    match refusal {
        ActRefusal::Over => b"Over",
        ActRefusal::NotYourTurn => b"NotYourTurn",
        ActRefusal::Illegal => b"Illegal",
        ActRefusal::OfferStands => b"OfferStands",
        ActRefusal::NoOffer => b"NoOffer",
        ActRefusal::NoClaim => b"NoClaim",
        ActRefusal::BerserkLate => b"BerserkLate",
        ActRefusal::BerserkTwice => b"BerserkTwice",
        ActRefusal::BerserkZero => b"BerserkZero",
    }
}

// The name of a refusal: of a game's refusal it is that one's own.
fn refusal_word(refusal: Refusal) -> &'static [u8]
    ensures { result.now ≡ refusal_word refusal }
{
    match refusal {
        Refusal::NotEntered => b"NotEntered",
        Refusal::AlreadyIn => b"AlreadyIn",
        Refusal::AlreadyPaused => b"AlreadyPaused",
        Refusal::Left => b"Left",
        Refusal::Closed => b"Closed",
        Refusal::NoGame => b"NoGame",
        Refusal::NotYours => b"NotYours",
        Refusal::Act(refusal) => act_word(refusal),
        Refusal::NothingDue => b"NothingDue",
        Refusal::Full => b"Full",
    }
}

// The name of a cause for which an entry is not allowed: of a refusal it is the refusal's own.
fn illegal_word(cause: IllegalCause) -> &'static [u8]
    ensures { result.now ≡ illegal_word cause }
{
    match cause {
        IllegalCause::StampFalls => b"StampFalls",
        IllegalCause::Refused(refusal) => refusal_word(refusal),
        IllegalCause::Early => b"Early",
        IllegalCause::Closed => b"Closed",
        IllegalCause::WaveNumber => b"WaveNumber",
        IllegalCause::WaveEmpty => b"WaveEmpty",
        IllegalCause::Full => b"Full",
        IllegalCause::PairsDiffer => b"PairsDiffer",
    }
}

// The line that names a line of the journal's text and a cause.
fn cause_line(alloc: Global, line: u64, word: &[u8]) -> Result<Vec<u8>, AllocError>
    ensures { IfOk result (λ text. text.items ≡ cause_line line word.now) }
{
    let front = format!(in alloc; "line {line}: ")?;
    let mut text = front.into_bytes();
    text.extend_from_slice(word)?;
    text.push(b'\n')?;
    Ok(text)
}

// Writes the line of a cause.
fn tell<K: Sink>(alloc: Global, sink: &mut K, line: u64, word: &[u8]) -> Result<(), TellFault>
    ensures told { Tells (K.held sink.old) (K.held sink.new) (cause_line line word.now) result }
    ensures fault { result ≡ Err TellFault.WriteFault
        → Rose (K.faults sink.old) (K.faults sink.new) }
{
    let Ok(text) = cause_line(alloc, line, word) else {
        return Err(TellFault::OutOfMemory);
    };
    match write_all(sink, &text) {
        Ok(()) => Ok(()),
        Err(_) => Err(TellFault::WriteFault),
    }
}

/// What a run does behind a replay that ended so: it writes the line of the cause where the text is no legal journal's.
pub fn finish<K: Sink>(alloc: Global, sink: &mut K, end: ReplayEnd) -> Status
    ensures finishes { Finishes (K.held sink.old) (K.held sink.new) end result }
    ensures untouched { end ≡ ReplayEnd.WriteFault → sink.new ≡ sink.old }
    ensures fault { end ≢ ReplayEnd.WriteFault → result ≡ Status.WriteFault
        → Rose (K.faults sink.old) (K.faults sink.new) }
{
    match end {
        ReplayEnd::Done => Status::Done,
        ReplayEnd::BadJournal(fault) => {
            match tell(alloc, sink, fault.line, journal_word(fault.cause)) {
                Ok(()) => Status::BadJournal,
                Err(TellFault::WriteFault) => Status::WriteFault,
                Err(TellFault::OutOfMemory) => Status::OutOfMemory,
            }
        }
        ReplayEnd::Illegal { line, cause } => {
            match tell(alloc, sink, line, illegal_word(cause)) {
                Ok(()) => Status::Illegal,
                Err(TellFault::WriteFault) => Status::WriteFault,
                Err(TellFault::OutOfMemory) => Status::OutOfMemory,
            }
        }
        ReplayEnd::TooLong => Status::TooLong,
        ReplayEnd::ReadFault => Status::ReadFault,
        ReplayEnd::WriteFault => Status::WriteFault,
        ReplayEnd::OutOfMemory => Status::OutOfMemory,
    }
}
