//! Journals replayed from their text: of a legal journal of either version the table is printed, or the journal in version 2, or
//! its games in PGN. The layer above relies on `specs/Replayed.antt`, which says what each text of bytes comes to: one thing
//! alone, a legal journal or the first reason why it is none. `replay`, `upgrade` and `pgn` do what is said there.
#![tactic(auto)]

mod laws;
mod reaching;
mod replay_end;
mod replaying;
mod upgrading;

pub use journal_replay::IllegalCause;
pub use laws::one_fate;
pub use replay_end::ReplayEnd;
pub use replaying::{Wanted, pgn, replay, upgrade};

#[cfg(test)]
mod endless_tests;
#[cfg(test)]
mod tests;
