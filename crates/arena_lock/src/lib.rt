//! An arena behind a lock, for as many threads as it has passes. Each call that asks something of the arena takes exactly one
//! turn of its pass: it finds a history that goes on behind all that the pass had seen, and answers and does what the arena
//! would at that history, whatever the other passes did between two turns. `specs/Turns.antt` says what a turn is and what each
//! call does in it. The lock itself is private, so nothing else can be done inside a turn, and no turn lasts longer than a call.
#![tactic(auto)]

mod lobby;

pub use lobby::{Lobby, Pass};
