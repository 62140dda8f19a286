//! What an arena keeps of each of its players, and never makes anew: his counted games, with his line of the table, and what
//! the next snapshot tells of the games that began for him and of the waves that left him alone.
//!
//! The layer above relies on three things. `Scores` stands for the counted games and for the players who entered
//! (`specs/Accounts.antt`): its lines are those that `arena_history` gives them, and a counted game moves two of them.
//! `Pairings` stands for the games that began and for the waves that left somebody alone (`specs/Facts.antt`). From the two and
//! the seats `candidates` makes the rows of a snapshot in one walk over the table. Nothing takes memory but making them and
//! asking for a list.
#![tactic(auto)]

mod account;
mod facts;
mod laws;
mod pairings;
mod scores;
mod snapshot;

pub use facts::PairingFacts;
pub use laws::waves_are_entries;
pub use pairings::Pairings;
pub use scores::Scores;
pub use snapshot::candidates;

#[cfg(test)]
mod tests;
