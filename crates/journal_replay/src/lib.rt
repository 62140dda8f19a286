//! A journal replayed: each entry is tried behind those before it, and added to an arena or refused with the first cause that
//! holds of it. `specs/Causes.antt` says which entry is not allowed and why, and `specs/Legal.antt` which journals are legal. The
//! layers above rely on `arena_of`, which gives the arena of exactly the legal journals and of every other journal the first entry
//! that is not allowed, and on the laws of `legal_journals`.
#![tactic(auto)]

mod adding;
mod illegal;
mod laws;
mod listing;
mod plans;
mod replaying;
mod waves;

pub use illegal::{IllegalCause, ReplayFault};
pub use laws::legal_journals;
pub use replaying::arena_of;

#[cfg(test)]
mod tests;
