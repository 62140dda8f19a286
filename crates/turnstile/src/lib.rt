//! A ticket lock round one value that has a history: a list of entries, each with the number of the pass that added it.
//! Passes take turns. Whoever has the turn has the value, finds in it all that he had seen and no further entry of his own
//! number, and gives it back with none but his own entries added. The layer above may rely on this for any number of
//! threads; it holds for any value whose type says what its history is.
//!
//! A turnstile may be shared between threads and a pass sent to one where the value may be sent. A caller that starts
//! threads answers the goals of the thread call by the lemmas `turnstile_sync`, `turnstile_send` and `pass_send` of
//! `proofs.Crossing`, at the row of its value; `proofs/tests/write_all` is such a caller.
#![tactic(auto)]

mod historied;
mod pass;
mod rule;
mod steps;
mod turnstile;
mod view;
mod waiters;

pub use historied::Historied;
pub use pass::Pass;
pub use turnstile::Turnstile;

#[cfg(test)]
mod tests;
