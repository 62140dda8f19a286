//! A large journal from a number: players with drawn ratings, and four rounds in each of which a wave pairs all who are idle and
//! each game follows a drawn script to its end. The layer above relies on `specs/Workloads.antt`, which says the journal of each
//! seed and number of players: `generate` gives exactly that journal, which is legal, and
//! `played` the arena of it.
#![tactic(auto)]

mod drafting;
mod generating;
mod numbers;
mod rounds;
mod scripts;
mod setup;
#[cfg(test)]
mod tests;

pub use generating::{generate, played};
