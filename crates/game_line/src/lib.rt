//! What is said of a line of moves from the start of a game: the positions along it, how often the last one has occurred, and
//! for how many moves at its end no pawn has moved and nothing was captured.
//!
//! The definitions stand in `specs/`. The layer above relies on the laws of this crate: public functions that do nothing and
//! ensure what holds of every line. The central one says that to count repetitions it is enough to keep the positions from
//! the last pawn move or capture on.
#![tactic(auto)]

mod laws;
#[cfg(test)]
mod tests;

pub use laws::{
    half_counts_are_quiet, kept_positions, lines_of_moves, nothing_is_undone, repetitions_are_kept,
    what_is_repeated,
};
