//! When a game of chess is drawn by repetition, by moves without a pawn move or a capture, or by what is left on the board.
//!
//! The layer above relies on three things. A `Past` is the list of the positions that were pushed since the half count was
//! last 0, each without its counts. Its `count` says how many of them are the last one again, this one among them. It takes
//! no memory but its own 5 KB. The other calls are exactly the definitions of `specs/Material.antt` and the bounds 100 and
//! 150.
#![tactic(auto)]

mod kept;
mod laws;
mod material;
mod packed;
mod past;
mod quiet_moves;
#[cfg(test)]
mod tests;

pub use laws::positions_are_compared;
pub use material::{bare_king, dead_material};
pub use past::Past;
pub use quiet_moves::{fifty, seventy_five};
