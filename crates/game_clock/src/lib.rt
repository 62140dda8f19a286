//! The two clocks of a game. They keep two banks, the beginning of the turn and the number of moves; the layer above relies
//! on these being the sums over the list of berserks and moves that `specs/Banks.antt` and `specs/Clocks.antt` give.
#![tactic(auto)]

mod banks;
mod clock;
#[cfg(test)]
mod tests;

pub use clock::GameClock;
