//! The director of an arena behind its lock. A turn of it ends the games that are due, takes a snapshot, and starts a wave where
//! one is due: each of the three is one turn of its pass at the clock's next moment, and the plan is made between two turns, so
//! that nobody waits for it. `specs/Due.antt` says when a wave is due and when an arena is over, `Steps.antt` what each step does,
//! `Turns.antt` what a whole turn does and answers, and `Gains.antt` what is left of it to see at the pass and at the clock.
#![tactic(auto)]

mod directing;
mod due;
mod starting;
mod steps;
mod turn;

pub use directing::director_turn;
pub use turn::{Turn, TurnFault, WaveEnd};
