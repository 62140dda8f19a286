//! The plain values of an arena: its setup, the entries of its journal, and what a player may do in a game. The layers
//! above rely on the ranges that `specs/Ranges.antt` gives, on the limits of `specs/Limits.antt` and on the names of
//! `specs/Names.antt`.
#![tactic(auto)]

mod action;
mod copying;
mod journal;
mod limits;
mod name;
mod setup;
#[cfg(test)]
mod tests;

pub use action::Action;
pub use journal::{Entry, Journal, Start, What};
pub use limits::{MAX_ENTRIES, MAX_GAMES, MAX_STAMP};
pub use name::is_name;
pub use setup::{Control, Player, Setup};
